//! What a lookup of the same packet makes of two states.
ghost use Rattle.std.specs.{Prelude.◌≡◌, Prelude.IfNone, Prelude.IfOk, Prelude.IfSome, List.Contains};
ghost use Rattle.of_machine.specs.TheWorld.{TheWorld};
ghost use Rattle.of_table.specs.Entries.{flows_of};
ghost use Rattle.of_symbolic.specs.{Branches.flows_listed, declared.branching.Branch.Branch as ABranch};
ghost use Rattle.of_symbolic_run.specs.Cases.{AreCases, AreCasesOf, AsksUnknownOf, IsBranchOf, IsCaseOf, IsTableOf};
ghost use Rattle.of_symbolic_run.specs.{declared.advance.Advance.TheVariants.Lookup, JointCases.first_case, JointCases.first_cases, JointCases.second_case, JointCases.second_cases};
ghost use Rattle.of_symbolic_run.specs.{NextStates.AreNextStates, States.AreTaskCopies, States.answer_to_tasks};

use crate::dividing::{entry_named, keep_listed, listed_entries};
use crate::frame_set::FrameSet;
use crate::state::SymbolicState;
use of_symbolic::{Branch, branches};
use of_table::{Entries, Entry};
use std::alloc::{AllocError, Global};

/// What two states become for some of their frames.
#[derive(Drop)]
pub struct JointCase<'a> {
    pub frames: FrameSet,
    pub first: SymbolicState<'a>,
    pub second: SymbolicState<'a>,
}

// The case of a branch.
fn joint_case_of<'a>(
    alloc: Global,
    listed: &[&'a Entry],
    first: &SymbolicState<'a>,
    second: &SymbolicState<'a>,
    frames: &FrameSet,
    table: u8,
    branch: Branch,
) -> Result<JointCase<'a>, AllocError>
    requires first { answer_to_tasks first.now.tasks.items ≡ Lookup table }
    requires second { answer_to_tasks second.now.tasks.items ≡ Lookup table }
    requires own { IsBranchOf frames.now.part branch }
    ensures first { IfOk result (λ c. IsCaseOf table (flows_listed listed.now) frames.now first.now branch (first_case c)) }
    ensures second { IfOk result (λ c. IsCaseOf table (flows_listed listed.now) frames.now second.now branch (second_case c)) }
{
    let first = first.entered(alloc, table, entry_named(listed, branch.entry))?;
    let second = second.entered(alloc, table, entry_named(listed, branch.entry))?;
    let frames = FrameSet {
        part: branch.part,
        inner: frames.inner,
        ttl_from: frames.ttl_from,
        ttl_to: frames.ttl_to,
    };
    Ok(JointCase {
        frames,
        first,
        second,
    })
}

// Those of branches.
fn joint_cases_of<'a>(
    alloc: Global,
    listed: &[&'a Entry],
    first: &SymbolicState<'a>,
    second: &SymbolicState<'a>,
    frames: &FrameSet,
    table: u8,
    branches: Vec<Branch>,
) -> Result<Vec<JointCase<'a>>, AllocError>
    requires first { answer_to_tasks first.now.tasks.items ≡ Lookup table }
    requires second { answer_to_tasks second.now.tasks.items ≡ Lookup table }
    requires each { (b : ABranch) → Contains branches.items b → IsBranchOf frames.now.part b }
    ensures first { IfOk result (λ cases. AreCasesOf table (flows_listed listed.now) frames.now first.now branches.items (first_cases cases.items)) }
    ensures second { IfOk result (λ cases. AreCasesOf table (flows_listed listed.now) frames.now second.now branches.items (second_cases cases.items)) }
{
    let mut cases = Vec::new(alloc);
    for branch in branches {
        cases.push(joint_case_of(alloc, listed, first, second, frames, table, branch)?)?;
    }
    Ok(cases)
}

/// A lookup of the first packet of two states in a table, if both have the same packets: it divides the frames of both by the entry that they hit
/// (OpenFlow 1.3.5, 5.3).
///
/// None if the match of an entry asks what is not known of the packet.
pub fn look_up_both<'a>(
    alloc: Global,
    entries: Entries<'a>,
    first: &SymbolicState<'a>,
    second: &SymbolicState<'a>,
    frames: &FrameSet,
    table: u8,
) -> Result<Option<Vec<JointCase<'a>>>, AllocError>
    requires lookup { answer_to_tasks first.now.tasks.items ≡ Lookup table }
    requires same { AreTaskCopies first.now.tasks.items second.now.tasks.items }
    ensures first { IfOk result (λ found. IfSome found (λ cases. (w : TheWorld) → IsTableOf w table (flows_of entries.entry) →
        AreCases w frames.now first.now (first_cases cases.items))) }
    ensures second { IfOk result (λ found. IfSome found (λ cases. (w : TheWorld) → IsTableOf w table (flows_of entries.entry) →
        AreCases w frames.now second.now (second_cases cases.items))) }
    ensures next_first { IfOk result (λ found. IfSome found (λ cases. (w : TheWorld) → IsTableOf w table (flows_of entries.entry) →
        AreNextStates w first.now (first_cases cases.items))) }
    ensures next_second { IfOk result (λ found. IfSome found (λ cases. (w : TheWorld) → IsTableOf w table (flows_of entries.entry) →
        AreNextStates w second.now (second_cases cases.items))) }
    ensures none { IfOk result (λ found. IfNone found (AsksUnknownOf frames.now.inner first.now.tasks.items (flows_of entries.entry))) }
{
    let listed = listed_entries(alloc, entries)?;
    let packet = &first.tasks[0].packet;
    packet.rewrites.known();
    let overlay = packet.rewrites.overlay(alloc, frames.inner)?;
    match branches(alloc, &listed, &overlay, packet.metadata, &frames.part)? {
        None => Ok(None),
        Some(mut branches) => {
            keep_listed(&mut branches, listed.len());
            let cases = joint_cases_of(alloc, &listed, first, second, frames, table, branches)?;
            Ok(Some(cases))
        }
    }
}
