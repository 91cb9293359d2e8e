//! What a lookup makes of a state.
ghost use Rattle.std.specs.Prelude.{◌≡◌, filter, map, IfOk, IfSome, IfNone};
ghost use Rattle.std.specs.List.{Contains};
ghost use Rattle.of_machine.specs.TheWorld.{TheWorld};
ghost use Rattle.of_table.specs.Entries.{flows_of};
ghost use Rattle.of_symbolic.specs.{Branches.flows_listed, declared.branching.Branch.Branch as ABranch};
ghost use Rattle.of_symbolic_run.specs.Cases.{AreCases, AreCasesOf, AsksUnknownOf, IsBranchOf, IsCaseOf, IsTableOf, flow_named, found_flow, is_listed};
ghost use Rattle.of_symbolic_run.specs.{declared.advance.Advance.TheVariants.Lookup, NextStates.AreNextStates, States.answer_to_tasks};

use crate::frame_set::FrameSet;
use crate::state::SymbolicState;
use of_symbolic::{Branch, branches};
use of_table::{Entries, Entry};
use std::alloc::{AllocError, Global};

/// What a state becomes for some of its frames.
#[derive(Drop)]
pub struct Case<'a> {
    pub frames: FrameSet,
    pub state: SymbolicState<'a>,
}

/// The entries of a walk.
pub fn listed_entries<'a>(alloc: Global, entries: Entries<'a>) -> Result<Vec<&'a Entry>, AllocError>
    ensures { IfOk result (λ listed. map (λ entry. entry.now) listed.items ≡ entries.entry) }
{
    let mut listed = Vec::new(alloc);
    for entry in entries {
        listed.push(entry)?;
    }
    Ok(listed)
}

/// The entry at a place, with its number, which is the place.
pub fn entry_named<'a>(listed: &[&'a Entry], place: Option<usize>) -> Option<(usize, &'a Entry)>
    ensures { found_flow result ≡ flow_named (flows_listed listed.now) place }
{
    match place {
        None => None,
        Some(place) if place < listed.len() => Some((place, listed[place])),
        Some(_) => None,
    }
}

fn is_inside(entry: Option<usize>, most: usize) -> bool
    ensures { result ≡ is_listed most entry }
{
    match entry {
        None => true,
        Some(place) => place < most,
    }
}

/// Keeps the branches of a list of so many entries, and that of a miss: no packet hits another entry.
pub fn keep_listed(branches: &mut Vec<Branch>, most: usize)
    ensures { branches.new.items ≡ filter (λ b. is_listed most b.entry) branches.old.items }
{
    branches.retain(|branch| is_inside(branch.entry, most));
}

// The case of a branch.
fn case_of<'a>(
    alloc: Global,
    listed: &[&'a Entry],
    state: &SymbolicState<'a>,
    frames: &FrameSet,
    table: u8,
    branch: Branch,
) -> Result<Case<'a>, AllocError>
    requires first { answer_to_tasks state.now.tasks.items ≡ Lookup table }
    requires own { IsBranchOf frames.now.part branch }
    ensures { IfOk result (IsCaseOf table (flows_listed listed.now) frames.now state.now branch) }
{
    let state = state.entered(alloc, table, entry_named(listed, branch.entry))?;
    let frames = FrameSet {
        part: branch.part,
        inner: frames.inner,
        ttl_from: frames.ttl_from,
        ttl_to: frames.ttl_to,
    };
    Ok(Case { frames, state })
}

// Those of branches.
fn cases_of<'a>(
    alloc: Global,
    listed: &[&'a Entry],
    state: &SymbolicState<'a>,
    frames: &FrameSet,
    table: u8,
    branches: Vec<Branch>,
) -> Result<Vec<Case<'a>>, AllocError>
    requires first { answer_to_tasks state.now.tasks.items ≡ Lookup table }
    requires each { (b : ABranch) → Contains branches.items b → IsBranchOf frames.now.part b }
    ensures { IfOk result (λ cases. AreCasesOf table (flows_listed listed.now) frames.now state.now branches.items cases.items) }
{
    let mut cases = Vec::new(alloc);
    for branch in branches {
        cases.push(case_of(alloc, listed, state, frames, table, branch)?)?;
    }
    Ok(cases)
}

// The frames by the entry that they hit.
fn cases_by_entry<'a>(
    alloc: Global,
    entries: Entries<'a>,
    state: &SymbolicState<'a>,
    frames: &FrameSet,
    table: u8,
) -> Result<Option<Vec<Case<'a>>>, AllocError>
    requires first { answer_to_tasks state.now.tasks.items ≡ Lookup table }
    ensures some { IfOk result (λ found. IfSome found (λ cases. (w : TheWorld) → IsTableOf w table (flows_of entries.entry) →
        AreCases w frames.now state.now cases.items)) }
    ensures next { IfOk result (λ found. IfSome found (λ cases. (w : TheWorld) → IsTableOf w table (flows_of entries.entry) →
        AreNextStates w state.now cases.items)) }
    ensures none { IfOk result (λ found. IfNone found (AsksUnknownOf frames.now.inner state.now.tasks.items (flows_of entries.entry))) }
{
    let listed = listed_entries(alloc, entries)?;
    let packet = &state.tasks[0].packet;
    packet.rewrites.known();
    let overlay = packet.rewrites.overlay(alloc, frames.inner)?;
    match branches(alloc, &listed, &overlay, packet.metadata, &frames.part)? {
        None => Ok(None),
        Some(mut branches) => {
            keep_listed(&mut branches, listed.len());
            let cases = cases_of(alloc, &listed, state, frames, table, branches)?;
            Ok(Some(cases))
        }
    }
}

/// A lookup of the first packet in a table divides the frames by the entry that they hit (OpenFlow 1.3.5, 5.3).
///
/// None if the match of an entry asks what is not known of the packet.
pub fn look_up<'a>(
    alloc: Global,
    entries: Entries<'a>,
    state: &SymbolicState<'a>,
    frames: &FrameSet,
    table: u8,
) -> Result<Option<Vec<Case<'a>>>, AllocError>
    requires first { answer_to_tasks state.now.tasks.items ≡ Lookup table }
    ensures some { IfOk result (λ found. IfSome found (λ cases. (w : TheWorld) → IsTableOf w table (flows_of entries.entry) →
        AreCases w frames.now state.now cases.items)) }
    ensures next { IfOk result (λ found. IfSome found (λ cases. (w : TheWorld) → IsTableOf w table (flows_of entries.entry) →
        AreNextStates w state.now cases.items)) }
    ensures none { IfOk result (λ found. IfNone found (AsksUnknownOf frames.now.inner state.now.tasks.items (flows_of entries.entry))) }
{
    let found = cases_by_entry(alloc, entries, state, frames, table)?;
    Ok(found)
}
