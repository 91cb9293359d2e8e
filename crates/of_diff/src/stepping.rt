//! The steps of a pair of states.
ghost use Rattle.std.specs.Prelude.{◌≡◌, ℕ, IfOk, IfSome};
ghost use Rattle.of_datapath.specs.{Datapath.world_of, Numbers.forwarding_of};
ghost use Rattle.of_diff.specs.{Changing.IsAgreement, SoFar.NextIs};
ghost use Rattle.of_alike.specs.{SamePorts.SamePorts, declared.alike.Compared.Compared as WhatIsCompared};
ghost use Rattle.of_symbolic_run.specs.{Received.AreReceived, States.answer_to_tasks, declared.advance.Advance.TheVariants.Lookup as WantsLookup};

use crate::agreement::Agreement;
use crate::changing::changed_pairs;
use crate::cutting::{compare_ended, compare_rests};
use crate::joining::joint_pairs;
use crate::pair::{Next, Pair, step_first, step_second};
use crate::turns::{Turn, are_at_table_before, next_turn};
use of_alike::{Compared, go_on_alike, have_equal_tasks, have_same_entries, leave_alike};
use of_classifier::Lookup;
use of_datapath::Datapath;
use of_wire::limits::TABLES;
use std::alloc::{AllocError, Global};

// Both runs come to a lookup of the same packets in the same table. If the entries say the same, both hit the same ones.
fn look_up_jointly<'a, L: Lookup>(
    alloc: Global,
    first: &'a Datapath<L>,
    second: &'a Datapath<L>,
    pair: Pair<'a>,
    table: u8,
) -> Result<Next<'a>, AllocError>
    requires { answer_to_tasks pair.first.tasks.items ≡ WantsLookup table }
    ensures { IfOk result (λ next. (c : WhatIsCompared) (steps : ℕ) →
        NextIs c (world_of (forwarding_of first.now)) (world_of (forwarding_of second.now)) steps pair.entry next) }
{
    if table < TABLES
        && have_equal_tasks(&pair.first.tasks, &pair.second.tasks)
        && have_same_entries(first.entries(table), second.entries(table))
    {
        if let Some(pairs) = joint_pairs(alloc, first, second, &pair, table)? {
            return Ok(Next::Pairs(pairs));
        }
    }
    step_first(alloc, first, pair)
}

// Both runs come to a lookup in the same table. If the tables after it do the same, only frames that match a changed entry are divided.
fn look_up_in_both<'a, L: Lookup>(
    alloc: Global,
    first: &'a Datapath<L>,
    second: &'a Datapath<L>,
    compared: Compared,
    agreement: &Agreement,
    pair: Pair<'a>,
    table: u8,
) -> Result<Next<'a>, AllocError>
    requires ports { SamePorts first.now.ports second.now.ports }
    requires agreement { IsAgreement (forwarding_of first.now) (forwarding_of second.now) agreement.now }
    requires lookup { answer_to_tasks pair.first.tasks.items ≡ WantsLookup table }
    ensures { IfOk result (λ next. (steps : ℕ) →
        NextIs compared (world_of (forwarding_of first.now)) (world_of (forwarding_of second.now)) steps pair.entry next) }
{
    first.known_world();
    if agreement.changed.are_few()
        && are_at_table_before(&pair.first, &pair.second, agreement.from)
        && leave_alike(
            compared,
            first.port_list(),
            &pair.frames,
            &pair.first.emitted,
            &pair.second.emitted,
        )
    {
        if let Some(pairs) = changed_pairs(alloc, first, second, agreement, &pair)? {
            return Ok(Next::Pairs(pairs));
        }
    }
    look_up_jointly(alloc, first, second, pair, table)
}

// A step of one of the runs, or what both come to.
fn step_one<'a, L: Lookup>(
    alloc: Global,
    first: &'a Datapath<L>,
    second: &'a Datapath<L>,
    compared: Compared,
    pair: Pair<'a>,
    steps: usize,
) -> Result<Next<'a>, AllocError>
    requires ports { SamePorts first.now.ports second.now.ports }
    requires received { AreReceived (world_of (forwarding_of first.now)).ports pair.frames }
    ensures { IfOk result (NextIs compared (world_of (forwarding_of first.now)) (world_of (forwarding_of second.now)) steps pair.entry) }
{
    match next_turn(&pair.first.tasks, &pair.second.tasks) {
        Turn::Ended => compare_ended(alloc, first, second, compared, pair, steps),
        Turn::First | Turn::Both(_) => step_first(alloc, first, pair),
        Turn::Second => step_second(alloc, second, pair),
    }
}

/// A step of one of the runs, or what both come to. A pair whose runs go on alike is not followed.
pub fn step_pair<'a, L: Lookup>(
    alloc: Global,
    first: &'a Datapath<L>,
    second: &'a Datapath<L>,
    compared: Compared,
    agreement: &Option<Agreement>,
    pair: Pair<'a>,
    steps: usize,
) -> Result<Next<'a>, AllocError>
    requires ports { SamePorts first.now.ports second.now.ports }
    requires received { AreReceived (world_of (forwarding_of first.now)).ports pair.frames }
    requires agreement { IfSome agreement.now (IsAgreement (forwarding_of first.now) (forwarding_of second.now)) }
    ensures { IfOk result (NextIs compared (world_of (forwarding_of first.now)) (world_of (forwarding_of second.now)) steps pair.entry) }
{
    let Some(agreement) = agreement else {
        return step_one(alloc, first, second, compared, pair, steps);
    };
    let from = agreement.from;
    if go_on_alike(&pair.first, &pair.second, from) {
        return compare_rests(alloc, first, second, compared, pair, from, steps);
    }
    if let Turn::Both(table) = next_turn(&pair.first.tasks, &pair.second.tasks) {
        return look_up_in_both(alloc, first, second, compared, agreement, pair, table);
    }
    step_one(alloc, first, second, compared, pair, steps)
}
