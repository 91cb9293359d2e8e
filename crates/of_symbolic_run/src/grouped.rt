//! The buckets of a group that run.
ghost use Rattle.std.specs.Prelude.{◌≡◌, ℕ, List, [], IfOk, OnOk, map, unwrap_or};
ghost use Rattle.of_datapath.specs.{Datapath.world_of, Numbers.forwarding_of};
ghost use Rattle.of_machine.specs.Sound.{AllBuckets};
ghost use Rattle.of_symbolic_run.specs.{declared.advance.Advance.TheVariants.Group as WantsGroup, Groups.AreServedLists, Groups.lists_of, NextStates.IsNextState, States.answer_to_tasks};

use crate::{SymbolicState, run_group};
use of_actions::Action;
use of_classifier::Lookup;
use of_datapath::Datapath;
use std::alloc::{AllocError, Global};

// The actions of the buckets of a group at these places.
fn bucket_lists_at<'a, L: Lookup>(
    alloc: Global,
    datapath: &'a Datapath<L>,
    group: u32,
    places: &[u8],
) -> Result<Vec<&'a [Action]>, AllocError>
    requires { AllBuckets (world_of (forwarding_of datapath.now)) group places.now }
    ensures lists { IfOk result (λ buckets.
        lists_of buckets.items ≡ map (λ place. unwrap_or ((world_of (forwarding_of datapath.now)).bucket group place) []) places.now) }
    ensures served { IfOk result (λ buckets. AreServedLists (lists_of buckets.items)) }
{
    let mut lists = Vec::new(alloc);
    for place in places {
        lists.push(datapath.bucket_actions(group, *place))?;
    }
    Ok(lists)
}

/// The buckets of a group run, for all frames of a state (OpenFlow 1.3.5, 5.6.1).
pub fn step_group<'a, L: Lookup>(
    alloc: Global,
    datapath: &'a Datapath<L>,
    state: &mut SymbolicState<'a>,
    group: u32,
) -> Result<(), AllocError>
    requires { answer_to_tasks state.now.tasks.items ≡ WantsGroup group }
    ensures { OnOk result (IsNextState (world_of (forwarding_of datapath.now)) state.old state.new) }
{
    datapath.known_world();
    match datapath.buckets_for(group) {
        None => run_group(alloc, state, group, None),
        Some(chosen) => {
            let lists = bucket_lists_at(alloc, datapath, group, chosen.as_slice())?;
            run_group(alloc, state, group, Some(lists.as_slice()))
        }
    }
}
