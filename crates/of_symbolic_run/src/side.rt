//! A step of a run, for all frames of a set.
ghost use Rattle.std.specs.Prelude.{◌≡◌, IfOk};
ghost use Rattle.of_datapath.specs.{Datapath.world_of, Numbers.forwarding_of};
ghost use Rattle.of_symbolic_run.specs.{Sides.SideIs, States.answer_to_tasks, declared.advance.Advance.TheVariants.Lookup as WantsLookup};

use crate::grouped::step_group;
use crate::{Advance, Case, FrameSet, SymbolicState, advance_state, divide_by_ttl, look_up};
use of_classifier::Lookup;
use of_datapath::Datapath;
use of_wire::limits::TABLES;
use std::alloc::{AllocError, Global};

/// What comes of a step of a run, for all frames of a set.
#[derive(Drop)]
pub enum Side<'a> {
    /// The state is the next one.
    Advanced,
    /// The step is not the same for each frame.
    Divided(Vec<Case<'a>>),
    /// It is not known what a lookup finds.
    Unknown,
}

// A lookup in a table.
fn step_lookup<'a, L: Lookup>(
    alloc: Global,
    datapath: &'a Datapath<L>,
    state: &SymbolicState<'a>,
    frames: &FrameSet,
    table: u8,
) -> Result<Side<'a>, AllocError>
    requires { answer_to_tasks state.now.tasks.items ≡ WantsLookup table }
    ensures { IfOk result (SideIs (world_of (forwarding_of datapath.now)) frames.now state.now state.now) }
{
    if table >= TABLES {
        return Ok(Side::Unknown);
    }
    let entries = datapath.entries(table);
    match look_up(alloc, entries, state, frames, table)? {
        Some(cases) => Ok(Side::Divided(cases)),
        None => Ok(Side::Unknown),
    }
}

/// Does the first work of the first packet of a run, for all frames of a set (OpenFlow 1.3.5, 5.1).
///
/// If it is not the same for each frame, the state is as before.
pub fn step_side<'a, L: Lookup>(
    alloc: Global,
    datapath: &'a Datapath<L>,
    state: &mut SymbolicState<'a>,
    frames: &FrameSet,
) -> Result<Side<'a>, AllocError>
    ensures { IfOk result (SideIs (world_of (forwarding_of datapath.now)) frames.now state.old state.new) }
{
    match advance_state(alloc, state)? {
        Advance::Done => Ok(Side::Advanced),
        Advance::Group(group) => {
            step_group(alloc, datapath, state, group)?;
            Ok(Side::Advanced)
        }
        Advance::DecNwTtl => Ok(Side::Divided(divide_by_ttl(alloc, state, frames)?)),
        Advance::Lookup(table) => step_lookup(alloc, datapath, state, frames, table),
    }
}
