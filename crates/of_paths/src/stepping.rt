//! The steps of all frames of a set.
ghost use Rattle.std.specs.Prelude.{◌≡◌, ◌∷◌, [], IfOk};
ghost use Rattle.of_datapath.specs.{Datapath.world_of, Numbers.forwarding_of};
ghost use Rattle.of_paths.specs.SoFar.{IsNextOf};

use crate::path::{Path, UndecidedFrames, WhyUndecided};
use of_classifier::Lookup;
use of_datapath::Datapath;
use of_symbolic_run::{Case, FrameSet, Side, SymbolicState, ended_states_give_runs, step_side};
use std::alloc::{AllocError, Global};

/// What comes of the state of a run, for all frames of a set.
#[derive(Drop)]
pub enum Next<'a> {
    /// These states, each for some of the frames.
    Cases(Vec<Case<'a>>),
    /// The run is done.
    Ended(Path),
    Undecided(UndecidedFrames),
}

fn one_case<'a>(
    alloc: Global,
    frames: FrameSet,
    state: SymbolicState<'a>,
) -> Result<Vec<Case<'a>>, AllocError>
    ensures { IfOk result (λ cases. cases.items ≡ record { frames = frames; state = state.entry } ∷ []) }
{
    let mut cases = Vec::new(alloc);
    cases.push(Case { frames, state })?;
    Ok(cases)
}

// The run is done.
fn ended_path<'a, L: Lookup>(datapath: &Datapath<L>, case: Case<'a>) -> Next<'a>
    requires { case.state.tasks.items ≡ [] }
    ensures { IsNextOf (world_of (forwarding_of datapath.now)) case.entry result }
{
    datapath.known_world();
    ended_states_give_runs();
    let Case { frames, state } = case;
    let SymbolicState { emitted, steps, .. } = state;
    Next::Ended(Path {
        frames,
        steps,
        emitted,
    })
}

/// A step of the run, or its path if it is done.
pub fn step_case<'a, L: Lookup>(
    alloc: Global,
    datapath: &'a Datapath<L>,
    case: Case<'a>,
) -> Result<Next<'a>, AllocError>
    ensures { IfOk result (IsNextOf (world_of (forwarding_of datapath.now)) case.entry) }
{
    if case.state.tasks.is_empty() {
        return Ok(ended_path(datapath, case));
    }
    let Case { frames, mut state } = case;
    match step_side(alloc, datapath, &mut state, &frames)? {
        Side::Advanced => Ok(Next::Cases(one_case(alloc, frames, state)?)),
        Side::Divided(cases) => Ok(Next::Cases(cases)),
        Side::Unknown => Ok(Next::Undecided(UndecidedFrames {
            frames,
            why: WhyUndecided::UnknownTag,
        })),
    }
}
