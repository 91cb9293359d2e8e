//! What DEC_NW_TTL makes of a state.
ghost use Rattle.std.specs.Prelude.{◌≡◌, true, false, IfOk, OnOk, length, ◌<◌};
ghost use Rattle.of_actions.specs.declared.action.Action.TheVariants.{DecNwTtl as Decrement};
ghost use Rattle.of_machine.specs.TheWorld.{TheWorld};
ghost use Rattle.of_symbolic_run.specs.{declared.advance.Advance.TheVariants.DecNwTtl, Cases.AreCases};
ghost use Rattle.of_symbolic_run.specs.{Decrementing.AddsExpired, Decrementing.IsDecremented, Decrementing.IsLimit, Decrementing.IsOneMoreRewrite, NextStates.AreNextStates, States.answer_to_tasks};
ghost use Rattle.of_symbolic_run.specs.TimesToLive.{expires};

use crate::dividing::Case;
use crate::frame_set::FrameSet;
use crate::known_ttl::ttl_after_all;
use crate::served::ServedAction;
use crate::state::{Emission, SymbolicState, SymbolicTask};
use of_actions::Action;
use of_machine::Step;
use std::alloc::{AllocError, Global};

impl<'a> SymbolicTask<'a> {
    // DEC_NW_TTL of a TTL above 1, or without a TTL.
    fn decrement(&mut self) -> Result<(), AllocError>
        requires { 0 < length self.now.work.items }
        ensures { OnOk result (IsOneMoreRewrite Decrement self.old self.new) }
    {
        self.packet.rewrites.known();
        self.packet
            .rewrites
            .push(ServedAction::new(Action::DecNwTtl))?;
        self.work.remove(0);
        Ok(())
    }
}

impl<'a> SymbolicState<'a> {
    // The greatest TTL of a frame for which the DEC_NW_TTL of the first packet expires.
    fn ttl_limit(&self) -> Option<u8>
        requires { answer_to_tasks self.now.tasks.items ≡ DecNwTtl }
        ensures { IsLimit self.now.tasks.items result }
    {
        ttl_after_all(self.tasks[0].packet.rewrites.as_slice()).limit()
    }

    // It expired: a packet to the controller, and the packet has no work left (OpenFlow 1.3.5, 5.12).
    fn expired(&self, alloc: Global) -> Result<SymbolicState<'a>, AllocError>
        requires { answer_to_tasks self.now.tasks.items ≡ DecNwTtl }
        ensures { IfOk result (IsDecremented true self.now) }
    {
        let mut state = self.copy(alloc)?;
        let packet = state.tasks[0].packet.copy()?;
        state.emitted.push(Emission::InvalidTtl(packet))?;
        state.steps.push(Step::TtlExpired)?;
        state.tasks[0].work.clear();
        Ok(state)
    }

    // It did not expire.
    fn decremented(&self, alloc: Global) -> Result<SymbolicState<'a>, AllocError>
        requires { answer_to_tasks self.now.tasks.items ≡ DecNwTtl }
        ensures { IfOk result (IsDecremented false self.now) }
    {
        let mut state = self.copy(alloc)?;
        state.tasks[0].decrement()?;
        state.steps.push(Step::Act(Action::DecNwTtl))?;
        Ok(state)
    }
}

// The case of the frames for which it expires, if there are such frames.
fn push_expired<'a>(
    alloc: Global,
    cases: &mut Vec<Case<'a>>,
    state: &SymbolicState<'a>,
    frames: &FrameSet,
    limit: Option<u8>,
) -> Result<(), AllocError>
    requires { answer_to_tasks state.now.tasks.items ≡ DecNwTtl }
    ensures { OnOk result (AddsExpired (expires limit) frames.now state.now cases.old.items cases.new.items) }
{
    match frames.expiring(alloc, limit)? {
        None => Ok(()),
        Some(frames) => {
            let state = state.expired(alloc)?;
            cases.push(Case { frames, state })?;
            Ok(())
        }
    }
}

/// A DEC_NW_TTL of the first packet divides the frames by whether it expires (OpenFlow 1.3.5, 5.12).
pub fn divide_by_ttl<'a>(
    alloc: Global,
    state: &SymbolicState<'a>,
    frames: &FrameSet,
) -> Result<Vec<Case<'a>>, AllocError>
    requires first { answer_to_tasks state.now.tasks.items ≡ DecNwTtl }
    ensures cases { IfOk result (λ cases. (w : TheWorld) → AreCases w frames.now state.now cases.items) }
    ensures next { IfOk result (λ cases. (w : TheWorld) → AreNextStates w state.now cases.items) }
{
    let limit = state.ttl_limit();
    let mut cases = Vec::new(alloc);
    push_expired(alloc, &mut cases, state, frames, limit)?;
    cases.push(Case {
        frames: frames.outliving(alloc, limit)?,
        state: state.decremented(alloc)?,
    })?;
    Ok(cases)
}
