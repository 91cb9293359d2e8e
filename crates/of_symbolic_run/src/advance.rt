//! The steps of a symbolic run that are the same for each frame.
ghost use Rattle.std.specs.Prelude.{◌≡◌, ◌<◌, ℕ, Some, List, IfOk, IsTrue, OnOk, length, slice_get};
ghost use Rattle.of_actions.specs.InstructionLists.{is_served_body};
ghost use Rattle.of_machine.specs.TheWorld.{TheWorld};
ghost use Rattle.of_symbolic_run.specs.States.{Advances, IsAt, TakesRow, TellsAdvance, WorkEnds, answer_to, answer_to_tasks, answer_to_works, work_line, with_step_line};
ghost use Rattle.of_symbolic_run.specs.{declared.state.Emission.Emission as AnEmission, declared.state.Work.TheVariants.Act, declared.state.Work.TheVariants.Do};

use crate::served::ServedAction;
use crate::state::{Emission, SymbolicState, SymbolicTask, Work};
use of_actions::{Action, Instruction};
use of_machine::Step;
use std::alloc::{AllocError, Global};

/// What came of the first work of the first packet.
#[derive(Clone, Copy, PartialEq, Eq)]
pub enum Advance {
    /// It is done. If there was no work, the packet is removed.
    Done,
    /// A lookup in this table divides the frames. Nothing changed.
    Lookup(u8),
    /// DEC_NW_TTL divides the frames. Nothing changed.
    DecNwTtl,
    /// The group's buckets are wanted. Nothing changed.
    Group(u32),
}

// An instruction.
fn follow_instruction(
    alloc: Global,
    task: &mut SymbolicTask<'_>,
    instruction: &Instruction,
) -> Result<(), AllocError>
    requires first { slice_get task.now.work.items 0 ≡ Some (Do instruction.now) }
    requires served { IsTrue (is_served_body instruction.now) }
    ensures { OnOk result ((emitted : List AnEmission) → TakesRow task.old emitted task.new emitted) }
{
    match instruction {
        Instruction::Apply(actions) => task.apply_actions(alloc, actions),
        Instruction::Clear => {
            task.clear_actions();
            Ok(())
        }
        Instruction::Write(actions) => task.write_into_set(actions),
        Instruction::Metadata { value, mask } => {
            task.write_metadata(*value, *mask);
            Ok(())
        }
        Instruction::Goto(table) => task.go_to(*table),
    }
}

// An action.
fn do_action(
    task: &mut SymbolicTask<'_>,
    served: ServedAction,
    emitted: &mut Vec<Emission>,
) -> Result<Advance, AllocError>
    requires { slice_get task.now.work.items 0 ≡ Some (Act served) }
    ensures answer { IfOk result (λ a. a ≡ answer_to (Act served)) }
    ensures ends { IfOk result (λ a. WorkEnds a task.old emitted.old.items task.new emitted.new.items) }
{
    match served.get() {
        Action::Group(group) => Ok(Advance::Group(group)),
        Action::DecNwTtl => Ok(Advance::DecNwTtl),
        Action::Output { port, max_len } => {
            task.output(port, max_len, emitted)?;
            Ok(Advance::Done)
        }
        _ => {
            task.rewrite_frame_by(served)?;
            Ok(Advance::Done)
        }
    }
}

// The first work of the packet.
fn do_first_work(
    alloc: Global,
    task: &mut SymbolicTask<'_>,
    emitted: &mut Vec<Emission>,
) -> Result<Advance, AllocError>
    requires { 0 < length task.now.work.items }
    ensures answer { IfOk result (λ a. a ≡ answer_to_works task.old.work.items) }
    ensures ends { IfOk result (λ a. WorkEnds a task.old emitted.old.items task.new emitted.new.items) }
{
    match &task.work[0] {
        Work::Lookup(table) => Ok(Advance::Lookup(*table)),
        Work::Act(served) => {
            let served = *served;
            do_action(task, served, emitted)
        }
        Work::Do(served) => {
            let instruction = served.get();
            follow_instruction(alloc, task, instruction)?;
            Ok(Advance::Done)
        }
        Work::RunSet => {
            task.run_action_set(alloc)?;
            Ok(Advance::Done)
        }
    }
}

// The line of an instruction.
fn instruction_step(instruction: &Instruction) -> Step
    ensures { Some result ≡ work_line (Do instruction.now) }
{
    match instruction {
        Instruction::Apply(_) => Step::Apply,
        Instruction::Clear => Step::Clear,
        Instruction::Write(_) => Step::Write,
        Instruction::Metadata { value, mask } => Step::Metadata {
            value: *value,
            mask: *mask,
        },
        Instruction::Goto(table) => Step::Goto(*table),
    }
}

// The line of an action, if it is the same for each frame.
fn action_step(action: Action) -> Option<Step>
    ensures { result ≡ work_line (Act action) }
{
    match action {
        Action::Group(_) | Action::DecNwTtl => None,
        _ => Some(Step::Act(action)),
    }
}

// The line of a work, if it is the same for each frame.
fn work_step(work: &Work<'_>) -> Option<Step>
    ensures { result ≡ work_line work.now }
{
    match work {
        Work::Lookup(_) => None,
        Work::Act(served) => action_step(served.get()),
        Work::Do(served) => Some(instruction_step(served.get())),
        Work::RunSet => Some(Step::Set),
    }
}

// Its line is one more, if it has one.
fn push_step(steps: &mut Vec<Step>, step: Option<Step>) -> Result<(), AllocError>
    ensures { OnOk result (steps.new.items ≡ with_step_line steps.old.items step) }
{
    if let Some(step) = step {
        steps.push(step)?;
    }
    Ok(())
}

// The step of the first packet, for each frame.
fn step_first(alloc: Global, state: &mut SymbolicState<'_>) -> Result<Advance, AllocError>
    ensures answer { IfOk result (λ a. a ≡ answer_to_tasks state.old.tasks.items) }
    ensures step { IfOk result (λ a. Advances a state.old.tasks.items state.old.emitted.items state.new.tasks.items state.new.emitted.items) }
    ensures lines { IfOk result (λ a. TellsAdvance a state.old.tasks.items state.old.steps.items state.new.steps.items) }
{
    if state.tasks.is_empty() {
        return Ok(Advance::Done);
    }
    if state.tasks[0].work.is_empty() {
        state.tasks.remove(0);
        state.steps.push(Step::End)?;
        return Ok(Advance::Done);
    }
    let step = work_step(&state.tasks[0].work[0]);
    let advance = do_first_work(alloc, &mut state.tasks[0], &mut state.emitted)?;
    push_step(&mut state.steps, step)?;
    Ok(advance)
}

/// Does the first work of the first packet, for each frame that came in (OpenFlow 1.3.5, 5.1).
///
/// `step` and `lines`: it is the step of the machine, for each switch, each frame and each ingress port. `at`: so the state stays one of the run of each
/// frame.
/// Without a packet nothing changes. If memory runs out, the state may be anything.
pub fn advance_state(alloc: Global, state: &mut SymbolicState<'_>) -> Result<Advance, AllocError>
    ensures answer { IfOk result (λ a. a ≡ answer_to_tasks state.old.tasks.items) }
    ensures step { IfOk result (λ a. Advances a state.old.tasks.items state.old.emitted.items state.new.tasks.items state.new.emitted.items) }
    ensures lines { IfOk result (λ a. TellsAdvance a state.old.tasks.items state.old.steps.items state.new.steps.items) }
    ensures at { IfOk result (λ a. (w : TheWorld) (frame : List ℕ) (port : ℕ) → IsAt w frame port state.old → IsAt w frame port state.new) }
{
    let done = step_first(alloc, state)?;
    Ok(done)
}
