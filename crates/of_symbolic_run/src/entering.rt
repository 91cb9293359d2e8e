//! A packet at an entry.
ghost use Rattle.std.specs.Prelude.{◌≡◌, ◌<◌, Some, IsTrue, IfOk, OnOk, length, map, slice_get};
ghost use Rattle.of_actions.specs.InstructionLists.{are_kept};
ghost use Rattle.of_machine.specs.Rows.{works};
ghost use Rattle.of_symbolic_run.specs.Cases.{IsAtEntry, IsEntered, found_flow, goes_to_table, lookup_line};
ghost use Rattle.of_symbolic_run.specs.{declared.advance.Advance.TheVariants.Lookup, States.answer_to_tasks, States.work_for};

use crate::served::ServedInstruction;
use crate::state::{SymbolicState, SymbolicTask, Work};
use of_actions::Instruction;
use of_machine::{Step, is_miss};
use of_table::Entry;
use std::alloc::{AllocError, Global};

fn is_goto(instruction: &Instruction) -> bool
    ensures { result ≡ goes_to_table instruction.now }
{
    matches!(instruction, Instruction::Goto(_))
}

fn served_instruction<'a>(instructions: &'a [Instruction], index: usize) -> ServedInstruction<'a>
    requires inside { index < length instructions.now }
    requires kept { IsTrue (are_kept instructions.now) }
    ensures { slice_get instructions.now index ≡ Some result }
{
    ServedInstruction::new(&instructions[index])
}

// The instructions of an entry as work: the action set runs at the end, unless there is a GOTO_TABLE (OpenFlow 1.3.5, 5.9).
fn instruction_works<'a>(
    alloc: Global,
    instructions: &'a [Instruction],
) -> Result<Vec<Work<'a>>, AllocError>
    requires { IsTrue (are_kept instructions.now) }
    ensures { IfOk result (λ made. map work_for made.items ≡ works instructions.now) }
{
    let mut made = Vec::new(alloc);
    for index in 0..instructions.len() {
        made.push(Work::Do(served_instruction(instructions, index)))?;
        if is_goto(&instructions[index]) {
            return Ok(made);
        }
    }
    made.push(Work::RunSet)?;
    Ok(made)
}

// The line of a lookup.
fn lookup_step(table: u8, found: Option<(usize, &Entry)>) -> Step
    ensures { result ≡ lookup_line table (found_flow found.entry) }
{
    match found {
        None => Step::Miss(table),
        Some((number, _)) => Step::Entry { table, number },
    }
}

impl<'a> SymbolicTask<'a> {
    // An entry was found, or none: then the packet has no work left (OpenFlow 1.3.5, 5.3 and 5.4).
    fn enter(
        &mut self,
        alloc: Global,
        table: u8,
        found: Option<(usize, &'a Entry)>,
    ) -> Result<(), AllocError>
        ensures { OnOk result (IsAtEntry table (found_flow found.entry) self.old self.new) }
    {
        match found {
            None => {
                self.work.clear();
                Ok(())
            }
            Some((_, entry)) => {
                let flow = &entry.flow;
                self.work = instruction_works(alloc, flow.instructions.as_slice())?;
                self.packet.cookie = flow.cookie;
                self.packet.table = table;
                self.packet.miss = is_miss(flow);
                Ok(())
            }
        }
    }
}

impl<'a> SymbolicState<'a> {
    /// The state for the frames whose first packet hits this entry, which has this number, or none.
    pub(crate) fn entered(
        &self,
        alloc: Global,
        table: u8,
        found: Option<(usize, &'a Entry)>,
    ) -> Result<SymbolicState<'a>, AllocError>
        requires { answer_to_tasks self.now.tasks.items ≡ Lookup table }
        ensures { IfOk result (IsEntered table (found_flow found.entry) self.now) }
    {
        let mut state = self.copy(alloc)?;
        state.tasks[0].enter(alloc, table, found)?;
        state.steps.push(lookup_step(table, found))?;
        Ok(state)
    }
}
