//! Lists of actions and of instructions.
ghost use Rattle.std.specs.Prelude.{◌≡◌, ◌∷◌, [], IfOk};

use of_actions::{Action, ActionList, Instruction, InstructionList};
use std::alloc::Global;
use std::test::Fail;

pub(crate) fn action_list(alloc: Global, actions: &[Action]) -> Result<ActionList, Fail> {
    Ok(ActionList::new(actions.to_vec(alloc)?).ok_or("the actions are served")?)
}

/// The list of one instruction.
pub(crate) fn list_of(alloc: Global, instruction: Instruction) -> Result<InstructionList, Fail>
    ensures { IfOk result (λ list. list ≡ instruction ∷ []) }
{
    let mut instructions = Vec::new(alloc);
    instructions.push(instruction)?;
    Ok(InstructionList::new(instructions).ok_or("one instruction is a list")?)
}
