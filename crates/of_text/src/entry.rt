//! Flows of a text as tables keep them.
ghost use Rattle.std.specs.Prelude.{◌≡◌, true, false, IsTrue, IfOk, map};
ghost use Rattle.std.specs.List.{list_all};
ghost use Rattle.of_oxm.specs.NormalForm.{IsMatch};
ghost use Rattle.of_actions.specs.{InstructionLists.are_kept, InstructionLists.is_served_body, Supported.are_supported};
ghost use Rattle.of_text.specs.Views.{view, view_instruction};

use crate::flow::{FlowText, InstructionText};
use of_actions::{Action, ActionList, Instruction, InstructionList};
use of_oxm::Match;
use std::alloc::{AllocError, Global};

fn copy_of(actions: &Vec<Action>) -> Result<Vec<Action>, AllocError>
    ensures { IfOk result (λ copy. copy.items ≡ actions.now.items) }
{
    Ok(actions.clone()?)
}

fn action_list(actions: Vec<Action>) -> ActionList
    requires { are_supported true actions.items ≡ true }
    ensures { result ≡ actions.items }
{
    match ActionList::new(actions) {
        Some(list) => list,
        None => unreachable!(),
    }
}

pub(crate) fn list_of(actions: &Vec<Action>) -> Result<ActionList, AllocError>
    requires { are_supported false actions.now.items ≡ true }
    ensures { IfOk result (λ list. list ≡ actions.now.items) }
{
    let copy = copy_of(actions)?;
    Ok(action_list(copy))
}

fn instruction_from(text: &InstructionText) -> Result<Instruction, AllocError>
    requires { is_served_body (view_instruction text.now) ≡ true }
    ensures { IfOk result (λ i. i ≡ view_instruction text.now) }
{
    match text {
        InstructionText::Apply(actions) => Ok(Instruction::Apply(list_of(actions)?)),
        InstructionText::Clear => Ok(Instruction::Clear),
        InstructionText::Write(actions) => Ok(Instruction::Write(list_of(actions)?)),
        InstructionText::Metadata { value, mask } => Ok(Instruction::Metadata {
            value: *value,
            mask: *mask,
        }),
        InstructionText::Goto(table) => Ok(Instruction::Goto(*table)),
    }
}

fn instructions_from(
    alloc: Global,
    texts: &[InstructionText],
) -> Result<Vec<Instruction>, AllocError>
    requires { list_all is_served_body (map view_instruction texts.now) ≡ true }
    ensures { IfOk result (λ is. is.items ≡ map view_instruction texts.now) }
{
    let mut instructions = Vec::new(alloc);
    for text in texts {
        instructions.push(instruction_from(text)?)?;
    }
    Ok(instructions)
}

impl FlowText {
    /// Its match, as a table keeps it. The fields of a flow of a configuration are one (`Config::known`).
    pub fn to_match(&self) -> Result<Match, AllocError>
        requires { IsMatch (view self.now).fields }
        ensures { IfOk result (λ m. m ≡ (view self.now).fields) }
    {
        Ok(Match::new(self.fields.clone()?))
    }

    /// Its instructions, as a table keeps them. Those of a flow of a configuration are such (`Config::known`).
    pub fn to_instructions(&self) -> Result<InstructionList, AllocError>
        requires { IsTrue (are_kept (view self.now).instructions) }
        ensures { IfOk result (λ list. list ≡ (view self.now).instructions) }
    {
        let instructions = instructions_from(*self.instructions.allocator(), &self.instructions)?;
        match InstructionList::new(instructions) {
            Some(list) => Ok(list),
            None => unreachable!(),
        }
    }
}
