//! The instructions of an entry.
ghost use Rattle.std.specs.Prelude.{◌≡◌, ◌↔◌, ◌∷◌, ◌++◌, [], false, nat_lt, length, IsTrue, IfOk, IfSome, IfNone};
ghost use Rattle.std.specs.List.{list_all};
ghost use Rattle.of_actions.specs.InstructionLists.{are_kept as are_kept_so, is_served_body, is_for as is_for_table, are_for as are_for_table, run_place};
ghost use Rattle.of_actions.specs.Rising.{is_ascending};

use crate::instruction::Instruction;
use std::alloc::{AllocError, Global};
use std::marker::Model;

/// The instructions of an entry, in the order of execution: at most one of a type (OpenFlow 1.3.5, 5.9).
#[derive(Drop)]
pub struct InstructionList {
    pub(crate) instructions: Vec<Instruction>,
}

impl Model for InstructionList {
    ghost use Rattle.std.specs.Prelude.{List, IsTrue};
    ghost use Rattle.of_actions.specs.{declared.instruction.Instruction.Instruction, InstructionLists.are_kept};

    ghost Value = { List Instruction };

    ghost view = { λ list. list.instructions.items };

    ghost invariant = { λ list. IsTrue (are_kept list.instructions.items) };
}

impl InstructionList {
    /// No instructions. It takes no memory.
    pub fn none(alloc: Global) -> InstructionList
        ensures { result ≡ [] }
    {
        InstructionList {
            instructions: Vec::new(alloc),
        }
    }

    /// The list of these instructions. None where they are not in the order of execution, one of a type, or one is not supported.
    pub fn new(instructions: Vec<Instruction>) -> Option<InstructionList>
        ensures list { IfSome result (λ list. list ≡ instructions.items) }
        ensures kept { IfSome result (λ list. IsTrue (are_kept_so list)) }
        ensures none { IfNone result (are_kept_so instructions.items ≡ false) }
    {
        if are_kept(&instructions) {
            Some(InstructionList { instructions })
        } else {
            None
        }
    }

    pub fn as_slice(&self) -> &[Instruction]
        ensures instructions { result.now ≡ self.now }
        ensures kept { IsTrue (are_kept_so self.now) }
    {
        self.instructions.as_slice()
    }

    pub fn len(&self) -> usize
        ensures { result ≡ length self.now }
    {
        self.instructions.len()
    }

    pub fn is_empty(&self) -> bool
        ensures { IsTrue result ↔ (self.now ≡ []) }
    {
        self.instructions.is_empty()
    }

    /// Whether an entry of the table may have them: a GOTO_TABLE leads to a later table (OpenFlow 1.3.5, 5.9).
    pub fn are_for(&self, table: u8) -> bool
        ensures { result ≡ are_for_table table self.now }
    {
        all_for(&self.instructions, table)
    }

    pub fn copy(&self) -> Result<InstructionList, AllocError>
        ensures { IfOk result (λ list. list ≡ self.now) }
    {
        let instructions = copy_all(*self.instructions.allocator(), &self.instructions)?;
        Ok(InstructionList { instructions })
    }
}

fn copy_all(alloc: Global, instructions: &[Instruction]) -> Result<Vec<Instruction>, AllocError>
    ensures { IfOk result (λ v. v.items ≡ instructions.now) }
{
    let mut copies = Vec::with_capacity(alloc, instructions.len())?;
    for instruction in instructions {
        copies.push(copy_instruction(instruction)?)?;
    }
    Ok(copies)
}

fn copy_instruction(instruction: &Instruction) -> Result<Instruction, AllocError>
    ensures { IfOk result (λ copy. copy ≡ instruction.now) }
{
    match instruction {
        Instruction::Apply(actions) => Ok(Instruction::Apply(actions.copy()?)),
        Instruction::Clear => Ok(Instruction::Clear),
        Instruction::Write(actions) => Ok(Instruction::Write(actions.copy()?)),
        Instruction::Metadata { value, mask } => Ok(Instruction::Metadata {
            value: *value,
            mask: *mask,
        }),
        Instruction::Goto(table) => Ok(Instruction::Goto(*table)),
    }
}

fn is_for(instruction: &Instruction, table: u8) -> bool
    ensures { result ≡ is_for_table table instruction.now }
{
    match instruction {
        Instruction::Goto(to) => table < *to,
        _ => true,
    }
}

fn all_for(instructions: &[Instruction], table: u8) -> bool
    ensures { result ≡ are_for_table table instructions.now }
{
    instructions
        .iter()
        .all(|instruction| is_for(instruction, table))
}

fn all_served(instructions: &[Instruction]) -> bool
    ensures { result ≡ list_all is_served_body instructions.now }
{
    instructions
        .iter()
        .all(|instruction| instruction.is_served_body())
}

fn is_before(first: &Instruction, after: &[Instruction]) -> bool
    ensures { result ≡ list_all (λ y. nat_lt (run_place first.now) (run_place y)) after.now }
{
    let place = first.run_place();
    after.iter().all(|other| place < other.run_place())
}

/// Whether they are in the order of execution, one of a type.
pub(crate) fn are_rising(instructions: &[Instruction]) -> bool
    ensures { result ≡ is_ascending run_place instructions.now }
{
    let mut rest = instructions;
    while let [first, after @ ..] = rest {
        if !is_before(first, after) {
            return false;
        }
        rest = after;
    }
    true
}

fn are_kept(instructions: &[Instruction]) -> bool
    ensures { result ≡ are_kept_so instructions.now }
{
    are_rising(instructions) && all_served(instructions)
}
