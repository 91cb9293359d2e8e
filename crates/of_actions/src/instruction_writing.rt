//! Instructions as bytes.
ghost use Rattle.std.specs.Prelude.{◌≡◌, ◌≤◌, ◌<◌, ◌++◌, ◌∷◌, ℕ, length, IsTrue, OnOk, IfOk};
ghost use Rattle.byteorder.specs.Endian.{big_bytes};
ghost use Rattle.of_actions.specs.{InstructionLists.are_for, Instructions.EncodesInstructions, CanonicalActions.canonical_actions};
ghost use Rattle.of_actions.specs.CanonicalInstructions.{after_type, canonical_instruction, canonical_instructions};

use crate::action_list::ActionList;
use crate::action_writing::put_actions;
use crate::instruction::Instruction;
use crate::instruction_list::InstructionList;
use of_wire::{put_u64, replace_u16};
use std::alloc::{AllocError, Global};

fn put_with_actions(out: &mut Vec<u8>, kind: u8, actions: &ActionList) -> Result<(), AllocError>
    ensures { OnOk result (out.new.items ≡ out.old.items ++ 0 ∷ kind ∷ after_type (canonical_actions actions.now)) }
{
    let start = out.len();
    out.extend_from_slice(&[0, kind, 0, 0, 0, 0, 0, 0])?;
    put_actions(out, actions.as_slice())?;
    let len = out.len() - start;
    replace_u16(out, start + 2, len as u16);
    Ok(())
}

fn put_metadata(out: &mut Vec<u8>, value: u64, mask: u64) -> Result<(), AllocError>
    ensures { OnOk result (out.new.items ≡ out.old.items ++ 0 ∷ 2 ∷ 0 ∷ 24 ∷ 0 ∷ 0 ∷ 0 ∷ 0 ∷ (big_bytes 8 value ++ big_bytes 8 mask)) }
{
    out.extend_from_slice(&[0, 2, 0, 24, 0, 0, 0, 0])?;
    put_u64(out, value)?;
    put_u64(out, mask)
}

#[tactic(auto, unfolding(crate::specs::CanonicalInstructions::canonical_instruction))]
fn put_instruction(out: &mut Vec<u8>, instruction: &Instruction) -> Result<(), AllocError>
    ensures { OnOk result (out.new.items ≡ out.old.items ++ canonical_instruction instruction.now) }
{
    match instruction {
        Instruction::Goto(table) => out.extend_from_slice(&[0, 1, 0, 8, *table, 0, 0, 0]),
        Instruction::Metadata { value, mask } => put_metadata(out, *value, *mask),
        Instruction::Write(actions) => put_with_actions(out, 3, actions),
        Instruction::Apply(actions) => put_with_actions(out, 4, actions),
        Instruction::Clear => out.extend_from_slice(&[0, 5, 0, 8, 0, 0, 0, 0]),
    }
}

fn put_all(out: &mut Vec<u8>, instructions: &[Instruction]) -> Result<(), AllocError>
    ensures { OnOk result (out.new.items ≡ out.old.items ++ canonical_instructions instructions.now) }
{
    for instruction in instructions {
        put_instruction(out, instruction)?;
    }
    Ok(())
}

/// Appends the one encoding of instructions that is written (OpenFlow 1.3.5, 7.2.4): at most 3,128 bytes.
pub fn put_instructions(out: &mut Vec<u8>, instructions: &InstructionList) -> Result<(), AllocError>
    ensures canonical { OnOk result (out.new.items ≡ out.old.items ++ canonical_instructions instructions.now) }
    ensures short { OnOk result (length (canonical_instructions instructions.now) ≤ 3128) }
    // They are read again for each table whose entries may have them.
    ensures encoded { OnOk result ((table : ℕ) → IsTrue (are_for table instructions.now) →
        EncodesInstructions table (canonical_instructions instructions.now) instructions.now) }
{
    put_all(out, instructions.as_slice())?;
    Ok(())
}

/// The same bytes, in a list of their own.
pub fn write_instructions(
    alloc: Global,
    instructions: &InstructionList,
) -> Result<Vec<u8>, AllocError>
    ensures canonical { IfOk result (λ v. v.items ≡ canonical_instructions instructions.now) }
    ensures short { IfOk result (λ v. length v.items ≤ 3128) }
    ensures encoded { IfOk result (λ v. (table : ℕ) → IsTrue (are_for table instructions.now) → EncodesInstructions table v.items instructions.now) }
{
    let mut out = Vec::new(alloc);
    put_instructions(&mut out, instructions)?;
    Ok(out)
}
