//! Instructions from bytes.
ghost use Rattle.std.specs.Prelude.{◌≡◌, ℕ, List, true, IsTrue, IfOk, IfErr, Some, None};
ghost use Rattle.std.specs.List.{list_all};
ghost use Rattle.of_wire.specs.{declared.code.Code.Code as ErrorCode, Failures.Fails, Failures.Reads as AnswersAs};
ghost use Rattle.of_actions.specs.Instructions.{AreBodies, IsInstructionBody, IsFault, IsRefused, EncodesInstructions};
ghost use Rattle.of_actions.specs.{declared.instruction.Instruction.Instruction as AnInstruction, InstructionLists.is_served_body, InstructionLists.are_for, InstructionReading.instructions_in_bytes};
ghost use Rattle.of_actions.specs.{Readings.ReadsValue, Readings.Refuses, Unread.is_sound_header};

use crate::action_reading::read_actions;
use crate::header_reading::read_headers;
use crate::instruction::Instruction;
use crate::instruction_list::InstructionList;
use crate::run_order::arrange;
use crate::unread::{Header, UnreadInstruction};
use of_wire::ReadError;
use std::alloc::Global;

fn read_body(alloc: Global, unread: &UnreadInstruction) -> Result<Instruction, ReadError>
    requires { is_sound_header unread.now ≡ true }
    ensures found { IfOk result (λ instruction. IsInstructionBody unread.now instruction) }
    ensures served { IfOk result (λ instruction. is_served_body instruction ≡ true) }
    ensures refused { IfErr result (Fails (λ code. IsFault unread.now (Some code))) }
{
    match unread.header {
        Header::Goto(table) => Ok(Instruction::Goto(table)),
        Header::Metadata { value, mask } => Ok(Instruction::Metadata { value, mask }),
        Header::Write(bytes) => Ok(Instruction::Write(read_actions(alloc, bytes, false)?)),
        Header::Apply(bytes) => Ok(Instruction::Apply(read_actions(alloc, bytes, false)?)),
        Header::Clear => Ok(Instruction::Clear),
    }
}

fn read_bodies(alloc: Global, headers: &[UnreadInstruction]) -> Result<Vec<Instruction>, ReadError>
    requires { list_all is_sound_header headers.now ≡ true }
    ensures found { IfOk result (λ v. AreBodies headers.now v.items None) }
    ensures served { IfOk result (λ v. list_all is_served_body v.items ≡ true) }
    ensures refused { IfErr result (Fails (λ code. (before : List AnInstruction) × AreBodies headers.now before (Some code))) }
{
    let mut instructions = Vec::with_capacity(alloc, headers.len())?;
    for header in headers {
        let instruction = read_body(alloc, header)?;
        instructions.push(instruction)?;
    }
    Ok(instructions)
}

fn parse_instructions(alloc: Global, bytes: &[u8], table: u8) -> Result<InstructionList, ReadError>
    ensures found { IfOk result (λ list. EncodesInstructions table bytes.now list) }
    ensures valid { IfOk result (λ list. IsTrue (are_for table list)) }
    ensures refused { IfErr result (Fails (IsRefused table bytes.now)) }
{
    let headers = read_headers(alloc, bytes, table)?;
    let message = read_bodies(alloc, &headers)?;
    let instructions = arrange(alloc, message)?;
    Ok(InstructionList { instructions })
}

/// All of the bytes as the instructions of an entry of the table, in the order of execution (OpenFlow 1.3.5, 5.9 and 7.2.4).
/// All headers are checked before the first action, and then the actions in the order of the message.
pub fn read_instructions(
    alloc: Global,
    bytes: &[u8],
    table: u8,
) -> Result<InstructionList, ReadError>
    // What is read is encoded so, and what is encoded is read, unless memory runs out.
    ensures found { IfOk result (λ list. EncodesInstructions table bytes.now list) }
    ensures only { (list : List AnInstruction) → EncodesInstructions table bytes.now list → ReadsValue result list }
    // Other bytes have one code, and it is answered, unless memory runs out.
    ensures refused { IfErr result (Fails (IsRefused table bytes.now)) }
    ensures exact { (code : ErrorCode) → IsRefused table bytes.now code → Refuses result code }
    // Both, as a function of the bytes.
    ensures reads { AnswersAs result (instructions_in_bytes table bytes.now) }
    // An entry of the table may have what is read.
    ensures valid { IfOk result (λ list. IsTrue (are_for table list)) }
{
    parse_instructions(alloc, bytes, table)
}

/// No bytes encode two lists of instructions, none that encode one have a code, and none have two.
pub fn one_instruction_reading()
    ensures list { (table : ℕ) (bytes : List ℕ) (some others : List AnInstruction) → EncodesInstructions table bytes some →
        EncodesInstructions table bytes others → some ≡ others }
    ensures encoded { (table : ℕ) (bytes : List ℕ) (list : List AnInstruction) (code : ErrorCode) → EncodesInstructions table bytes list →
        ¬ IsRefused table bytes code }
    ensures code { (table : ℕ) (bytes : List ℕ) (c d : ErrorCode) → IsRefused table bytes c → IsRefused table bytes d → c ≡ d }
{}
