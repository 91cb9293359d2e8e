//! What a message says as lines of flow text.
ghost use Rattle.std.specs.Prelude.{◌≡◌, ◌++◌, IfOk, OnOk, map};
ghost use Rattle.std.specs.List.{AllByRecursion, flat_map};
ghost use Rattle.of_messages.specs.Messages.{message_of};
ghost use Rattle.of_oxm.specs.MatchReading.{match_of};
ghost use Rattle.of_text.specs.{Flows.instruction_rows, Groups.bucket_rows, Groups.group_rows, Rows.Fits, Views.view_bucket};
ghost use Rattle.of_build.specs.Listing.{new_group_text};
ghost use Rattle.of_explain.specs.Requests.{asked_rows, flow_mod_rows, group_mod_rows, message_rows, rows_said};
ghost use Rattle.of_explain.specs.Replies.{match_rows};

use of_actions::Instruction;
use of_build::group_text;
use of_messages::{
    FlowMod, GroupMod, Message, MultipartRequest, NewGroup, PacketOut, read_message,
};
use of_oxm::{Match, read_match};
use of_text::{BucketText, Row, push_actions, push_fields};
use of_wire::ReadError;
use std::alloc::{AllocError, Global};

fn push_instruction(rows: &mut Vec<Row>, instruction: &Instruction) -> Result<(), AllocError>
    ensures { OnOk result (rows.new.items ≡ rows.old.items ++ instruction_rows instruction.now) }
{
    match instruction {
        Instruction::Apply(actions) => {
            rows.push(Row::Apply)?;
            push_actions(rows, actions.as_slice())?;
        }
        Instruction::Clear => rows.push(Row::Clear)?,
        Instruction::Write(actions) => {
            rows.push(Row::Write)?;
            push_actions(rows, actions.as_slice())?;
        }
        Instruction::Metadata { value, mask } => rows.push(Row::Metadata {
            value: *value,
            mask: *mask,
        })?,
        Instruction::Goto(table) => rows.push(Row::Goto(*table))?,
    }
    Ok(())
}

fn push_instructions(rows: &mut Vec<Row>, instructions: &[Instruction]) -> Result<(), AllocError>
    ensures { OnOk result (rows.new.items ≡ rows.old.items ++ flat_map instruction_rows instructions.now) }
{
    for instruction in instructions {
        push_instruction(rows, instruction)?;
    }
    Ok(())
}

// The lines of a flow's match and instructions.
fn flow_mod_lines(alloc: Global, flow_mod: &FlowMod) -> Result<Vec<Row>, AllocError>
    ensures text { IfOk result (λ rows. rows.items ≡ flow_mod_rows flow_mod.now) }
    ensures fits { IfOk result (λ rows. AllByRecursion Fits rows.items) }
{
    flow_mod.fields.known();
    let mut rows = Vec::new(alloc);
    push_fields(&mut rows, flow_mod.fields.fields())?;
    push_instructions(&mut rows, flow_mod.instructions.as_slice())?;
    Ok(rows)
}

fn push_buckets(rows: &mut Vec<Row>, buckets: &[BucketText]) -> Result<(), AllocError>
    ensures { OnOk result (rows.new.items ≡ rows.old.items ++ flat_map bucket_rows (map view_bucket buckets.now)) }
{
    for bucket in buckets {
        rows.push(Row::Bucket(bucket.head))?;
        push_actions(rows, &bucket.actions)?;
    }
    Ok(())
}

// The lines of a group.
fn group_lines(alloc: Global, group: NewGroup) -> Result<Vec<Row>, AllocError>
    ensures text { IfOk result (λ rows. rows.items ≡ group_rows (new_group_text group)) }
    ensures fits { IfOk result (λ rows. AllByRecursion Fits rows.items) }
{
    let text = group_text(alloc, group)?;
    let mut rows = Vec::new(alloc);
    rows.push(Row::Group(text.head))?;
    push_buckets(&mut rows, &text.buckets)?;
    Ok(rows)
}

fn group_mod_lines(alloc: Global, group_mod: GroupMod) -> Result<Vec<Row>, AllocError>
    ensures text { IfOk result (λ rows. rows.items ≡ group_mod_rows group_mod) }
    ensures fits { IfOk result (λ rows. AllByRecursion Fits rows.items) }
{
    match group_mod {
        GroupMod::Add(group) | GroupMod::Modify(group) => group_lines(alloc, group),
        GroupMod::Delete(_) => Ok(Vec::new(alloc)),
    }
}

// The lines of a PACKET_OUT's actions.
fn packet_out_lines(alloc: Global, packet_out: &PacketOut) -> Result<Vec<Row>, AllocError>
    ensures text { IfOk result (λ rows. rows.items ≡ map Row.Do packet_out.now.actions) }
    ensures fits { IfOk result (λ rows. AllByRecursion Fits rows.items) }
{
    let mut rows = Vec::new(alloc);
    push_actions(&mut rows, packet_out.actions.as_slice())?;
    Ok(rows)
}

// The lines of a match.
fn match_lines(alloc: Global, fields: &Match) -> Result<Vec<Row>, AllocError>
    ensures text { IfOk result (λ rows. rows.items ≡ map Row.Match fields.now) }
    ensures fits { IfOk result (λ rows. AllByRecursion Fits rows.items) }
{
    fields.known();
    let mut rows = Vec::new(alloc);
    push_fields(&mut rows, fields.fields())?;
    Ok(rows)
}

/// The lines of the match at the front of these bytes; a match that is refused has none.
pub fn match_said(alloc: Global, bytes: &[u8]) -> Result<Vec<Row>, AllocError>
    ensures text { IfOk result (λ rows. rows.items ≡ match_rows (match_of bytes.now)) }
    ensures fits { IfOk result (λ rows. AllByRecursion Fits rows.items) }
{
    match read_match(alloc, bytes) {
        Ok((fields, _)) => match_lines(alloc, &fields),
        Err(ReadError::Refused(_)) => Ok(Vec::new(alloc)),
        Err(ReadError::Memory) => Err(AllocError),
    }
}

// The lines of the match that a multipart request asks for.
fn multipart_lines(alloc: Global, request: MultipartRequest) -> Result<Vec<Row>, AllocError>
    ensures text { IfOk result (λ rows. rows.items ≡ asked_rows request) }
    ensures fits { IfOk result (λ rows. AllByRecursion Fits rows.items) }
{
    match request {
        MultipartRequest::Flow(asked) | MultipartRequest::Aggregate(asked) => {
            match_lines(alloc, &asked.fields)
        }
        _ => Ok(Vec::new(alloc)),
    }
}

fn lines_in(alloc: Global, message: Message) -> Result<Vec<Row>, AllocError>
    ensures text { IfOk result (λ rows. rows.items ≡ message_rows message) }
    ensures fits { IfOk result (λ rows. AllByRecursion Fits rows.items) }
{
    match message {
        Message::FlowMod(flow_mod) => flow_mod_lines(alloc, &flow_mod),
        Message::GroupMod(group_mod) => group_mod_lines(alloc, group_mod),
        Message::PacketOut(packet_out) => packet_out_lines(alloc, &packet_out),
        Message::Multipart(request) => multipart_lines(alloc, request),
        _ => Ok(Vec::new(alloc)),
    }
}

/// The lines of flow text that a message has: of a FLOW_MOD its match and instructions, of a GROUP_MOD its group, of a PACKET_OUT its actions, of a request for flows the match that they are to have.
///
/// A message that is refused by itself has none.
pub fn lines_said(alloc: Global, message: &[u8]) -> Result<Vec<Row>, AllocError>
    ensures text { IfOk result (λ rows. rows.items ≡ rows_said (message_of message.now)) }
    ensures fits { IfOk result (λ rows. AllByRecursion Fits rows.items) }
{
    match read_message(alloc, message) {
        Ok(message) => lines_in(alloc, message),
        Err(ReadError::Refused(_)) => Ok(Vec::new(alloc)),
        Err(ReadError::Memory) => Err(AllocError),
    }
}
