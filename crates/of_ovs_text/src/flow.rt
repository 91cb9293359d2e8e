//! FLOW_MOD in words.
ghost use Rattle.std.specs.Prelude.{◌≡◌, [], true, false, None, IfOk, IfErr, IfSome, IfNone, OnOk, map};
ghost use Rattle.of_actions.specs.{InstructionLists.are_kept, InstructionLists.is_served_body, Supported.are_supported};
ghost use Rattle.of_text.specs.Views.{view, view_instruction};
ghost use Rattle.of_ovs_lines.specs.{LineContentViews.view_line_content, Sound.IsSoundContent, Sound.IsSoundFlow};
ghost use Rattle.of_ovs_text.specs.MessageFlows.{flow_command, flow_command_named, flow_content_said, flow_mod_line, commanded_flow_mod, flow_mod_said, flow_words_said, has_table_word, lone_refusal, table_said, without_instructions};
ghost use Rattle.of_ovs_text.specs.Reasons.{FailsBy, SaysOrFails, error_of_refusal};

use crate::cutting::{cut_first, refuse_word};
use crate::no_message::NoMessage;
use of_actions::{Action, ActionList, Instruction, InstructionList};
use of_messages::{FlowMod, FlowModCommand, write_flow_mod};
use of_ovs_lines::{LineContent, Mode, read_line};
use of_ovs_words::{cut_word, name_of};
use of_oxm::Match;
use of_text::{FlowHead, FlowText, InstructionText, is, refusal_beside};
use of_wire::Bytes;
use of_wire::limits::{OFP_NO_BUFFER, OFPG_ANY, OFPP_ANY, OFPTT_ALL};
use std::alloc::{AllocError, Global};

/// How lines are read.
pub const MODE: Mode = Mode {
    skip: false,
    renumber: false,
};

#[tactic(auto, unfolding(crate::specs::MessageFlows::flow_command_named))]
fn command_named(word: &[u8]) -> Option<FlowModCommand>
    ensures { result ≡ flow_command_named word.now }
{
    if is(word, b"add") {
        Some(FlowModCommand::Add)
    } else if is(word, b"modify") {
        Some(FlowModCommand::Modify { strict: false })
    } else if is(word, b"modify_strict") {
        Some(FlowModCommand::Modify { strict: true })
    } else if is(word, b"delete") {
        Some(FlowModCommand::Delete { strict: false })
    } else if is(word, b"delete_strict") {
        Some(FlowModCommand::Delete { strict: true })
    } else {
        None
    }
}

// The command, and the words behind it.
fn command_of(text: &[u8]) -> (FlowModCommand, &[u8])
    ensures { (result.0, result.1.now) ≡ flow_command text.now }
{
    let (word, rest) = cut_first(text);
    match command_named(word) {
        Some(command) => (command, rest),
        None => (FlowModCommand::Add, text),
    }
}

// The line of a flow; that of a DELETE has no actions.
fn line_of(alloc: Global, command: FlowModCommand, words: &[u8]) -> Result<Vec<u8>, AllocError>
    ensures { IfOk result (λ line. line.items ≡ flow_mod_line command words.now) }
{
    let mut line = words.to_vec(alloc)?;
    if command.is_delete() {
        line.extend_from_slice(b",actions=drop")?;
    }
    Ok(line)
}

// Whether a word says a table.
fn names_table(words: &[u8]) -> bool
    ensures { result ≡ has_table_word words.now }
{
    let mut rest = words;
    while !rest.is_empty() {
        let (word, after) = cut_word(rest);
        rest = after;
        if is(name_of(word), b"table") {
            return true;
        }
    }
    false
}

/// A copy of actions.
pub fn copy_of(actions: &Vec<Action>) -> Result<Vec<Action>, AllocError>
    ensures { IfOk result (λ copy. copy.items ≡ actions.now.items) }
{
    Ok(actions.clone()?)
}

#[tactic(auto, using(crate::proofs::InstructionLemmas::supported_nowhere))]
fn list_of(actions: &Vec<Action>) -> Result<Option<ActionList>, AllocError>
    ensures some { IfOk result (λ list. IfSome list (λ xs. xs ≡ actions.now.items)) }
    ensures none { IfOk result (λ list. IfNone list (are_supported false actions.now.items ≡ false)) }
{
    Ok(ActionList::new(copy_of(actions)?))
}

// The instruction, if its actions are supported.
fn instruction_of(text: &InstructionText) -> Result<Option<Instruction>, AllocError>
    ensures some { IfOk result (λ i. IfSome i (λ x. x ≡ view_instruction text.now)) }
    ensures none { IfOk result (λ i. IfNone i (is_served_body (view_instruction text.now) ≡ false)) }
{
    match text {
        InstructionText::Apply(actions) => match list_of(actions)? {
            Some(list) => Ok(Some(Instruction::Apply(list))),
            None => Ok(None),
        },
        InstructionText::Clear => Ok(Some(Instruction::Clear)),
        InstructionText::Write(actions) => match list_of(actions)? {
            Some(list) => Ok(Some(Instruction::Write(list))),
            None => Ok(None),
        },
        InstructionText::Metadata { value, mask } => Ok(Some(Instruction::Metadata {
            value: *value,
            mask: *mask,
        })),
        InstructionText::Goto(table) => Ok(Some(Instruction::Goto(*table))),
    }
}

/// The instructions, if an entry may have them.
pub fn instructions_of(
    alloc: Global,
    texts: &[InstructionText],
) -> Result<Option<InstructionList>, AllocError>
    ensures some { IfOk result (λ list. IfSome list (λ xs. (xs ≡ map view_instruction texts.now) × (are_kept xs ≡ true))) }
    ensures none { IfOk result (λ list. IfNone list (are_kept (map view_instruction texts.now) ≡ false)) }
{
    let mut list = Vec::new(alloc);
    for text in texts {
        match instruction_of(text)? {
            Some(instruction) => list.push(instruction)?,
            None => return Ok(None),
        }
    }
    Ok(InstructionList::new(list))
}

/// The refusal of a flow as the only one of a switch without groups.
pub fn refusal_of(flow: &FlowText) -> NoMessage
    ensures { result ≡ error_of_refusal (lone_refusal (view flow.now)) }
{
    match refusal_beside(&[], flow) {
        Some(code) => NoMessage::Refused(code),
        None => NoMessage::Missing,
    }
}

fn bare_of(alloc: Global, flow: &FlowText) -> Result<FlowText, AllocError>
    ensures { IfOk result (λ bare. view bare ≡ without_instructions (view flow.now)) }
{
    Ok(FlowText {
        head: flow.head,
        fields: flow.fields.clone()?,
        instructions: Vec::new(alloc),
    })
}

// The match of a flow, unless it, its table or its flags are refused.
fn match_of(alloc: Global, flow: &FlowText) -> Result<Match, NoMessage>
    requires { IsSoundFlow (view flow.now) }
    ensures found { IfOk result (λ m. m ≡ (view flow.now).fields) }
    ensures accepted { OnOk result (lone_refusal (without_instructions (view flow.now)) ≡ None) }
    ensures failed { IfErr result (FailsBy (lone_refusal (without_instructions (view flow.now)))) }
{
    let bare = bare_of(alloc, flow)?;
    match refusal_beside(&[], &bare) {
        Some(code) => Err(NoMessage::Refused(code)),
        None => Ok(bare.to_match()?),
    }
}

// The FLOW_MOD of a flow with that match and these instructions.
fn flow_mod_with(
    command: FlowModCommand,
    table: u8,
    head: FlowHead,
    fields: Match,
    instructions: InstructionList,
) -> FlowMod
    ensures { result ≡ commanded_flow_mod command table (record { head = head; fields = fields; instructions = instructions }) }
{
    FlowMod {
        cookie: head.cookie,
        cookie_mask: 0,
        table,
        command,
        idle_timeout: head.idle,
        hard_timeout: head.hard,
        priority: head.priority,
        buffer: OFP_NO_BUFFER,
        out_port: OFPP_ANY,
        out_group: OFPG_ANY,
        flags: head.flags,
        fields,
        instructions,
    }
}

// The FLOW_MOD of a flow.
#[tactic(auto, unfolding(crate::specs::MessageFlows::flow_mod_said))]
fn flow_mod(
    alloc: Global,
    xid: u32,
    command: FlowModCommand,
    table: u8,
    flow: &FlowText,
) -> Result<Bytes, NoMessage>
    requires { IsSoundFlow (view flow.now) }
    ensures { SaysOrFails result (flow_mod_said xid command table (view flow.now)) }
{
    let fields = match_of(alloc, flow)?;
    match instructions_of(alloc, &flow.instructions)? {
        Some(list) => {
            let message = flow_mod_with(command, table, flow.head, fields, list);
            Ok(write_flow_mod(alloc, xid, &message)?)
        }
        None => Err(refusal_of(flow)),
    }
}

// The table of the message: a DELETE without a word for it is about all tables.
fn table_of(command: FlowModCommand, words: &[u8], flow: &FlowText) -> u8
    ensures { result ≡ table_said command words.now (view flow.now) }
{
    if command.is_delete() && !names_table(words) {
        OFPTT_ALL
    } else {
        flow.head.table
    }
}

// The FLOW_MOD of what a line says.
fn flow_content(
    alloc: Global,
    xid: u32,
    command: FlowModCommand,
    words: &[u8],
    content: LineContent,
) -> Result<Bytes, NoMessage>
    requires { IsSoundContent content }
    ensures { SaysOrFails result (flow_content_said xid command words.now (view_line_content content)) }
{
    match content {
        LineContent::Flow(flow, _) => flow_mod(
            alloc,
            xid,
            command,
            table_of(command, words, &flow),
            &flow,
        ),
        LineContent::Refused(faults) => Err(NoMessage::Faults(faults)),
        LineContent::Nothing | LineContent::Group(_) => refuse_word(alloc, words),
    }
}

/// FLOW_MOD (OpenFlow 1.3.5, 7.3.4.1).
#[tactic(auto, unfolding(crate::specs::MessageFlows::flow_words_said))]
pub fn flow_message(alloc: Global, xid: u32, text: &[u8]) -> Result<Bytes, NoMessage>
    ensures { SaysOrFails result (flow_words_said xid text.now) }
{
    let (command, words) = command_of(text);
    let line = line_of(alloc, command, words)?;
    let content = read_line(alloc, MODE, &[], &line)?;
    flow_content(alloc, xid, command, words, content)
}
