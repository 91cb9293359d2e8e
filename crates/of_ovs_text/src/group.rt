//! GROUP_MOD in words.
ghost use Rattle.std.specs.{Prelude.◌≡◌, Prelude.false, Prelude.IfOk, List.AllByRecursion, List.list_all};
ghost use Rattle.of_actions.specs.Supported.{are_supported as are_supported_so};
ghost use Rattle.of_groups.specs.Buckets.{are_fit};
ghost use Rattle.of_text.specs.{Rows.Fits, Groups.buckets_of, Groups.group_rows, Views.view_group};
ghost use Rattle.of_ovs_lines.specs.{LineContentViews.view_line_content, Sound.IsSoundContent};
ghost use Rattle.of_ovs_text.specs.MessageGroups.{delete_said, group_command, group_command_named, group_content_said, group_number_in, group_mod_bytes, group_mod_said, group_refusal, group_words_said};
ghost use Rattle.of_ovs_text.specs.{MessageFlows.content_of_line, Reasons.SaysOrFails, Reasons.error_of_refusal};

use crate::cutting::{cut_first, refuse_word};
use crate::flow::{MODE, instructions_of};
use crate::no_message::NoMessage;
use crate::writing::message_of;
use of_actions::Action;
use of_formats::messages::GROUP_MOD;
use of_messages::write_buckets;
use of_ovs_lines::{LineContent, read_line};
use of_ovs_words::{name_of, numbered, value_of};
use of_text::{BucketText, Config, FillError, GroupText, InstructionText, is};
use of_wire::limits::OFPG_ALL;
use of_wire::{Bytes, put_u32};
use std::alloc::{AllocError, Global};

#[derive(Clone, Copy, PartialEq, Eq)]
enum Command {
    Add,
    Modify,
    Delete,
}

#[tactic(auto, unfolding(crate::specs::MessageGroups::group_command_named))]
fn command_named(word: &[u8]) -> Option<Command>
    ensures { result ≡ group_command_named word.now }
{
    if is(word, b"add") {
        Some(Command::Add)
    } else if is(word, b"modify") {
        Some(Command::Modify)
    } else if is(word, b"delete") {
        Some(Command::Delete)
    } else {
        None
    }
}

// The command, and the words behind it.
fn command_of(text: &[u8]) -> (Command, &[u8])
    ensures { (result.0, result.1.now) ≡ group_command text.now }
{
    let (word, rest) = cut_first(text);
    match command_named(word) {
        Some(command) => (command, rest),
        None => (Command::Add, text),
    }
}

// A GROUP_MOD with these numbers and buckets (OpenFlow 1.3.5, 7.3.4.2).
fn group_mod(
    alloc: Global,
    xid: u32,
    command: u8,
    kind: u8,
    id: u32,
    buckets: &[u8],
) -> Result<Bytes, AllocError>
    ensures { IfOk result (λ bytes. bytes ≡ group_mod_bytes xid command kind id buckets.now) }
{
    let mut body = Vec::new(alloc);
    body.extend_from_slice(&[0, command, kind, 0])?;
    put_u32(&mut body, id)?;
    body.extend_from_slice(buckets)?;
    message_of(alloc, GROUP_MOD, xid, &body)
}

// Whether a bucket may have these actions.
fn are_supported(alloc: Global, actions: &Vec<Action>) -> Result<bool, AllocError>
    ensures { IfOk result (λ yes. yes ≡ are_supported_so false actions.now.items) }
{
    let write = InstructionText::Write(actions.clone()?);
    Ok(instructions_of(alloc, &[write])?.is_some())
}

fn all_supported(alloc: Global, buckets: &[BucketText]) -> Result<bool, AllocError>
    ensures { IfOk result (λ yes. yes ≡ list_all (λ b. are_supported_so false b.actions.items) buckets.now) }
{
    for bucket in buckets {
        if !are_supported(alloc, &bucket.actions)? {
            return Ok(false);
        }
    }
    Ok(true)
}

// Whether GROUP_MODs can say the group: 16 buckets at most, each with actions that are supported.
#[tactic(auto, using(crate::proofs::InstructionLemmas::fit_so))]
fn is_fit(alloc: Global, group: &GroupText) -> Result<bool, AllocError>
    ensures { IfOk result (λ yes. yes ≡ are_fit (buckets_of (view_group group.now))) }
{
    if 16 < group.buckets.len() {
        return Ok(false);
    }
    all_supported(alloc, &group.buckets)
}

// The refusal of a group as the only one of a switch.
fn refusal_of(alloc: Global, group: GroupText) -> Result<NoMessage, AllocError>
    requires { AllByRecursion Fits (group_rows (view_group group)) }
    ensures { IfOk result (λ e. e ≡ error_of_refusal (group_refusal (view_group group))) }
{
    let mut groups = Vec::new(alloc);
    groups.push(group)?;
    match Config::of_items(alloc, groups, Vec::new(alloc)) {
        Err(FillError::Refused { code, .. }) => Ok(NoMessage::Refused(code)),
        Err(FillError::NoMemory) => Err(AllocError),
        Ok(_) => Ok(NoMessage::Missing),
    }
}

// The GROUP_MOD of a group.
#[tactic(auto, unfolding(crate::specs::MessageGroups::group_mod_said))]
fn with_buckets(alloc: Global, xid: u32, command: u8, group: GroupText) -> Result<Bytes, NoMessage>
    requires { AllByRecursion Fits (group_rows (view_group group)) }
    ensures { SaysOrFails result (group_mod_said xid command (view_group group)) }
{
    if !is_fit(alloc, &group)? {
        return Err(refusal_of(alloc, group)?);
    }
    let buckets = write_buckets(alloc, &group.to_buckets()?)?;
    Ok(group_mod(
        alloc,
        xid,
        command,
        group.head.kind.number(),
        group.head.id,
        &buckets,
    )?)
}

// The GROUP_MOD that adds or modifies the group that a line says.
fn group_content(
    alloc: Global,
    xid: u32,
    command: u8,
    words: &[u8],
    content: LineContent,
) -> Result<Bytes, NoMessage>
    requires { IsSoundContent content }
    ensures { SaysOrFails result (group_content_said xid command words.now (view_line_content content)) }
{
    match content {
        LineContent::Group(group) => with_buckets(alloc, xid, command, group),
        LineContent::Refused(faults) => Err(NoMessage::Faults(faults)),
        LineContent::Nothing | LineContent::Flow(..) => refuse_word(alloc, words),
    }
}

fn change_message(alloc: Global, xid: u32, command: u8, words: &[u8]) -> Result<Bytes, NoMessage>
    ensures { SaysOrFails result (group_content_said xid command words.now (content_of_line words.now)) }
{
    let content = read_line(alloc, MODE, &[], words)?;
    group_content(alloc, xid, command, words, content)
}

// The number of a group in words: `group_id=N`, or `all`.
#[tactic(auto, unfolding(crate::specs::MessageGroups::group_number_in))]
fn group_in(word: &[u8]) -> Option<u32>
    ensures { result ≡ group_number_in word.now }
{
    if is(word, b"all") {
        return Some(OFPG_ALL);
    }
    if !is(name_of(word), b"group_id") {
        return None;
    }
    match numbered(0x1_0000_0000, value_of(word)) {
        Ok(number) => Some(number as u32),
        Err(_) => None,
    }
}

// The GROUP_MOD that deletes a group, or all. Its type is not read.
fn delete_message(alloc: Global, xid: u32, word: &[u8]) -> Result<Bytes, NoMessage>
    ensures { SaysOrFails result (delete_said xid (group_number_in word.now) word.now) }
{
    match group_in(word) {
        Some(id) => Ok(group_mod(alloc, xid, 2, 0, id, &[])?),
        None => refuse_word(alloc, word),
    }
}

/// GROUP_MOD (OpenFlow 1.3.5, 7.3.4.2).
#[tactic(auto, unfolding(crate::specs::MessageGroups::group_words_said))]
pub fn group_message(alloc: Global, xid: u32, text: &[u8]) -> Result<Bytes, NoMessage>
    ensures { SaysOrFails result (group_words_said xid text.now) }
{
    let (command, words) = command_of(text);
    match command {
        Command::Add => change_message(alloc, xid, 0, words),
        Command::Modify => change_message(alloc, xid, 1, words),
        Command::Delete => delete_message(alloc, xid, words),
    }
}
