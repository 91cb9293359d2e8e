//! Why the fate of a frame changed.
ghost use Rattle.std.specs.Prelude.{◌≡◌, ◌++◌, IfOk, OnOk};
ghost use Rattle.of_messages.specs.Messages.{message_of};
ghost use Rattle.of_text.specs.Lines.{lines_of};
ghost use Rattle.of_history.specs.Reasons.{by_command as reason_by_command, by_group_mod as reason_by_group, by_message as reason_by_message, by_reading, is_lookup as is_of_lookup, parts_at_lookup as part_at_lookup, fate_reason_note, fate_reason, fate_reason_words};

use crate::cause::{By, Cause};
use crate::marks::push_marked;
use of_messages::{FlowModCommand, GroupMod, Message, read_message};
use of_text::{cut, is};
use of_wire::ReadError;
use std::alloc::{AllocError, Global};

/// Why the fate of a frame changed.
#[derive(Clone, Copy)]
pub enum Reason {
    /// An entry was added, so another one wins.
    Added,
    /// The entry was replaced by one of the same priority and match.
    Replaced,
    Modified,
    Deleted,
    Expired,
    /// The entry was deleted with its group.
    WithGroup,
    GroupDeleted,
    /// The buckets of a group changed.
    Buckets,
    Port,
}

impl Reason {
    /// In words.
    pub fn words(self) -> &'static [u8]
        ensures { result.now ≡ fate_reason_words self }
    {
        match self {
            Reason::Added => b"an entry was added, so another one wins",
            Reason::Replaced => b"the entry was replaced",
            Reason::Modified => b"the entry was modified",
            Reason::Deleted => b"the entry was deleted",
            Reason::Expired => b"the entry expired",
            Reason::WithGroup => b"the entry was deleted with its group",
            Reason::GroupDeleted => b"a group was deleted",
            Reason::Buckets => b"the buckets of a group changed",
            Reason::Port => b"a port changed",
        }
    }
}

fn is_lookup(line: &[u8]) -> bool
    ensures { result ≡ is_of_lookup line.now }
{
    line.starts_with(b"table ")
}

// Whether the first line of a way that another has not at its place is that of a lookup.
fn parts_at_lookup(old: &[u8], new: &[u8]) -> bool
    ensures { result ≡ part_at_lookup (lines_of old.now) (lines_of new.now) }
{
    let (mut gone, mut come) = (old, new);
    while !gone.is_empty() {
        let (old_line, old_rest) = cut(gone, b'\n');
        if come.is_empty() {
            return is_lookup(old_line);
        }
        let (new_line, new_rest) = cut(come, b'\n');
        if !is(old_line, new_line) {
            return is_lookup(old_line);
        }
        gone = old_rest;
        come = new_rest;
    }
    false
}

fn by_command(command: FlowModCommand, at_lookup: bool) -> Reason
    ensures { result ≡ reason_by_command command at_lookup }
{
    match command {
        FlowModCommand::Add => {
            if at_lookup {
                Reason::Added
            } else {
                Reason::Replaced
            }
        }
        FlowModCommand::Modify { .. } => Reason::Modified,
        FlowModCommand::Delete { .. } => Reason::Deleted,
    }
}

fn by_group_mod(group_mod: &GroupMod, at_lookup: bool) -> Reason
    ensures { result ≡ reason_by_group group_mod.now at_lookup }
{
    match group_mod {
        GroupMod::Delete(_) => {
            if at_lookup {
                Reason::WithGroup
            } else {
                Reason::GroupDeleted
            }
        }
        GroupMod::Add(_) | GroupMod::Modify(_) => Reason::Buckets,
    }
}

fn by_message(message: &Message, at_lookup: bool) -> Option<Reason>
    ensures { result ≡ reason_by_message message.now at_lookup }
{
    match message {
        Message::FlowMod(flow_mod) => Some(by_command(flow_mod.command, at_lookup)),
        Message::GroupMod(group_mod) => Some(by_group_mod(group_mod, at_lookup)),
        Message::PortMod(_) => Some(Reason::Port),
        _ => None,
    }
}

fn by_bytes(alloc: Global, bytes: &[u8], at_lookup: bool) -> Result<Option<Reason>, AllocError>
    ensures { IfOk result (λ reason. reason ≡ by_reading (message_of bytes.now) at_lookup) }
{
    match read_message(alloc, bytes) {
        Ok(message) => Ok(by_message(&message, at_lookup)),
        Err(ReadError::Refused(_)) => Ok(None),
        Err(ReadError::Memory) => Err(AllocError),
    }
}

/// Why the fate of a frame changed from one text to another.
#[tactic(auto, unfolding(crate::specs::Reasons::fate_reason))]
pub fn reason_of(
    alloc: Global,
    cause: &Cause<'_>,
    old: &[u8],
    new: &[u8],
) -> Result<Option<Reason>, AllocError>
    ensures { IfOk result (λ reason. reason ≡ fate_reason cause.now.by old.now new.now) }
{
    match cause.by {
        By::Message(_) => by_bytes(alloc, cause.text, parts_at_lookup(old, new)),
        By::Moment => Ok(Some(Reason::Expired)),
        By::Port => Ok(Some(Reason::Port)),
        By::Row => Ok(None),
    }
}

/// Appends a note about it, if it is known.
pub fn push_reason(out: &mut Vec<u8>, reason: Option<Reason>) -> Result<(), AllocError>
    ensures { OnOk result (out.new.items ≡ out.old.items ++ fate_reason_note reason) }
{
    match reason {
        None => Ok(()),
        Some(reason) => push_marked(out, b"    reason: ", reason.words()),
    }
}
