//! The message that words say.
ghost use Rattle.of_ovs_text.specs.{Messages.bytes_said, Messages.message_in_words, Reasons.SaysOrFails};

use crate::cutting::cut_first;
use crate::flow::flow_message;
use crate::group::group_message;
use crate::no_message::NoMessage;
use crate::packet_out::packet_message;
use crate::short::{bare_message, bare_type_of, config_message, role_message};
use of_messages::read_message;
use of_text::is;
use of_wire::{Bytes, ReadError};
use std::alloc::Global;

// The message of that kind, whether or not the switch refuses it.
#[tactic(auto, unfolding(crate::specs::Messages::bytes_said))]
fn message_of_kind(alloc: Global, xid: u32, kind: &[u8], rest: &[u8]) -> Result<Bytes, NoMessage>
    ensures { SaysOrFails result (bytes_said xid kind.now rest.now) }
{
    if let Some(number) = bare_type_of(kind) {
        bare_message(alloc, xid, number, rest)
    } else if is(kind, b"flow") {
        flow_message(alloc, xid, rest)
    } else if is(kind, b"group") {
        group_message(alloc, xid, rest)
    } else if is(kind, b"packet-out") {
        packet_message(alloc, xid, rest)
    } else if is(kind, b"role") {
        role_message(alloc, xid, rest)
    } else if is(kind, b"set-config") {
        config_message(alloc, xid, rest)
    } else {
        Err(NoMessage::Kind)
    }
}

/// The bytes of the message of a controller that words say, with that transaction id: one that the switch reads.
#[tactic(auto, unfolding(crate::specs::Messages::message_in_words))]
pub fn message_bytes(alloc: Global, xid: u32, words: &[u8]) -> Result<Bytes, NoMessage>
    ensures { SaysOrFails result (message_in_words xid words.now) }
{
    let (kind, rest) = cut_first(words);
    let bytes = message_of_kind(alloc, xid, kind, rest)?;
    match read_message(alloc, bytes.as_slice()) {
        Ok(_) => Ok(bytes),
        Err(ReadError::Refused(code)) => Err(NoMessage::Refused(code)),
        Err(ReadError::Memory) => Err(NoMessage::NoMemory),
    }
}
