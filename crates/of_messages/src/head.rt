//! The refusals of a message before its body is read.
ghost use Rattle.std.specs.Prelude.{◌≡◌, ◌≤◌, ◌<◌, ◌+◌, ◌++◌, length, OnOk, MatchResult, None, Some};
ghost use Rattle.std.specs.Option.{option_map};
ghost use Rattle.of_wire.specs.Refusals.{first_of};
ghost use Rattle.of_messages.specs.Heads.{HasHead, actions_length, format_of, head_refusals, is_change as changes, role_refusals, size_by_type};

use crate::role::Role;
use byteorder::{BigEndian, ByteOrder};
use of_formats::messages::{EXPERIMENTER, HELLO, PACKET_OUT};
use of_formats::{MessageRow, Size, message_row};
use of_wire::Code;
use of_wire::codes::{
    OFPBRC_BAD_EXPERIMENTER, OFPBRC_BAD_LEN, OFPBRC_BAD_TYPE, OFPBRC_BAD_VERSION, OFPBRC_IS_SLAVE,
};

// The row of a type that the switch reads; None for another.
fn row_read(kind: u8) -> Option<&'static MessageRow>
    ensures { option_map (λ row. row.now) result ≡ format_of kind }
{
    let row = message_row(u64::from(kind))?;
    if row.way.is_read() { Some(row) } else { None }
}

// The size of the messages of a supported type.
fn size_of_type(kind: u8) -> Option<Size>
    ensures { result ≡ size_by_type kind }
{
    Some(row_read(kind)?.size)
}

/// How many bytes the actions of a PACKET_OUT have.
pub(crate) fn actions_length_in(message: &[u8]) -> usize
    requires { 24 ≤ length message.now }
    ensures value { result ≡ actions_length message.now }
    ensures most { result < 65536 }
{
    BigEndian::read_u16(&message[16..]) as usize
}

/// Refuses a message by its version, type and length alone, in that order (OpenFlow 1.3.5, 7.1 and 7.4.4).
///
/// A message is refused with the first that applies: it is not as long as its header says (1/6); it is of another version,
/// and no HELLO (1/0); it is an EXPERIMENTER (1/3); its type is not supported, or one that only a switch sends (1/1); its length
/// is not that of its type (1/6): exactly 12 bytes for SET_CONFIG, 16 for TABLE_MOD, 24 for ROLE_REQUEST, 32 for SET_ASYNC,
/// 40 for PORT_MOD, and 8 for the messages without a body; at least 12 for ERROR, 16 for GROUP_MOD and MULTIPART_REQUEST,
/// 56 for FLOW_MOD, and for PACKET_OUT 24 and those of its actions.
pub fn check_head(message: &[u8]) -> Result<(), Code>
    ensures refusal { MatchResult result (λ _. first_of (head_refusals message.now) ≡ None) (λ code. first_of (head_refusals message.now) ≡ Some code) }
    ensures head { OnOk result (HasHead message.now) }
{
    if message.len() < 8 || BigEndian::read_u16(&message[2..]) as usize != message.len() {
        return Err(OFPBRC_BAD_LEN);
    }
    let kind = message[1];
    if kind != HELLO && message[0] != 4 {
        return Err(OFPBRC_BAD_VERSION);
    }
    if kind == EXPERIMENTER {
        return Err(OFPBRC_BAD_EXPERIMENTER);
    }
    let Some(size) = size_of_type(kind) else {
        return Err(OFPBRC_BAD_TYPE);
    };
    if size.is_bad(message.len()) {
        return Err(OFPBRC_BAD_LEN);
    }
    if kind == PACKET_OUT && message.len() < 24 + actions_length_in(message) {
        return Err(OFPBRC_BAD_LEN);
    }
    Ok(())
}

// Whether a message of that type would change the switch or send a packet.
fn is_change(kind: u8) -> bool
    ensures { result ≡ changes kind }
{
    row_read(kind).is_some_and(|row| row.changes)
}

/// Refuses a message by its header, and then by the role of the controller that sends it.
pub(crate) fn check_sender(role: Role, message: &[u8]) -> Result<(), Code>
    ensures refusal { MatchResult result
        (λ _. first_of (head_refusals message.now ++ role_refusals role message.now) ≡ None)
        (λ code. first_of (head_refusals message.now ++ role_refusals role message.now) ≡ Some code) }
    ensures head { OnOk result (HasHead message.now) }
{
    check_head(message)?;
    if role == Role::Slave && is_change(message[1]) {
        return Err(OFPBRC_IS_SLAVE);
    }
    Ok(())
}
