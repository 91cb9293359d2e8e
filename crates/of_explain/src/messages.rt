//! Messages in words.
ghost use Rattle.std.specs.{Prelude.◌≡◌, Prelude.◌++◌, Prelude.OnOk};
ghost use Rattle.std.specs.List.{flat_map};
ghost use Rattle.of_oxm.specs.MatchReading.{match_of};
ghost use Rattle.of_explain.specs.Messages.{and_code, and_match, error_fields, fields_of_message, spaced_field, message_words, multipart_fields, multipart_reply_fields, packet_in_and_match, type_and_fields};
ghost use Rattle.of_explain.specs.Fields.{big_number_at as a_number_at};

use crate::fields::{behind, half_at, number_at, push_fields};
use crate::names::{Names, push_name, push_named};
use crate::notes::push_size;
use crate::told::{
    HEADER, MULTIPART, PACKET_IN, REFUSED, asked_fields, counted_fields, message_fields,
};
use of_oxm::{MatchField, read_match};
use of_values::{push_each, push_field_words};
use of_wire::{Code, ReadError};
use std::alloc::{AllocError, Global};

// Appends the names of an error's type and code.
#[tactic(auto, unfolding(crate::specs::Messages::and_code))]
fn push_code(out: &mut Vec<u8>, kind: Option<u16>, code: Option<u16>) -> Result<(), AllocError>
    ensures { OnOk result (out.new.items ≡ out.old.items ++ and_code kind code) }
{
    let Some(kind) = kind else {
        return Ok(());
    };
    let Some(code) = code else {
        return Ok(());
    };
    out.push(b' ')?;
    push_name(out, Names::ErrorTypes, u64::from(kind))?;
    out.push(b' ')?;
    push_named(out, Code { kind, code }.name(), u64::from(code))
}

// ERROR (OpenFlow 1.3.5, 7.4.4).
#[tactic(auto, unfolding(crate::specs::Messages::error_fields))]
fn push_error(alloc: Global, out: &mut Vec<u8>, message: &[u8]) -> Result<(), AllocError>
    ensures { OnOk result (out.new.items ≡ out.old.items ++ error_fields message.now) }
{
    push_code(out, half_at(message, 8), half_at(message, 10))?;
    push_fields(alloc, out, message, REFUSED)
}

// MULTIPART_REQUEST (7.3.5).
#[tactic(auto, unfolding(crate::specs::Messages::multipart_fields))]
fn push_multipart(alloc: Global, out: &mut Vec<u8>, message: &[u8]) -> Result<(), AllocError>
    ensures { OnOk result (out.new.items ≡ out.old.items ++ multipart_fields message.now) }
{
    push_fields(alloc, out, message, MULTIPART)?;
    push_fields(alloc, out, message, asked_fields(half_at(message, 8)))
}

// MULTIPART_REPLY (7.3.5): its type, and of AGGREGATE what it says; rows stand below.
#[tactic(auto, unfolding(crate::specs::Messages::multipart_reply_fields))]
fn push_multipart_reply(alloc: Global, out: &mut Vec<u8>, message: &[u8]) -> Result<(), AllocError>
    ensures { OnOk result (out.new.items ≡ out.old.items ++ multipart_reply_fields message.now) }
{
    push_fields(alloc, out, message, MULTIPART)?;
    push_fields(alloc, out, message, counted_fields(half_at(message, 8)))
}

fn push_spaced_field(out: &mut Vec<u8>, e: &MatchField) -> Result<(), AllocError>
    ensures { OnOk result (out.new.items ≡ out.old.items ++ spaced_field e.now) }
{
    out.push(b' ')?;
    push_field_words(out, e)
}

fn push_spaced_fields(out: &mut Vec<u8>, fields: &[MatchField]) -> Result<(), AllocError>
    ensures { OnOk result (out.new.items ≡ out.old.items ++ flat_map spaced_field fields.now) }
{
    push_each(out, fields, push_spaced_field)
}

// Appends the fields of the match at the front of these bytes.
fn push_match(alloc: Global, out: &mut Vec<u8>, bytes: &[u8]) -> Result<(), AllocError>
    ensures { OnOk result (out.new.items ≡ out.old.items ++ and_match (match_of bytes.now)) }
{
    match read_match(alloc, bytes) {
        Ok((found, _)) => push_spaced_fields(out, found.fields()),
        Err(ReadError::Refused(_)) => Ok(()),
        Err(ReadError::Memory) => Err(AllocError),
    }
}

// PACKET_IN (7.4.1): its fields, and those of its match.
#[tactic(auto, unfolding(crate::specs::Messages::packet_in_and_match))]
fn push_packet_in(alloc: Global, out: &mut Vec<u8>, message: &[u8]) -> Result<(), AllocError>
    ensures { OnOk result (out.new.items ≡ out.old.items ++ packet_in_and_match message.now) }
{
    push_fields(alloc, out, message, PACKET_IN)?;
    push_match(alloc, out, behind(message, 24))
}

// Appends what a message of that type says.
#[tactic(auto, unfolding(crate::specs::Messages::fields_of_message))]
fn push_body(alloc: Global, out: &mut Vec<u8>, kind: u64, message: &[u8]) -> Result<(), AllocError>
    ensures { OnOk result (out.new.items ≡ out.old.items ++ fields_of_message kind message.now) }
{
    match kind {
        1 => push_error(alloc, out, message),
        10 => push_packet_in(alloc, out, message),
        18 => push_multipart(alloc, out, message),
        19 => push_multipart_reply(alloc, out, message),
        _ => push_fields(alloc, out, message, message_fields(kind)),
    }
}

// Appends the name of a message, its transaction id and what it says.
#[tactic(auto, unfolding(crate::specs::Messages::type_and_fields))]
fn push_type(alloc: Global, out: &mut Vec<u8>, message: &[u8]) -> Result<(), AllocError>
    ensures { OnOk result (out.new.items ≡ out.old.items ++ type_and_fields (a_number_at 1 1 message.now) message.now) }
{
    let Some(kind) = number_at(message, 1, 1) else {
        return Ok(());
    };
    push_name(out, Names::Types, kind)?;
    push_fields(alloc, out, message, HEADER)?;
    push_body(alloc, out, kind, message)
}

/// Appends a message in words: its name, its transaction id, the fields of its type, and how many bytes it has.
///
/// What is beyond the message's end is left out, and a number without a name is written in decimal.
#[tactic(auto, unfolding(crate::specs::Messages::message_words))]
pub fn push_message(alloc: Global, out: &mut Vec<u8>, message: &[u8]) -> Result<(), AllocError>
    ensures { OnOk result (out.new.items ≡ out.old.items ++ message_words message.now) }
{
    push_type(alloc, out, message)?;
    push_size(out, message.len())
}
