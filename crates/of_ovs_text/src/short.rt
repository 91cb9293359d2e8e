//! Messages without lists: those without content, ROLE_REQUEST and SET_CONFIG.
ghost use Rattle.std.specs.Prelude.{◌≡◌, ◌∷◌, [], IfOk};
ghost use Rattle.of_formats.specs.{Structs.written, Tables.role as role_struct, Tables.switch_config};
ghost use Rattle.of_messages.specs.Written.{message};
ghost use Rattle.of_ovs_text.specs.Short.{bare_type, role_named, role_words_said, generation_in, bare_words_said, config_words_said};
ghost use Rattle.of_ovs_text.specs.Reasons.{SaysOrFails};

use crate::cutting::{cut_first, refuse_word};
use crate::no_message::NoMessage;
use crate::writing::message_of;
use of_formats::messages::{
    BARRIER_REQUEST, ECHO_REQUEST, FEATURES_REQUEST, GET_CONFIG_REQUEST, HELLO, ROLE_REQUEST,
    SET_CONFIG,
};
use of_ovs_words::{name_of, numbered, value_of};
use of_text::is;
use of_wire::{Bytes, put_u16, put_u32, put_u64};
use std::alloc::{AllocError, Global};

/// The type of the messages of a kind that have no content (OpenFlow 1.3.5, 7.1).
#[tactic(auto, unfolding(crate::specs::Short::bare_type))]
pub fn bare_type_of(kind: &[u8]) -> Option<u8>
    ensures { result ≡ bare_type kind.now }
{
    if is(kind, b"hello") {
        Some(HELLO)
    } else if is(kind, b"echo") {
        Some(ECHO_REQUEST)
    } else if is(kind, b"features") {
        Some(FEATURES_REQUEST)
    } else if is(kind, b"get-config") {
        Some(GET_CONFIG_REQUEST)
    } else if is(kind, b"barrier") {
        Some(BARRIER_REQUEST)
    } else {
        None
    }
}

/// A message without content, behind whose kind no word may come.
#[tactic(auto, unfolding(crate::specs::Short::bare_words_said))]
pub fn bare_message(alloc: Global, xid: u32, kind: u8, rest: &[u8]) -> Result<Bytes, NoMessage>
    ensures { SaysOrFails result (bare_words_said xid kind rest.now) }
{
    if !rest.is_empty() {
        return refuse_word(alloc, rest);
    }
    Ok(message_of(alloc, kind, xid, &[])?)
}

// The number of a role (OFPCR_ROLE_*).
#[tactic(auto, unfolding(crate::specs::Short::role_named))]
fn role_number(word: &[u8]) -> Option<u32>
    ensures { result ≡ role_named word.now }
{
    if is(word, b"nochange") {
        Some(0)
    } else if is(word, b"equal") {
        Some(1)
    } else if is(word, b"master") {
        Some(2)
    } else if is(word, b"slave") {
        Some(3)
    } else {
        None
    }
}

// A generation_id; 0 if there is no word.
#[tactic(auto, unfolding(crate::specs::Short::generation_in))]
fn generation_of(word: &[u8]) -> Option<u64>
    ensures { result ≡ generation_in word.now }
{
    if word.is_empty() {
        return Some(0);
    }
    match numbered(0x1_0000_0000_0000_0000, word) {
        Ok(generation) => Some(generation as u64),
        Err(_) => None,
    }
}

fn role_request(alloc: Global, xid: u32, role: u32, generation: u64) -> Result<Bytes, AllocError>
    ensures { IfOk result (λ bytes. bytes ≡ message ROLE_REQUEST xid (written role_struct (role ∷ generation ∷ []))) }
{
    let mut body = Vec::new(alloc);
    put_u32(&mut body, role)?;
    put_u32(&mut body, 0)?;
    put_u64(&mut body, generation)?;
    message_of(alloc, ROLE_REQUEST, xid, &body)
}

/// ROLE_REQUEST (OpenFlow 1.3.5, 7.3.9): the role, and a generation_id.
#[tactic(auto, unfolding(crate::specs::Short::role_words_said))]
pub fn role_message(alloc: Global, xid: u32, rest: &[u8]) -> Result<Bytes, NoMessage>
    ensures { SaysOrFails result (role_words_said xid rest.now) }
{
    let (word, generation) = cut_first(rest);
    let Some(role) = role_number(word) else {
        return refuse_word(alloc, word);
    };
    let Some(generation_id) = generation_of(generation) else {
        return refuse_word(alloc, generation);
    };
    Ok(role_request(alloc, xid, role, generation_id)?)
}

fn set_config(alloc: Global, xid: u32, miss_send_len: u16) -> Result<Bytes, AllocError>
    ensures { IfOk result (λ bytes. bytes ≡ message SET_CONFIG xid (written switch_config (0 ∷ miss_send_len ∷ []))) }
{
    let mut body = Vec::new(alloc);
    put_u16(&mut body, 0)?;
    put_u16(&mut body, miss_send_len)?;
    message_of(alloc, SET_CONFIG, xid, &body)
}

/// SET_CONFIG (OpenFlow 1.3.5, 7.3.2): `miss_send_len=N`, without flags.
#[tactic(auto, unfolding(crate::specs::Short::config_words_said))]
pub fn config_message(alloc: Global, xid: u32, word: &[u8]) -> Result<Bytes, NoMessage>
    ensures { SaysOrFails result (config_words_said xid word.now) }
{
    if is(name_of(word), b"miss_send_len")
        && let Ok(length) = numbered(0x1_0000, value_of(word))
    {
        return Ok(set_config(alloc, xid, length as u16)?);
    }
    refuse_word(alloc, word)
}
