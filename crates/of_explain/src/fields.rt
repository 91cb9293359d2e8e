//! Fields of messages in words.
ghost use Rattle.std.specs.Prelude.{◌≡◌, ◌≤◌, ◌<◌, ◌^◌, ◌++◌, drop, map, IsTrue, OnOk};
ghost use Rattle.of_explain.specs.Fields.{and_name, and_number, are_short, field_of, message_field_words, in_hex, big_number_at as a_number_at, words_unless_any, fields_words};

use crate::names::{Names, push_name};
use crate::notes::push_with_number;
use byteorder::{BigEndian, ByteOrder};
use of_wire::limits::OFPP_ANY;
use std::alloc::{AllocError, Global};

/// How a field is printed.
#[derive(Clone, Copy)]
pub enum Form {
    /// Its number in decimal.
    Plainly,
    /// The name of its number.
    Named(Names),
    /// Its bytes in hex digits.
    InHex,
    /// Its number in decimal; nothing where that is 0xffffffff, which names none.
    UnlessAny,
    /// Its bytes in hex digits; nothing where they are zeros.
    UnlessZero,
}

/// A field as it is told: the word before it, the place where it begins, its size in bytes, and its form.
#[derive(Clone, Copy)]
pub struct Field(pub &'static str, pub u16, pub u8, pub Form);

/// The number of `size` bytes at a place of a message; None where the message ends before it.
pub fn number_at(message: &[u8], at: usize, size: usize) -> Option<u64>
    requires place { at < 2 ^ 16 }
    requires some { 1 ≤ size }
    requires most { size ≤ 8 }
    ensures { result ≡ a_number_at at size message.now }
{
    if at + size <= message.len() {
        Some(BigEndian::read_uint(&message[at..], size))
    } else {
        None
    }
}

/// The number of two bytes at a place of a message; None where the message ends before it.
pub fn half_at(message: &[u8], at: usize) -> Option<u16>
    requires place { at < 2 ^ 16 }
    ensures { result ≡ a_number_at at 2 message.now }
{
    if at + 2 <= message.len() {
        Some(BigEndian::read_u16(&message[at..]))
    } else {
        None
    }
}

/// The bytes from that place on; none where they end before it.
pub fn behind(bytes: &[u8], at: usize) -> &[u8]
    ensures { result.now ≡ drop at bytes.now }
{
    if at < bytes.len() { &bytes[at..] } else { &[] }
}

// Appends a word and a number.
fn push_plainly(out: &mut Vec<u8>, word: &[u8], number: Option<u64>) -> Result<(), AllocError>
    ensures { OnOk result (out.new.items ≡ out.old.items ++ and_number word.now number) }
{
    match number {
        None => Ok(()),
        Some(number) => push_with_number(out, word, number),
    }
}

// Appends a word and a number by its name.
fn push_by_name(
    out: &mut Vec<u8>,
    word: &[u8],
    names: Names,
    number: Option<u64>,
) -> Result<(), AllocError>
    ensures { OnOk result (out.new.items ≡ out.old.items ++ and_name word.now names number) }
{
    let Some(number) = number else {
        return Ok(());
    };
    out.extend_from_slice(word)?;
    out.push(b' ')?;
    push_name(out, names, number)
}

// Appends a word and a number; nothing where it is 0xffffffff.
fn push_unless_any(out: &mut Vec<u8>, word: &[u8], number: Option<u64>) -> Result<(), AllocError>
    ensures { OnOk result (out.new.items ≡ out.old.items ++ words_unless_any word.now number) }
{
    match number {
        Some(number) if number != u64::from(OFPP_ANY) => push_with_number(out, word, number),
        _ => Ok(()),
    }
}

// Appends a word and `size` bytes of a message in hex digits.
#[tactic(auto, unfolding(crate::specs::Fields::in_hex))]
fn push_in_hex(
    alloc: Global,
    out: &mut Vec<u8>,
    message: &[u8],
    word: &[u8],
    at: usize,
    size: usize,
) -> Result<(), AllocError>
    requires place { at < 2 ^ 16 }
    requires size { size < 2 ^ 16 }
    ensures { OnOk result (out.new.items ≡ out.old.items ++ in_hex word.now at size message.now) }
{
    if at + size > message.len() {
        return Ok(());
    }
    let digits = hex::encode(alloc, &message[at..at + size])?;
    out.extend_from_slice(word)?;
    out.extend_from_slice(b" 0x")?;
    out.extend_from_slice(digits.as_bytes())
}

// Appends a field.
fn push_field(
    alloc: Global,
    out: &mut Vec<u8>,
    message: &[u8],
    field: &Field,
) -> Result<(), AllocError>
    requires some { 1 ≤ (field_of field.now).size }
    requires most { (field_of field.now).size ≤ 8 }
    ensures { OnOk result (out.new.items ≡ out.old.items ++ message_field_words message.now (field_of field.now)) }
{
    let Field(word, at, size, form) = *field;
    let word = word.as_bytes();
    let at = usize::from(at);
    let size = usize::from(size);
    let number = number_at(message, at, size);
    match form {
        Form::Plainly => push_plainly(out, word, number),
        Form::Named(names) => push_by_name(out, word, names, number),
        Form::UnlessAny => push_unless_any(out, word, number),
        Form::InHex => push_in_hex(alloc, out, message, word, at, size),
        Form::UnlessZero => match number {
            Some(0) => Ok(()),
            _ => push_in_hex(alloc, out, message, word, at, size),
        },
    }
}

/// Appends fields, one after the other. What is beyond the end of the message is left out.
#[tactic(auto, unfolding(crate::specs::Fields::fields_words))]
pub fn push_fields(
    alloc: Global,
    out: &mut Vec<u8>,
    message: &[u8],
    fields: &[Field],
) -> Result<(), AllocError>
    requires { IsTrue (are_short (map field_of fields.now)) }
    ensures { OnOk result (out.new.items ≡ out.old.items ++ fields_words (map field_of fields.now) message.now) }
{
    for field in fields {
        push_field(alloc, out, message, field)?;
    }
    Ok(())
}
