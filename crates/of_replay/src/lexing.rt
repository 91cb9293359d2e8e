//! Words, numbers and bytes of event files.
ghost use Rattle.std.specs.Prelude.{◌≡◌, ◌==◌, ◌&&◌, ◌<◌, ◌≤◌, ◌^◌, ◌+◌, ◌*◌, ◌++◌, ◌-◌, if◌then◌else◌, length, replicate, Some, None, IfOk, IfSome, position, vec_len};
ghost use Rattle.std.specs.{Option.option_copied, Result.result_ok, List.list_all, Str.is_utf8};
ghost use Rattle.hex.specs.Hex.{decode_of};
ghost use Rattle.of_replay.specs.Lexing.{first_word, after_first_word, is_line, word_number, moment_of, decimal, below_limit, value_of_decimal, hex_bytes, hw_of, name_in_word, state_of, is_name_byte};

use of_text::is;
use of_wire::{front_of, rest_from};
use std::alloc::AllocError;

/// How many bytes a line has at most, without its end.
const LONGEST_LINE: usize = 1_048_576;

// The place of the first space.
fn space_in(line: &[u8]) -> Option<usize>
    ensures place { result ≡ position (λ b. b == 32) line.now }
    ensures within { IfSome result (λ k. k < length line.now) }
{
    line.iter().position(|b| *b == b' ')
}

/// The first word of a line, and what follows the space after it.
pub fn cut_word(line: &[u8]) -> (&[u8], Option<&[u8]>)
    ensures word { result.0.now ≡ first_word line.now }
    ensures rest { option_copied result.1 ≡ after_first_word line.now }
{
    match space_in(line) {
        None => (line, None),
        Some(at) => (front_of(line, at), Some(rest_from(line, at + 1))),
    }
}

/// Whether a line is one that a file may have: UTF-8, of 1,048,576 bytes at most.
pub fn is_readable(line: &[u8]) -> bool
    ensures { result ≡ is_line line.now }
{
    line.len() <= LONGEST_LINE && is_text(line)
}

fn is_text(line: &[u8]) -> bool
    ensures { result ≡ is_utf8 line.now }
{
    match std::str::from_utf8(line) {
        Ok(_) => true,
        Err(_) => false,
    }
}

/// A decimal number of 32 bits, without leading zeros.
pub fn read_number(word: &[u8]) -> Option<u32>
    ensures { result ≡ word_number word.now }
{
    match read_decimal(word, 1 << 32) {
        Some(value) => Some(value as u32),
        None => None,
    }
}

/// A decimal number of 64 bits, without leading zeros.
pub fn read_moment(word: &[u8]) -> Option<u64>
    ensures { result ≡ moment_of word.now }
{
    match read_decimal(word, 1 << 64) {
        Some(value) => Some(value as u64),
        None => None,
    }
}

fn read_decimal(word: &[u8], limit: u128) -> Option<u128>
    requires some { 0 < limit }
    requires most { limit ≤ 2 ^ 64 }
    ensures value { result ≡ decimal limit word.now }
    ensures below { IfSome result (λ value. value < limit) }
{
    match word {
        [] => None,
        [b'0', _, ..] => None,
        _ => read_digits(word, limit),
    }
}

#[tactic(auto, using(crate::proofs::DigitLemmas::grown, crate::proofs::DigitLemmas::digit_more))]
fn read_digits(word: &[u8], limit: u128) -> Option<u128>
    requires some { 0 < limit }
    requires most { limit ≤ 2 ^ 64 }
    ensures value { result ≡ below_limit limit (value_of_decimal 0 word.now) }
    ensures below { IfSome result (λ value. value < limit) }
{
    let mut value: u128 = 0;
    for digit in word {
        if *digit < b'0' || *digit > b'9' {
            return None;
        }
        value = 10 * value + u128::from(*digit - b'0');
        if value >= limit {
            return None;
        }
    }
    Some(value)
}

/// Decodes a word of hex digits, or `-` for no bytes, into the buffer; returns whether it is one.
pub fn read_bytes(word: &[u8], bytes: &mut Vec<u8>) -> Result<bool, AllocError>
    ensures { IfOk result (λ found. hex_bytes word.now ≡ (if found then Some bytes.new.items else None)) }
{
    if is(word, b"-") {
        bytes.clear();
        return Ok(true);
    }
    if word.is_empty() || word.len() % 2 == 1 {
        return Ok(false);
    }
    bytes.resize(word.len() / 2, 0)?;
    Ok(decode_into(word, bytes))
}

fn decode_into(word: &[u8], bytes: &mut Vec<u8>) -> bool
    requires { 2 * vec_len bytes.old ≡ length word.now }
    ensures { result_ok (decode_of word.now) ≡ (if result then Some bytes.new.items else None) }
{
    hex::decode_to_slice(word, bytes.as_mut_slice()).is_ok()
}

/// A hardware address: 12 hex digits.
pub fn read_hw(word: &[u8]) -> Option<[u8; 6]>
    ensures { result ≡ hw_of word.now }
{
    let mut hw = [0u8; 6];
    match hex::decode_to_slice(word, &mut hw) {
        Ok(()) => Some(hw),
        Err(_) => None,
    }
}

fn is_name_text(word: &[u8]) -> bool
    ensures { result ≡ list_all is_name_byte word.now }
{
    word.iter()
        .all(|b| *b >= b'a' && *b <= b'z' || *b >= b'0' && *b <= b'9')
}

/// A port's name: 1 to 15 of a to z and 0 to 9, padded with zeros.
pub fn read_name(word: &[u8]) -> Option<[u8; 16]>
    ensures { result ≡ name_in_word word.now }
{
    if word.is_empty() || word.len() > 15 || !is_name_text(word) {
        return None;
    }
    Some(padded(word))
}

fn padded(word: &[u8]) -> [u8; 16]
    requires { length word.now ≤ 16 }
    ensures { result ≡ word.now ++ replicate (16 - length word.now) 0 }
{
    let mut name = [0u8; 16];
    name[..word.len()].copy_from_slice(word);
    name
}

/// `up` or `down`.
pub fn read_state(word: &[u8]) -> Option<bool>
    ensures { result ≡ state_of word.now }
{
    if is(word, b"up") {
        Some(true)
    } else if is(word, b"down") {
        Some(false)
    } else {
        None
    }
}
