//! What is wrong with the words of a line.

use crate::action_lines::{ActionUsage, usage_of, words_of};
use crate::forms::{Form, Word};
use crate::values::{is_decimal, prefix_in, value_in, value_of};
use of_actions::ActionRow;
use of_layers::Field;
use std::fmt::{self, Display, Formatter};
use thiserror::Error;

/// What is wrong with the words of a line.
#[derive(Clone, Copy, Debug, Error)]
pub enum WordFault {
    #[error("a missing or extra word: write {0}")]
    Form(&'static str),
    #[error("a missing or extra word: write {0}")]
    Action(ActionUsage),
    /// Words count from 1.
    #[error("{wanted}")]
    Word { place: usize, wanted: Wanted },
}

/// What a word has to be.
#[derive(Clone, Copy, Debug, Error)]
pub enum Wanted {
    #[error("a decimal number, without a sign and without leading zeros")]
    Decimal,
    #[error("the number is at most {0}")]
    Most(u64),
    #[error("an odd number of hexadecimal digits; a byte has two")]
    EvenDigits,
    #[error("bytes are hexadecimal digits, without 0x and without separators, or - for none")]
    Bytes,
    #[error("a hardware address is 12 hexadecimal digits, without colons")]
    Hardware,
    #[error("a port's name has 1 to 15 bytes, of a to z and 0 to 9")]
    PortName,
    #[error("up or down")]
    State,
    #[error("all, indirect or ff")]
    GroupKind,
    #[error("0x and {0} lower case hexadecimal digits")]
    Hex(usize),
    #[error("0x and {digits} lower case hexadecimal digits, here {here}")]
    Number { digits: usize, here: HexNumber },
    #[error("a value and a mask of 8 hexadecimal digits, here {value} {mask}")]
    Prefix { value: HexNumber, mask: HexNumber },
    #[error("unknown field; fields are in_port, metadata, eth_dst, eth_src, eth_type, vlan_vid, vlan_pcp, ip_dscp, ip_ecn, ip_proto, ipv4_src, ipv4_dst, tcp_src, tcp_dst, udp_src, udp_dst, icmpv4_type, icmpv4_code, arp_op, arp_spa, arp_tpa, arp_sha, arp_tha, ipv6_src, ipv6_dst, ipv6_flabel, icmpv6_type, icmpv6_code")]
    Field,
}

/// A number of 2, 4, 8, 12 or 16 hexadecimal digits.
#[derive(Clone, Copy, Debug)]
pub struct HexNumber {
    digits: usize,
    value: u64,
}

impl Display for HexNumber {
    fn fmt<W: fmt::Write>(&self, f: &mut Formatter<W>) -> fmt::Result {
        match self.digits {
            2 => write!(f, "0x{:02x}", self.value),
            4 => write!(f, "0x{:04x}", self.value),
            8 => write!(f, "0x{:08x}", self.value),
            16 => write!(f, "0x{:016x}", self.value),
            _ => write!(f, "0x{:012x}", self.value),
        }
    }
}

fn is(word: &[u8], wanted: &[u8]) -> bool {
    word == wanted
}

fn decimal_fault(word: &[u8], most: u64) -> Option<Wanted> {
    if !is_decimal(word) {
        return Some(Wanted::Decimal);
    }
    match value_of(word) {
        Some(value) if value <= most => None,
        _ => Some(Wanted::Most(most)),
    }
}

fn bytes_fault(word: &[u8]) -> Option<Wanted> {
    if is(word, b"-") {
        return None;
    }
    if !word.iter().all(|byte| byte.is_ascii_hexdigit()) {
        return Some(Wanted::Bytes);
    }
    if word.len() % 2 == 1 {
        return Some(Wanted::EvenDigits);
    }
    None
}

fn is_lower_hex(byte: u8) -> bool {
    byte.is_ascii_digit() || (b'a'..=b'f').contains(&byte)
}

fn hex_fault(word: &[u8], bytes: usize) -> Option<Wanted> {
    let digits = bytes.saturating_mul(2);
    match word.strip_prefix(b"0x") {
        Some(rest) if rest.len() == digits && rest.iter().all(|byte| is_lower_hex(*byte)) => None,
        _ => Some(value_fault(word, digits)),
    }
}

// The fault of a value that is not hexadecimal: how it is written, if it is a number or an address.
fn value_fault(word: &[u8], digits: usize) -> Wanted {
    if digits == 8 {
        if let Some((value, mask)) = prefix_in(word) {
            return Wanted::Prefix {
                value: HexNumber { digits, value },
                mask: HexNumber {
                    digits,
                    value: mask,
                },
            };
        }
    }
    match value_in(word, digits) {
        Some(value) => Wanted::Number {
            digits,
            here: HexNumber { digits, value },
        },
        None => Wanted::Hex(digits),
    }
}

fn is_port_name(word: &[u8]) -> bool {
    !word.is_empty()
        && word.len() <= 15
        && word
            .iter()
            .all(|byte| byte.is_ascii_lowercase() || byte.is_ascii_digit())
}

fn field_named(word: &[u8]) -> Option<Field> {
    Field::ALL
        .iter()
        .copied()
        .find(|field| field.name() == word)
}

// The fault where the test fails.
fn unless(good: bool, wanted: Wanted) -> Option<Wanted> {
    if good { None } else { Some(wanted) }
}

// What is wrong with a word, after the name of this field.
fn word_fault(kind: Word, word: &[u8], field: Option<Field>) -> Option<Wanted> {
    match kind {
        Word::Decimal(most) => decimal_fault(word, most),
        Word::Hex(bytes) => hex_fault(word, bytes),
        Word::Bytes => bytes_fault(word),
        Word::Hardware => unless(
            word.len() == 12 && word.iter().all(|byte| byte.is_ascii_hexdigit()),
            Wanted::Hardware,
        ),
        Word::PortName => unless(is_port_name(word), Wanted::PortName),
        Word::State => unless(is(word, b"up") || is(word, b"down"), Wanted::State),
        Word::GroupKind => unless(
            is(word, b"all") || is(word, b"indirect") || is(word, b"ff"),
            Wanted::GroupKind,
        ),
        Word::Field => unless(field_named(word).is_some(), Wanted::Field),
        Word::Value | Word::Mask => hex_fault(word, field?.row().bytes),
    }
}

// How many words there are.
fn count(words: Option<&[u8]>) -> usize {
    match words {
        None => 0,
        Some(words) => words.split(|byte| *byte == b' ').count(),
    }
}

// What is wrong with the words after so many others, if anything is.
fn fault_among(
    kinds: &[Word],
    before: usize,
    words: Option<&[u8]>,
    other_count: WordFault,
) -> Option<WordFault> {
    let found = count(words);
    let least = kinds.iter().filter(|word| **word != Word::Mask).count();
    if found < least || found > kinds.len() {
        return Some(other_count);
    }
    let mut place = before;
    let mut field = None;
    for (kind, word) in kinds.iter().zip(words?.split(|byte| *byte == b' ')) {
        place = place.saturating_add(1);
        if let Some(wanted) = word_fault(*kind, word, field) {
            return Some(WordFault::Word { place, wanted });
        }
        if *kind == Word::Field {
            field = field_named(word);
        }
    }
    None
}

/// What is wrong with the words after the name of a form, if anything is.
pub fn words_fault(form: &Form, words: Option<&[u8]>) -> Option<WordFault> {
    // the words of the name come first
    let before = count(Some(form.name));
    fault_among(form.words, before, words, WordFault::Form(form.usage))
}

/// What is wrong with the words after that of an action, if anything is.
pub fn action_fault(row: ActionRow, words: Option<&[u8]>) -> Option<WordFault> {
    fault_among(
        words_of(row.form),
        1,
        words,
        WordFault::Action(usage_of(row)),
    )
}
