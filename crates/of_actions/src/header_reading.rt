//! The headers of instructions from bytes (OpenFlow 1.3.5, 7.2.4).
ghost use Rattle.std.specs.Prelude.{◌≡◌, ◌≤◌, ◌==◌, ◌&&◌, not, List, [], true, false, length, IfOk, OnOk, IfErr, Some, None};
ghost use Rattle.std.specs.List.{list_all};
ghost use Rattle.of_wire.specs.{Failures.Fails, Refusals.first_of, Numbered.is_used as is_used_number, Numbered.is_distinct};
ghost use Rattle.of_actions.specs.Headers.{Header as AHeader, AreHeaders, header_at, header_refusals, is_known as is_known_kind, is_next as is_next_table, is_size as is_size_of_kind, kind_of, goto_table_at};
ghost use Rattle.of_actions.specs.{Beginnings.type_at, Beginnings.len_at, Unread.is_sound_header, Unread.leads_on};

use crate::unread::{Header, UnreadInstruction};
use byteorder::{BigEndian, ByteOrder};
use of_wire::codes::{
    OFPBIC_BAD_EXPERIMENTER, OFPBIC_BAD_LEN, OFPBIC_BAD_TABLE_ID, OFPBIC_UNKNOWN_INST,
    OFPBIC_UNSUP_INST,
};
use of_wire::{Code, ReadError};
use smallvec::SmallVec;
use std::alloc::Global;

fn is_known(kind: u16) -> bool
    ensures { result ≡ is_known_kind kind }
{
    1 <= kind && kind <= 5
}

fn is_size(kind: u16, len: usize) -> bool
    ensures { result ≡ is_size_of_kind kind len }
{
    match kind {
        1 | 5 => len == 8,
        2 => len == 24,
        _ => true,
    }
}

fn is_used(kind: u16, seen: &[UnreadInstruction]) -> bool
    ensures { result ≡ is_used_number kind_of kind seen.now }
{
    seen.iter().any(|other| other.kind() == kind)
}

fn is_next(table: u8, to: u8) -> bool
    ensures { result ≡ is_next_table table to }
{
    table < to && to < 16
}

// What follows the length of an instruction of a known type.
#[tactic(auto, unfolding(crate::specs::Headers::header_at))]
fn read_fields(rest: &[u8], kind: u16, len: usize, table: u8) -> Result<UnreadInstruction, Code>
    requires kind { kind ≡ type_at rest.now }
    requires known { is_known_kind kind ≡ true }
    requires len { len ≡ len_at rest.now }
    requires some { 8 ≤ len }
    requires whole { len ≤ length rest.now }
    requires size { is_size_of_kind kind len ≡ true }
    ensures none { OnOk result (((kind == 1) && not (is_next_table table (goto_table_at rest.now))) ≡ false) }
    ensures header { IfOk result (λ header. header_at rest.now ≡ Some header) }
    ensures sound { IfOk result (λ header. is_sound_header header ≡ true) }
    ensures leads_on { IfOk result (λ header. leads_on table header ≡ true) }
    ensures table { IfErr result (λ code. (((kind == 1) && not (is_next_table table (goto_table_at rest.now))) ≡ true) × (code ≡ OFPBIC_BAD_TABLE_ID)) }
{
    let (_, body) = rest.split_at(8);
    let header = match kind {
        1 => {
            let to = rest[4];
            if !is_next(table, to) {
                return Err(OFPBIC_BAD_TABLE_ID);
            }
            Header::Goto(to)
        }
        2 => {
            let (_, behind) = rest.split_at(16);
            Header::Metadata {
                value: BigEndian::read_u64(body),
                mask: BigEndian::read_u64(behind),
            }
        }
        3 => Header::Write(body.split_at(len - 8).0),
        4 => Header::Apply(body.split_at(len - 8).0),
        _ => Header::Clear,
    };
    Ok(UnreadInstruction { header })
}

// The instruction that the bytes begin with, and its size.
#[tactic(auto, unfolding(crate::specs::Headers::header_refusals))]
fn read_header<'a>(
    rest: &'a [u8],
    seen: &[UnreadInstruction],
    table: u8,
) -> Result<(UnreadInstruction<'a>, usize), Code>
    ensures size { IfOk result (λ read. read.1 ≡ len_at rest.now) }
    ensures some { IfOk result (λ read. 8 ≤ read.1) }
    ensures whole { IfOk result (λ read. read.1 ≤ length rest.now) }
    ensures none { OnOk result (first_of (header_refusals table seen.now rest.now) ≡ None) }
    ensures header { IfOk result (λ read. header_at rest.now ≡ Some read.0) }
    ensures sound { IfOk result (λ read. is_sound_header read.0 ≡ true) }
    ensures leads_on { IfOk result (λ read. leads_on table read.0 ≡ true) }
    ensures once { OnOk result (is_used_number kind_of (type_at rest.now) seen.now ≡ false) }
    ensures first { IfErr result (λ code. first_of (header_refusals table seen.now rest.now) ≡ Some code) }
{
    if rest.len() < 4 {
        return Err(OFPBIC_BAD_LEN);
    }
    let (_, after) = rest.split_at(2);
    let len = BigEndian::read_u16(after) as usize;
    if len < 8 || len % 8 != 0 || rest.len() < len {
        return Err(OFPBIC_BAD_LEN);
    }
    let kind = BigEndian::read_u16(rest);
    if !is_size(kind, len) {
        return Err(OFPBIC_BAD_LEN);
    }
    if kind == 6 {
        return Err(OFPBIC_UNSUP_INST);
    }
    if kind == 0xffff {
        return Err(OFPBIC_BAD_EXPERIMENTER);
    }
    if !is_known(kind) {
        return Err(OFPBIC_UNKNOWN_INST);
    }
    if is_used(kind, seen) {
        return Err(OFPBIC_UNSUP_INST);
    }
    let header = read_fields(rest, kind, len, table)?;
    Ok((header, len))
}

/// The headers of a message's instructions, of which there are at most five: one of a type.
pub(crate) type Headers<'a> = SmallVec<UnreadInstruction<'a>, 5>;

/// The headers of all instructions, none of which is refused by its header.
pub(crate) fn read_headers(alloc: Global, bytes: &[u8], table: u8) -> Result<Headers<'_>, ReadError>
    ensures found { IfOk result (λ v. AreHeaders table [] bytes.now v.items None) }
    ensures sound { IfOk result (λ v. list_all is_sound_header v.items ≡ true) }
    ensures leads_on { IfOk result (λ v. list_all (leads_on table) v.items ≡ true) }
    ensures once { IfOk result (λ v. is_distinct kind_of v.items ≡ true) }
    ensures refused { IfErr result (Fails (λ code. (before : List AHeader) × AreHeaders table [] bytes.now before (Some code))) }
{
    let mut headers = SmallVec::new(alloc);
    let mut rest = bytes;
    while !rest.is_empty() {
        match read_header(rest, &headers, table) {
            Err(code) => return Err(ReadError::Refused(code)),
            Ok((header, size)) => {
                let (_, after) = rest.split_at(size);
                rest = after;
                headers.push(header)?;
            }
        }
    }
    Ok(headers)
}
