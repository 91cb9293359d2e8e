//! Matches from bytes.

ghost use Rattle.std.specs.Prelude.{◌≡◌, ◌++◌, ℕ, ◌≤◌, ◌<◌, List, [], Some, None, Ok, ◌-◌, length, take, drop, IfOk, OnOk, IfErr};
ghost use Rattle.of_wire.specs.{Refusals.first_of, Failures.Fails, Failures.Reads, declared.code.Code.Code};
ghost use Rattle.of_oxm.specs.MatchGrammar.{Fields, IsFaulty, EncodesMatch, IsRefusedMatch, ReadsAs, RefusesAs, match_head_refusals, match_len, padded};
ghost use Rattle.of_oxm.specs.{MatchReading.match_of, declared.match_field.MatchField.MatchField};

use crate::field_reading::read_match_field;
use crate::flow_match::Match;
use crate::match_field::MatchField;
use crate::normal_form::normal_form;
use crate::prerequisites::prerequisites_met;
use byteorder::{BigEndian, ByteOrder};
use of_wire::codes::{OFPBMC_BAD_LEN, OFPBMC_BAD_PREREQ, OFPBMC_BAD_TYPE};
use of_wire::{Code, ReadError, rest_from};
use std::alloc::Global;

/// How many fields a match has at most.
const MOST_FIELDS: usize = 28;

// How many fields the bytes have, if the lengths of all are right.
fn count_fields(body: &[u8]) -> usize {
    let mut count: usize = 0;
    let mut rest = body;
    while let [_, _, _, len, after @ ..] = rest {
        count = count.saturating_add(1);
        rest = rest_from(after, after.len().min(*len as usize));
    }
    count
}

fn read_fields(alloc: Global, body: &[u8]) -> Result<Vec<MatchField>, ReadError>
    ensures found { IfOk result (λ v. Fields [] body.now v.items None) }
    ensures refused { IfErr result (Fails (IsFaulty body.now)) }
{
    let mut fields = Vec::with_capacity(alloc, count_fields(body).min(MOST_FIELDS))?;
    let mut rest = body;
    while !rest.is_empty() {
        match read_match_field(rest, &fields) {
            Err(code) => return Err(ReadError::Refused(code)),
            Ok(field) => {
                let (_, after) = rest.split_at(4 + rest[3] as usize);
                rest = after;
                fields.push(field)?;
            }
        }
    }
    Ok(fields)
}

// The length of the match that the bytes begin with, without its padding.
fn read_head(bytes: &[u8]) -> Result<usize, Code>
    ensures low { IfOk result (λ len. 4 ≤ len) }
    ensures high { IfOk result (λ len. padded len ≤ length bytes.now) }
    ensures len { IfOk result (λ len. len ≡ match_len bytes.now) }
    ensures none { OnOk result (first_of (match_head_refusals bytes.now) ≡ None) }
    ensures first { IfErr result (λ code. first_of (match_head_refusals bytes.now) ≡ Some code) }
{
    if bytes.len() < 4 {
        return Err(OFPBMC_BAD_LEN);
    }
    if BigEndian::read_u16(bytes) != 1 {
        return Err(OFPBMC_BAD_TYPE);
    }
    let len = BigEndian::read_u16(&bytes[2..]) as usize;
    let size = (len + 7) / 8 * 8;
    if len < 4 || bytes.len() < size {
        return Err(OFPBMC_BAD_LEN);
    }
    Ok(len)
}

// The bytes of the fields.
fn fields_of(bytes: &[u8], len: usize) -> &[u8]
    requires low { 4 ≤ len }
    requires high { len ≤ length bytes.now }
    ensures { result.now ≡ take (len - 4) (drop 4 bytes.now) }
{
    let (_, rest) = bytes.split_at(4);
    let (body, _) = rest.split_at(len - 4);
    body
}

fn parse(alloc: Global, bytes: &[u8]) -> Result<(Match, usize), ReadError>
    ensures size { IfOk result (λ r. r.1 ≤ length bytes.now) }
    ensures found { IfOk result (λ r. EncodesMatch (take r.1 bytes.now) r.0) }
    ensures refused { IfErr result (Fails (IsRefusedMatch bytes.now)) }
    ensures reads { Reads result (match_of bytes.now) }
{
    let len = match read_head(bytes) {
        Ok(len) => len,
        Err(code) => return Err(ReadError::Refused(code)),
    };
    let body = fields_of(bytes, len);
    let read = read_fields(alloc, body)?;
    let fields = normal_form(alloc, read)?;
    if !prerequisites_met(&fields) {
        return Err(ReadError::Refused(OFPBMC_BAD_PREREQ));
    }
    Ok((Match { fields }, (len + 7) / 8 * 8))
}

/// The match that the bytes begin with, and how many bytes it takes with its padding (OpenFlow 1.3.5, 7.2.3).
pub fn read_match(alloc: Global, bytes: &[u8]) -> Result<(Match, usize), ReadError>
    // What is read is encoded so.
    ensures size { IfOk result (λ r. r.1 ≤ length bytes.now) }
    ensures found { IfOk result (λ r. EncodesMatch (take r.1 bytes.now) r.0) }

    // What is encoded is read, unless memory runs out.
    ensures only { (a x : List ℕ) (m : List MatchField) → EncodesMatch a m → bytes.now ≡ a ++ x → ReadsAs m (length a) result }

    // Other bytes have one code, and it is answered, unless memory runs out.
    ensures refused { IfErr result (Fails (IsRefusedMatch bytes.now)) }
    ensures exact { (code : Code) → IsRefusedMatch bytes.now code → RefusesAs code result }

    // Both, as a function of the bytes.
    ensures reads { Reads result (match_of bytes.now) }
{
    parse(alloc, bytes)
}

/// No encoding of a match begins another's, and no bytes encode two matches.
pub fn one_encoding()
    ensures { (a b x y : List ℕ) (m n : List MatchField) →
        EncodesMatch a m → EncodesMatch b n → a ++ x ≡ b ++ y → (a ≡ b) × (m ≡ n) }
{}

/// Bytes that begin with the encoding of a match have no code, and others have no two.
pub fn one_code()
    ensures encoded { (a x : List ℕ) (m : List MatchField) (code : Code) → EncodesMatch a m → ¬ IsRefusedMatch (a ++ x) code }
    ensures code { (bytes : List ℕ) (c d : Code) → IsRefusedMatch bytes c → IsRefusedMatch bytes d → c ≡ d }
{}
