//! One field of a match on the wire.

ghost use Rattle.std.specs.Prelude.{◌≡◌, ◌≤◌, ◌+◌, length, slice_index, MatchResult, Some, None};
ghost use Rattle.of_wire.specs.Refusals.{first_of};
ghost use Rattle.of_layers.specs.Fields.{field_at};
ghost use Rattle.of_oxm.specs.MatchFieldWire.{field_refusals, known_field_refusals, match_field_of, number_at, is_among as is_among_fields};

use crate::match_field::MatchField;
use byteorder::{BigEndian, ByteOrder};
use of_layers::Field;
use of_wire::Code;
use of_wire::codes::{
    OFPBMC_BAD_FIELD, OFPBMC_BAD_LEN, OFPBMC_BAD_MASK, OFPBMC_BAD_VALUE, OFPBMC_BAD_WILDCARDS,
    OFPBMC_DUP_FIELD,
};

fn is_among(field: Field, seen: &[MatchField]) -> bool
    ensures { result ≡ is_among_fields field seen.now }
{
    let number = field.number();
    seen.iter().any(|e| e.field.number() == number)
}

fn read_known_field(field: Field, rest: &[u8], seen: &[MatchField]) -> Result<MatchField, Code>
    requires header { 4 ≤ length rest.now }
    requires body { 4 + slice_index rest.now 3 ≤ length rest.now }
    ensures { MatchResult result
        (λ e. (first_of (known_field_refusals field seen.now rest.now) ≡ None) × (e ≡ match_field_of field rest.now))
        (λ code. first_of (known_field_refusals field seen.now rest.now) ≡ Some code) }
{
    let row = field.row();
    let masked = rest[2] % 2 == 1;
    let wanted = if masked { 2 * row.bytes } else { row.bytes };
    if rest[3] as usize != wanted {
        return Err(OFPBMC_BAD_LEN);
    }
    if is_among(field, seen) {
        return Err(OFPBMC_DUP_FIELD);
    }
    let body = &rest[4..];
    let value = BigEndian::read_uint128(body, row.bytes);
    if !masked {
        if row.ones < value {
            return Err(OFPBMC_BAD_VALUE);
        }
        return Ok(MatchField {
            field,
            value,
            mask: None,
        });
    }
    let mask = BigEndian::read_uint128(&body[row.bytes..], row.bytes);
    if !row.maskable && mask & row.ones != row.ones {
        return Err(OFPBMC_BAD_MASK);
    }
    if row.ones < value {
        return Err(OFPBMC_BAD_VALUE);
    }
    if value & mask != value {
        return Err(OFPBMC_BAD_WILDCARDS);
    }
    Ok(MatchField {
        field,
        value,
        mask: Some(mask),
    })
}

/// The field that the bytes begin with, after the fields `seen`.
pub fn read_match_field(rest: &[u8], seen: &[MatchField]) -> Result<MatchField, Code>
    ensures { MatchResult result
        (λ e. (first_of (field_refusals seen.now rest.now) ≡ None) × (field_at (number_at rest.now) ≡ Some e.field) × (e ≡ match_field_of e.field rest.now))
        (λ code. first_of (field_refusals seen.now rest.now) ≡ Some code) }
{
    if rest.len() < 4 {
        return Err(OFPBMC_BAD_LEN);
    }
    let len = rest[3] as usize;
    if rest.len() < 4 + len {
        return Err(OFPBMC_BAD_LEN);
    }
    if BigEndian::read_u16(rest) != 0x8000 {
        return Err(OFPBMC_BAD_FIELD);
    }
    let Some(field) = Field::from_number(rest[2] / 2) else {
        return Err(OFPBMC_BAD_FIELD);
    };
    read_known_field(field, rest, seen)
}
