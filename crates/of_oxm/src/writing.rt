//! Matches as bytes.

ghost use Rattle.std.specs.Prelude.{◌≡◌, ◌≤◌, ◌<◌, ◌++◌, length, OnOk, IfOk};
ghost use Rattle.std.specs.List.{AllByRecursion};
ghost use Rattle.of_oxm.specs.{MatchFieldWire.IsEncoded, MatchFieldWire.encoding, MatchGrammar.EncodesMatch, MatchGrammar.encodings, Canonical.canonical};

use crate::flow_match::Match;
use crate::match_field::MatchField;
use of_wire::{put_number, put_zeros, replace_u16};
use std::alloc::{AllocError, Global};

#[tactic(auto, using(of_layers::proofs::Table::value_below), unfolding(crate::specs::MatchFieldWire::encoding))]
fn put_field(out: &mut Vec<u8>, e: &MatchField) -> Result<(), AllocError>
    requires { IsEncoded e.now }
    ensures { OnOk result (out.new.items ≡ out.old.items ++ encoding e.now) }
{
    let row = e.field.row();
    match e.mask {
        None => {
            out.extend_from_slice(&[0x80, 0, 2 * row.number, row.bytes as u8])?;
            put_number(out, row.bytes, e.value)
        }
        Some(mask) => {
            out.extend_from_slice(&[0x80, 0, 2 * row.number + 1, (2 * row.bytes) as u8])?;
            put_number(out, row.bytes, e.value)?;
            put_number(out, row.bytes, mask)
        }
    }
}

fn put_fields(out: &mut Vec<u8>, fields: &[MatchField]) -> Result<(), AllocError>
    requires { AllByRecursion IsEncoded fields.now }
    ensures { OnOk result (out.new.items ≡ out.old.items ++ encodings fields.now) }
{
    for e in fields {
        put_field(out, e)?;
    }
    Ok(())
}

/// Appends the one encoding of a match that is written: fields in ascending order, and zeros for padding (OpenFlow 1.3.5, 7.2.3). It has at
/// most 1,128 bytes.
pub fn put_match(out: &mut Vec<u8>, m: &Match) -> Result<(), AllocError>
    ensures canonical { OnOk result (out.new.items ≡ out.old.items ++ canonical m.now) }
    ensures encodes { OnOk result (EncodesMatch (canonical m.now) m.now) }
    ensures short { OnOk result (length (canonical m.now) ≤ 1128) }
{
    let start = out.len();
    out.extend_from_slice(&[0, 1, 0, 0])?;
    put_fields(out, &m.fields)?;
    let len = out.len() - start;
    replace_u16(out, start + 2, len as u16);
    put_zeros(out, (len + 7) / 8 * 8 - len)?;
    Ok(())
}

/// The same bytes, in a list of their own.
pub fn write_match(alloc: Global, m: &Match) -> Result<Vec<u8>, AllocError>
    ensures canonical { IfOk result (λ v. v.items ≡ canonical m.now) }
    ensures encodes { IfOk result (λ v. EncodesMatch v.items m.now) }
    ensures short { IfOk result (λ v. length v.items ≤ 1128) }
{
    let mut out = Vec::new(alloc);
    put_match(&mut out, m)?;
    Ok(out)
}
