//! A set-field action from bytes and as bytes (OpenFlow 1.3.5, 7.2.5).
ghost use Rattle.std.specs.Prelude.{◌≡◌, ◌≤◌, ◌<◌, ◌++◌, Bool, length, IsTrue, IfOk, OnOk, IfErr, Some, None};
ghost use Rattle.of_wire.specs.Refusals.{first_of};
ghost use Rattle.of_actions.specs.{Beginnings.len_at, SetField.set_field_at, SetField.set_refusals, Actions.argument_of, CanonicalActions.canonical_set_field, Supported.is_allowed};
ghost use Rattle.of_layers.specs.Fields.{ones_of};
ghost use Rattle.of_actions.specs.declared.rows.Form.TheVariants as forms;

use crate::argument::Argument;
use byteorder::{BigEndian, ByteOrder};
use of_layers::Field;
use of_wire::codes::{OFPBAC_BAD_SET_ARGUMENT, OFPBAC_BAD_SET_LEN, OFPBAC_BAD_SET_TYPE};
use of_wire::{Code, put_number, put_zeros};
use std::alloc::AllocError;

fn field_to_set(rest: &[u8]) -> Option<Field>
    requires { 8 ≤ length rest.now }
    ensures { result ≡ set_field_at rest.now }
{
    let (_, header) = rest.split_at(4);
    if BigEndian::read_u16(header) != 0x8000 || rest[6] % 2 != 0 {
        return None;
    }
    match Field::from_number(rest[6] / 2) {
        Some(field) if field.row().settable => Some(field),
        _ => None,
    }
}

#[tactic(auto, unfolding(crate::specs::SetField::set_refusals))]
pub(crate) fn read_set_field(rest: &[u8], len: usize) -> Result<Argument, Code>
    requires long { 8 ≤ len }
    requires whole { len ≤ length rest.now }
    requires len { len ≡ len_at rest.now }
    ensures none { OnOk result (first_of (set_refusals rest.now) ≡ None) }
    ensures says { IfOk result (λ said. argument_of forms.Field rest.now ≡ Some said) }
    ensures served { (packet_out : Bool) → IfOk result (λ said. IsTrue (is_allowed packet_out said)) }
    ensures first { IfErr result (λ code. first_of (set_refusals rest.now) ≡ Some code) }
{
    let Some(field) = field_to_set(rest) else {
        return Err(OFPBAC_BAD_SET_TYPE);
    };
    let row = field.row();
    if rest[7] as usize != row.bytes || len != (8 + row.bytes + 7) / 8 * 8 {
        return Err(OFPBAC_BAD_SET_LEN);
    }
    let (_, body) = rest.split_at(8);
    let value = BigEndian::read_uint128(body, row.bytes);
    if row.ones < value {
        return Err(OFPBAC_BAD_SET_ARGUMENT);
    }
    Ok(Argument::Field { field, value })
}

#[tactic(auto, using(of_layers::proofs::Table::value_below), unfolding(crate::specs::CanonicalActions::canonical_set_field))]
pub(crate) fn put_set_field(out: &mut Vec<u8>, field: Field, value: u128) -> Result<(), AllocError>
    requires { value ≤ ones_of field }
    ensures { OnOk result (out.new.items ≡ out.old.items ++ canonical_set_field field value) }
{
    let row = field.row();
    let len = (8 + row.bytes + 7) / 8 * 8;
    out.extend_from_slice(&[0, 25, 0, len as u8])?;
    out.extend_from_slice(&[0x80, 0, 2 * row.number, row.bytes as u8])?;
    put_number(out, row.bytes, value)?;
    put_zeros(out, len - (8 + row.bytes))
}
