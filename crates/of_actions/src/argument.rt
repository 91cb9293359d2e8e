//! What an action says beside its type and its length, from bytes and as bytes (OpenFlow 1.3.5, 7.2.5).
ghost use Rattle.std.specs.Prelude.{◌≡◌, ◌≤◌, ◌==◌, ◌++◌, ◌∷◌, [], true, false, length, IsTrue, IfOk, OnOk, IfErr, Some, None};
ghost use Rattle.byteorder.specs.Endian.{big_bytes};
ghost use Rattle.of_wire.specs.Refusals.{first_of};
ghost use Rattle.of_actions.specs.declared.rows.Form.TheVariants as forms;
ghost use Rattle.of_actions.specs.{Actions.argument_of, Actions.form_refusals, Beginnings.len_at, CanonicalActions.canonical_argument, Supported.is_allowed as may_be_said};

use crate::port_number::is_port;
use crate::rows::Form;
use crate::set_field::{put_set_field, read_set_field};
use byteorder::{BigEndian, ByteOrder};
use of_headers::is_tag;
use of_layers::Field;
use of_wire::codes::{OFPBAC_BAD_ARGUMENT, OFPBAC_BAD_LEN, OFPBAC_BAD_OUT_PORT};
use of_wire::{Code, put_u16, put_u32};
use std::alloc::AllocError;

/// What an action says beside its type and its length.
#[derive(Clone, Copy, PartialEq, Eq)]
pub enum Argument {
    Nothing,
    Byte(u8),
    Tag(u16),
    Word(u32),
    Port { port: u32, max_len: u16 },
    Field { field: Field, value: u128 },
}

impl Argument {
    // Whether an action may say it: in a PACKET_OUT, or in an instruction.
    pub(crate) fn is_allowed(self, packet_out: bool) -> bool
        ensures { result ≡ may_be_said packet_out self }
    {
        match self {
            Argument::Nothing | Argument::Byte(_) | Argument::Word(_) => true,
            Argument::Tag(ethertype) => is_tag(ethertype),
            Argument::Port { port, .. } => is_port(packet_out, port),
            Argument::Field { field, value } => {
                let row = field.row();
                row.settable && value <= row.ones
            }
        }
    }
}

fn read_port(rest: &[u8], len: usize, packet_out: bool) -> Result<Argument, Code>
    requires long { 8 ≤ len }
    requires whole { len ≤ length rest.now }
    requires len { len ≡ len_at rest.now }
    ensures none { OnOk result (first_of (form_refusals forms.Port packet_out rest.now) ≡ None) }
    ensures says { IfOk result (λ said. argument_of forms.Port rest.now ≡ Some said) }
    ensures served { IfOk result (λ said. IsTrue (may_be_said packet_out said)) }
    ensures first { IfErr result (λ code. first_of (form_refusals forms.Port packet_out rest.now) ≡ Some code) }
{
    if len != 16 {
        return Err(OFPBAC_BAD_LEN);
    }
    let (_, body) = rest.split_at(4);
    let port = BigEndian::read_u32(body);
    if !is_port(packet_out, port) {
        return Err(OFPBAC_BAD_OUT_PORT);
    }
    let (_, after) = rest.split_at(8);
    let max_len = BigEndian::read_u16(after);
    Ok(Argument::Port { port, max_len })
}

fn read_tag(rest: &[u8], len: usize, packet_out: bool) -> Result<Argument, Code>
    requires long { 8 ≤ len }
    requires whole { len ≤ length rest.now }
    requires len { len ≡ len_at rest.now }
    ensures none { OnOk result (first_of (form_refusals forms.Tag packet_out rest.now) ≡ None) }
    ensures says { IfOk result (λ said. argument_of forms.Tag rest.now ≡ Some said) }
    ensures served { IfOk result (λ said. IsTrue (may_be_said packet_out said)) }
    ensures first { IfErr result (λ code. first_of (form_refusals forms.Tag packet_out rest.now) ≡ Some code) }
{
    if len != 8 {
        return Err(OFPBAC_BAD_LEN);
    }
    let (_, body) = rest.split_at(4);
    let ethertype = BigEndian::read_u16(body);
    if !is_tag(ethertype) {
        return Err(OFPBAC_BAD_ARGUMENT);
    }
    Ok(Argument::Tag(ethertype))
}

// What is said, if the length is 8.
fn with_eight_bytes(said: Argument, len: usize) -> Result<Argument, Code>
    ensures eight { OnOk result ((len == 8) ≡ true) }
    ensures same { IfOk result (λ read. read ≡ said) }
    ensures other { IfErr result (λ code. ((len == 8) ≡ false) × (code ≡ OFPBAC_BAD_LEN)) }
{
    if len == 8 {
        Ok(said)
    } else {
        Err(OFPBAC_BAD_LEN)
    }
}

/// What an action of this form says; the bytes hold its length, which is 8 at least.
pub(crate) fn read_argument(
    form: Form,
    rest: &[u8],
    len: usize,
    packet_out: bool,
) -> Result<Argument, Code>
    requires long { 8 ≤ len }
    requires whole { len ≤ length rest.now }
    requires len { len ≡ len_at rest.now }
    ensures none { OnOk result (first_of (form_refusals form packet_out rest.now) ≡ None) }
    ensures says { IfOk result (λ said. argument_of form rest.now ≡ Some said) }
    ensures served { IfOk result (λ said. IsTrue (may_be_said packet_out said)) }
    ensures first { IfErr result (λ code. first_of (form_refusals form packet_out rest.now) ≡ Some code) }
{
    let (_, body) = rest.split_at(4);
    match form {
        Form::Nothing => with_eight_bytes(Argument::Nothing, len),
        Form::Byte => with_eight_bytes(Argument::Byte(rest[4]), len),
        Form::Tag => read_tag(rest, len, packet_out),
        Form::Word => with_eight_bytes(Argument::Word(BigEndian::read_u32(body)), len),
        Form::Port => read_port(rest, len, packet_out),
        Form::Field => read_set_field(rest, len),
    }
}

// The type of an action, and its length.
fn put_head(out: &mut Vec<u8>, kind: u16, size: u8) -> Result<(), AllocError>
    ensures { OnOk result (out.new.items ≡ out.old.items ++ (big_bytes 2 kind ++ 0 ∷ size ∷ [])) }
{
    put_u16(out, kind)?;
    out.extend_from_slice(&[0, size])
}

/// Appends the bytes of an action of this type.
pub(crate) fn put_argument(out: &mut Vec<u8>, kind: u16, said: Argument) -> Result<(), AllocError>
    requires { may_be_said true said ≡ true }
    ensures { OnOk result (out.new.items ≡ out.old.items ++ canonical_argument kind said) }
{
    match said {
        Argument::Nothing => {
            put_head(out, kind, 8)?;
            out.extend_from_slice(&[0; 4])
        }
        Argument::Byte(number) => {
            put_head(out, kind, 8)?;
            out.extend_from_slice(&[number, 0, 0, 0])
        }
        Argument::Tag(ethertype) => {
            put_head(out, kind, 8)?;
            put_u16(out, ethertype)?;
            out.extend_from_slice(&[0; 2])
        }
        Argument::Word(number) => {
            put_head(out, kind, 8)?;
            put_u32(out, number)
        }
        Argument::Port { port, max_len } => {
            put_head(out, kind, 16)?;
            put_u32(out, port)?;
            put_u16(out, max_len)?;
            out.extend_from_slice(&[0; 6])
        }
        Argument::Field { field, value } => put_set_field(out, field, value),
    }
}
