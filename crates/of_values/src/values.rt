//! Values of fields in words.
ghost use Rattle.std.specs.Prelude.{◌≡◌, ◌++◌, OnOk};
ghost use Rattle.of_values.specs.Values.{in_form, mask_in_form, masked_value_words, masked_vlan, value_words, vlan_words};

use crate::addresses::{push_ethernet, push_ipv4};
use crate::digits::{push_decimal, push_hexadecimal};
use crate::form::{Form, form_of};
use crate::ipv6::push_ipv6;
use crate::ports::push_port;
use crate::prefixes::{push_ipv4_mask, push_ipv6_mask};
use of_layers::Field;
use std::alloc::AllocError;

/// The bit OFPVID_PRESENT, which says that there is a tag (OpenFlow 1.3.5, 7.2.3.7).
const PRESENT: u128 = 0x1000;

#[tactic(auto, unfolding(crate::specs::Values::vlan_words))]
fn push_vlan(out: &mut Vec<u8>, number: u128) -> Result<(), AllocError>
    ensures { OnOk result (out.new.items ≡ out.old.items ++ vlan_words number) }
{
    if number == 0 {
        out.extend_from_slice(b"none")
    } else if number >= PRESENT {
        push_decimal(out, number - PRESENT)
    } else {
        push_hexadecimal(out, 4, number)
    }
}

// Appends a number in its form.
#[tactic(auto, unfolding(crate::specs::Values::in_form))]
fn push_in_form(out: &mut Vec<u8>, form: Form, number: u128) -> Result<(), AllocError>
    ensures { OnOk result (out.new.items ≡ out.old.items ++ in_form form number) }
{
    match form {
        Form::Number => push_decimal(out, number),
        Form::Hexadecimal(least) => push_hexadecimal(out, least, number),
        Form::Port => push_port(out, number),
        Form::Vlan => push_vlan(out, number),
        Form::Ethernet => push_ethernet(out, number),
        Form::Ipv4 => push_ipv4(out, number),
        Form::Ipv6 => push_ipv6(out, number),
    }
}

// Appends a mask.
#[tactic(auto, unfolding(crate::specs::Values::mask_in_form))]
fn push_mask(out: &mut Vec<u8>, form: Form, mask: u128) -> Result<(), AllocError>
    ensures { OnOk result (out.new.items ≡ out.old.items ++ mask_in_form form mask) }
{
    match form {
        Form::Ipv4 => push_ipv4_mask(out, mask),
        Form::Ipv6 => push_ipv6_mask(out, mask),
        _ => push_in_form(out, form, mask),
    }
}

#[tactic(auto, unfolding(crate::specs::Values::masked_vlan))]
fn push_masked_vlan(out: &mut Vec<u8>, value: u128, mask: u128) -> Result<(), AllocError>
    ensures { OnOk result (out.new.items ≡ out.old.items ++ masked_vlan value mask) }
{
    if value == PRESENT && mask == PRESENT {
        return out.extend_from_slice(b"present");
    }
    push_hexadecimal(out, 4, value)?;
    out.push(b'/')?;
    push_hexadecimal(out, 4, mask)
}

// Appends a value and a mask.
#[tactic(auto, unfolding(crate::specs::Values::masked_value_words))]
fn push_masked(out: &mut Vec<u8>, form: Form, value: u128, mask: u128) -> Result<(), AllocError>
    ensures { OnOk result (out.new.items ≡ out.old.items ++ masked_value_words form value mask) }
{
    if let Form::Vlan = form {
        return push_masked_vlan(out, value, mask);
    }
    push_in_form(out, form, value)?;
    out.push(b'/')?;
    push_mask(out, form, mask)
}

/// Appends a value of a field, and the mask behind it if there is one.
#[tactic(auto, unfolding(crate::specs::Values::value_words))]
pub fn push_value_words(
    out: &mut Vec<u8>,
    field: Field,
    value: u128,
    mask: Option<u128>,
) -> Result<(), AllocError>
    ensures { OnOk result (out.new.items ≡ out.old.items ++ value_words field value mask) }
{
    match mask {
        None => push_in_form(out, form_of(field), value),
        Some(mask) => push_masked(out, form_of(field), value, mask),
    }
}
