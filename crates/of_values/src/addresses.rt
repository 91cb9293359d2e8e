//! Ethernet and IPv4 addresses in words.
ghost use Rattle.std.specs.Prelude.{◌≡◌, ◌<◌, ◌++◌, OnOk};
ghost use Rattle.of_values.specs.Numbers.{byte_at as a_byte_at, byte_digits, colon_byte, dot_byte, ethernet, ipv4_address};

use crate::digits::{push_decimal, push_digits};
use std::alloc::AllocError;

// The byte of a number that begins at a bit.
fn byte_at(number: u128, bit: u32) -> u128
    requires { bit < 128 }
    ensures { result ≡ a_byte_at bit number }
{
    (number >> bit) % 0x100
}

fn push_byte(out: &mut Vec<u8>, number: u128, bit: u32) -> Result<(), AllocError>
    requires { bit < 128 }
    ensures { OnOk result (out.new.items ≡ out.old.items ++ byte_digits bit number) }
{
    push_digits(out, 2, 2, byte_at(number, bit))
}

fn push_colon_byte(out: &mut Vec<u8>, number: u128, bit: u32) -> Result<(), AllocError>
    requires { bit < 128 }
    ensures { OnOk result (out.new.items ≡ out.old.items ++ colon_byte bit number) }
{
    out.push(b':')?;
    push_byte(out, number, bit)
}

/// Appends an Ethernet address.
#[tactic(auto, unfolding(crate::specs::Numbers::ethernet))]
pub fn push_ethernet(out: &mut Vec<u8>, number: u128) -> Result<(), AllocError>
    ensures { OnOk result (out.new.items ≡ out.old.items ++ ethernet number) }
{
    push_byte(out, number, 40)?;
    push_colon_byte(out, number, 32)?;
    push_colon_byte(out, number, 24)?;
    push_colon_byte(out, number, 16)?;
    push_colon_byte(out, number, 8)?;
    push_colon_byte(out, number, 0)
}

fn push_dot_byte(out: &mut Vec<u8>, number: u128, bit: u32) -> Result<(), AllocError>
    requires { bit < 128 }
    ensures { OnOk result (out.new.items ≡ out.old.items ++ dot_byte bit number) }
{
    out.push(b'.')?;
    push_decimal(out, byte_at(number, bit))
}

/// Appends an IPv4 address.
#[tactic(auto, unfolding(crate::specs::Numbers::ipv4_address))]
pub fn push_ipv4(out: &mut Vec<u8>, number: u128) -> Result<(), AllocError>
    ensures { OnOk result (out.new.items ≡ out.old.items ++ ipv4_address number) }
{
    push_decimal(out, byte_at(number, 24))?;
    push_dot_byte(out, number, 16)?;
    push_dot_byte(out, number, 8)?;
    push_dot_byte(out, number, 0)
}
