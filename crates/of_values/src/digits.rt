//! Numbers in digits.
ghost use Rattle.std.specs.Prelude.{◌≡◌, ◌≤◌, ◌<◌, ◌++◌, OnOk, decimal};
ghost use Rattle.of_values.specs.Numbers.{digit_byte as digit_of, digit_at, digits, hexadecimal};

use itoa::Buffer;
use std::alloc::AllocError;

/// Appends a number in decimal.
pub fn push_decimal(out: &mut Vec<u8>, number: u128) -> Result<(), AllocError>
    ensures { OnOk result (out.new.items ≡ out.old.items ++ decimal number) }
{
    let mut buffer = Buffer::new();
    out.extend_from_slice(buffer.format(number).as_bytes())
}

// The digit of a value below 16.
fn digit(value: u8) -> u8
    requires { value < 16 }
    ensures { result ≡ digit_of value }
{
    if value < 10 { 48 + value } else { 87 + value }
}

// Appends the digit of a number at a place, unless it is one of the zeros that are left out.
fn push_digit(out: &mut Vec<u8>, least: u32, place: u32, number: u128) -> Result<(), AllocError>
    requires { place < 32 }
    ensures { OnOk result (out.new.items ≡ out.old.items ++ digit_at least place number) }
{
    let rest = number >> (4 * place);
    if place < least || rest != 0 {
        out.push(digit((rest % 16) as u8))?;
    }
    Ok(())
}

/// Appends the hexadecimal digits of the last `most` places of a number, at least those of the last `least` ones.
#[tactic(auto, unfolding(crate::specs::Numbers::digits))]
pub fn push_digits(out: &mut Vec<u8>, least: u32, most: u32, number: u128) -> Result<(), AllocError>
    requires { most ≤ 32 }
    ensures { OnOk result (out.new.items ≡ out.old.items ++ digits least most number) }
{
    let mut place = most;
    while place > 0 {
        place -= 1;
        push_digit(out, least, place, number)?;
    }
    Ok(())
}

/// Appends a number in hexadecimal after 0x, with at least so many digits.
#[tactic(auto, unfolding(crate::specs::Numbers::hexadecimal))]
pub fn push_hexadecimal(out: &mut Vec<u8>, least: u32, number: u128) -> Result<(), AllocError>
    ensures { OnOk result (out.new.items ≡ out.old.items ++ hexadecimal least number) }
{
    out.extend_from_slice(b"0x")?;
    push_digits(out, least, 32, number)
}
