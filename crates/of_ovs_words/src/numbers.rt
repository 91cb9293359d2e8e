//! Numbers in words.
ghost use Rattle.std.specs.Prelude.{◌≡◌, ◌≤◌, ◌<◌, ◌+◌, ◌*◌, ◌^◌, IfOk, IfSome, Some, None};
ghost use Rattle.of_lines.specs.Reading.{below};
ghost use Rattle.of_ovs_words.specs.Numbers.{decimal_number as decimal_of, digit as digit_of, digit_in as digit_below, digits_in as value_of_digits, hexadecimal_digits as digits_behind, is_octal as leads_with_zero, some_digits as value_of_some, number_in as number_of};
ghost use Rattle.of_ovs_words.specs.Outcomes.{numbered as numbered_of};

use crate::why::Why;
use of_lines::{cut, is};

// The value of a digit, in either case.
fn digit(byte: u8) -> Option<u8>
    ensures value { result ≡ digit_of byte }
    ensures small { IfSome result (λ d. d < 16) }
{
    match byte {
        b'0'..=b'9' => Some(byte - b'0'),
        b'a'..=b'f' => Some(byte - 87),
        b'A'..=b'F' => Some(byte - 55),
        _ => None,
    }
}

// The value of a digit of this base.
fn digit_in(base: u128, byte: u8) -> Option<u128>
    requires { base ≤ 16 }
    ensures value { result ≡ digit_below base byte }
    ensures small { IfSome result (λ d. d < base) }
{
    let digit = u128::from(digit(byte)?);
    if digit < base { Some(digit) } else { None }
}

// The number that one more digit makes, below the limit.
fn with_digit(base: u128, limit: u128, value: u128, digit: u128) -> Option<u128>
    requires base { base ≤ 16 }
    requires limit { limit ≤ 2 ^ 64 }
    requires value { value ≤ limit }
    requires digit { digit < base }
    ensures value { result ≡ below limit (base * value + digit) }
    ensures small { IfSome result (λ n. n < limit) }
{
    let next = base * value + digit;
    if next < limit { Some(next) } else { None }
}

// The number, below the limit, that digits of this base make.
#[tactic(auto, using(crate::proofs::NumberLemmas::first_digit))]
fn digits_in(base: u128, limit: u128, digits: &[u8]) -> Option<u128>
    requires base { base ≤ 16 }
    requires limit { limit ≤ 2 ^ 64 }
    ensures value { result ≡ value_of_digits base limit 0 digits.now }
    ensures small { IfSome result (λ n. n ≤ limit) }
{
    let mut value: u128 = 0;
    for byte in digits {
        let digit = digit_in(base, *byte)?;
        value = with_digit(base, limit, value, digit)?;
    }
    Some(value)
}

/// The number below the limit that digits of this base make, one at least.
pub fn some_digits(base: u128, limit: u128, digits: &[u8]) -> Option<u128>
    requires base { base ≤ 16 }
    requires limit { limit ≤ 2 ^ 64 }
    ensures value { result ≡ value_of_some base limit digits.now }
    ensures small { IfSome result (λ n. n < limit) }
{
    if digits.is_empty() {
        return None;
    }
    let number = digits_in(base, limit, digits)?;
    if number < limit { Some(number) } else { None }
}

// Whether digits stand behind a zero: ovs-ofctl reads most of them as octal, and some as decimal.
fn is_octal(word: &[u8]) -> bool
    ensures { result ≡ leads_with_zero word.now }
{
    word.len() > 1 && word[0] == b'0'
}

/// A decimal number below the limit.
pub fn decimal_number(limit: u128, word: &[u8]) -> Option<u128>
    requires { limit ≤ 2 ^ 64 }
    ensures value { result ≡ decimal_of limit word.now }
    ensures small { IfSome result (λ n. n < limit) }
{
    if is_octal(word) {
        None
    } else {
        some_digits(10, limit, word)
    }
}

// What stands behind 0x or 0X.
fn hexadecimal_digits(word: &[u8]) -> &[u8]
    ensures { result.now ≡ digits_behind word.now }
{
    let (zero, digits) = cut(word, b'x');
    if is(zero, b"0") {
        return digits;
    }
    let (zero, digits) = cut(word, b'X');
    if is(zero, b"0") { digits } else { &[] }
}

/// A number below the limit, decimal or hexadecimal after 0x or 0X.
pub fn number_in(limit: u128, word: &[u8]) -> Option<u128>
    requires { limit ≤ 2 ^ 64 }
    ensures value { result ≡ number_of limit word.now }
    ensures small { IfSome result (λ n. n < limit) }
{
    let digits = hexadecimal_digits(word);
    if digits.is_empty() {
        decimal_number(limit, word)
    } else {
        some_digits(16, limit, digits)
    }
}

/// A number below the limit, or why the word is none.
pub fn numbered(limit: u128, word: &[u8]) -> Result<u128, Why>
    requires { limit ≤ 2 ^ 64 }
    ensures value { result ≡ numbered_of limit word.now }
    ensures small { IfOk result (λ n. n < limit) }
{
    match number_in(limit, word) {
        Some(number) => Ok(number),
        None => Err(Why::Value),
    }
}
