//! Numbers written over bits of a frame.

ghost use Rattle.std.specs.Prelude.{ℕ, ◌≡◌, ◌≢◌, ◌+◌, ◌*◌, ◌/◌, ◌%◌, ◌^◌, ◌-◌, ◌≤◌, ◌<◌, length};
ghost use Rattle.of_layers.specs.{Bits.bits_of, Reading.word};
ghost use Rattle.of_rewrite.specs.Spans.{over_bits, both_followed, AreEven, part_over_bits};

use crate::bytes::{all_bytes, put_word};
use crate::sums::Sums;
use of_headers::word_at;
use of_layers::Place;

/// A power of two.
fn power(n: usize) -> u32
    requires { n ≤ 16 }
    ensures { result ≡ 2 ^ n }
{
    1 << n
}

/// A word with the low bits of a value in its middle: so many of them, with so many bits of the word below.
fn with_part(word: u16, width: usize, below: usize, value: u16) -> u16
    requires { width + below ≤ 16 }
    ensures { result ≡ part_over_bits width below value word }
{
    let unit = power(below);
    let span = power(width);
    let word = u32::from(word);
    let middle = word / unit / span * span + u32::from(value) % span;
    (middle * unit + word % unit) as u16
}

/// Writes the low bits of a value into one word of a frame, from a bit on; the checksums are updated.
fn put_piece(bytes: &mut [u8], first: usize, width: usize, value: u16, sums: Sums) -> Sums
    requires word { first % 16 + width ≤ 16 }
    requires room { first / 16 * 2 + 2 ≤ length bytes.old }
    requires even { AreEven sums }
    ensures bits { bits_of bytes.new ≡ over_bits first width value (bits_of bytes.old) }
    ensures sums { result ≡ both_followed sums bytes.old bytes.new }
    ensures kept { (i : ℕ) → i % 2 ≡ 0 → i ≢ first / 16 * 2 → word bytes.new i ≡ word bytes.old i }
{
    let at = first / 16 * 2;
    all_bytes(bytes);
    let old = word_at(bytes, at);
    let new = with_part(old, width, 16 - width - first % 16, value);
    put_word(bytes, at, new);
    sums.follow(at, old, new)
}

/// Writes the low bits of a value over a place, word by word; the checksums are updated.
pub fn put_number(bytes: &mut [u8], place: Place, value: u128, sums: Sums) -> Sums
    requires most { place.bits ≤ 128 }
    requires fits { place.first + place.bits < 2 ^ 64 }
    requires room { (place.first + place.bits + 15) / 16 * 2 ≤ length bytes.old }
    requires even { AreEven sums }
    ensures bits { bits_of bytes.new ≡ over_bits place.first place.bits value (bits_of bytes.old) }
    ensures sums { result ≡ both_followed sums bytes.old bytes.new }
{
    let mut sums = sums;
    let mut first = place.first;
    let mut left = place.bits;
    while left > 0 {
        let width = left.min(16 - first % 16);
        left -= width;
        sums = put_piece(
            bytes,
            first,
            width,
            ((value >> left) % 0x10000) as u16,
            sums,
        );
        first += width;
    }
    sums
}
