//! Values of fields in words.
ghost use Rattle.std.specs.Prelude.{◌≡◌, ◌≤◌, ◌<◌, ◌^◌, IfSome, Some, None};
ghost use Rattle.of_ovs_words.specs.Values.{mac_in as mac_of, ipv4_in as ipv4_of, first_bits_mask as first_bits_of};

use crate::numbers::some_digits;
use of_lines::cut;

/// An Ethernet address, as 02:00:00:00:00:01.
pub fn mac_in(word: &[u8]) -> Option<u128>
    ensures value { result ≡ mac_of word.now }
    ensures small { IfSome result (λ n. n < 2 ^ 48) }
{
    let (a, word) = cut(word, b':');
    let a = some_digits(16, 256, a)?;
    let (b, word) = cut(word, b':');
    let b = some_digits(16, 256, b)?;
    let (c, word) = cut(word, b':');
    let c = some_digits(16, 256, c)?;
    let (d, word) = cut(word, b':');
    let d = some_digits(16, 256, d)?;
    let (e, f) = cut(word, b':');
    let e = some_digits(16, 256, e)?;
    let f = some_digits(16, 256, f)?;
    Some(0x100_0000_0000 * a + 0x1_0000_0000 * b + 0x100_0000 * c + 0x1_0000 * d + 0x100 * e + f)
}

/// An IPv4 address, as 10.0.0.1.
pub fn ipv4_in(word: &[u8]) -> Option<u128>
    ensures value { result ≡ ipv4_of word.now }
    ensures small { IfSome result (λ n. n < 2 ^ 32) }
{
    let (a, word) = cut(word, b'.');
    let a = some_digits(10, 256, a)?;
    let (b, word) = cut(word, b'.');
    let b = some_digits(10, 256, b)?;
    let (c, d) = cut(word, b'.');
    let c = some_digits(10, 256, c)?;
    let d = some_digits(10, 256, d)?;
    Some(0x100_0000 * a + 0x1_0000 * b + 0x100 * c + d)
}

/// The mask of the first bits, of as many as the field has ones.
pub fn prefix_mask(ones: u128, bits: u32) -> u128
    requires { bits < 128 }
    ensures { result ≡ first_bits_of ones bits }
{
    ones - (ones >> bits)
}
