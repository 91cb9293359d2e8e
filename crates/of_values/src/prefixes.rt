//! Masks of addresses in words.
ghost use Rattle.std.specs.Prelude.{◌≡◌, ◌≤◌, ◌<◌, ◌++◌, OnOk};
ghost use Rattle.of_values.specs.Masks.{first_bits as first_bits_of, ipv4_mask, ipv6_mask, prefix_below};

use crate::addresses::push_ipv4;
use crate::digits::push_decimal;
use crate::ipv6::push_ipv6;
use std::alloc::AllocError;

const IPV4_ONES: u128 = 0xffff_ffff;

const IPV6_ONES: u128 = 0xffff_ffff_ffff_ffff_ffff_ffff_ffff_ffff;

// The mask of the first bits, of as many as `ones` has.
fn first_bits(ones: u128, bits: u32) -> u128
    requires { bits < 128 }
    ensures { result ≡ first_bits_of ones bits }
{
    ones - (ones >> bits)
}

// The length of the prefix that a mask is of, below the limit.
#[tactic(auto, unfolding(crate::specs::Masks::prefix_below))]
fn prefix_length(ones: u128, mask: u128, limit: u32) -> Option<u32>
    requires { limit ≤ 128 }
    ensures { result ≡ prefix_below ones mask limit }
{
    let mut bits = limit;
    while bits > 0 {
        bits -= 1;
        if first_bits(ones, bits) == mask {
            return Some(bits);
        }
    }
    None
}

/// Appends a mask of an IPv4 address: the length of a prefix, or as an address.
#[tactic(auto, unfolding(crate::specs::Masks::ipv4_mask))]
pub fn push_ipv4_mask(out: &mut Vec<u8>, mask: u128) -> Result<(), AllocError>
    ensures { OnOk result (out.new.items ≡ out.old.items ++ ipv4_mask mask) }
{
    match prefix_length(IPV4_ONES, mask, 32) {
        None => push_ipv4(out, mask),
        Some(bits) => push_decimal(out, u128::from(bits)),
    }
}

/// Appends a mask of an IPv6 address: the length of a prefix, or as an address.
#[tactic(auto, unfolding(crate::specs::Masks::ipv6_mask))]
pub fn push_ipv6_mask(out: &mut Vec<u8>, mask: u128) -> Result<(), AllocError>
    ensures { OnOk result (out.new.items ≡ out.old.items ++ ipv6_mask mask) }
{
    match prefix_length(IPV6_ONES, mask, 128) {
        None => push_ipv6(out, mask),
        Some(bits) => push_decimal(out, u128::from(bits)),
    }
}
