//! Numbers as bytes, the most significant first (OpenFlow 1.3.5, 7).
ghost use Rattle.std.specs.Prelude.{◌≡◌, ◌≤◌, ◌<◌, ◌+◌, ◌^◌, ◌++◌, drop, length, replicate, take, OnOk};
ghost use Rattle.byteorder.specs.Endian.{big_bytes};

use byteorder::{BigEndian, ByteOrder};
use std::alloc::AllocError;

/// Appends a number in two bytes.
pub fn put_u16(out: &mut Vec<u8>, number: u16) -> Result<(), AllocError>
    ensures { OnOk result (out.new.items ≡ out.old.items ++ big_bytes 2 number) }
{
    let mut bytes = [0u8; 2];
    BigEndian::write_u16(&mut bytes, number);
    out.extend_from_slice(&bytes)
}

/// Appends a number in four bytes.
pub fn put_u32(out: &mut Vec<u8>, number: u32) -> Result<(), AllocError>
    ensures { OnOk result (out.new.items ≡ out.old.items ++ big_bytes 4 number) }
{
    let mut bytes = [0u8; 4];
    BigEndian::write_u32(&mut bytes, number);
    out.extend_from_slice(&bytes)
}

/// Appends a number in eight bytes.
pub fn put_u64(out: &mut Vec<u8>, number: u64) -> Result<(), AllocError>
    ensures { OnOk result (out.new.items ≡ out.old.items ++ big_bytes 8 number) }
{
    let mut bytes = [0u8; 8];
    BigEndian::write_u64(&mut bytes, number);
    out.extend_from_slice(&bytes)
}

/// Appends a number in `len` bytes, 1 to 16, that hold it.
#[tactic(auto, using(crate::proofs::Numbers::take_number))]
pub fn put_number(out: &mut Vec<u8>, len: usize, number: u128) -> Result<(), AllocError>
    requires some { 1 ≤ len }
    requires most { len ≤ 16 }
    requires fits { number < 256 ^ len }
    ensures { OnOk result (out.new.items ≡ out.old.items ++ big_bytes len number) }
{
    let mut bytes = [0u8; 16];
    BigEndian::write_uint128(&mut bytes, number, len);
    let (front, _) = bytes.split_at(len);
    out.extend_from_slice(front)
}

/// Appends zeros, eight at most.
#[tactic(auto, using(crate::proofs::Replacing::front_zeros))]
pub fn put_zeros(out: &mut Vec<u8>, count: usize) -> Result<(), AllocError>
    requires { count ≤ 8 }
    ensures { OnOk result (out.new.items ≡ out.old.items ++ replicate count 0) }
{
    let zeros = [0u8; 8];
    let (padding, _) = zeros.split_at(count);
    out.extend_from_slice(padding)
}

/// Replaces two bytes by a number: the length of a struct is known when all that it counts is written.
pub fn replace_u16(out: &mut Vec<u8>, at: usize, number: u16)
    requires { at + 2 ≤ length out.old.items }
    ensures { out.new.items ≡ take at out.old.items ++ (big_bytes 2 number ++ drop (at + 2) out.old.items) }
{
    let (_, rest) = out.split_at_mut(at);
    BigEndian::write_u16(rest, number);
}
