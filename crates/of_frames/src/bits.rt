//! Numbers appended to bytes, the highest bit first.
ghost use Rattle.std.specs.Prelude.{◌<◌, ◌^◌, OnOk};
ghost use Rattle.of_layers.specs.{Bits.bits, WellFormed.AreBytes};
ghost use Rattle.of_frames.specs.Adding.{Adds};

use std::alloc::AllocError;

/// Appends a byte.
pub fn push_byte(out: &mut Vec<u8>, byte: u8) -> Result<(), AllocError>
    ensures { OnOk result (Adds out.old.items out.new.items (bits 8 byte)) }
{
    out.push(byte)?;
    Ok(())
}

/// Appends two bytes.
pub fn push_word(out: &mut Vec<u8>, word: u16) -> Result<(), AllocError>
    ensures { OnOk result (Adds out.old.items out.new.items (bits 16 word)) }
{
    push_byte(out, (word / 256) as u8)?;
    push_byte(out, (word % 256) as u8)?;
    Ok(())
}

/// Appends four bytes.
pub fn push_double(out: &mut Vec<u8>, double: u32) -> Result<(), AllocError>
    ensures { OnOk result (Adds out.old.items out.new.items (bits 32 double)) }
{
    push_word(out, (double / 0x1_0000) as u16)?;
    push_word(out, (double % 0x1_0000) as u16)?;
    Ok(())
}

/// Appends an address of six bytes.
pub fn push_address(out: &mut Vec<u8>, address: u64) -> Result<(), AllocError>
    requires { address < 2 ^ 48 }
    ensures { OnOk result (Adds out.old.items out.new.items (bits 48 address)) }
{
    push_word(out, (address / 0x1_0000_0000) as u16)?;
    push_double(out, (address % 0x1_0000_0000) as u32)?;
    Ok(())
}

// Appends eight bytes.
fn push_eight(out: &mut Vec<u8>, number: u64) -> Result<(), AllocError>
    ensures { OnOk result (Adds out.old.items out.new.items (bits 64 number)) }
{
    push_double(out, (number / 0x1_0000_0000) as u32)?;
    push_double(out, (number % 0x1_0000_0000) as u32)?;
    Ok(())
}

/// Appends sixteen bytes.
pub fn push_sixteen(out: &mut Vec<u8>, number: u128) -> Result<(), AllocError>
    ensures { OnOk result (Adds out.old.items out.new.items (bits 128 number)) }
{
    push_eight(out, (number / 0x1_0000_0000_0000_0000) as u64)?;
    push_eight(out, (number % 0x1_0000_0000_0000_0000) as u64)?;
    Ok(())
}

/// What the type of bytes says of them.
pub fn known_bytes(bytes: &[u8])
    ensures { AreBytes bytes.now }
{}
