//! Bytes as printable characters.
ghost use Rattle.std.specs.Prelude.{◌≡◌, ◌++◌, map, OnOk};
ghost use Rattle.of_values.specs.Origins.{printable as printable_of};

use std::alloc::AllocError;

/// A byte; a question mark in place of one that is no printable character of ASCII.
pub fn printable(byte: u8) -> u8
    ensures { result ≡ printable_of byte }
{
    if (32..=126).contains(&byte) {
        byte
    } else {
        b'?'
    }
}

/// Appends bytes as printable characters.
pub fn push_printable(out: &mut Vec<u8>, text: &[u8]) -> Result<(), AllocError>
    ensures { OnOk result (out.new.items ≡ out.old.items ++ map printable_of text.now) }
{
    for byte in text {
        out.push(printable(*byte))?;
    }
    Ok(())
}
