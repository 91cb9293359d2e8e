//! Notes: lines after four spaces.
ghost use Rattle.std.specs.Prelude.{◌≡◌, ◌++◌, ◌∷◌, OnOk, decimal};
ghost use Rattle.of_text.specs.Lines.{note};

use of_text::{begin_note, end_note, push_number};
use std::alloc::AllocError;

/// Appends a note that ends with a number.
pub fn push_number_note(out: &mut Vec<u8>, words: &[u8], number: u32) -> Result<(), AllocError>
    ensures { OnOk result (out.new.items ≡ out.old.items ++ note (words.now ++ 32 ∷ decimal number)) }
{
    begin_note(out)?;
    out.extend_from_slice(words)?;
    push_number(out, u64::from(number))?;
    end_note(out)
}
