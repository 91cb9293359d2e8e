//! Notes: lines after four spaces, for people.
ghost use Rattle.std.specs.Prelude.{◌≡◌, ◌++◌, ◌∷◌, [], OnOk, codes};
ghost use Rattle.of_lines.specs.Lines.{note};

use std::alloc::AllocError;

/// What a note begins with.
pub fn begin_note(out: &mut Vec<u8>) -> Result<(), AllocError>
    ensures { OnOk result (out.new.items ≡ out.old.items ++ codes "    ") }
{
    out.extend_from_slice(b"    ")
}

/// What a note ends with.
pub fn end_note(out: &mut Vec<u8>) -> Result<(), AllocError>
    ensures { OnOk result (out.new.items ≡ out.old.items ++ 10 ∷ []) }
{
    out.push(b'\n')?;
    Ok(())
}

/// Appends a note.
pub fn push_note(out: &mut Vec<u8>, words: &[u8]) -> Result<(), AllocError>
    ensures { OnOk result (out.new.items ≡ out.old.items ++ note words.now) }
{
    begin_note(out)?;
    out.extend_from_slice(words)?;
    end_note(out)
}
