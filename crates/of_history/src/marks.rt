//! Two texts, line by line.
ghost use Rattle.std.specs.{Prelude.◌≡◌, Prelude.◌++◌, Prelude.OnOk, List.flat_map};
ghost use Rattle.of_text.specs.Lines.{ended, lines_of};
ghost use Rattle.of_history.specs.Changes.{come_line, gone_line, marked_lines, other_lines};

use of_text::{cut, is};
use std::alloc::AllocError;

/// Appends a line behind a mark.
pub fn push_marked(out: &mut Vec<u8>, mark: &[u8], line: &[u8]) -> Result<(), AllocError>
    ensures { OnOk result (out.new.items ≡ out.old.items ++ (mark.now ++ ended line.now)) }
{
    out.extend_from_slice(mark)?;
    out.extend_from_slice(line)?;
    out.push(b'\n')?;
    Ok(())
}

// Appends lines behind a mark.
fn push_all_marked(out: &mut Vec<u8>, mark: &[u8], text: &[u8]) -> Result<(), AllocError>
    ensures { OnOk result (out.new.items ≡ out.old.items ++ flat_map (λ l. mark.now ++ ended l) (lines_of text.now)) }
{
    let mut rest = text;
    while !rest.is_empty() {
        let (line, after) = cut(rest, b'\n');
        rest = after;
        push_marked(out, mark, line)?;
    }
    Ok(())
}

// Appends the lines of a text that goes, and of one that comes.
fn push_others(out: &mut Vec<u8>, old: &[u8], new: &[u8]) -> Result<(), AllocError>
    ensures { OnOk result (out.new.items ≡ out.old.items ++ other_lines (lines_of old.now) (lines_of new.now)) }
{
    push_all_marked(out, b"    - ", old)?;
    push_all_marked(out, b"    + ", new)
}

/// Appends the first lines that both texts have, then the others of the old one, then those of the new one.
pub fn push_both(out: &mut Vec<u8>, old: &[u8], new: &[u8]) -> Result<(), AllocError>
    ensures { OnOk result (out.new.items ≡ out.old.items ++ marked_lines (lines_of old.now) (lines_of new.now)) }
{
    let (mut gone, mut come) = (old, new);
    loop {
        if gone.is_empty() {
            return push_others(out, gone, come);
        }
        if come.is_empty() {
            return push_others(out, gone, come);
        }
        let (old_line, old_rest) = cut(gone, b'\n');
        let (new_line, new_rest) = cut(come, b'\n');
        if !is(old_line, new_line) {
            return push_others(out, gone, come);
        }
        push_marked(out, b"      ", old_line)?;
        gone = old_rest;
        come = new_rest;
    }
}
