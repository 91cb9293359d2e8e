//! The lines of texts as strings.
ghost use Rattle.std.specs.{Prelude.◌≡◌, Prelude.◌++◌, Prelude.◌∷◌, Prelude.OnOk, List.flat_map};
ghost use Rattle.of_text.specs.Lines.{lines_of};
ghost use Rattle.of_json.specs.{Parts.listed, Strings.line_string};

use crate::strings::push_string;
use of_text::cut;
use of_wire::rest_from;
use std::alloc::AllocError;

// Appends a line without its first bytes.
fn push_line(out: &mut Vec<u8>, indent: usize, line: &[u8]) -> Result<(), AllocError>
    ensures { OnOk result (out.new.items ≡ out.old.items ++ line_string indent line.now) }
{
    if line.len() < indent {
        return push_string(out, &[]);
    }
    push_string(out, rest_from(line, indent))
}

fn push_further_lines(out: &mut Vec<u8>, indent: usize, text: &[u8]) -> Result<(), AllocError>
    ensures { OnOk result (out.new.items ≡ out.old.items ++ flat_map (λ l. 44 ∷ line_string indent l) (lines_of text.now)) }
{
    let mut rest = text;
    while !rest.is_empty() {
        let (line, after) = cut(rest, b'\n');
        rest = after;
        out.push(b',')?;
        push_line(out, indent, line)?;
    }
    Ok(())
}

/// Appends the lines of a text, each without its first bytes, so many, with commas between them.
pub fn push_line_strings(out: &mut Vec<u8>, indent: usize, text: &[u8]) -> Result<(), AllocError>
    ensures { OnOk result (out.new.items ≡ out.old.items ++ listed (line_string indent) (lines_of text.now)) }
{
    if text.is_empty() {
        return Ok(());
    }
    let (line, rest) = cut(text, b'\n');
    push_line(out, indent, line)?;
    push_further_lines(out, indent, rest)
}
