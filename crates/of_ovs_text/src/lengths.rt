//! The max_len of OUTPUT in flow text.
ghost use Rattle.std.specs.Prelude.{◌≡◌, ◌++◌, IfOk, OnOk};
ghost use Rattle.of_ovs_text.specs.Lengths.{has_unused_length as has_such_length, line_with_used_length, output_line_of_zero, with_used_lengths as with_used_lengths_of};

use of_text::{cut, is};
use std::alloc::{AllocError, Global};

// Whether it is an OUTPUT to another port than CONTROLLER.
fn has_unused_length(line: &[u8]) -> bool
    ensures { result ≡ has_such_length line.now }
{
    let (word, rest) = cut(line, b' ');
    let (port, _) = cut(rest, b' ');
    is(word, b"output") && !is(port, b"4294967293")
}

// Appends the line of an OUTPUT with a max_len of 0.
fn push_with_zero(out: &mut Vec<u8>, line: &[u8]) -> Result<(), AllocError>
    ensures { OnOk result (out.new.items ≡ out.old.items ++ output_line_of_zero line.now) }
{
    let (_, rest) = cut(line, b' ');
    let (port, _) = cut(rest, b' ');
    out.extend_from_slice(b"output ")?;
    out.extend_from_slice(port)?;
    out.extend_from_slice(b" 0\n")
}

fn push_with_used_length(out: &mut Vec<u8>, line: &[u8]) -> Result<(), AllocError>
    ensures { OnOk result (out.new.items ≡ out.old.items ++ line_with_used_length line.now) }
{
    if has_unused_length(line) {
        return push_with_zero(out, line);
    }
    out.extend_from_slice(line)?;
    out.extend_from_slice(b"\n")
}

/// The flow text in which each OUTPUT to another port than CONTROLLER has a max_len of 0.
#[tactic(auto, unfolding(crate::specs::Lengths::with_used_lengths))]
pub fn with_used_lengths(alloc: Global, text: &[u8]) -> Result<Vec<u8>, AllocError>
    ensures { IfOk result (λ used. used.items ≡ with_used_lengths_of text.now) }
{
    let mut out = Vec::new(alloc);
    let mut rest = text;
    while !rest.is_empty() {
        let (line, after) = cut(rest, b'\n');
        rest = after;
        push_with_used_length(&mut out, line)?;
    }
    Ok(out)
}
