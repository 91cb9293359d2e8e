//! Changes of texts whose lines are a set.
ghost use Rattle.std.specs.Prelude.{◌≡◌, ◌++◌, IsTrue, IfNone, IfOk, IfSome, OnOk, false};
ghost use Rattle.of_history.specs.Changes.{HasLinesOf, has_line, line_by_line, line_without, text_without};

use crate::cause::Cause;
use crate::marks::push_marked;
use crate::reason::Reason;
use crate::telling::ChangeTeller;
use of_text::{cut, is};
use std::alloc::{AllocError, Global};

// What follows the first line that is this one, if there is one.
fn after_line<'a>(text: &'a [u8], line: &[u8]) -> Option<&'a [u8]>
    ensures none { IfNone result (has_line text.now line.now ≡ false) }
    ensures some { IfSome result (λ rest. IsTrue (has_line text.now line.now)) }
    ensures within { IfSome result (λ rest. HasLinesOf text.now rest.now) }
{
    let mut rest = text;
    while !rest.is_empty() {
        let (first, others) = cut(rest, b'\n');
        rest = others;
        if is(line, first) {
            return Some(rest);
        }
    }
    None
}

// The same; the line may be the first of a part of the text, where most are.
fn after_line_near<'a>(text: &'a [u8], part: &'a [u8], line: &[u8]) -> Option<&'a [u8]>
    requires { HasLinesOf text.now part.now }
    ensures none { IfNone result (has_line text.now line.now ≡ false) }
    ensures some { IfSome result (λ rest. IsTrue (has_line text.now line.now)) }
    ensures within { IfSome result (λ rest. HasLinesOf text.now rest.now) }
{
    if part.is_empty() {
        return after_line(text, line);
    }
    let (first, others) = cut(part, b'\n');
    if is(line, first) {
        Some(others)
    } else {
        after_line(text, line)
    }
}

// Appends a line that a text does not have, which is looked for in a part of it first; and returns what follows where it was found.
fn push_unless_there<'a>(
    lines: &mut Vec<u8>,
    text: &'a [u8],
    part: &'a [u8],
    line: &[u8],
) -> Result<&'a [u8], AllocError>
    requires { HasLinesOf text.now part.now }
    ensures lines { OnOk result (lines.new.items ≡ lines.old.items ++ line_without text.now line.now) }
    ensures within { IfOk result (λ rest. HasLinesOf text.now rest.now) }
{
    match after_line_near(text, part, line) {
        Some(rest) => Ok(rest),
        None => {
            push_marked(lines, b"", line)?;
            Ok(part)
        }
    }
}

// The lines of a text that the other does not have.
fn without(alloc: Global, other: &[u8], text: &[u8]) -> Result<Vec<u8>, AllocError>
    ensures { IfOk result (λ lines. lines.items ≡ text_without other.now text.now) }
{
    let mut lines = Vec::new(alloc);
    let mut rest = text;
    let mut part = other;
    while !rest.is_empty() {
        let (line, after) = cut(rest, b'\n');
        rest = after;
        part = push_unless_there(&mut lines, other, part, line)?;
    }
    Ok(lines)
}

/// Says it of the lines that went and of those that came, where the lines of a view are a set, such as flow entries; and no reason, since the message says it.
#[derive(Drop)]
pub struct LineByLine<T>(pub T);

impl<T: ChangeTeller> ChangeTeller for LineByLine<T> {
    ghost text = { line_by_line T.text };

    fn tell(
        &self,
        alloc: Global,
        out: &mut Vec<u8>,
        cause: &Cause<'_>,
        _reason: Option<Reason>,
        old: &[u8],
        new: &[u8],
    ) -> Result<(), AllocError> {
        let gone = without(alloc, new, old)?;
        let come = without(alloc, old, new)?;
        self.0.tell(alloc, out, cause, None, &gone, &come)
    }
}
