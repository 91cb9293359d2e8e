//! What is below the note of an answer, in words: the rows of a multipart reply (OpenFlow 1.3.5, 7.3.5), the match of a FLOW_REMOVED (7.4.2).
ghost use Rattle.std.specs.Prelude.{◌≡◌, ◌++◌, ◌≤◌, codes, drop, length, IfOk, IfSome, OnOk};
ghost use Rattle.std.specs.List.{AllByRecursion, flat_map};
ghost use Rattle.of_text.specs.{Rows.Fits, Lines.ended};
ghost use Rattle.of_explain.specs.Replies.{answer_lines, deeper_line, deeper_lines, front_row, length_by, removed_lines, reply_row, row_match, row_told, rows_by, rows_of_reply};
ghost use Rattle.of_explain.specs.{Fields.fields_words, Messages.multipart_type};

use crate::fields::{behind, half_at, number_at, push_fields};
use crate::requests::{push_line, push_lines};
use crate::said::match_said;
use crate::told::row_fields;
use of_text::{Row, begin_note, end_note};
use of_wire::{front_of, rest_from};
use std::alloc::{AllocError, Global};

// The length of a row of this type that begins with that number.
#[tactic(auto, unfolding(crate::specs::Replies::length_by))]
fn row_length(kind: u16, first: Option<u16>) -> Option<u16>
    ensures { result ≡ length_by kind first }
{
    match kind {
        1 | 6 | 7 => first,
        3 => Some(24),
        4 => Some(112),
        13 => Some(64),
        _ => None,
    }
}

// How many bytes the row at the front has; None where there is none.
#[tactic(auto, unfolding(crate::specs::Replies::front_row))]
fn first_row(kind: u16, body: &[u8]) -> Option<usize>
    ensures front { result ≡ front_row kind body.now }
    ensures within { IfSome result (λ size. (1 ≤ size) × (size ≤ length body.now)) }
{
    let size = usize::from(row_length(kind, half_at(body, 0))?);
    if size >= 1 && size <= body.len() {
        Some(size)
    } else {
        None
    }
}

// The lines of an entry's match; of other rows none.
#[tactic(auto, unfolding(crate::specs::Replies::row_match))]
fn match_of_row(alloc: Global, kind: u16, row: &[u8]) -> Result<Vec<Row>, AllocError>
    ensures text { IfOk result (λ rows. rows.items ≡ row_match kind row.now) }
    ensures fits { IfOk result (λ rows. AllByRecursion Fits rows.items) }
{
    match kind {
        1 => match_said(alloc, behind(row, 48)),
        _ => Ok(Vec::new(alloc)),
    }
}

// Appends a row in words as a line after eight spaces.
fn push_row_line(alloc: Global, out: &mut Vec<u8>, kind: u16, row: &[u8]) -> Result<(), AllocError>
    ensures { OnOk result (out.new.items ≡ out.old.items ++ (codes "        " ++ ended (fields_words (row_told kind) row.now))) }
{
    out.extend_from_slice(b"        ")?;
    push_fields(alloc, out, row, row_fields(kind))?;
    end_note(out)
}

// Appends a line of flow text after twelve spaces.
#[tactic(auto, unfolding(crate::specs::Replies::deeper_line))]
fn push_deeper(out: &mut Vec<u8>, row: Row) -> Result<(), AllocError>
    requires { Fits row }
    ensures { OnOk result (out.new.items ≡ out.old.items ++ deeper_line row) }
{
    begin_note(out)?;
    push_line(out, row)
}

// Appends lines of flow text, each after twelve spaces.
fn push_deeper_lines(out: &mut Vec<u8>, rows: &[Row]) -> Result<(), AllocError>
    requires { AllByRecursion Fits rows.now }
    ensures { OnOk result (out.new.items ≡ out.old.items ++ deeper_lines rows.now) }
{
    for row in rows {
        push_deeper(out, *row)?;
    }
    Ok(())
}

// Appends a row, and the match that it has.
#[tactic(auto, unfolding(crate::specs::Replies::reply_row))]
fn push_row(alloc: Global, out: &mut Vec<u8>, kind: u16, row: &[u8]) -> Result<(), AllocError>
    ensures { OnOk result (out.new.items ≡ out.old.items ++ reply_row kind row.now) }
{
    push_row_line(alloc, out, kind, row)?;
    let fields = match_of_row(alloc, kind, row)?;
    push_deeper_lines(out, &fields)
}

// Appends the rows of a reply of this type.
fn push_rows(alloc: Global, out: &mut Vec<u8>, kind: u16, body: &[u8]) -> Result<(), AllocError>
    ensures { OnOk result (out.new.items ≡ out.old.items ++ flat_map (reply_row kind) (rows_of_reply kind body.now)) }
{
    let mut rest = body;
    while let Some(size) = first_row(kind, rest) {
        push_row(alloc, out, kind, front_of(rest, size))?;
        rest = rest_from(rest, size);
    }
    Ok(())
}

// Appends the rows of a MULTIPART_REPLY.
fn push_reply(alloc: Global, out: &mut Vec<u8>, message: &[u8]) -> Result<(), AllocError>
    ensures { OnOk result (out.new.items ≡ out.old.items ++ rows_by (multipart_type message.now) (drop 16 message.now)) }
{
    match half_at(message, 8) {
        None => Ok(()),
        Some(kind) => push_rows(alloc, out, kind, behind(message, 16)),
    }
}

// Appends the match of a FLOW_REMOVED (7.4.2).
#[tactic(auto, unfolding(crate::specs::Replies::removed_lines))]
fn push_removed(alloc: Global, out: &mut Vec<u8>, message: &[u8]) -> Result<(), AllocError>
    ensures { OnOk result (out.new.items ≡ out.old.items ++ removed_lines message.now) }
{
    let rows = match_said(alloc, behind(message, 48))?;
    push_lines(out, &rows)
}

/// Appends the lines below an answer, after eight spaces: the rows of a MULTIPART_REPLY in words, below a flow entry its match as lines of flow text, and
/// the match of a FLOW_REMOVED. Other messages have none.
#[tactic(auto, unfolding(crate::specs::Replies::answer_lines))]
pub fn push_answer_lines(alloc: Global, out: &mut Vec<u8>, message: &[u8]) -> Result<(), AllocError>
    ensures { OnOk result (out.new.items ≡ out.old.items ++ answer_lines message.now) }
{
    match number_at(message, 1, 1) {
        Some(19) => push_reply(alloc, out, message),
        Some(11) => push_removed(alloc, out, message),
        _ => Ok(()),
    }
}
