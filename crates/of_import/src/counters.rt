//! Comments behind the flows of a text: what a dump counted of each.
ghost use Rattle.std.specs.Prelude.{◌≡◌, ◌++◌, map, IfOk, OnOk};
ghost use Rattle.std.specs.List.{flat_map};
ghost use Rattle.of_lines.specs.Lines.{ended, lines_of};
ghost use Rattle.of_import.specs.Counters.{begins_flow as begins_flow_so, counter_notes as counter_notes_of, later_notes, next_note, note_in, noted_line, notes_after, notes_in, with_notes};
ghost use Rattle.of_import.specs.{CounterViews.notes_to_come, CounterViews.view_notes, ParsedLinesViews.view_flow_line};

use crate::notes::counter_note;
use crate::parsed_lines::FlowLine;
use of_text::{cut, is};
use std::alloc::{AllocError, Global};

/// The tables of a switch (OpenFlow 1.3.5, 5.1).
const TABLE_IDS: [u8; 16] = [0, 1, 2, 3, 4, 5, 6, 7, 8, 9, 10, 11, 12, 13, 14, 15];

fn push_note_in(
    alloc: Global,
    notes: &mut Vec<Vec<u8>>,
    table: u8,
    it: &FlowLine,
) -> Result<(), AllocError>
    ensures { OnOk result (view_notes notes.new.items ≡ view_notes notes.old.items ++ note_in table (view_flow_line it.now)) }
{
    if it.flow.head.table == table {
        notes.push(counter_note(alloc, it)?)?;
    }
    Ok(())
}

// Those of the flows of a table.
fn push_notes_in(
    alloc: Global,
    notes: &mut Vec<Vec<u8>>,
    table: u8,
    flows: &[FlowLine],
) -> Result<(), AllocError>
    ensures { OnOk result (view_notes notes.new.items ≡ view_notes notes.old.items ++ notes_in table (map view_flow_line flows.now)) }
{
    for it in flows {
        push_note_in(alloc, notes, table, it)?;
    }
    Ok(())
}

// Those of the flows of these tables.
fn push_notes_of(
    alloc: Global,
    notes: &mut Vec<Vec<u8>>,
    ids: &[u8],
    flows: &[FlowLine],
) -> Result<(), AllocError>
    ensures { OnOk result (view_notes notes.new.items ≡
        view_notes notes.old.items ++ flat_map (λ table. notes_in table (map view_flow_line flows.now)) ids.now) }
{
    for table in ids {
        push_notes_in(alloc, notes, *table, flows)?;
    }
    Ok(())
}

/// A comment for each flow, in the order of a flow text: table by table. It may be empty.
pub fn counter_notes(alloc: Global, flows: &[FlowLine]) -> Result<Vec<Vec<u8>>, AllocError>
    ensures { IfOk result (λ notes. view_notes notes.items ≡ counter_notes_of (map view_flow_line flows.now)) }
{
    let mut notes = Vec::new(alloc);
    push_notes_of(alloc, &mut notes, &TABLE_IDS, flows)?;
    Ok(notes)
}

// Appends the next comment; those to come are in reverse order.
fn push_next(out: &mut Vec<u8>, left: &mut Vec<Vec<u8>>) -> Result<(), AllocError>
    ensures out { OnOk result (out.new.items ≡ out.old.items ++ next_note (notes_to_come left.old.items)) }
    ensures left { notes_to_come left.new.items ≡ later_notes (notes_to_come left.old.items) }
{
    match left.pop() {
        Some(note) => out.extend_from_slice(&note),
        None => Ok(()),
    }
}

fn begins_flow(line: &[u8]) -> bool
    ensures { result ≡ begins_flow_so line.now }
{
    let (word, _) = cut(line, b' ');
    is(word, b"flow")
}

// Appends a line.
fn push_line(out: &mut Vec<u8>, line: &[u8]) -> Result<(), AllocError>
    ensures { OnOk result (out.new.items ≡ out.old.items ++ ended line.now) }
{
    out.extend_from_slice(line)?;
    out.push(b'\n')?;
    Ok(())
}

// Appends a line, and if it begins a flow the next of the comments.
fn push_noted(out: &mut Vec<u8>, left: &mut Vec<Vec<u8>>, line: &[u8]) -> Result<(), AllocError>
    ensures out { OnOk result (out.new.items ≡ out.old.items ++ noted_line (notes_to_come left.old.items) line.now) }
    ensures left { OnOk result (notes_to_come left.new.items ≡ notes_after (notes_to_come left.old.items) line.now) }
{
    push_line(out, line)?;
    if begins_flow(line) {
        push_next(out, left)?;
    }
    Ok(())
}

/// Appends the lines of a text, and behind each that begins a flow the next of the comments.
pub fn push_with_notes(
    out: &mut Vec<u8>,
    text: &[u8],
    notes: Vec<Vec<u8>>,
) -> Result<(), AllocError>
    ensures { OnOk result (out.new.items ≡ out.old.items ++ with_notes (view_notes notes.items) (lines_of text.now)) }
{
    let mut left = notes;
    left.reverse();
    let mut rest = text;
    while !rest.is_empty() {
        let (line, after) = cut(rest, b'\n');
        rest = after;
        push_noted(out, &mut left, line)?;
    }
    Ok(())
}
