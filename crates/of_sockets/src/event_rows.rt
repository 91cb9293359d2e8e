//! Event files that are read whole, before a switch serves.
ghost use Rattle.std.specs.Prelude.{◌≡◌, ◌≤◌, IfOk, Some, true};
ghost use Rattle.of_replay.specs.{Rows.row_of_line, Rows.with_bytes, FileRuns.IsRead, FileRuns.ReadsWhole};
ghost use Rattle.of_sockets.specs.FileRows.{Pushes, RowsFault, file_row, served_file};

use of_replay::{Ended, READ_SIZE, Row, Source, ended_by, read_file, read_row, zeros};
use of_switch::Event;
use of_text::cut;
use of_wire::Bytes;
use std::alloc::{AllocError, Global};

// Appends what happens at a row; false where it is not allowed in the file.
fn push_row(
    alloc: Global,
    row: Row,
    bytes: &[u8],
    events: &mut Vec<Event>,
) -> Result<bool, AllocError>
    ensures { IfOk result (λ good. Pushes good (file_row (Some (with_bytes bytes.now row))) events.old.items events.new.items) }
{
    match row {
        Row::Passed => Ok(true),
        Row::Connect | Row::Lost | Row::Chunk => Ok(false),
        Row::Frame { port } => {
            let frame = Bytes::from_slice(alloc, bytes)?;
            events.push(Event::Frame { port, frame })?;
            Ok(true)
        }
        Row::Moment { nanos } => {
            events.push(Event::Moment(nanos))?;
            Ok(true)
        }
        Row::Ports(change) => {
            events.push(Event::Ports(change))?;
            Ok(true)
        }
    }
}

// Appends what happens at a line; false where it is bad.
fn push_line(
    alloc: Global,
    line: &[u8],
    bytes: &mut Vec<u8>,
    events: &mut Vec<Event>,
) -> Result<bool, AllocError>
    ensures { IfOk result (λ good. Pushes good (file_row (row_of_line line.now)) events.old.items events.new.items) }
{
    match read_row(line, bytes)? {
        Some(row) => push_row(alloc, row, bytes, events),
        None => Ok(false),
    }
}

// The events of a file.
fn rows_in(alloc: Global, file: &[u8]) -> Result<Vec<Event>, Ended>
    ensures { IsRead served_file result true file.now }
{
    let mut events = Vec::new(alloc);
    let mut bytes = Vec::new(alloc);
    let mut number: u64 = 0;
    let mut rest = file;
    while !rest.is_empty() {
        let (line, after) = cut(rest, b'\n');
        rest = after;
        number += 1;
        match push_line(alloc, line, &mut bytes, &mut events) {
            Ok(true) => {}
            Ok(false) => return Err(Ended::BadRow(number)),
            Err(AllocError) => return Err(Ended::NoMemory),
        }
    }
    Ok(events)
}

/// Reads a whole event file, and returns its events; or how a run ends that needs them: the first line that is a bad row,
/// as are `connect`, `lost` and `c`, a read fault, or no memory.
pub fn read_rows<S: Source>(alloc: Global, reader: &mut S) -> Result<Vec<Event>, Ended>
    requires { S.reads reader.old ≡ 0 }
    ensures rows { ReadsWhole served_file result (S.answers reader.old) (S.answers reader.new) (S.ends reader.old) (S.ends reader.new) }
    ensures faults { RowsFault result (S.reads reader.new) (S.ends reader.old) (S.ends reader.new) (S.failures reader.old) (S.failures reader.new) }
    ensures reads { S.reads reader.new ≤ 1000000 }
{
    let Ok(mut buffer) = zeros(alloc, READ_SIZE) else {
        return Err(Ended::NoMemory);
    };
    let mut file = Vec::new(alloc);
    match read_file(reader, &mut buffer, &mut file) {
        Err(halt) => Err(ended_by(Err(halt))),
        Ok(()) => rows_in(alloc, &file),
    }
}
