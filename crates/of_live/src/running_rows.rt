//! Event rows that are written while the switch runs.
ghost use Rattle.std.specs.Prelude.{◌≡◌, Some, IfOk};
ghost use Rattle.of_replay.specs.Rows.{row_of_line, with_bytes};
ghost use Rattle.of_live.specs.RunningRows.{running_row};

use of_replay::{Row, read_row};
use of_switch::Event;
use of_wire::Bytes;
use std::alloc::{AllocError, Global};

/// What a line is that is written while the switch runs.
#[derive(Drop)]
pub enum RunningRow {
    /// A frame or a change of ports.
    Happens(Event),
    /// An empty line or a comment.
    Skipped,
    /// No row, or a row of the controller or the clock.
    Bad,
}

fn running_row_of(alloc: Global, row: Row, bytes: &[u8]) -> Result<RunningRow, AllocError>
    ensures { IfOk result (λ it. it ≡ running_row (Some (with_bytes bytes.now row))) }
{
    match row {
        Row::Passed => Ok(RunningRow::Skipped),
        Row::Connect | Row::Lost | Row::Chunk | Row::Moment { .. } => Ok(RunningRow::Bad),
        Row::Frame { port } => Ok(RunningRow::Happens(Event::Frame {
            port,
            frame: Bytes::from_slice(alloc, bytes)?,
        })),
        Row::Ports(change) => Ok(RunningRow::Happens(Event::Ports(change))),
    }
}

/// What a line is that is written while the switch runs: frames and changes of ports happen, as an event file has them. The buffer is for
/// the bytes of a frame.
pub fn read_running_row(
    alloc: Global,
    line: &[u8],
    buffer: &mut Vec<u8>,
) -> Result<RunningRow, AllocError>
    ensures { IfOk result (λ it. it ≡ running_row (row_of_line line.now)) }
{
    match read_row(line, buffer)? {
        Some(row) => running_row_of(alloc, row, buffer),
        None => Ok(RunningRow::Bad),
    }
}
