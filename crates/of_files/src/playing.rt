//! Event files that are read whole, played on a switch.
ghost use Rattle.std.specs.Prelude.{◌≡◌, IfOk, OnOk, true};
ghost use Rattle.of_replay.specs.{FileRuns.IsRead, Rows.row_of_line, Rows.with_bytes, RowTexts.row_happened};
ghost use Rattle.of_files.specs.Playing.{PlaysLine, played_file, were_all as are_all};

use of_classifier::Lookup;
use of_replay::{DPID, Ended, Row, play_row, read_row};
use of_switch::{Switch, SwitchError};
use of_text::cut;
use std::alloc::{AllocError, Global};

// Plays a row, and drops what it gives. Err: out of memory.
fn play<L: Lookup>(
    alloc: Global,
    switch: &mut Switch<L>,
    row: Row,
    bytes: &[u8],
) -> Result<(), AllocError>
    ensures { OnOk result (switch.new ≡ (row_happened switch.old (with_bytes bytes.now row)).state) }
{
    match play_row(alloc, switch, row, bytes) {
        Err(SwitchError::NoMemory) => Err(AllocError),
        _ => Ok(()),
    }
}

// Plays the row of a line; false if it is none. Err: out of memory.
fn play_line<L: Lookup>(
    alloc: Global,
    switch: &mut Switch<L>,
    line: &[u8],
    bytes: &mut Vec<u8>,
) -> Result<bool, AllocError>
    ensures { IfOk result (λ good. PlaysLine good (row_of_line line.now) switch.old switch.new) }
{
    match read_row(line, bytes)? {
        None => Ok(false),
        Some(row) => {
            play(alloc, switch, row, bytes)?;
            Ok(true)
        }
    }
}

// Whether so many lines are all that are asked for.
fn were_all(most: Option<u64>, number: u64) -> bool
    ensures { result ≡ are_all most number }
{
    match most {
        None => false,
        Some(most) => most == number,
    }
}

/// The switch after the rows of an event file (docs/EVENTS.md), as `replay` plays them: a new one with datapath_id 1, on which each row
/// happened; of all lines, or of so many first ones.
///
/// If there is none, Err is the first of these lines that is a bad row, or `NoMemory`.
pub fn play_file<L: Lookup>(
    alloc: Global,
    file: &[u8],
    most: Option<u64>,
) -> Result<Switch<L>, Ended>
    ensures { IsRead (played_file most) result true file.now }
{
    let Ok(mut switch) = Switch::<L>::new(alloc, DPID) else {
        return Err(Ended::NoMemory);
    };
    let mut bytes = Vec::new(alloc);
    let mut number: u64 = 0;
    let mut rest = file;
    while !rest.is_empty() {
        if were_all(most, number) {
            return Ok(switch);
        }
        let (line, after) = cut(rest, b'\n');
        rest = after;
        number += 1;
        match play_line(alloc, &mut switch, line, &mut bytes) {
            Ok(true) => {}
            Ok(false) => return Err(Ended::BadRow(number)),
            Err(AllocError) => return Err(Ended::NoMemory),
        }
    }
    Ok(switch)
}
