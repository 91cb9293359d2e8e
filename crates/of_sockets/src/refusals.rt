//! Rows of an event file that a switch refuses.
ghost use Rattle.std.specs.Prelude.{◌≡◌, ◌++◌, ◌∷◌, [], IfOk, OnOk};
ghost use Rattle.of_text.specs.Lines.{lines_of};
ghost use Rattle.of_switch.specs.{declared.event.Event.TheVariants.Ports as PortsEvent, Runs.happened, State.start};
ghost use Rattle.of_sockets.specs.Refusals.{after_due, later, next_due as first_due, ported, refusal_in, refused_by, refused_rows_from, refused_row, row_numbers as numbers_of_rows};

use of_classifier::Lookup;
use of_switch::{Event, PortChange, Switch, SwitchError};
use of_text::{cut, is_passed_over};
use std::alloc::{AllocError, Global};
use std::marker::Model;

/// A row that is refused when the clock reaches it.
#[derive(Clone, Copy, Debug, PartialEq, Eq)]
pub struct RefusedRow {
    /// When it is due, in nanoseconds.
    pub due: u64,
    /// The number of its line, from 1.
    pub line: usize,
    pub why: SwitchError,
}

/// The numbers of the lines that are neither empty nor comments, from 1: those of the rows of an event file.
pub fn row_numbers(alloc: Global, file: &[u8]) -> Result<Vec<usize>, AllocError>
    ensures { IfOk result (λ numbers. numbers.items ≡ numbers_of_rows 0 (lines_of file.now)) }
{
    let mut numbers = Vec::new(alloc);
    let mut number: usize = 0;
    let mut rest = file;
    while !rest.is_empty() {
        let (line, after) = cut(rest, b'\n');
        rest = after;
        number += 1;
        if !is_passed_over(line) {
            numbers.push(number)?;
        }
    }
    Ok(numbers)
}

/// Changes the ports of a switch, and returns why that is refused, if it is.
pub fn refusal_of<L: Lookup>(
    switch: &mut Switch<L>,
    change: PortChange,
) -> Result<Option<SwitchError>, AllocError>
    ensures why { IfOk result (λ why. why ≡ refusal_in (happened (PortsEvent change) switch.old).report) }
    ensures state { OnOk result (switch.new ≡ (happened (PortsEvent change) switch.old).state) }
{
    match switch.port_change(change) {
        Ok(_) => Ok(None),
        Err(SwitchError::NoMemory) => Err(AllocError),
        Err(why) => Ok(Some(why)),
    }
}

// A row comes: where it is refused, it is appended.
fn push_refused<L: Lookup>(
    switch: &mut Switch<L>,
    event: &Event,
    due: u64,
    line: usize,
    rows: &mut Vec<RefusedRow>,
) -> Result<(), AllocError>
    ensures rows { OnOk result (rows.new.items ≡ rows.old.items ++ refused_by event.now due line switch.old) }
    ensures state { OnOk result (switch.new ≡ ported event.now switch.old) }
{
    let Event::Ports(change) = event else {
        return Ok(());
    };
    if let Some(why) = refusal_of(switch, *change)? {
        rows.push(RefusedRow { due, line, why })?;
    }
    Ok(())
}

/// When the rows after this row are due, in nanoseconds: at the latest moment before them.
pub fn later_of(event: &Event, due: u64) -> u64
    ensures { result ≡ later event.now due }
{
    match event {
        Event::Moment(nanos) => due.max(*nanos),
        _ => due,
    }
}

// The rows that a switch refuses, with those numbers.
fn refused_rows<L: Lookup>(
    alloc: Global,
    switch: &mut Switch<L>,
    events: &[Event],
    lines: &[usize],
) -> Result<Vec<RefusedRow>, AllocError>
    ensures { IfOk result (λ rows. rows.items ≡ refused_rows_from 0 switch.old events.now lines.now) }
{
    let mut rows = Vec::new(alloc);
    let mut due: u64 = 0;
    for (place, event) in events.iter().enumerate() {
        let Some(line) = lines.get(place) else {
            break;
        };
        push_refused(switch, event, due, *line, &mut rows)?;
        due = later_of(event, due);
    }
    Ok(rows)
}

/// The rows of an event file that a switch refuses, until they are said.
#[derive(Drop)]
pub struct Refusals {
    rows: Vec<RefusedRow>,
    // how many of them were said
    said: usize,
}

impl Model for Refusals {
    ghost use Rattle.std.specs.Prelude.{◌≤◌, List, drop, length};
    ghost use Rattle.of_sockets.specs.declared.refusals.RefusedRow.{RefusedRow};

    ghost Value = { List RefusedRow };

    ghost view = { λ r. drop r.said r.rows.items };

    ghost invariant = { λ r. r.said ≤ length r.rows.items };
}

impl Refusals {
    /// Those of these events, which are the rows of that file. Which ports there are is for rows of ports alone to say, so
    /// a switch on which nothing else happens refuses the same rows as the one that serves.
    pub fn new<L: Lookup>(alloc: Global, file: &[u8], events: &[Event]) -> Result<Self, AllocError>
        ensures { IfOk result (λ r. r ≡ refused_rows_from 0 (start 1) events.now (numbers_of_rows 0 (lines_of file.now))) }
    {
        let numbers = row_numbers(alloc, file)?;
        let mut switch = Switch::<L>::new(alloc, 1)?;
        let rows = refused_rows(alloc, &mut switch, events, &numbers)?;
        Ok(Refusals { rows, said: 0 })
    }

    /// The clock says this time: the next row that is due by now, and is not said again; None where none is.
    pub fn next_due(&mut self, now: u64) -> Option<RefusedRow>
        ensures row { result ≡ first_due now self.old }
        ensures rest { self.new ≡ after_due now self.old }
    {
        let row = *self.rows.get(self.said)?;
        if row.due > now {
            return None;
        }
        self.said += 1;
        Some(row)
    }
}
