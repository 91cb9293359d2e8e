//! Rows explained.
ghost use Rattle.std.specs.Prelude.{◌≡◌, ◌++◌, ℕ, List, IfErr, OnOk};
ghost use Rattle.of_switch.specs.{declared.switch_error.SwitchError.TheVariants.NoMemory, Runs.Gives};
ghost use Rattle.of_replay.specs.{Rows.with_bytes, RowTexts.row_happened};
ghost use Rattle.of_explain.specs.Explained.{echoed, end_notes, explained, notes_below, report_notes, row_notes, TellsReport};

use crate::effects::{push_effects, push_refusal};
use crate::frames::{push_nothing, push_way};
use crate::requests::push_chunk;
use of_classifier::Lookup;
use of_replay::{Row, RowPrinter, play_row};
use of_switch::{Effect, Effects, Switch, SwitchError};
use of_values::push_decimal;
use std::alloc::{AllocError, Global};

// Appends a line as in the file, behind its number. An empty one is left out.
fn push_line(out: &mut Vec<u8>, number: u64, line: &[u8]) -> Result<(), AllocError>
    ensures { OnOk result (out.new.items ≡ out.old.items ++ echoed number line.now) }
{
    if line.is_empty() {
        return Ok(());
    }
    push_decimal(out, u128::from(number))?;
    out.extend_from_slice(b": ")?;
    out.extend_from_slice(line)?;
    out.push(b'\n')?;
    Ok(())
}

// Appends what a row is about to do.
fn push_row<L: Lookup>(
    alloc: Global,
    out: &mut Vec<u8>,
    switch: &Switch<L>,
    row: Row,
    bytes: &[u8],
) -> Result<(), SwitchError>
    ensures text { OnOk result (out.new.items ≡ out.old.items ++ row_notes switch.now (with_bytes bytes.now row)) }
    ensures err { IfErr result (λ e. e ≡ NoMemory) }
{
    match row {
        Row::Chunk => Ok(push_chunk(alloc, out, switch.pending(), bytes)?),
        Row::Frame { port } => {
            push_way(alloc, out, switch, port, bytes)?;
            Ok(())
        }
        Row::Passed | Row::Connect | Row::Lost | Row::Moment { .. } | Row::Ports(_) => Ok(()),
    }
}

// Appends what a row left behind.
fn push_end(out: &mut Vec<u8>, row: Row, effects: &[Effect]) -> Result<(), AllocError>
    ensures { (bytes : List ℕ) → OnOk result (out.new.items ≡ out.old.items ++ end_notes (with_bytes bytes row) effects.now) }
{
    match row {
        Row::Frame { .. } => push_nothing(out, effects),
        Row::Passed | Row::Connect | Row::Lost | Row::Chunk | Row::Moment { .. } | Row::Ports(_) =>
            { Ok(()) }
    }
}

// Appends what a row did: what was noted before it, its effects, and how that ends.
fn push_effects_of(
    alloc: Global,
    out: &mut Vec<u8>,
    before: &[u8],
    row: Row,
    effects: &[Effect],
) -> Result<(), AllocError>
    ensures { (bytes : List ℕ) → OnOk result (out.new.items ≡ out.old.items ++ report_notes before.now (with_bytes bytes row) (Gives effects.now)) }
{
    out.extend_from_slice(before)?;
    push_effects(alloc, out, effects)?;
    push_end(out, row, effects)
}

// Appends the notes of a call's report. Where memory ran out there is none.
fn push_report(
    alloc: Global,
    out: &mut Vec<u8>,
    before: &[u8],
    row: Row,
    called: Result<Effects, SwitchError>,
) -> Result<(), SwitchError>
    ensures { (bytes : List ℕ) → TellsReport called result before.now (with_bytes bytes row) out.old.items out.new.items }
{
    match called {
        Ok(effects) => Ok(push_effects_of(alloc, out, before, row, &effects)?),
        Err(SwitchError::NoMemory) => Err(SwitchError::NoMemory),
        Err(refusal) => Ok(push_refusal(out, refusal)?),
    }
}

/// Plays a row, and appends the notes below it.
pub fn tell_notes<L: Lookup>(
    alloc: Global,
    switch: &mut Switch<L>,
    row: Row,
    bytes: &[u8],
    out: &mut Vec<u8>,
) -> Result<(), SwitchError>
    ensures notes { OnOk result (out.new.items ≡ out.old.items ++ notes_below switch.old (with_bytes bytes.now row)) }
    ensures switch { OnOk result (switch.new ≡ (row_happened switch.old (with_bytes bytes.now row)).state) }
    ensures err { IfErr result (λ e. e ≡ NoMemory) }
{
    let mut before = Vec::new(alloc);
    push_row(alloc, &mut before, switch, row, bytes)?;
    let called = play_row(alloc, switch, row, bytes);
    push_report(alloc, out, &before, row, called)
}

/// Prints for each row its line, behind the number of the line, and below it what it did.
#[derive(Drop)]
pub struct Explaining;

impl<L: Lookup> RowPrinter<L> for Explaining {
    ghost tale = { explained };

    fn tell(
        &self,
        alloc: Global,
        switch: &mut Switch<L>,
        number: u64,
        line: &[u8],
        row: Row,
        bytes: &[u8],
        out: &mut Vec<u8>,
    ) -> Result<(), SwitchError> {
        push_line(out, number, line)?;
        tell_notes(alloc, switch, row, bytes, out)
    }
}
