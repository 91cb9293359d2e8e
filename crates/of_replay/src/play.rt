//! Rows played on a switch.
ghost use Rattle.std.specs.Prelude.{◌≡◌, ◌++◌, IfOk, IfErr, OnOk};
ghost use Rattle.of_switch.specs.{Runs.drained, Runs.happened, Steps.gives, declared.switch_error.SwitchError.TheVariants.NoMemory};
ghost use Rattle.of_replay.specs.{Rows.with_bytes, Stepping.RowGives, Stepping.row_happened};

use crate::rows::Row;
use of_classifier::Lookup;
use of_switch::{Effects, Event, Switch, SwitchError};
use std::alloc::{AllocError, Global};

/// What a row gives.
pub fn play_row<L: Lookup>(
    alloc: Global,
    switch: &mut Switch<L>,
    row: Row,
    bytes: &[u8],
) -> Result<Effects, SwitchError>
    ensures { RowGives result (row_happened switch.old (with_bytes bytes.now row)) switch.new }
{
    match row {
        Row::Passed => Ok(Effects::new(alloc)),
        Row::Connect => switch.connected(),
        Row::Lost => {
            switch.lost();
            Ok(Effects::new(alloc))
        }
        Row::Chunk => play_chunk(alloc, switch, bytes),
        Row::Frame { port } => switch.frame(port, bytes),
        Row::Moment { nanos } => switch.moment(nanos),
        Row::Ports(change) => switch.port_change(change),
    }
}

// Receives bytes of the controller, and handles each whole message.
fn play_chunk<L: Lookup>(
    alloc: Global,
    switch: &mut Switch<L>,
    chunk: &[u8],
) -> Result<Effects, SwitchError>
    ensures { RowGives result (happened (Event.Chunk chunk.now) switch.old) switch.new }
{
    match switch.feed(chunk) {
        Ok(()) => drain(alloc, switch),
        Err(refusal) => Err(refusal),
    }
}

// Handles all messages that are there.
fn drain<L: Lookup>(alloc: Global, switch: &mut Switch<L>) -> Result<Effects, SwitchError>
    ensures all { IfOk result (λ effects. drained switch.old ≡ gives effects.items switch.new) }
    ensures memory { IfErr result (λ error. error ≡ NoMemory) }
{
    let mut effects = Effects::new(alloc);
    loop {
        match switch.next()? {
            None => return Ok(effects),
            Some(more) => append(&mut effects, more)?,
        }
    }
}

// Effects after effects.
fn append(effects: &mut Effects, more: Effects) -> Result<(), AllocError>
    ensures { OnOk result (effects.new.items ≡ effects.old.items ++ more.items) }
{
    let mut more = more;
    effects.append(&mut more)
}
