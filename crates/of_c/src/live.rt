//! A switch that lives between calls, and what happens to it.
ghost use Rattle.std.specs.Prelude.{◌≡◌, [], IfOk, None, Some};
ghost use Rattle.of_switch.specs.declared.event.Event.{Event};
ghost use Rattle.of_replay.specs.{Output.report_text, Rows.row_of_line, Rows.with_bytes, RowTexts.row_happened};
ghost use Rattle.of_c.specs.{Answers.Gives, Answers.with_front, Living.IsNew, Living.IsLiveRow, Living.IsLiveStep};

use crate::answer::{Answer, BAD_FILE, NO_MEMORY, Outcome, give};
use crate::switch::Lookups;
use of_replay::{Plain, Row, RowPrinter, read_row};
use of_switch::{Switch, SwitchError};
use std::alloc::Global;
use std::marker::Model;

/// The status if all is well.
const DONE: u8 = 0;

/// A switch, unless memory ran out during a call on it.
#[derive(Drop)]
pub struct Live {
    switch: Option<Switch<Lookups>>,
    alloc: Global,
}

impl Model for Live {
    ghost use Rattle.std.specs.Prelude.{Option};
    ghost use Rattle.of_switch.specs.State.{State};

    ghost Value = { Option State };

    ghost view = { λ l. l.switch };
}

impl Live {
    /// A new switch with that datapath id, if there is memory for it.
    pub fn new(alloc: Global, dpid: u64) -> Live
        ensures { IsNew dpid result }
    {
        Live {
            switch: Switch::new(alloc, dpid).ok(),
            alloc,
        }
    }
}

/// A switch after a row, and what the row printed.
#[derive(Drop)]
struct Played {
    switch: Switch<Lookups>,
    text: Vec<u8>,
}

fn play_once(
    alloc: Global,
    switch: Switch<Lookups>,
    row: Row,
    bytes: &[u8],
) -> Result<Played, SwitchError>
    ensures switch { IfOk result (λ p. p.switch ≡ (row_happened switch (with_bytes bytes.now row)).state) }
    ensures text { IfOk result (λ p. p.text.items ≡ report_text (row_happened switch (with_bytes bytes.now row)).report) }
{
    let mut switch = switch;
    let mut text = Vec::new(alloc);
    Plain.tell(alloc, &mut switch, 0, &[], row, bytes, &mut text)?;
    Ok(Played { switch, text })
}

fn give_nothing(status: u8, line: u64, text: &mut [u8], answer: &mut Answer)
    ensures buffer { text.new ≡ with_front [] text.old }
    ensures length { answer.new.length ≡ 0 }
    ensures outcome { (answer.new.status ≡ status) × (answer.new.line ≡ line) }
{
    give(&[], Outcome { status, line }, text, answer);
}

// Plays a row on a switch, which is put back unless memory runs out.
fn play_on(
    live: &mut Live,
    switch: Switch<Lookups>,
    row: Row,
    bytes: &[u8],
    text: &mut [u8],
    answer: &mut Answer,
)
    requires { live.old ≡ None }
    ensures { Gives (IsLiveStep (with_bytes bytes.now row) (Some switch) live.new) answer.new text.old text.new }
{
    match play_once(live.alloc, switch, row, bytes) {
        Ok(Played { switch, text: told }) => {
            live.switch = Some(switch);
            give(
                &told,
                Outcome {
                    status: DONE,
                    line: 0,
                },
                text,
                answer,
            );
        }
        Err(_) => give_nothing(NO_MEMORY, 0, text, answer),
    }
}

fn play(live: &mut Live, row: Row, bytes: &[u8], text: &mut [u8], answer: &mut Answer)
    ensures { Gives (IsLiveStep (with_bytes bytes.now row) live.old live.new) answer.new text.old text.new }
{
    match live.switch.take() {
        Some(switch) => play_on(live, switch, row, bytes, text, answer),
        None => give_nothing(NO_MEMORY, 0, text, answer),
    }
}

/// A row of an event file happens.
pub fn row_in(live: &mut Live, line: &[u8], text: &mut [u8], answer: &mut Answer)
    ensures { Gives (IsLiveRow (row_of_line line.now) live.old live.new) answer.new text.old text.new }
{
    let mut bytes = Vec::new(live.alloc);
    match read_row(line, &mut bytes) {
        Ok(Some(row)) => play(live, row, &bytes, text, answer),
        Ok(None) => give_nothing(BAD_FILE, 1, text, answer),
        Err(_) => {
            live.switch = None;
            give_nothing(NO_MEMORY, 0, text, answer);
        }
    }
}

/// Bytes of the controller are received.
pub fn bytes_in(live: &mut Live, bytes: &[u8], text: &mut [u8], answer: &mut Answer)
    ensures { Gives (IsLiveStep (Some (Event.Chunk bytes.now)) live.old live.new) answer.new text.old text.new }
{
    play(live, Row::Chunk, bytes, text, answer);
}

/// A frame is received at a port.
pub fn frame_in(live: &mut Live, port: u32, frame: &[u8], text: &mut [u8], answer: &mut Answer)
    ensures { Gives (IsLiveStep (Some (Event.Frame port frame.now)) live.old live.new) answer.new text.old text.new }
{
    play(live, Row::Frame { port }, frame, text, answer);
}

/// The time is this many nanoseconds.
pub fn moment_in(live: &mut Live, nanos: u64, text: &mut [u8], answer: &mut Answer)
    ensures { Gives (IsLiveStep (Some (Event.Moment nanos)) live.old live.new) answer.new text.old text.new }
{
    play(live, Row::Moment { nanos }, &[], text, answer);
}

/// The switch ends.
pub fn end(_live: Live) {}
