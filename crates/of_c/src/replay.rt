//! Runs of event files.
ghost use Rattle.std.specs.Prelude.{◌≡◌, []};
ghost use Rattle.of_switch.specs.State.{start};
ghost use Rattle.of_replay.specs.{Output.printed_from, Rows.rows_of_lines, RowTexts.told};
ghost use Rattle.of_explain.specs.RowObjects.{explained_json};
ghost use Rattle.of_c.specs.{Answers.Gives, Calls.IsPrinted};

use crate::answer::{Answer, give, outcome_of, sink};
use crate::switch::Lookups;
use of_explain::explain_json;
use of_replay::replay;
use of_replay::streams::ReaderSource;
use std::alloc::Global;

/// Plays an event file on a new switch with that datapath id, and gives what `replay` prints (docs/EVENTS.md).
///
/// Status 2: a line is no row, and the text is that of the lines before it. 3: memory ran out, and the text is that of some first lines.
#[unsafe(no_mangle)]
pub extern "C" fn ofswitch_replay(
    alloc: Global,
    events: &[u8],
    dpid: u64,
    text: &mut [u8],
    answer: &mut Answer,
)
    ensures { Gives (IsPrinted (λ lines. printed_from (start dpid) (rows_of_lines lines).events) events.now) answer.new text.old text.new }
{
    let mut out = sink(alloc);
    let mut source = ReaderSource::new(events);
    let ended = replay::<Lookups, _, _>(alloc, dpid, &mut source, &mut out);
    give(out.bytes(), outcome_of(&ended), text, answer);
}

/// The same in words: an object for each line that is not empty, as `replay --explain --json` gives them (docs/JSON.md).
#[unsafe(no_mangle)]
pub extern "C" fn ofswitch_explain(
    alloc: Global,
    events: &[u8],
    dpid: u64,
    text: &mut [u8],
    answer: &mut Answer,
)
    ensures { Gives (IsPrinted (told (start dpid) explained_json) events.now) answer.new text.old text.new }
{
    let mut out = sink(alloc);
    let mut source = ReaderSource::new(events);
    let ended = explain_json::<Lookups, _, _>(alloc, dpid, &mut source, &mut out);
    give(out.bytes(), outcome_of(&ended), text, answer);
}
