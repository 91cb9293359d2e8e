//! Traces.
ghost use Rattle.std.specs.Prelude.{◌≡◌, []};
ghost use Rattle.of_c.specs.{Answers.Gives, Calls.IsTraced, Calls.output_of as output_for, Calls.status_with as with_status};

use crate::answer::{Answer, NO_PORT, Outcome, give, sink, unread};
use crate::switch::{has_port_asked, switch_in};
use of_files::Described;
use of_replay::memory::MemorySink;
use of_replay::status;
use of_trace::{Form, Output, write_trace};
use std::alloc::Global;

/// The exit status if ports are named that the switch does not have.
const MISSING: u8 = 5;

/// The status of a command, or that of missing ports where all is well.
pub fn status_with(missing: &[u32], status: u8) -> u8
    ensures { result ≡ with_status missing.now status }
{
    if status == 0 && !missing.is_empty() {
        MISSING
    } else {
        status
    }
}

fn output_of(words: bool) -> Output
    ensures { result ≡ output_for words }
{
    if words {
        Output::Words(Form::Plain)
    } else {
        Output::Json
    }
}

fn traced(
    alloc: Global,
    file: &[u8],
    port: u32,
    frame: &[u8],
    words: bool,
    out: &mut MemorySink,
) -> Outcome
    requires fresh { out.old.bytes.items ≡ [] }
    requires well { out.old.failures ≡ 0 }
    ensures { IsTraced file.now port frame.now words result.status result.line out.new.bytes.items }
{
    let Described { switch, missing } = match switch_in(alloc, file) {
        Ok(described) => described,
        Err(why) => return unread(&why),
    };
    if !has_port_asked(&switch, Some(port)) {
        return Outcome {
            status: NO_PORT,
            line: 0,
        };
    }
    let ended = write_trace(alloc, &switch, port, frame, output_of(words), out);
    Outcome {
        status: status_with(&missing, status(&ended)),
        line: 0,
    }
}

/// What becomes of a frame that the switch of a file receives at a port: as `trace --json` says it (docs/JSON.md), or in the words of `trace`.
///
/// The file is a flow text, an event file, or what ovs-ofctl prints, as its first line says; a switch of groups and flows has ports 1 to 4 and those
/// that they name. Status 5: ports are named that it does not have. 1: it does not have the port. 2: the file is at fault. 3: memory ran out. With 1 and 2 there is no text.
#[unsafe(no_mangle)]
pub extern "C" fn ofswitch_trace(
    alloc: Global,
    file: &[u8],
    port: u32,
    frame: &[u8],
    words: bool,
    text: &mut [u8],
    answer: &mut Answer,
)
    ensures { Gives (IsTraced file.now port frame.now words) answer.new text.old text.new }
{
    let mut out = sink(alloc);
    let outcome = traced(alloc, file, port, frame, words, &mut out);
    give(out.bytes(), outcome, text, answer);
}
