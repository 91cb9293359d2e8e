//! Paths of the frames of a switch.
ghost use Rattle.std.specs.Prelude.{◌≡◌, [], IfErr, IfOk};
ghost use Rattle.of_regions.specs.Conditions.{AreConditions};
ghost use Rattle.of_frame_words.specs.{Conditions.conditions_in_words, Refusals.FrameStops};
ghost use Rattle.of_c.specs.Calls.{ArePathsTold, IsWanted, has_place as has_place_of, merging_of as merging_for, paths_form as form_for, place_asked as place_for, port_asked as port_for, status_of_paths as status_for};
ghost use Rattle.of_c.specs.Answers.{Gives};

use crate::answer::{Answer, NO_PORT, Outcome, give, sink, unread};
use crate::switch::{Lookups, has_port_asked, switch_in};
use crate::trace::status_with;
use crate::words::status_of_no_words;
use of_files::Described;
use of_frame_words::{NoFrame, read_conditions};
use of_paths::{Destination, Merging};
use of_paths_report::{Asked, PathsForm, PathsVerdict, write_paths};
use of_replay::memory::MemorySink;
use of_replay::{Ended, status};
use of_switch::Switch;
use of_wire::limits::{OFPP_ANY, OFPP_CONTROLLER};
use std::alloc::Global;

fn port_asked(port: u32) -> Option<u32>
    ensures { result ≡ port_for port }
{
    if port == 0 { None } else { Some(port) }
}

fn place_asked(to: u32) -> Option<Destination>
    ensures { result ≡ place_for to }
{
    match to {
        0 => None,
        OFPP_CONTROLLER => Some(Destination::Controller),
        OFPP_ANY => Some(Destination::Nothing),
        port => Some(Destination::Port(port)),
    }
}

fn merging_of(each: bool) -> Merging
    ensures { result ≡ merging_for each }
{
    if each {
        Merging::Each
    } else {
        Merging::SameWay
    }
}

fn form_of(words: bool) -> PathsForm
    ensures { result ≡ form_for words }
{
    if words {
        PathsForm::Words
    } else {
        PathsForm::Json
    }
}

fn asked_of(
    alloc: Global,
    port: u32,
    within: &[u8],
    to: u32,
    each: bool,
    steps: usize,
) -> Result<Asked, NoFrame>
    ensures asked { IfOk result (IsWanted port within.now to each steps) }
    ensures conditions { IfOk result (λ asked. AreConditions asked.within.items) }
    ensures stopped { IfErr result (FrameStops (conditions_in_words within.now)) }
{
    let within = read_conditions(alloc, within)?;
    Ok(Asked {
        port: port_asked(port),
        within,
        merging: merging_of(each),
        to: place_asked(to),
        steps,
    })
}

fn has_place(switch: &Switch<Lookups>, to: Option<Destination>) -> bool
    ensures { result ≡ has_place_of to switch.now }
{
    match to {
        Some(Destination::Port(port)) => has_port_asked(switch, Some(port)),
        _ => true,
    }
}

fn status_of_paths(found: &Result<PathsVerdict, Ended>) -> u8
    ensures { result ≡ status_for found.now }
{
    match found {
        Ok(PathsVerdict::Complete) => 0,
        Ok(PathsVerdict::Undecided) => 5,
        Err(ended) => status(ended),
    }
}

fn reported(
    alloc: Global,
    file: &[u8],
    port: u32,
    within: &[u8],
    to: u32,
    each: bool,
    steps: usize,
    words: bool,
    out: &mut MemorySink,
) -> Outcome
    requires fresh { out.old.bytes.items ≡ [] }
    requires well { out.old.failures ≡ 0 }
    ensures { ArePathsTold file.now port within.now to each steps words result.status result.line out.new.bytes.items }
{
    let Described { switch, missing } = match switch_in(alloc, file) {
        Ok(described) => described,
        Err(why) => return unread(&why),
    };
    if !has_port_asked(&switch, port_asked(port)) || !has_place(&switch, place_asked(to)) {
        return Outcome {
            status: NO_PORT,
            line: 0,
        };
    }
    let status = match asked_of(alloc, port, within, to, each, steps) {
        Ok(asked) => {
            let found = write_paths(alloc, &switch, &asked, form_of(words), out);
            status_with(&missing, status_of_paths(&found))
        }
        Err(why) => status_of_no_words(&why),
    };
    Outcome { status, line: 0 }
}

/// Which steps the frames take that the switch of a file receives, as `paths --json` gives it (docs/JSON.md), or in the words of `paths`. Only frames that
/// come in by `port`, if it is not 0, and that match `within`, in the words of a match of ovs-ofctl. Only paths of frames that leave by the port `to`, go to the controller
/// (OFPP_CONTROLLER), or of which nothing leaves (OFPP_ANY); of all, if it is 0. Paths that differ only in their flow entries are one, unless `each` is
/// given. The runs of all frames take so many steps together at most, and each search for a frame as many.
///
/// Status 5: some frames are undecided, or ports are named that the switch does not have. 1: it does not have the port that is asked for. 2: the file is at
/// fault, or, if the line is 0, the words. 3: memory ran out. With 1 and 2 there is no text.
#[unsafe(no_mangle)]
pub extern "C" fn ofswitch_paths(
    alloc: Global,
    file: &[u8],
    port: u32,
    within: &[u8],
    to: u32,
    each: bool,
    steps: usize,
    words: bool,
    text: &mut [u8],
    answer: &mut Answer,
)
    ensures { Gives (ArePathsTold file.now port within.now to each steps words) answer.new text.old text.new }
{
    let mut out = sink(alloc);
    let outcome = reported(alloc, file, port, within, to, each, steps, words, &mut out);
    give(out.bytes(), outcome, text, answer);
}
