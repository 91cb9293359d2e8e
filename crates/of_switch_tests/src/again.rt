//! Events that are done again where there was no memory: `tools/fail-alloc --again` refuses each allocation in turn.
use crate::checks::same;
use crate::events::{events_of, given, given_at_once};
use of_cache::Cached;
use of_classifier::{Lookup, Scan};
use of_mask_groups::MaskGroups;
use of_switch::{Event, Report, Switch};
use of_wire::Bytes;
use std::alloc::Global;
use std::process::Abort;
use std::test::Fail;

mod rows;

/// How the running switch looks entries up.
type Lookups = Cached<MaskGroups>;

// Plays an event, and once more where there was no memory: of a chunk that was interrupted, what is left.
fn play<L: Lookup>(
    alloc: Global,
    switch: &mut Switch<L>,
    event: Event,
    reports: &mut Vec<Report>,
) -> Result<(), Fail> {
    let before = reports.len();
    let mut one = [event];
    if switch.run(&one, reports).is_ok() {
        return Ok(());
    }
    if reports.len() > before {
        one = [Event::Chunk(Bytes::new(Vec::new(alloc)))];
    }
    let again = switch.run(&one, reports).ok();
    Ok(again.ok_or("no memory a second time")?)
}

fn play_all<L: Lookup>(
    alloc: Global,
    switch: &mut Switch<L>,
    reports: &mut Vec<Report>,
) -> Result<(), Fail> {
    for event in events_of(alloc, rows::ROWS)? {
        play(alloc, switch, event, reports)?;
    }
    Ok(())
}

// What all calls give, where each that finds no memory is made again.
fn given_by_turns<L: Lookup>(alloc: Global, switch: &mut Switch<L>) -> Result<Vec<u8>, Fail> {
    let mut reports = Vec::new(alloc);
    play_all(alloc, switch, &mut reports)?;
    Ok(given(alloc, &reports)?)
}

fn by_turns<L: Lookup>(alloc: Global) -> Result<Vec<u8>, Fail> {
    let mut switch = Switch::<L>::new(alloc, 1)?;
    given_by_turns(alloc, &mut switch)
}

fn at_once<L: Lookup>(alloc: Global) -> Result<Vec<u8>, Fail> {
    let mut switch = Switch::<L>::new(alloc, 1)?;
    given_at_once(alloc, &mut switch, rows::ROWS)
}

// The HELLO (OpenFlow 1.3.5, 7.5.1), and the number of a second connection's refusal (docs/EVENTS.md).
const FRONT: [u8; 20] = [
    4, 0, 0, 16, 0, 0, 0, 0, 0, 1, 0, 8, 0, 0, 0, 0x10, 0, 0, 0, 4,
];

fn are_given(rt: &impl Abort, again: &[u8], wanted: &[u8]) {
    same(rt, "the front", &wanted.starts_with(&FRONT), &true);
    // HELLO 16, a refusal 4, BARRIER_REPLY 8, frames 22 and 26, PACKET_IN 60, ECHO_REPLY 10, ERROR 20, three frames 60,
    // FLOW_REMOVED 64, a frame 22;
    // two frames of the tie 44, FLOW_REMOVED 64; two frames behind misses 44; a frame of 60 bytes 64, PACKET_IN 102;
    // a tagged frame 26, MULTIPART_REPLY 128; four frames of the group 88, three PORT_STATUS 240, FLOW_REMOVED 64, a tagged frame 26;
    // three PACKET_INs of 14 bytes 168, the three held frames 66, ERROR 52
    same(rt, "the length", &wanted.len(), &1488);
    same(rt, "the bytes", &again, &wanted);
}

fn are_given_again<L: Lookup>(rt: &impl Abort, alloc: Global) -> Result<(), Fail> {
    let again = by_turns::<L>(alloc)?;
    let wanted = at_once::<L>(alloc)?;
    are_given(rt, &again, &wanted);
    Ok(())
}

// Under `tools/fail-alloc --again` each allocation is refused in turn: what was refused is done again, and nothing is lost.
#[test]
fn by_the_running_switch(rt: HostRuntime) -> Result<(), Fail> {
    are_given_again::<Lookups>(&rt, rt.alloc())
}

#[test]
fn by_a_list(rt: HostRuntime) -> Result<(), Fail> {
    are_given_again::<Scan>(&rt, rt.alloc())
}
