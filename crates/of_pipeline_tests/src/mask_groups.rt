use crate::checks::same;
use crate::steps::{Frame, Row, Step, key_of, names, play};
use of_classifier::Lookup;
use of_headers::{Mixer, read};
use of_mask_groups::MaskGroups;
use std::alloc::Global;
use std::process::Abort;
use std::test::Fail;

mod rows;

/// The winner, which so many masks were asked for.
fn found(
    rt: &impl Abort,
    lookup: &MaskGroups,
    what: &str,
    frame: &Frame,
    probes: usize,
) -> Result<Option<usize>, Fail> {
    let (found, asked) = lookup.find(&key_of(frame)?);
    same(rt, what, &asked, &probes);
    Ok(found)
}

/// Does what a row says, and asserts its answer.
fn play_one(
    rt: &impl Abort,
    alloc: Global,
    lookup: &mut MaskGroups,
    numbers: &mut Vec<usize>,
    what: &str,
    step: &Step,
) -> Result<(), Fail> {
    if let Step::Find(frame, place, probes) = step {
        let found = found(rt, lookup, what, frame, *probes)?;
        return names(rt, numbers, what, found, *place);
    }
    play(rt, alloc, lookup, numbers, what, step)
}

fn play_on(
    rt: &impl Abort,
    alloc: Global,
    lookup: &mut MaskGroups,
    rows: &[Row],
) -> Result<(), Fail> {
    let mut numbers = Vec::new(alloc);
    for (what, step) in rows {
        play_one(rt, alloc, lookup, &mut numbers, what, step)?;
    }
    Ok(())
}

/// Plays rows from an empty classifier on, with two seeds: the answers are the same.
fn play_twice(rt: &impl Abort, alloc: Global, rows: &[Row]) -> Result<(), Fail> {
    for seed in 0..2 {
        let mut lookup = MaskGroups::empty(alloc, seed)?;
        play_on(rt, alloc, &mut lookup, rows)?;
    }
    Ok(())
}

#[test]
fn winners_and_probes(rt: HostRuntime) -> Result<(), Fail> {
    for rows in [rows::FIND, rows::AGES] {
        play_twice(&rt, rt.alloc(), rows)?;
    }
    Ok(())
}

fn digest(in_port: u32, metadata: u64, seed: u64) -> Result<u64, Fail> {
    let bytes = [2, 0, 0, 0, 0, 2, 2, 0, 0, 0, 0, 1, 0x88, 0xb5];
    let key = read(&bytes, in_port, metadata).ok().ok_or("a frame")?.key();
    Ok(key.digest(Mixer::new(seed)))
}

/// The digest of a key depends on the seed, and on two words that differ by 2^63: the sum of their products with odd numbers does not.
#[test]
fn digests_differ(rt: HostRuntime) -> Result<(), Fail> {
    let one = digest(1, 0, 0)?;
    assert_ne!(rt; one, digest(1, 0, 1)?);
    assert_ne!(rt; one, digest(0x8000_0001, 0x8000_0000_0000_0000, 0)?);
    Ok(())
}
