//! Three classifiers side by side: the list, the groups of masks, and a small cache over these.

use crate::classifying::{following, key_with, numbered_match};
use of_cache::Cached;
use of_classifier::{Lookup, Scan};
use of_mask_groups::MaskGroups;
use of_oxm::{Match, ReadError};
use std::alloc::Global;
use std::io;

/// How many steps are made on both.
const STEPS: u64 = 100_000;

// What the steps came to.
enum Answers {
    /// How many found an entry.
    Equal(u64),
    /// The first whose answers differ.
    Differ(u64),
}

// Removes the oldest entry of that match and priority, and returns its number.
#[tactic(auto, using(of_classifier::proofs::SameUsed::same_used))]
fn take_same<L: Lookup>(lookup: &mut L, fields: &Match, priority: u16) -> Option<usize> {
    match lookup.same(fields, priority) {
        Some(number) => {
            lookup.take(number);
            Some(number)
        }
        None => None,
    }
}

// Makes the oldest entry of that match and priority the youngest, and returns its number.
#[tactic(auto, using(of_classifier::proofs::SameUsed::same_used))]
fn renew_same<L: Lookup>(lookup: &mut L, fields: &Match, priority: u16) -> Option<usize> {
    match lookup.same(fields, priority) {
        Some(number) => {
            lookup.renew(number);
            Some(number)
        }
        None => None,
    }
}

// One step, which the number names: what the classifier returns.
fn step<L: Lookup>(lookup: &mut L, alloc: Global, number: u64) -> Result<Option<usize>, ReadError> {
    let value = (number >> 8) % 16;
    let fields = numbered_match(alloc, ((number >> 16) % 4) as u8, value as u16)?;
    let priority = ((number >> 24) % 4) as u16;
    match number % 4 {
        0 => Ok(Some(lookup.add(fields, priority)?)),
        1 => Ok(take_same(lookup, &fields, priority)),
        2 => Ok(renew_same(lookup, &fields, priority)),
        _ => match key_with(value) {
            Some(key) => Ok(lookup.winner(&key)),
            None => Ok(None),
        },
    }
}

// The three.
#[derive(Drop)]
struct Three {
    scan: Scan,
    groups: MaskGroups,
    cached: Cached<MaskGroups>,
}

/// How many rows the cache keeps: few, so that some go.
const ROWS: usize = 8;

// One step on each, and whether it found an entry; None where the answers differ.
fn step_each(three: &mut Three, alloc: Global, number: u64) -> Result<Option<bool>, ReadError> {
    let one = step(&mut three.scan, alloc, number)?;
    let other = step(&mut three.groups, alloc, number)?;
    let third = step(&mut three.cached, alloc, number)?;
    if one == other && one == third {
        Ok(Some(one.is_some()))
    } else {
        Ok(None)
    }
}

// All steps: how many found an entry, or the first whose answers differ.
fn steps(three: &mut Three, alloc: Global) -> Result<Answers, ReadError> {
    let mut number = 1u64;
    let mut found = 0u64;
    for turn in 0..STEPS {
        number = following(number);
        match step_each(three, alloc, number >> 24)? {
            None => return Ok(Answers::Differ(turn)),
            Some(is_found) => found = found.wrapping_add(u64::from(is_found)),
        }
    }
    Ok(Answers::Equal(found))
}

fn compared(alloc: Global) -> Result<Answers, ReadError> {
    let mut three = Three {
        scan: Scan::empty(alloc, 0)?,
        groups: MaskGroups::empty(alloc, 0)?,
        cached: Cached::with_rows(alloc, MaskGroups::empty(alloc, 0)?, ROWS, 0)?,
    };
    steps(&mut three, alloc)
}

/// 100,000 random calls of `add`, `take`, `renew`, `same` and `winner` on each, and whether each call had one answer.
pub fn compare(rt: &HostRuntime) -> io::Result<()> {
    match compared(rt.alloc()) {
        Ok(Answers::Equal(found)) => {
            println!(rt; "compare: {STEPS} steps, of which {found} found an entry; equal answers")
        }
        Ok(Answers::Differ(turn)) => println!(rt; "compare: the answers to step {turn} differ"),
        Err(_) => println!(rt; "compare: no memory"),
    }
}
