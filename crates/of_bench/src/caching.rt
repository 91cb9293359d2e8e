//! Lookups in a cache over a classifier.

use crate::classifying::{KEYS, entries, key_with, keys, numbered_match};
use crate::clock::{Timed, time, time_slow};
use of_cache::Cached;
use of_classifier::{Lookup, Scan};
use of_headers::FieldKey;
use of_mask_groups::MaskGroups;
use of_oxm::Match;
use std::alloc::Global;
use std::io;

/// How many rows a cache keeps.
const ROWS: u64 = 1024;

/// The keys, in turns.
#[derive(Drop)]
struct InTurn<L: Lookup> {
    lookup: L,
    keys: Vec<FieldKey>,
    count: u64,
}

impl<L: Lookup> Timed for InTurn<L> {
    fn call(&mut self, turn: u64) -> u64 {
        match self.keys.get((turn % self.count.max(1)) as usize) {
            Some(key) => self.lookup.winner(key).unwrap_or(4096) as u64,
            None => 0,
        }
    }
}

/// An entry that becomes the youngest again and again.
#[derive(Drop)]
struct Renewed {
    lookup: Cached<Scan>,
    fields: Match,
}

impl Timed for Renewed {
    #[tactic(auto, using(of_classifier::proofs::SameUsed::same_used))]
    fn call(&mut self, turn: u64) -> u64 {
        match self.lookup.same(&self.fields, 10) {
            Some(number) => {
                self.lookup.renew(number);
                turn
            }
            None => 0,
        }
    }
}

/// An entry that is added above all others, which drops the row that it meets, and removed again, which drops its own.
#[derive(Drop)]
struct Turned {
    lookup: Cached<Scan>,
    fields: Match,
    key: FieldKey,
}

impl Timed for Turned {
    fn call(&mut self, turn: u64) -> u64 {
        let Ok(fields) = self.fields.copy() else {
            return 0;
        };
        match self.lookup.add(fields, 11) {
            Ok(number) => {
                let found = self.lookup.winner(&self.key);
                take_used(&mut self.lookup, &self.fields, 11);
                self.lookup.winner(&self.key);
                found.unwrap_or(number) as u64
            }
            Err(_) => turn,
        }
    }
}

#[tactic(auto, using(of_classifier::proofs::SameUsed::same_used))]
fn take_used(lookup: &mut Cached<Scan>, fields: &Match, priority: u16) {
    if let Some(number) = lookup.same(fields, priority) {
        lookup.take(number);
    }
}

fn time_found<L: Lookup>(rt: &HostRuntime, name: &str, masks: u8, falling: bool) -> io::Result<()> {
    let (Some(lookup), Ok(keys)) = (entries::<L>(rt.alloc(), masks, falling), keys(rt.alloc()))
    else {
        return println!(rt; "{name}: no memory");
    };
    time(
        rt,
        name,
        &mut InTurn {
            lookup,
            keys,
            count: KEYS,
        },
    )
}

/// The groups of masks alone, and the cache over them, with the same entries and keys.
fn time_both(rt: &HostRuntime) -> io::Result<()> {
    time_found::<MaskGroups>(rt, "groups, 1 mask", 1, false)?;
    time_found::<Cached<MaskGroups>>(rt, "cached, 1 mask", 1, false)?;
    time_found::<MaskGroups>(rt, "groups, 2", 2, false)?;
    time_found::<Cached<MaskGroups>>(rt, "cached, 2", 2, false)?;
    time_found::<MaskGroups>(rt, "groups, 4", 4, false)?;
    time_found::<Cached<MaskGroups>>(rt, "cached, 4", 4, false)?;
    time_found::<MaskGroups>(rt, "groups, 32", 32, false)?;
    time_found::<Cached<MaskGroups>>(rt, "cached, 32", 32, false)?;
    time_found::<MaskGroups>(rt, "groups, 32 of falling priority", 32, true)?;
    time_found::<Cached<MaskGroups>>(rt, "cached, 32 of falling priority", 32, true)
}

// The keys whose METADATA is a number below `count`.
fn numbered_keys(alloc: Global, count: u64) -> Option<Vec<FieldKey>> {
    let mut keys = Vec::new(alloc);
    for number in 0..count {
        keys.push(key_with(number)?).ok()?;
    }
    Some(keys)
}

// A cache over one entry, whose match looks at the low 16 bits of METADATA.
fn of_one_entry(alloc: Global) -> Option<Cached<Scan>> {
    let mut lookup = Cached::<Scan>::empty(alloc, 0).ok()?;
    lookup.add(numbered_match(alloc, 0, 1).ok()?, 10).ok()?;
    Some(lookup)
}

fn time_in_turn(rt: &HostRuntime, name: &str, count: u64) -> io::Result<()> {
    let (Some(lookup), Some(keys)) = (of_one_entry(rt.alloc()), numbered_keys(rt.alloc(), count))
    else {
        return println!(rt; "{name}: no memory");
    };
    time(
        rt,
        name,
        &mut InTurn {
            lookup,
            keys,
            count,
        },
    )
}

// The same cache with all its rows.
fn full(alloc: Global) -> Option<Cached<Scan>> {
    let mut lookup = of_one_entry(alloc)?;
    for key in &numbered_keys(alloc, ROWS)? {
        lookup.winner(key);
    }
    Some(lookup)
}

fn full_and_unasked(alloc: Global) -> Option<Renewed> {
    let mut lookup = full(alloc)?;
    let unasked = 4000;
    lookup
        .add(numbered_match(alloc, 0, unasked).ok()?, 10)
        .ok()?;
    Some(Renewed {
        lookup,
        fields: numbered_match(alloc, 0, unasked).ok()?,
    })
}

fn full_and_met(alloc: Global) -> Option<Turned> {
    Some(Turned {
        lookup: full(alloc)?,
        fields: numbered_match(alloc, 0, 7).ok()?,
        key: key_with(7)?,
    })
}

/// Lookups that a row answers, some that none does, and entries that change beside 1,024 rows.
pub fn time_cached(rt: &HostRuntime) -> io::Result<()> {
    time_both(rt)?;
    time_in_turn(rt, "hit, 1 row", 1)?;
    time_in_turn(rt, "hit, 256 rows", 256)?;
    time_in_turn(rt, "hit, 1024 rows", ROWS)?;
    time_in_turn(rt, "miss, 1025 keys in turn", ROWS + 1)?;
    match full_and_unasked(rt.alloc()) {
        Some(mut timed) => time_slow(rt, "renew, no row of 1024 goes", &mut timed)?,
        None => println!(rt; "renew: no memory")?,
    }
    match full_and_met(rt.alloc()) {
        Some(mut timed) => time_slow(rt, "add and take, a row of 1024 goes at each", &mut timed),
        None => println!(rt; "add and take: no memory"),
    }
}
