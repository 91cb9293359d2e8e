//! The best of some entries: of the highest priority, and the oldest of these.
ghost use Rattle.std.specs.Prelude.{◌≡◌};
ghost use Rattle.slab.specs.Slab.{get};
ghost use Rattle.of_headers.specs.FieldMap.{value};
ghost use Rattle.of_mask_groups.specs.Covering.{better_found, better_with, IsBestOf};

use crate::entry::Entry;
use of_headers::FieldKey;
use of_oxm::matches;
use slab::Slab;

/// What the search knows of an entry that it found.
#[derive(Clone, Copy, Drop)]
pub(crate) struct Found {
    pub(crate) number: usize,
    pub(crate) priority: u16,
    pub(crate) age: u64,
}

// The better of the best so far and one more.
fn better(best: Option<Found>, other: Found) -> Option<Found>
    ensures { result ≡ better_found best other }
{
    match best {
        Some(held)
            if other.priority < held.priority
                || (other.priority == held.priority && held.age <= other.age) => { Some(held) }
        _ => Some(other),
    }
}

// The better of the best so far and the entry of a number, if it matches the key.
fn better_at(
    entries: &Slab<Entry>,
    best: Option<Found>,
    number: usize,
    key: &FieldKey,
) -> Option<Found>
    ensures { result ≡ better_with (value key.now) best number (get entries.now number) }
{
    match entries.get(number) {
        Some(entry) if matches(&entry.fields, key) => better(
            best,
            Found {
                number,
                priority: entry.priority,
                age: entry.age,
            },
        ),
        _ => best,
    }
}

/// The best of the best so far and of those entries of these numbers that match the key.
pub(crate) fn best_among(
    entries: &Slab<Entry>,
    numbers: &[usize],
    key: &FieldKey,
    best: Option<Found>,
) -> Option<Found>
    ensures { IsBestOf entries.now (value key.now) best numbers.now result }
{
    let mut best = best;
    for number in numbers {
        best = better_at(entries, best, *number, key);
    }
    best
}
