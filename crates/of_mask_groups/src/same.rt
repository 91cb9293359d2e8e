//! The oldest entry of a match and a priority.
ghost use Rattle.std.specs.Prelude.{◌≡◌, ℕ};
ghost use Rattle.slab.specs.Slab.{get};
ghost use Rattle.of_classifier.specs.{Rows.same_of, Winner.winner_number};
ghost use Rattle.of_mask_groups.specs.{Aged.by_age, Aged.AreAged, Grouping.AreGrouped, SameEntry.IsOldestSame, SameEntry.older_same};

use crate::entry::Entry;
use crate::groups::{Groups, place_of};
use of_oxm::{Match, key_of, mask_of};
use slab::Slab;

/// The number of the oldest entry of that match and priority: one probe.
pub(crate) fn same_in(
    entries: &Slab<Entry>,
    groups: &Groups,
    fields: &Match,
    priority: u16,
) -> Option<usize>
    requires { AreGrouped entries.now groups.now.list.items }
    ensures { (next : ℕ) → AreAged entries.now next → result ≡ winner_number (same_of (by_age next entries.now.slots) fields.now priority) }
{
    let mask = mask_of(fields);
    match place_of(groups, &mask) {
        Some(place) => {
            let mut probes = 0;
            let numbers = groups.list[place].probe(&key_of(fields), &mut probes);
            oldest_same(entries, numbers, fields, priority)
        }
        None => None,
    }
}

fn oldest_same(
    entries: &Slab<Entry>,
    numbers: &[usize],
    fields: &Match,
    priority: u16,
) -> Option<usize>
    ensures { IsOldestSame entries.now numbers.now fields.now priority result }
{
    let mut oldest: Option<(usize, u64)> = None;
    for number in numbers {
        oldest = older(entries, oldest, *number, fields, priority);
    }
    match oldest {
        Some((number, _)) => Some(number),
        None => None,
    }
}

fn older(
    entries: &Slab<Entry>,
    oldest: Option<(usize, u64)>,
    number: usize,
    fields: &Match,
    priority: u16,
) -> Option<(usize, u64)>
    ensures { result ≡ older_same fields.now priority oldest number (get entries.now number) }
{
    match entries.get(number) {
        Some(entry) if entry.priority == priority && entry.fields.equals(fields) => match oldest {
            Some((_, least)) if least <= entry.age => oldest,
            _ => Some((number, entry.age)),
        },
        _ => oldest,
    }
}
