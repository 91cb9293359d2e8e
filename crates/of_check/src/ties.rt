//! Entries of equal priority.
ghost use Rattle.std.specs.Prelude.{◌≡◌, ◌<◌, Some, slice_get};
ghost use Rattle.of_table.specs.{Entries.entry_of, Tables.table_at};
ghost use Rattle.of_check.specs.Verdicts.{are_level, is_tie};

use of_classifier::Lookup;
use of_switch::Switch;
use of_table::Entry;

// Whether the entry at a place has the priority of this one.
fn is_level<L: Lookup>(switch: &Switch<L>, table: u8, own: &Entry, place: usize) -> bool
    requires { table < 16 }
    ensures { result ≡ are_level (slice_get (table_at table switch.now.core.forwarding.tables).flows place) (Some (entry_of own.now)) }
{
    match switch.datapath().entry(table, place) {
        None => false,
        Some(other) => other.flow.priority == own.flow.priority,
    }
}

/// Whether one of the entries at these places has the priority of the entry at a place. OpenFlow does not say which of two entries of equal
/// priority wins (OpenFlow 1.3.5, 5.3).
pub fn is_tied<L: Lookup>(
    switch: &Switch<L>,
    table: u8,
    place: usize,
    own: &Entry,
    by: &[usize],
) -> bool
    requires table { table < 16 }
    requires there { slice_get (table_at table switch.now.core.forwarding.tables).flows place ≡ Some (entry_of own.now) }
    ensures { result ≡ is_tie (table_at table switch.now.core.forwarding.tables).flows place by.now }
{
    for other in by {
        if is_level(switch, table, own, *other) {
            return true;
        }
    }
    false
}
