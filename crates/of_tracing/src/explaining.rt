//! Why an entry won or did not.
ghost use Rattle.std.specs.Prelude.{◌≡◌, ◌<◌, ℕ, Option, Some, true, slice_get};
ghost use Rattle.of_layers.specs.declared.field.Field.{Field};
ghost use Rattle.of_headers.specs.FieldMap.{value};
ghost use Rattle.of_oxm.specs.Relations.{matches_map};
ghost use Rattle.of_table.specs.{Entries.entry_of, Table.winner_place, Tables.table_at};
ghost use Rattle.of_tracing.specs.Why.{Explains, reason_in, reason_of_entry};

use crate::reason::Reason;
use of_classifier::Lookup;
use of_headers::FieldKey;
use of_oxm::first_difference;
use of_switch::Switch;
use of_table::Entry;

// Why an entry that matches won or did not, where this one wins.
fn why_matching<L: Lookup>(
    switch: &Switch<L>,
    table: u8,
    place: usize,
    entry: &Entry,
    winner: Option<usize>,
) -> Option<Reason>
    requires table { table < 16 }
    requires there { slice_get (table_at table switch.now.core.forwarding.tables).flows place ≡ Some (entry_of entry.now) }
    ensures explains { (map : Field → Option ℕ) → matches_map entry.now.flow.fields map ≡ true →
        winner ≡ winner_place map (table_at table switch.now.core.forwarding.tables).flows →
        Explains (table_at table switch.now.core.forwarding.tables).flows map place result }
    ensures is { (map : Field → Option ℕ) → matches_map entry.now.flow.fields map ≡ true →
        winner ≡ winner_place map (table_at table switch.now.core.forwarding.tables).flows →
        result ≡ Some (reason_of_entry (table_at table switch.now.core.forwarding.tables).flows place (entry_of entry.now)
        (winner_place map (table_at table switch.now.core.forwarding.tables).flows)) }
{
    let winner = winner?;
    if winner == place {
        return Some(Reason::Won);
    }
    let better = switch.datapath().entry(table, winner)?;
    if entry.flow.priority < better.flow.priority {
        Some(Reason::LowerPriority(winner))
    } else {
        Some(Reason::Younger(winner))
    }
}

/// Why the entry of a table at an index by age, from 0, won or did not, where this one wins.
pub fn why_where<L: Lookup>(
    switch: &Switch<L>,
    table: u8,
    key: &FieldKey,
    place: usize,
    winner: Option<usize>,
) -> Option<Reason>
    requires table { table < 16 }
    requires winner { winner ≡ winner_place (value key.now) (table_at table switch.now.core.forwarding.tables).flows }
    ensures explains { Explains (table_at table switch.now.core.forwarding.tables).flows (value key.now) place result }
    ensures is { result ≡ reason_in (table_at table switch.now.core.forwarding.tables).flows (value key.now) place }
{
    let entry = switch.datapath().entry(table, place)?;
    match first_difference(entry.flow.fields.fields(), key) {
        Some(field) => Some(Reason::Differs {
            field: *field,
            found: key.get(field.field),
        }),
        None => why_matching(switch, table, place, entry, winner),
    }
}

/// The entry of a table that wins for a packet of these fields, by its index by age.
pub fn winner_in<L: Lookup>(switch: &Switch<L>, table: u8, key: &FieldKey) -> Option<usize>
    requires { table < 16 }
    ensures { result ≡ winner_place (value key.now) (table_at table switch.now.core.forwarding.tables).flows }
{
    switch.datapath().winner(table, key)
}

/// Why the entry of a table at an index by age, from 0, won or did not, for a packet of these fields (OpenFlow 1.3.5, 5.3). None
/// where there is no such entry.
///
/// A field that is named is in the entry's match and does not agree with the packet's, and each field before it does. An entry
/// of which no field is named matches; where it did not win, the entry that is named did.
pub fn why<L: Lookup>(switch: &Switch<L>, table: u8, key: &FieldKey, place: usize) -> Option<Reason>
    requires { table < 16 }
    ensures explains { Explains (table_at table switch.now.core.forwarding.tables).flows (value key.now) place result }
    ensures is { result ≡ reason_in (table_at table switch.now.core.forwarding.tables).flows (value key.now) place }
{
    why_where(switch, table, key, place, winner_in(switch, table, key))
}
