//! The entries that leave one fewer packets.
ghost use Rattle.std.specs.Prelude.{◌≡◌, ◌<◌, ◌⊎◌, ◌↔◌, ℕ, Some, IfNone, IfOk, IfSome, IsTrue, false, true, slice_get};
ghost use Rattle.std.specs.Option.{option_map};
ghost use Rattle.of_oxm.specs.{NormalForm.IsMatch, Relations.overlaps_match};
ghost use Rattle.of_table.specs.{Entries.entry_of, Tables.table_at};
ghost use Rattle.of_check.specs.{Outlines.outline_of, Outlines.outlines_agree, Outlines.outlines_of as outlines_in, Verdicts.AreRivals, Verdicts.Covers, Verdicts.GoesBefore, Verdicts.is_covering};

use crate::outline::{Outline, may_overlap, outlined};
use of_classifier::Lookup;
use of_oxm::{covers, overlaps};
use of_regions::Rival;
use of_switch::Switch;
use of_table::Entry;
use std::alloc::{AllocError, Global};

// Whether an entry goes before another: it has a higher priority, or the same and is older (OpenFlow 1.3.5, 5.3).
fn goes_before(other: &Outline, at: usize, outline: &Outline, place: usize) -> bool
    ensures { IsTrue result ↔ ((outline.now.priority < other.now.priority) ⊎ ((other.now.priority ≡ outline.now.priority) × (at < place))) }
{
    outline.priority < other.priority || other.priority == outline.priority && at < place
}

// Whether an entry goes before another, and their outlines agree.
fn may_be_rival(other: &Outline, at: usize, outline: &Outline, place: usize) -> bool
    ensures { IsTrue result ↔ (((outline.now.priority < other.now.priority) ⊎ ((other.now.priority ≡ outline.now.priority) × (at < place))) ×
        (outlines_agree other.now outline.now ≡ true)) }
{
    goes_before(other, at, outline, place) && may_overlap(other, outline)
}

// The entry at a place, if it goes before another, and a packet may have both matches (OpenFlow 1.3.5, 5.3 and 6.4).
fn rival_at<'a, L: Lookup>(
    switch: &'a Switch<L>,
    table: u8,
    at: usize,
    other: &Outline,
    place: usize,
    own: &Entry,
    outline: &Outline,
) -> Option<Rival<'a>>
    requires table { table < 16 }
    requires there { slice_get (table_at table switch.now.core.forwarding.tables).flows place ≡ Some (entry_of own.now) }
    requires other { option_map outline_of (slice_get (table_at table switch.now.core.forwarding.tables).flows at) ≡ Some other.now }
    requires outline { outline.now ≡ outline_of (entry_of own.now) }
    ensures some { IfSome result (λ r. (r.name ≡ at) × ((b : GoesBefore (table_at table switch.now.core.forwarding.tables).flows at place) ×
        (r.fields.now ≡ b.first.flow.fields) × IsMatch b.first.flow.fields)) }
    ensures none { IfNone result ((b : GoesBefore (table_at table switch.now.core.forwarding.tables).flows at place) →
        overlaps_match b.first.flow.fields (entry_of own.now).flow.fields ≡ false) }
{
    if !may_be_rival(other, at, outline, place) {
        return None;
    }
    let entry = switch.datapath().entry(table, at)?;
    if !overlaps(&entry.flow.fields, &own.flow.fields) {
        return None;
    }
    entry.flow.fields.known();
    Some(Rival {
        name: at,
        fields: entry.flow.fields.fields(),
    })
}

/// The entries that go before the one at a place, and may match some of what it matches, oldest first, each named by its place.
pub fn rivals_of<'a, L: Lookup>(
    alloc: Global,
    switch: &'a Switch<L>,
    table: u8,
    place: usize,
    own: &Entry,
    outlines: &[Outline],
) -> Result<Vec<Rival<'a>>, AllocError>
    requires table { table < 16 }
    requires there { slice_get (table_at table switch.now.core.forwarding.tables).flows place ≡ Some (entry_of own.now) }
    requires outlines { outlines.now ≡ outlines_in (table_at table switch.now.core.forwarding.tables).flows }
    ensures { IfOk result (λ rivals. AreRivals (table_at table switch.now.core.forwarding.tables).flows place (entry_of own.now) rivals.items) }
{
    let outline = outlined(own);
    let mut rivals = Vec::new(alloc);
    for (at, other) in outlines.iter().enumerate() {
        if let Some(rival) = rival_at(switch, table, at, other, place, own, &outline) {
            rivals.push(rival)?;
        }
    }
    Ok(rivals)
}

// Whether the entry at a place has a match that covers the one of this entry (OpenFlow 1.3.5, 6.4).
fn covers_from<L: Lookup>(switch: &Switch<L>, table: u8, at: usize, own: &Entry) -> bool
    requires { table < 16 }
    ensures { result ≡ is_covering (slice_get (table_at table switch.now.core.forwarding.tables).flows at) own.now.flow.fields }
{
    match switch.datapath().entry(table, at) {
        None => false,
        Some(entry) => covers(&entry.flow.fields, &own.flow.fields),
    }
}

/// The oldest entry that covers the one at a place. What covers an entry overlaps it, so it is among those that leave the entry fewer packets.
pub fn first_cover<L: Lookup>(
    switch: &Switch<L>,
    table: u8,
    place: usize,
    own: &Entry,
    rivals: &[Rival],
) -> Option<usize>
    requires table { table < 16 }
    requires there { slice_get (table_at table switch.now.core.forwarding.tables).flows place ≡ Some (entry_of own.now) }
    requires is_match { IsMatch own.now.flow.fields }
    requires are { AreRivals (table_at table switch.now.core.forwarding.tables).flows place (entry_of own.now) rivals.now }
    ensures found { IfSome result (λ j. Covers (table_at table switch.now.core.forwarding.tables).flows j place) }
    ensures none { IfNone result ((j : ℕ) → ¬ (Covers (table_at table switch.now.core.forwarding.tables).flows j place)) }
{
    for rival in rivals {
        if covers_from(switch, table, rival.name, own) {
            return Some(rival.name);
        }
    }
    None
}
