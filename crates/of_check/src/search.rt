//! The verdict on an entry.
ghost use Rattle.std.specs.Prelude.{◌≡◌, ◌<◌, ℕ, Some, IfOk, slice_get};
ghost use Rattle.of_table.specs.{Entries.entry_of, Tables.table_at};
ghost use Rattle.of_check.specs.{Outlines.outlines_of as outlines_in, Verdicts.AreRivals, Verdicts.Covers, Verdicts.VerdictHolds};

use crate::outline::{Outline, outlines_of};
use crate::rivals::{first_cover, rivals_of};
use crate::ties::is_tied;
use crate::verdict::Verdict;
use of_classifier::Lookup;
use of_oxm::{covered_is_matched, overlap_is_common_match};
use of_regions::{Found, Packet, Rival, search};
use of_switch::Switch;
use of_table::Entry;
use std::alloc::{AllocError, Global};

// One entry covers the one at a place.
fn covered_by<L: Lookup>(
    alloc: Global,
    switch: &Switch<L>,
    table: u8,
    place: usize,
    own: &Entry,
    at: usize,
) -> Result<Verdict, AllocError>
    requires table { table < 16 }
    requires there { slice_get (table_at table switch.now.core.forwarding.tables).flows place ≡ Some (entry_of own.now) }
    requires covers { Covers (table_at table switch.now.core.forwarding.tables).flows at place }
    ensures { IfOk result (λ verdict. (steps : ℕ) → VerdictHolds (table_at table switch.now.core.forwarding.tables).flows place steps verdict) }
{
    covered_is_matched();
    let mut by = Vec::new(alloc);
    by.push(at)?;
    let tie = is_tied(switch, table, place, own, &by);
    Ok(Verdict::Never { by, tie })
}

// The verdict on an entry that no one entry covers.
fn searched<L: Lookup>(
    alloc: Global,
    switch: &Switch<L>,
    table: u8,
    place: usize,
    own: &Entry,
    rivals: &[Rival],
    steps: usize,
) -> Result<Verdict, AllocError>
    requires table { table < 16 }
    requires there { slice_get (table_at table switch.now.core.forwarding.tables).flows place ≡ Some (entry_of own.now) }
    requires are { AreRivals (table_at table switch.now.core.forwarding.tables).flows place (entry_of own.now) rivals.now }
    requires uncovered { (j : ℕ) → ¬ (Covers (table_at table switch.now.core.forwarding.tables).flows j place) }
    ensures { IfOk result (VerdictHolds (table_at table switch.now.core.forwarding.tables).flows place steps) }
{
    overlap_is_common_match();
    match search(alloc, &own.flow.fields, rivals, steps)? {
        Found::Free(
            Packet {
                frame,
                in_port,
                metadata,
            },
        ) => Ok(Verdict::Wins {
            frame,
            in_port,
            metadata,
        }),
        Found::Taken(by) => {
            let tie = is_tied(switch, table, place, own, &by);
            Ok(Verdict::Never { by, tie })
        }
        Found::Unreceived(_) => Ok(Verdict::Unreceived),
        Found::Undecided => Ok(Verdict::Open),
    }
}

/// The verdict on the entry of a table at a place by age, from 0, as `check_entry` gives it; the entries of the table have these outlines.
pub fn check_among<L: Lookup>(
    alloc: Global,
    switch: &Switch<L>,
    table: u8,
    place: usize,
    steps: usize,
    outlines: &[Outline],
) -> Result<Verdict, AllocError>
    requires table { table < 16 }
    requires outlines { outlines.now ≡ outlines_in (table_at table switch.now.core.forwarding.tables).flows }
    ensures { IfOk result (VerdictHolds (table_at table switch.now.core.forwarding.tables).flows place steps) }
{
    let Some(own) = switch.datapath().entry(table, place) else {
        return Ok(Verdict::Open);
    };
    own.flow.fields.known();
    let rivals = rivals_of(alloc, switch, table, place, own, outlines)?;
    match first_cover(switch, table, place, own, &rivals) {
        Some(at) => covered_by(alloc, switch, table, place, own, at),
        None => searched(alloc, switch, table, place, own, &rivals, steps),
    }
}

/// The verdict on the entry of a table at a place by age, from 0 (OpenFlow 1.3.5, 5.3). An entry that no one entry covers is searched: `Open`
/// means that it was not decided in so many steps, or that there is no such entry.
pub fn check_entry<L: Lookup>(
    alloc: Global,
    switch: &Switch<L>,
    table: u8,
    place: usize,
    steps: usize,
) -> Result<Verdict, AllocError>
    requires { table < 16 }
    ensures { IfOk result (VerdictHolds (table_at table switch.now.core.forwarding.tables).flows place steps) }
{
    let outlines = outlines_of(alloc, switch, table)?;
    check_among(alloc, switch, table, place, steps, &outlines)
}
