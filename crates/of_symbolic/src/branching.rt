//! What a lookup does with all packets of a part.
ghost use Rattle.std.specs.Prelude.{◌≡◌, ◌<◌, ◌↔◌, ℕ, true, false, Option, Some, None, List, IfNone, IfOk, IfSome, IsTrue, OnOk, length};
ghost use Rattle.std.specs.List.{Contains};
ghost use Rattle.of_layers.specs.declared.field.Field.{Field as TheField};
ghost use Rattle.of_actions.specs.declared.action.Action.{Action};
ghost use Rattle.of_regions.specs.Conditions.{AreConditions};
ghost use Rattle.of_symbolic.specs.Branching.{AddsBranch, AddsHit, AllHaveConditions, AreNearEntries, HasConditions, IsAhead, IsNearEntry, IsPartBehind, IsPartBehindAll, is_agreed, ranked_place};
ghost use Rattle.of_symbolic.specs.{declared.branching.Branch.Branch as TheBranch, Actions.AreRewriting, Branches.AreBranches, Branches.AsksUnknown, Branches.flows_listed, Overlays.IsOverlay};
ghost use Rattle.of_symbolic.specs.Parts.{AreListsOfConditions, InPart};

use crate::overlay::Overlay;
use crate::part::{Part, are_apart};
use crate::pulled_entry::{PulledEntry, pulled_entries};
use of_oxm::MatchField;
use of_table::Entry;
use std::alloc::{AllocError, Global};

/// The packets of a part that hit one entry of a flow table, or none. There may be no such packet: `Part::find` tells.
#[derive(Drop)]
pub struct Branch {
    pub part: Part,
    /// The place of the entry by age, from 0. None: no entry matches.
    pub entry: Option<usize>,
}

// The priority of an entry, and its place by age.
#[derive(Clone, Copy)]
struct Rank {
    priority: u16,
    place: usize,
}

// Whether an entry goes before one of a rank: it has a higher priority, or the same and is older (OpenFlow 1.3.5, 5.3). Each goes before a miss.
fn is_ahead(priority: u16, place: usize, of: Option<Rank>) -> bool
    ensures { IsTrue result ↔ IsAhead priority place of }
{
    match of {
        None => true,
        Some(rank) => {
            rank.priority < priority || priority == rank.priority && place < rank.place
        }
    }
}

fn rank_place(of: Option<Rank>) -> Option<usize>
    ensures { result ≡ ranked_place of }
{
    match of {
        None => None,
        Some(rank) => Some(rank.place),
    }
}

impl Part {
    // Those that an entry does not match, if it goes before.
    fn behind(
        self,
        alloc: Global,
        entry: &PulledEntry,
        place: usize,
        of: Option<Rank>,
    ) -> Result<Part, AllocError>
        requires { HasConditions entry.now }
        ensures { IfOk result (IsPartBehind entry.now place of self) }
    {
        match &entry.fields {
            Some(fields) if is_ahead(entry.priority, place, of) => self.unmatched(alloc, fields),
            _ => Ok(self),
        }
    }

    // Those that no entry matches that goes before.
    fn behind_all(
        self,
        alloc: Global,
        entries: &[PulledEntry],
        of: Option<Rank>,
    ) -> Result<Part, AllocError>
        requires { AllHaveConditions entries.now }
        ensures { IfOk result (IsPartBehindAll entries.now (length entries.now) of self) }
    {
        let mut part = self;
        for place in 0..entries.len() {
            part = part.behind(alloc, &entries[place], place, of)?;
        }
        Ok(part)
    }
}

// Appends the packets of a part that conditions match, and no entry that goes before.
fn push_branch(
    alloc: Global,
    out: &mut Vec<Branch>,
    part: &Part,
    entries: &[PulledEntry],
    fields: &[MatchField],
    of: Option<Rank>,
) -> Result<(), AllocError>
    requires part { AreListsOfConditions part.now.lacks.items }
    requires each { AllHaveConditions entries.now }
    requires own { AreConditions fields.now }
    ensures { OnOk result (AddsBranch part.now entries.now fields.now of out.old.items out.new.items) }
{
    let chosen = part.matched(alloc, fields)?.behind_all(alloc, entries, of)?;
    if !chosen.regions.is_empty() {
        out.push(Branch {
            part: chosen,
            entry: rank_place(of),
        })?;
    }
    Ok(())
}

// Appends the packets of a part that hit the entry at a place.
fn push_hit(
    alloc: Global,
    out: &mut Vec<Branch>,
    part: &Part,
    entries: &[PulledEntry],
    place: usize,
) -> Result<(), AllocError>
    requires part { AreListsOfConditions part.now.lacks.items }
    requires each { AllHaveConditions entries.now }
    requires place { place < length entries.now }
    ensures { OnOk result (AddsHit part.now entries.now (Some place) out.old.items out.new.items) }
{
    let entry = &entries[place];
    match &entry.fields {
        None => Ok(()),
        Some(fields) => {
            let rank = Rank {
                priority: entry.priority,
                place,
            };
            push_branch(alloc, out, part, entries, fields, Some(rank))
        }
    }
}

// Appends the packets of a part that hit no entry.
fn push_miss(
    alloc: Global,
    out: &mut Vec<Branch>,
    part: &Part,
    entries: &[PulledEntry],
) -> Result<(), AllocError>
    requires part { AreListsOfConditions part.now.lacks.items }
    requires each { AllHaveConditions entries.now }
    ensures { OnOk result (AddsHit part.now entries.now None out.old.items out.new.items) }
{
    push_branch(alloc, out, part, entries, &[], None)
}

// An entry that matches no packet of the regions of a part, as far as they tell.
fn is_far(part: &Part, entry: &PulledEntry) -> bool
    ensures { result ≡ true → (map : TheField → Option ℕ) → InPart part.now map → is_agreed entry.now.fields map ≡ false }
{
    match &entry.fields {
        Some(fields) => are_apart(&part.regions, fields),
        None => true,
    }
}

// Such an entry is as one that never matches.
fn near_entry(part: &Part, entry: PulledEntry) -> PulledEntry
    ensures { IsNearEntry part.now entry result }
{
    if is_far(part, &entry) {
        return PulledEntry {
            priority: entry.priority,
            fields: None,
        };
    }
    entry
}

// The entries, so that the others need not be compared with those that match no packet of the part.
fn near_entries(
    alloc: Global,
    part: &Part,
    entries: Vec<PulledEntry>,
) -> Result<Vec<PulledEntry>, AllocError>
    ensures { IfOk result (λ near. AreNearEntries part.now entries.items near.items) }
{
    let mut near = Vec::new(alloc);
    for entry in entries {
        near.push(near_entry(part, entry))?;
    }
    Ok(near)
}

/// The packets of a part, by the entry of a flow table that they hit after actions, with this metadata (OpenFlow 1.3.5, 5.3).
///
/// None if the match of an entry asks what is not known of the packet.
pub fn branches(
    alloc: Global,
    entries: &[&Entry],
    overlay: &Overlay,
    metadata: u64,
    part: &Part,
) -> Result<Option<Vec<Branch>>, AllocError>
    requires { AreListsOfConditions part.now.lacks.items }
    ensures some { IfOk result (λ found. IfSome found (λ made. (l : List Action) → IsOverlay overlay.now l → AreRewriting l →
        AreBranches overlay.now.inner (flows_listed entries.now) l metadata part.now made.items)) }
    ensures conditions { IfOk result (λ found. IfSome found (λ made. (b : TheBranch) → Contains made.items b → AreListsOfConditions b.part.lacks.items)) }
    ensures none { IfOk result (λ found. IfNone found (AsksUnknown overlay.now (flows_listed entries.now))) }
{
    let Some(pulled) = pulled_entries(alloc, entries, overlay, metadata)? else {
        return Ok(None);
    };
    let pulled = near_entries(alloc, part, pulled)?;
    let mut out = Vec::new(alloc);
    for place in 0..pulled.len() {
        push_hit(alloc, &mut out, part, &pulled, place)?;
    }
    push_miss(alloc, &mut out, part, &pulled)?;
    Ok(Some(out))
}
