//! A lookup in a table of which some entries changed, if both switches do the same after it.
ghost use Rattle.std.specs.Prelude.{◌≡◌, ◌<◌, ◌≤◌, ◌+◌, ◌-◌, IfOk, IfSome, IsTrue, OnOk, List, length, true};
ghost use Rattle.std.specs.{Global.Vec as AVec, List.Contains};
ghost use Rattle.of_actions.specs.declared.action.Action.{Action};
ghost use Rattle.of_datapath.specs.{Datapath.world_of, Numbers.forwarding_of};
ghost use Rattle.of_machine.specs.TheWorld.{TheWorld};
ghost use Rattle.of_oxm.specs.declared.match_field.MatchField.{MatchField as AMatchField};
ghost use Rattle.of_regions.specs.Conditions.{AreConditions};
ghost use Rattle.of_symbolic.specs.{Actions.AreRewriting, Overlays.IsOverlay, Parts.AreListsOfConditions};
ghost use Rattle.of_symbolic_run.specs.{States.answer_to_tasks, declared.advance.Advance.TheVariants.Lookup as WantsLookup};
ghost use Rattle.of_table.specs.Entries.{entry_of, flows_of};
ghost use Rattle.of_alike.specs.{declared.alike.Compared.Compared, Emitting.LeaveAlike, SamePorts.SamePorts};
ghost use Rattle.of_diff.specs.Changing.{AddsPairs, AddsSet, AreAtTableBefore, AreMarkedAskedIn, AreMatchedSets, ArePairsOf, IsAgreement, IsAskedIn, entries_in};
ghost use Rattle.of_diff.specs.{NextPairs.AreNextPairs, Pairs.ArePairs};

use crate::agreement::Agreement;
use crate::pair::{Pair, pairs_by_first};
use of_classifier::Lookup;
use of_datapath::Datapath;
use of_oxm::MatchField;
use of_symbolic::{Overlay, Pulled, pull, pulled_matches_are_of_frames};
use of_symbolic_run::{FrameSet, SymbolicPacket, look_up};
use of_table::{Entries, Entry};
use std::alloc::{AllocError, Global};

// Appends the conditions on the frame that came in under which an entry matches. False if they are not known.
fn push_asked(
    alloc: Global,
    asked: &mut Vec<Vec<MatchField>>,
    overlay: &Overlay,
    metadata: u64,
    entry: &Entry,
) -> Result<bool, AllocError>
    ensures asked { IfOk result (λ known. known ≡ true → (l : List Action) → IsOverlay overlay.now l → AreRewriting l →
        IsAskedIn overlay.now.inner asked.new.items l metadata (entry_of entry.now)) }
    ensures more { OnOk result ((m : AVec AMatchField) → Contains asked.old.items m → Contains asked.new.items m) }
    ensures conditions { OnOk result (AreListsOfConditions asked.old.items → AreListsOfConditions asked.new.items) }
    ensures few { OnOk result (length asked.new.items ≤ length asked.old.items + 1) }
{
    pulled_matches_are_of_frames();
    match pull(alloc, overlay, metadata, &entry.flow.fields)? {
        Pulled::Unknown => Ok(false),
        Pulled::Never => Ok(true),
        Pulled::When(fields) => {
            asked.push(fields)?;
            Ok(true)
        }
    }
}

// Appends them if the entry is marked.
fn push_marked(
    alloc: Global,
    asked: &mut Vec<Vec<MatchField>>,
    overlay: &Overlay,
    metadata: u64,
    entry: &Entry,
    mark: bool,
) -> Result<bool, AllocError>
    ensures asked { IfOk result (λ known. known ≡ true → (l : List Action) → IsOverlay overlay.now l → AreRewriting l →
        mark ≡ true → IsAskedIn overlay.now.inner asked.new.items l metadata (entry_of entry.now)) }
    ensures more { OnOk result ((m : AVec AMatchField) → Contains asked.old.items m → Contains asked.new.items m) }
    ensures conditions { OnOk result (AreListsOfConditions asked.old.items → AreListsOfConditions asked.new.items) }
    ensures few { OnOk result (length asked.new.items ≤ length asked.old.items + 1) }
{
    if !mark {
        return Ok(true);
    }
    let known = push_asked(alloc, asked, overlay, metadata, entry)?;
    Ok(known)
}

// Appends those of the marked entries. False if some are not known.
fn push_all_asked(
    alloc: Global,
    asked: &mut Vec<Vec<MatchField>>,
    overlay: &Overlay,
    metadata: u64,
    entries: Entries<'_>,
    marks: &[bool],
) -> Result<bool, AllocError>
    ensures asked { IfOk result (λ known. known ≡ true → (l : List Action) → IsOverlay overlay.now l → AreRewriting l →
        AreMarkedAskedIn overlay.now.inner asked.new.items l metadata (flows_of entries.entry) marks.now) }
    ensures more { OnOk result ((m : AVec AMatchField) → Contains asked.old.items m → Contains asked.new.items m) }
    ensures conditions { OnOk result (AreListsOfConditions asked.old.items → AreListsOfConditions asked.new.items) }
    ensures few { IfOk result (λ known. known ≡ true → length asked.new.items ≤ length asked.old.items + length (flows_of entries.entry)) }
{
    let mut left = marks.iter();
    for entry in entries {
        let Some(mark) = left.next() else {
            return Ok(true);
        };
        if !push_marked(alloc, asked, overlay, metadata, entry, *mark)? {
            return Ok(false);
        }
    }
    Ok(true)
}

// Appends a set, unless it has no regions.
fn push_set(sets: &mut Vec<FrameSet>, those: FrameSet) -> Result<(), AllocError>
    ensures { OnOk result (AddsSet sets.old.items those sets.new.items) }
{
    if !those.part.regions.is_empty() {
        sets.push(those)?;
    }
    Ok(())
}

// The frames of a set that conditions match, by the first list of conditions that does.
fn matched_sets(
    alloc: Global,
    frames: FrameSet,
    asked: &[Vec<MatchField>],
) -> Result<Vec<FrameSet>, AllocError>
    requires { AreListsOfConditions asked.now }
    ensures { IfOk result (λ sets. AreMatchedSets frames asked.now sets.items) }
{
    let mut rest = frames;
    let mut sets = Vec::new(alloc);
    for fields in asked {
        push_set(&mut sets, rest.matching(alloc, fields)?)?;
        rest = rest.without(alloc, fields)?;
    }
    Ok(sets)
}

// Appends the cases of the first run for these frames. False if they are not known.
fn push_cases<'a, L: Lookup>(
    alloc: Global,
    pairs: &mut Vec<Pair<'a>>,
    datapath: &'a Datapath<L>,
    pair: &Pair<'a>,
    frames: &FrameSet,
    table: u8,
) -> Result<bool, AllocError>
    requires table { table < 16 }
    requires lookup { answer_to_tasks pair.now.first.tasks.items ≡ WantsLookup table }
    ensures { IfOk result (λ known. known ≡ true →
        AddsPairs (world_of (forwarding_of datapath.now)) frames.now pair.now.first pair.now.second pairs.old.items pairs.new.items) }
{
    let Some(cases) = look_up(alloc, datapath.entries(table), &pair.first, frames, table)? else {
        return Ok(false);
    };
    let mut more = pairs_by_first(alloc, cases, &pair.second)?;
    pairs.append(&mut more)?;
    Ok(true)
}

// The cases of the first run for the frames of these sets. None if they are not known.
fn pairs_of_sets<'a, L: Lookup>(
    alloc: Global,
    datapath: &'a Datapath<L>,
    pair: &Pair<'a>,
    sets: &[FrameSet],
    table: u8,
) -> Result<Option<Vec<Pair<'a>>>, AllocError>
    requires table { table < 16 }
    requires lookup { answer_to_tasks pair.now.first.tasks.items ≡ WantsLookup table }
    ensures { IfOk result (λ found. IfSome found (λ pairs. (v : TheWorld) →
        ArePairsOf (world_of (forwarding_of datapath.now)) v pair.now sets.now pairs.items)) }
{
    let mut pairs = Vec::new(alloc);
    for frames in sets {
        if !push_cases(alloc, &mut pairs, datapath, pair, frames, table)? {
            return Ok(None);
        }
    }
    Ok(Some(pairs))
}

// The conditions under which the first packet matches a changed entry of the table in one of the switches. None if they are not known.
fn changed_conditions<L: Lookup>(
    alloc: Global,
    first: &Datapath<L>,
    second: &Datapath<L>,
    agreement: &Agreement,
    packet: &SymbolicPacket,
    inner: bool,
) -> Result<Option<Vec<Vec<MatchField>>>, AllocError>
    requires positive { 0 < agreement.now.from }
    requires last { agreement.now.from ≤ 16 }
    ensures first { IfOk result (λ found. IfSome found (λ asked. AreMarkedAskedIn inner asked.items packet.now.rewrites packet.now.metadata
        (entries_in (forwarding_of first.now) (agreement.now.from - 1)) agreement.now.changed.a.items)) }
    ensures second { IfOk result (λ found. IfSome found (λ asked. AreMarkedAskedIn inner asked.items packet.now.rewrites packet.now.metadata
        (entries_in (forwarding_of second.now) (agreement.now.from - 1)) agreement.now.changed.b.items)) }
    ensures conditions { IfOk result (λ found. IfSome found (λ asked. AreListsOfConditions asked.items)) }
    ensures few { IfOk result (λ found. IfSome found (λ asked. length asked.items ≤
        length (entries_in (forwarding_of first.now) (agreement.now.from - 1)) + length (entries_in (forwarding_of second.now) (agreement.now.from - 1)))) }
{
    let table = agreement.from - 1;
    packet.rewrites.known();
    let overlay = packet.rewrites.overlay(alloc, inner)?;
    let metadata = packet.metadata;
    let mut asked = Vec::new(alloc);
    let entries = first.entries(table);
    if !push_all_asked(
        alloc,
        &mut asked,
        &overlay,
        metadata,
        entries,
        &agreement.changed.a,
    )? {
        return Ok(None);
    }
    let entries = second.entries(table);
    if !push_all_asked(
        alloc,
        &mut asked,
        &overlay,
        metadata,
        entries,
        &agreement.changed.b,
    )? {
        return Ok(None);
    }
    Ok(Some(asked))
}

/// A lookup in the table before those that do the same in both switches: only the frames that match a changed entry are divided, by the first run.
///
/// None if it is not known what the first packet matches.
pub fn changed_pairs<'a, L: Lookup>(
    alloc: Global,
    first: &'a Datapath<L>,
    second: &'a Datapath<L>,
    agreement: &Agreement,
    pair: &Pair<'a>,
) -> Result<Option<Vec<Pair<'a>>>, AllocError>
    requires ports { SamePorts first.now.ports second.now.ports }
    requires agreement { IsAgreement (forwarding_of first.now) (forwarding_of second.now) agreement.now }
    requires here { AreAtTableBefore agreement.now.from pair.now.first pair.now.second }
    ensures pairs { IfOk result (λ found. IfSome found (λ pairs. (c : Compared) →
        LeaveAlike c (world_of (forwarding_of first.now)).ports pair.now.frames pair.now.first.emitted.items pair.now.second.emitted.items →
        ArePairs c (world_of (forwarding_of first.now)) (world_of (forwarding_of second.now)) pair.now pairs.items)) }
    ensures next { IfOk result (λ found. IfSome found (λ pairs.
        AreNextPairs (world_of (forwarding_of first.now)) (world_of (forwarding_of second.now)) pair.now pairs.items)) }
{
    first.known_world();
    second.known_world();
    let packet = &pair.first.tasks[0].packet;
    let inner = pair.frames.inner;
    let Some(asked) = changed_conditions(alloc, first, second, agreement, packet, inner)? else {
        return Ok(None);
    };
    let frames = pair.frames.matching(alloc, &[])?;
    let sets = matched_sets(alloc, frames, &asked)?;
    pairs_of_sets(alloc, first, pair, &sets, agreement.from - 1)
}
