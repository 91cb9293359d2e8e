//! Differences as they are told: those of the same changed entries are told as one.
ghost use Rattle.std.specs.Prelude.{◌≡◌, IfNone, IfOk, IfSome, OnOk, List, Some, map, slice_get, true, false};
ghost use Rattle.std.specs.List.{AllByRecursion, Contains};
ghost use Rattle.of_diff_report.specs.Telling.{AreTold, HasRegion, IsTold, PutsTold, has_changed as has_changed_hits, is_of_kind as is_of_kind_by, set_of};
ghost use Rattle.of_diff_report.specs.declared.telling.Told.{Told as TheTold};

use crate::hits::{DiffSide, SideHits, are_same_hits, side_hits};
use crate::region::{DescribedSet, describe, describe_first};
use of_classifier::Lookup;
use of_diff::{Difference, Undecided};
use of_switch::Switch;
use std::alloc::{AllocError, Global};

/// A difference, and what is told of it.
#[derive(Drop)]
pub struct Told<'a> {
    pub difference: &'a Difference,
    /// The entries that its frame hits at the first switch.
    pub first: SideHits,
    /// Those at the second.
    pub second: SideHits,
    /// Its first set of frames.
    pub region: Option<DescribedSet<'a>>,
    /// Further differences whose frames hit the same changed entries.
    pub also: Vec<&'a Difference>,
}

/// Frames that are undecided, and their region.
#[derive(Drop)]
pub struct ToldUndecided<'a> {
    pub undecided: &'a Undecided,
    pub region: Option<DescribedSet<'a>>,
}

// What is told of a difference.
fn tell<'a, L: Lookup>(
    alloc: Global,
    first: &DiffSide<'_, L>,
    second: &DiffSide<'_, L>,
    difference: &'a Difference,
) -> Result<Told<'a>, AllocError>
    ensures { IfOk result (IsTold first.now.switch.now.core.forwarding second.now.switch.now.core.forwarding difference.now) }
{
    let (port, frame) = (difference.in_port, difference.frame.as_slice());
    Ok(Told {
        difference,
        first: side_hits(alloc, first.switch, second.switch, port, frame)?,
        second: side_hits(alloc, second.switch, first.switch, port, frame)?,
        region: describe_first(alloc, &difference.sets)?,
        also: Vec::new(alloc),
    })
}

fn has_changed(told: &Told<'_>) -> bool
    ensures { result ≡ has_changed_hits told.now }
{
    !(told.first.changed.is_empty() && told.second.changed.is_empty())
}

// Whether the frames of both hit the same changed entries, at least one.
fn is_of_kind(told: &Told<'_>, other: &Told<'_>) -> bool
    ensures { result ≡ is_of_kind_by told.now other.now }
{
    has_changed(told)
        && are_same_hits(&told.first.changed, &other.first.changed)
        && are_same_hits(&told.second.changed, &other.second.changed)
}

// Which of those that are told is the first of its kind.
fn place_of_kind(told: &[Told<'_>], other: &Told<'_>) -> Option<usize>
    ensures some { IfSome result (λ i. (b : TheTold) × (slice_get told.now i ≡ Some b) × (is_of_kind_by b other.now ≡ true)) }
    ensures none { IfNone result ((b : TheTold) → Contains told.now b → is_of_kind_by b other.now ≡ false) }
{
    for index in 0..told.len() {
        if is_of_kind(&told[index], other) {
            return Some(index);
        }
    }
    None
}

// Puts one more to those that are told: with the first of its kind, or by itself behind all others.
fn put_told<'a>(told: &mut Vec<Told<'a>>, further: Told<'a>) -> Result<(), AllocError>
    ensures { OnOk result (PutsTold further.entry.difference.now further.entry told.old.items told.new.items) }
{
    match place_of_kind(told, &further) {
        None => {
            told.push(further)?;
            Ok(())
        }
        Some(index) => {
            told[index].also.push(further.difference)?;
            Ok(())
        }
    }
}

/// The differences of two switches as they are told: those whose frames hit the same changed entries as one.
pub fn tell_all<'a, L: Lookup>(
    alloc: Global,
    first: &DiffSide<'_, L>,
    second: &DiffSide<'_, L>,
    found: &'a [Difference],
) -> Result<Vec<Told<'a>>, AllocError>
    ensures { IfOk result (λ told. AreTold first.now.switch.now.core.forwarding second.now.switch.now.core.forwarding found.now told.items) }
{
    let mut told = Vec::new(alloc);
    for difference in found {
        let further = tell(alloc, first, second, difference)?;
        put_told(&mut told, further)?;
    }
    Ok(told)
}

/// The sets of frames that are undecided, each with its region.
pub fn tell_undecided(
    alloc: Global,
    undecided: &[Undecided],
) -> Result<Vec<ToldUndecided<'_>>, AllocError>
    ensures sets { IfOk result (λ told. map set_of told.items ≡ undecided.now) }
    ensures regions { IfOk result (λ told. AllByRecursion HasRegion told.items) }
{
    let mut told = Vec::new(alloc);
    for set in undecided {
        let region = describe(alloc, &set.frames)?;
        told.push(ToldUndecided {
            undecided: set,
            region,
        })?;
    }
    Ok(told)
}
