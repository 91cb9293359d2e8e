//! Parts of all packets.
ghost use Rattle.std.specs.Prelude.{◌≡◌, ◌↔◌, ℕ, Option, IfOk, IsTrue, true, false};
ghost use Rattle.of_layers.specs.declared.field.Field.{Field as TheField};
ghost use Rattle.of_oxm.specs.Relations.{matches_map};
ghost use Rattle.of_regions.specs.{declared.meeting.Meeting.TheVariants.Apart, declared.meeting.Meeting.TheVariants.Whole, Conditions.AreConditions, Meeting.Meets, Searching.InSome};
ghost use Rattle.of_symbolic.specs.Parts.{AreLeftRegions, AreListsOfConditions, FindsInPart, HaveConditions, IsListed, IsMatchedPart, IsUnmatchedPart, IsWholePart};
ghost use Rattle.of_symbolic.specs.InnerTags.{inner_tag_asked};

use of_headers::Field;
use of_oxm::{Match, MatchField, same_fields};
use of_regions::{Found, Meeting, Region, Rival, narrowed, regions_of, search_among};
use std::alloc::{AllocError, Global};

/// Packets of some regions that none of some lists of conditions matches.
///
/// There may be no such packet, since the lists may match all of the regions together: `find` tells.
#[derive(Drop)]
pub struct Part {
    pub regions: Vec<Region>,
    /// What one of these lists of conditions matches is not in the part.
    pub lacks: Vec<Vec<MatchField>>,
}

fn is_apart_from(region: &Region, fields: &[MatchField]) -> bool
    ensures { result ≡ true → Meets region.now fields.now Apart }
{
    matches!(region.meet(fields), Meeting::Apart)
}

fn is_whole_in(region: &Region, fields: &[MatchField]) -> bool
    ensures { result ≡ true → Meets region.now fields.now Whole }
{
    matches!(region.meet(fields), Meeting::Whole)
}

/// Whether a match matches no packet of regions.
pub(crate) fn are_apart(regions: &[Region], fields: &[MatchField]) -> bool
    ensures { result ≡ true → (map : TheField → Option ℕ) → InSome regions.now map → matches_map fields.now map ≡ false }
{
    for region in regions {
        if !is_apart_from(region, fields) {
            return false;
        }
    }
    true
}

// The regions without those of which a match matches all.
fn left_regions(
    alloc: Global,
    regions: &[Region],
    fields: &[MatchField],
) -> Result<Vec<Region>, AllocError>
    ensures { IfOk result (λ new. AreLeftRegions fields.now regions.now new.items) }
{
    let mut left = Vec::new(alloc);
    for region in regions {
        if !is_whole_in(region, fields) {
            left.push(*region)?;
        }
    }
    Ok(left)
}

// Rivals with these conditions, each named by its index.
fn rivals_in<'a>(alloc: Global, lacks: &'a [Vec<MatchField>]) -> Result<Vec<Rival<'a>>, AllocError>
    ensures { IfOk result (λ rivals. HaveConditions lacks.now rivals.items) }
{
    let mut rivals = Vec::new(alloc);
    for name in 0..lacks.len() {
        rivals.push(Rival {
            name,
            fields: lacks[name].as_slice(),
        })?;
    }
    Ok(rivals)
}

// Whether a list of conditions is one of these.
fn is_listed(lacks: &[Vec<MatchField>], fields: &[MatchField]) -> bool
    ensures { IsTrue result ↔ IsListed lacks.now fields.now }
{
    for index in 0..lacks.len() {
        if same_fields(&lacks[index], fields) {
            return true;
        }
    }
    false
}

fn copied_conditions(fields: &Vec<MatchField>) -> Result<Vec<MatchField>, AllocError>
    ensures { IfOk result (λ copy. copy.items ≡ fields.now.items) }
{
    Ok(fields.clone()?)
}

// What the description of a frame with an inner tag has: an outermost tag, and the number of a tag.
fn inner_tagged() -> [MatchField; 3]
    ensures { result ≡ inner_tag_asked }
{
    [
        MatchField {
            field: Field::VlanVid,
            value: 0x1000,
            mask: Some(0x1000),
        },
        MatchField {
            field: Field::Metadata,
            value: 0x1000,
            mask: Some(0x1000),
        },
        MatchField {
            field: Field::Metadata,
            value: 0,
            mask: Some(0xffff_ffff_ffff_0000),
        },
    ]
}

impl Part {
    /// The descriptions of all frames, by any port. METADATA tells their inner tags, or is 0.
    pub fn whole(alloc: Global, inner: bool) -> Result<Part, AllocError>
        ensures whole { IfOk result (IsWholePart inner) }
        ensures conditions { IfOk result (λ part. AreListsOfConditions part.lacks.items) }
    {
        let start = regions_of(alloc, &Match::of_all(alloc))?;
        let no_metadata = MatchField {
            field: Field::Metadata,
            value: 0,
            mask: None,
        };
        // a search begins with the last region: with frames that have no inner tag
        let mut regions = Vec::new(alloc);
        if inner {
            regions = narrowed(alloc, &start, &inner_tagged())?;
        }
        let plain = narrowed(alloc, &start, &[no_metadata])?;
        regions.extend_from_slice(&plain)?;
        Ok(Part {
            regions,
            lacks: Vec::new(alloc),
        })
    }

    /// Those that a match does not match.
    pub fn unmatched(self, alloc: Global, fields: &Vec<MatchField>) -> Result<Part, AllocError>
        requires { AreConditions fields.now.items }
        ensures { IfOk result (IsUnmatchedPart fields.now.items self) }
    {
        if are_apart(&self.regions, fields) {
            return Ok(self);
        }
        if is_listed(&self.lacks, fields) {
            return Ok(self);
        }
        let mut lacks = self.lacks;
        lacks.push(copied_conditions(fields)?)?;
        Ok(Part {
            regions: left_regions(alloc, &self.regions, fields)?,
            lacks,
        })
    }

    /// Those that a match matches. Lists of conditions that match no packet of the regions that are left are left out.
    pub fn matched(&self, alloc: Global, fields: &[MatchField]) -> Result<Part, AllocError>
        requires each { AreListsOfConditions self.now.lacks.items }
        requires own { AreConditions fields.now }
        ensures { IfOk result (IsMatchedPart fields.now self.now) }
    {
        let mut part = Part {
            regions: narrowed(alloc, &self.regions, fields)?,
            lacks: Vec::new(alloc),
        };
        for index in 0..self.lacks.len() {
            part = part.unmatched(alloc, &self.lacks[index])?;
        }
        Ok(part)
    }

    /// Searches for a packet of the part, in so many steps at most.
    pub fn find(&self, alloc: Global, steps: usize) -> Result<Found, AllocError>
        requires { AreListsOfConditions self.now.lacks.items }
        ensures { IfOk result (FindsInPart self.now steps) }
    {
        let rivals = rivals_in(alloc, &self.lacks)?;
        search_among(alloc, &self.regions, &rivals, steps)
    }
}
