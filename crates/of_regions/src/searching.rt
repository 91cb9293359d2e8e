//! A search for a packet that a match matches and none of its rivals.
ghost use Rattle.std.specs.Prelude.{◌≡◌, ◌<◌, ◌++◌, ◌∷◌, [], ℕ, nat_le, List, None, IfNone, IfOk, IfSome, OnOk, map};
ghost use Rattle.std.specs.List.{Contains, position};
ghost use Rattle.of_regions.specs.Searching.{AreApartBefore, Finds, IsFoundBySearch, IsFreePacket, IsState, IsStep, regions_in};
ghost use Rattle.of_regions.specs.{declared.region.Region.Region as TheRegion, declared.rival.Rival.Rival as TheRival, declared.searching.Found.TheVariants.Undecided, Conditions.AreConditions};
ghost use Rattle.of_regions.specs.Naming.{with_place};

use crate::looking::{Look, Rest, look_at};
use crate::region::Region;
use crate::rival::Rival;
use crate::starting::regions_of;
use crate::witness::Packet;
use of_oxm::Match;
use std::alloc::{AllocError, Global};

/// What a search finds.
#[derive(Drop)]
pub enum Found {
    /// A packet that the match matches and no rival.
    Free(Packet),
    /// The rivals of these names, in ascending order, match each packet that the match matches.
    Taken(Vec<usize>),
    /// There are packets that the match matches and no rival, such as those of this region, but none that comes in by a port that a switch may have.
    Unreceived(Region),
    /// Regions are left after the last step.
    Undecided,
}

// The state of a search: what is left of the regions of a match, the rivals that took the others, and the last one that no switch receives.
#[derive(Drop)]
struct State {
    rests: Vec<Rest>,
    names: Vec<usize>,
    unreceived: Option<Region>,
}

// The index of the first name that is not below this one.
fn first_from(names: &[usize], name: usize) -> Option<usize>
    ensures { result ≡ position (λ i. nat_le name i) names.now }
{
    names.iter().position(|other| name <= *other)
}

// Adds a name, in ascending order, once.
fn add_name(names: &mut Vec<usize>, name: usize) -> Result<(), AllocError>
    ensures { OnOk result (names.new.items ≡ with_place name names.old.items) }
{
    match first_from(names, name) {
        None => names.push(name)?,
        Some(at) => {
            if names[at] != name {
                names.insert(at, name)?;
            }
        }
    }
    Ok(())
}

// Appends two regions.
fn push_parts(rests: &mut Vec<Rest>, parts: (Region, Region), from: usize) -> Result<(), AllocError>
    ensures { OnOk result (rests.new.items ≡ rests.old.items ++ record { region = parts.0; from = from } ∷ record { region = parts.1; from = from } ∷ []) }
{
    rests.push(Rest {
        region: parts.0,
        from,
    })?;
    rests.push(Rest {
        region: parts.1,
        from,
    })?;
    Ok(())
}

// Appends regions of which nothing is known about rivals.
fn push_all(rests: &mut Vec<Rest>, regions: &[Region]) -> Result<(), AllocError>
    requires { rests.old.items ≡ [] }
    ensures { OnOk result (rests.new.items ≡ map (λ r. record { region = r; from = 0 }) regions.now) }
{
    for region in regions {
        rests.push(Rest {
            region: *region,
            from: 0,
        })?;
    }
    Ok(())
}

// One step: a rival takes the region, or it is divided, or it has a packet, or no switch receives it.
fn step(
    alloc: Global,
    rivals: &[Rival<'_>],
    search: &mut State,
    rest: Rest,
) -> Result<Option<Packet>, AllocError>
    requires passed { AreApartBefore rivals.now rest.region rest.from }
    requires conditions { (q : TheRival) → Contains rivals.now q → AreConditions q.fields.now }
    ensures found { (start : List TheRegion) → IsState start rivals.now (search.old.rests.items ++ rest ∷ []) search.old.names.items search.old.unreceived →
        IfOk result (λ found. IfSome found (IsFreePacket start rivals.now)) }
    ensures state { (start : List TheRegion) → IsState start rivals.now (search.old.rests.items ++ rest ∷ []) search.old.names.items search.old.unreceived →
        IfOk result (λ found. IfNone found (IsState start rivals.now search.new.rests.items search.new.names.items search.new.unreceived)) }
    ensures step { (start : List TheRegion) → IsState start rivals.now (search.old.rests.items ++ rest ∷ []) search.old.names.items search.old.unreceived →
        IfOk result (λ found. IfNone found (IsStep start rivals.now (regions_in (search.old.rests.items ++ rest ∷ [])) (regions_in search.new.rests.items))) }
{
    match look_at(rivals, &rest) {
        Look::Taken(at) => {
            add_name(&mut search.names, rivals[at].name)?;
            Ok(None)
        }
        Look::Splits(at, e) => {
            push_parts(&mut search.rests, rest.region.divided(&e), at)?;
            Ok(None)
        }
        Look::Free => match rest.region.packet(alloc)? {
            Some(packet) => Ok(Some(packet)),
            None => {
                search.unreceived = Some(rest.region);
                Ok(None)
            }
        },
    }
}

impl State {
    // The state in which a search begins.
    fn begin(alloc: Global, regions: &[Region]) -> Result<State, AllocError>
        ensures rests { IfOk result (λ search. search.rests.items ≡ map (λ r. record { region = r; from = 0 }) regions.now) }
        ensures none { IfOk result (λ search. (search.names.items ≡ []) × (search.unreceived ≡ None)) }
    {
        let mut search = State {
            rests: Vec::new(alloc),
            names: Vec::new(alloc),
            unreceived: None,
        };
        push_all(&mut search.rests, regions)?;
        Ok(search)
    }

    // What is found when a search ends.
    fn ended(self) -> Found
        ensures left { ¬ (self.rests.items ≡ []) → result ≡ Undecided }
        ensures found { (start : List TheRegion) (rivals : List TheRival) (steps : ℕ) → IsState start rivals self.rests.items self.names.items self.unreceived →
            self.rests.items ≡ [] → IsFoundBySearch start rivals steps result }
    {
        let State {
            rests,
            names,
            unreceived,
        } = self;
        if !rests.is_empty() {
            return Found::Undecided;
        }
        match unreceived {
            Some(region) => Found::Unreceived(region),
            None => Found::Taken(names),
        }
    }
}

/// Searches for a packet of some regions that no rival matches, in so many steps at most.
///
/// A step drops a region of packets, if a rival matches all of it or no switch receives any of it, or divides it in two.
pub fn search_among(
    alloc: Global,
    regions: &[Region],
    rivals: &[Rival<'_>],
    steps: usize,
) -> Result<Found, AllocError>
    requires { (q : TheRival) → Contains rivals.now q → AreConditions q.fields.now }
    ensures { IfOk result (IsFoundBySearch regions.now rivals.now steps) }
{
    let mut search = State::begin(alloc, regions)?;
    for turn in 0..steps {
        let Some(rest) = search.rests.pop() else {
            return Ok(search.ended());
        };
        if let Some(packet) = step(alloc, rivals, &mut search, rest)? {
            return Ok(Found::Free(packet));
        }
    }
    Ok(search.ended())
}

/// Searches for a packet that a match matches and none of its rivals, in so many steps at most: the matches that go before it in a flow table
/// leave it such a packet, or not (OpenFlow 1.3.5, 5.3).
pub fn search(
    alloc: Global,
    own: &Match,
    rivals: &[Rival<'_>],
    steps: usize,
) -> Result<Found, AllocError>
    requires { (q : TheRival) → Contains rivals.now q → AreConditions q.fields.now }
    ensures { IfOk result (Finds own.now rivals.now steps) }
{
    let regions = regions_of(alloc, own)?;
    search_among(alloc, &regions, rivals, steps)
}
