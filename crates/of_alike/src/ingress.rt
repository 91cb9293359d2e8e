//! Whether frames of a set came in by a port.
ghost use Rattle.std.specs.Prelude.{◌≡◌, ◌∷◌, ℕ, List, [], true};
ghost use Rattle.std.specs.List.{All};
ghost use Rattle.of_regions.specs.{declared.meeting.Meeting.TheVariants.Apart, declared.meeting.Meeting.TheVariants.Whole, Meeting.Meets};
ghost use Rattle.of_symbolic_run.specs.FrameSets.{InFrames};
ghost use Rattle.of_alike.specs.IngressPorts.{HasNoneFrom, MatchesAllFrom};

use of_headers::Field;
use of_oxm::MatchField;
use of_regions::{Meeting, Region};
use of_symbolic_run::{FrameSet, ingress_condition};

// Whether a condition matches no packet of the region.
fn never_matches(region: &Region, condition: MatchField) -> bool
    ensures { result ≡ true → Meets region.now (condition ∷ []) Apart }
{
    matches!(region.meet(&[condition]), Meeting::Apart)
}

// Whether it matches each of them.
fn always_matches(region: &Region, condition: MatchField) -> bool
    ensures { result ≡ true → Meets region.now (condition ∷ []) Whole }
{
    matches!(region.meet(&[condition]), Meeting::Whole)
}

// Whether a condition matches each packet of the region that came in by this port.
fn matches_all_from(region: &Region, port: u32, condition: &MatchField) -> bool
    ensures { result ≡ true → MatchesAllFrom region.now port condition.now }
{
    match condition.field {
        Field::InPort => {
            let bits = condition.mask.unwrap_or(condition.field.row().ones);
            u128::from(port) & bits == condition.value
        }
        _ => always_matches(region, *condition),
    }
}

// Whether all of the conditions do.
fn match_all_from(region: &Region, port: u32, conditions: &[MatchField]) -> bool
    ensures { result ≡ true → All (MatchesAllFrom region.now port) conditions.now }
{
    for condition in conditions {
        if !matches_all_from(region, port, condition) {
            return false;
        }
    }
    true
}

// Whether one of the lists matches each packet of the region that came in by this port.
fn list_matches_all_from(region: &Region, port: u32, lacks: &[Vec<MatchField>]) -> bool
    ensures { result ≡ true → HasNoneFrom lacks.now port region.now }
{
    for index in 0..lacks.len() {
        if match_all_from(region, port, &lacks[index]) {
            return true;
        }
    }
    false
}

// Whether no packet of the region that none of the lists matches came in by this port: none of the region did, or a list matches all that did.
fn region_has_none_from(region: &Region, port: u32, lacks: &[Vec<MatchField>]) -> bool
    ensures { result ≡ true → HasNoneFrom lacks.now port region.now }
{
    never_matches(region, ingress_condition(port)) || list_matches_all_from(region, port, lacks)
}

// Whether this is so of each of the regions.
fn regions_have_none_from(regions: &[Region], port: u32, lacks: &[Vec<MatchField>]) -> bool
    ensures { result ≡ true → All (HasNoneFrom lacks.now port) regions.now }
{
    for region in regions {
        if !region_has_none_from(region, port, lacks) {
            return false;
        }
    }
    true
}

/// Whether no frame of the set came in by this port. It is not always seen that there is none.
pub fn has_none_from(frames: &FrameSet, port: u32) -> bool
    ensures { result ≡ true → (frame : List ℕ) → InFrames frames.now frame port → ⊥ }
{
    regions_have_none_from(&frames.part.regions, port, &frames.part.lacks)
}
