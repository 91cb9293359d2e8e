//! What a match does with a region.
ghost use Rattle.std.specs.{Prelude.◌≡◌, Prelude.find, Prelude.not, List.list_any};
ghost use Rattle.of_headers.specs.FieldMap.{value};
ghost use Rattle.of_oxm.specs.Masks.{mask_at};
ghost use Rattle.of_regions.specs.Meeting.{Meets, is_apart as apart, is_settled as settled};

use crate::region::Region;
use of_oxm::{MatchField, bits_of};

/// What a match does with a region.
#[derive(Clone, Copy)]
pub enum Meeting {
    /// It matches none of its packets.
    Apart,
    /// It matches all of them.
    Whole,
    /// It may match some of them: this is the first of its fields that looks at a bit that is not known.
    Crosses(MatchField),
}

// Whether a field of a match agrees with all of the region.
fn is_settled(region: &Region, e: &MatchField) -> bool
    ensures { result ≡ settled e.now (mask_at region.now.masks e.now.field) (value region.now.known e.now.field) }
{
    match (region.masks.masks.get(e.field), region.known.get(e.field)) {
        (Some(mask), Some(known)) => bits_of(e) & mask == bits_of(e)
            && known & bits_of(e) == e.value,
        _ => false,
    }
}

/// Whether a field of a match agrees with none of the region.
pub fn is_apart(region: &Region, e: &MatchField) -> bool
    ensures { result ≡ apart e.now (mask_at region.now.masks e.now.field) (value region.now.known e.now.field) }
{
    match (region.masks.masks.get(e.field), region.known.get(e.field)) {
        (None, _) => false,
        (Some(_), None) => true,
        (Some(mask), Some(known)) => !(known & bits_of(e) == e.value & mask),
    }
}

fn any_apart(region: &Region, fields: &[MatchField]) -> bool
    ensures { result ≡ list_any (λ e. apart e (mask_at region.now.masks e.field) (value region.now.known e.field)) fields.now }
{
    fields.iter().any(|e| is_apart(region, e))
}

fn first_unsettled(region: &Region, fields: &[MatchField]) -> Option<MatchField>
    ensures { result ≡ find (λ e. not (settled e (mask_at region.now.masks e.field) (value region.now.known e.field))) fields.now }
{
    fields.iter().copied().find(|e| !is_settled(region, e))
}

impl Region {
    /// What a match does with the region (OpenFlow 1.3.5, 5.3).
    pub fn meet(&self, fields: &[MatchField]) -> Meeting
        ensures { Meets self.now fields.now result }
    {
        if any_apart(self, fields) {
            return Meeting::Apart;
        }
        match first_unsettled(self, fields) {
            None => Meeting::Whole,
            Some(e) => Meeting::Crosses(e),
        }
    }
}
