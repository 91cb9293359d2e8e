//! The packets of regions on which conditions agree.
ghost use Rattle.std.specs.Prelude.{◌≡◌, ◌≢◌, ◌++◌, ℕ, Option, Some, None, IfOk, IfSome, OnOk, true, false};
ghost use Rattle.std.specs.List.{Contains, list_any};
ghost use Rattle.of_layers.specs.declared.field.Field.{Field as TheField};
ghost use Rattle.of_headers.specs.FieldMap.{value};
ghost use Rattle.of_oxm.specs.{declared.match_field.MatchField.MatchField as TheMatchField, Masks.mask_at, Relations.agrees, Relations.matches_map};
ghost use Rattle.of_regions.specs.{Conditions.AreConditions, Conditions.IsCondition, Narrowing.AreNarrowed, Narrowing.IsNarrowedBy, Narrowing.is_tag_field, Regions.InRegion, Regions.InOneRegion};

use crate::region::Region;
use crate::starting::push_some;
use of_headers::Field;
use of_oxm::{MatchField, bits_of};
use std::alloc::{AllocError, Global};

impl Region {
    // With what a condition says about a field that the packets have, of which these bits are known.
    fn with_bits(self, e: &MatchField, mask: u128, known: u128) -> Option<Region>
        requires condition { IsCondition e.now }
        requires mask { mask_at self.masks e.now.field ≡ Some mask }
        requires known { value self.known e.now.field ≡ Some known }
        ensures within { IfSome result (λ r. (map : TheField → Option ℕ) → InRegion r map → InRegion self map × (agrees e.now (map e.now.field) ≡ true)) }
        ensures all { (map : TheField → Option ℕ) → InRegion self map → agrees e.now (map e.now.field) ≡ true → InOneRegion result map }
        ensures same { IfSome result (λ r. (r.shape ≡ self.shape) × (r.tagging ≡ self.tagging)) }
    {
        let bits = bits_of(e);
        if e.value & mask == known & bits {
            return Some(self.learned(e.field, bits | mask, e.value | known));
        }
        None
    }

    // The packets with which a condition agrees, of a region that knows something of its field. None if there are none.
    fn with_condition(self, e: &MatchField) -> Option<Region>
        requires condition { IsCondition e.now }
        requires known { mask_at self.masks e.now.field ≢ None }
        ensures within { IfSome result (λ r. (map : TheField → Option ℕ) → InRegion r map → InRegion self map × (agrees e.now (map e.now.field) ≡ true)) }
        ensures all { (map : TheField → Option ℕ) → InRegion self map → agrees e.now (map e.now.field) ≡ true → InOneRegion result map }
        ensures same { IfSome result (λ r. (r.shape ≡ self.shape) × (r.tagging ≡ self.tagging)) }
    {
        match (self.masks.masks.get(e.field), self.known.get(e.field)) {
            (Some(mask), Some(known)) => self.with_bits(e, mask, known),
            (Some(_), None) => None,
            (None, _) => unreachable!(),
        }
    }

    // The packets with which all conditions agree. If one is about a tag, the tagging is known.
    fn with_conditions(self, fields: &[MatchField]) -> Option<Region>
        requires conditions { AreConditions fields.now }
        requires tags { self.tagging ≡ None → list_any is_tag_field fields.now ≡ false }
        ensures within { IfSome result (λ r. (map : TheField → Option ℕ) → InRegion r map → InRegion self map × (matches_map fields.now map ≡ true)) }
        ensures all { (map : TheField → Option ℕ) → InRegion self map → matches_map fields.now map ≡ true → InOneRegion result map }
    {
        let mut region = self;
        for e in fields {
            region = region.with_condition(e)?;
        }
        Some(region)
    }
}

fn is_tag_condition(e: &MatchField) -> bool
    ensures { result ≡ is_tag_field e.now }
{
    matches!(e.field, Field::VlanVid | Field::VlanPcp)
}

// Whether a condition is about a VLAN tag.
fn are_about_tags(fields: &[MatchField]) -> bool
    ensures { result ≡ list_any is_tag_field fields.now }
{
    fields.iter().any(is_tag_condition)
}

// Appends the packets of a region with which all conditions agree.
fn push_narrowed(
    out: &mut Vec<Region>,
    region: Region,
    fields: &[MatchField],
) -> Result<(), AllocError>
    requires { AreConditions fields.now }
    ensures { OnOk result (IsNarrowedBy fields.now region out.old.items out.new.items) }
{
    if region.tagging.is_none() && are_about_tags(fields) {
        push_some(out, region.tagged().with_conditions(fields))?;
        push_some(out, region.untagged().with_conditions(fields))?;
        return Ok(());
    }
    push_some(out, region.with_conditions(fields))?;
    Ok(())
}

/// The packets of regions with which all these conditions agree.
pub fn narrowed(
    alloc: Global,
    regions: &[Region],
    fields: &[MatchField],
) -> Result<Vec<Region>, AllocError>
    requires { AreConditions fields.now }
    ensures { IfOk result (λ new. AreNarrowed fields.now regions.now new.items) }
{
    let mut out = Vec::new(alloc);
    for region in regions {
        push_narrowed(&mut out, *region, fields)?;
    }
    Ok(out)
}
