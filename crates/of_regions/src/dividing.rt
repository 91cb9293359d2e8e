//! Regions in two parts.
ghost use Rattle.std.specs.Prelude.{◌≡◌, ◌<◌, ◌==◌, ◌⊎◌, ℕ, Option, Some, None, if◌then◌else◌, true};
ghost use Rattle.of_layers.specs.{declared.field.Field.Field as TheField, Fields.number_of, Fields.ones_of, declared.field.Field.TheVariants.VlanVid};
ghost use Rattle.of_headers.specs.FieldMap.{seen, value};
ghost use Rattle.of_frames.specs.{declared.shape.Tagging.TheVariants.Tagged, declared.shape.Tagging.TheVariants.Untagged, Rules.IsTagging};
ghost use Rattle.of_oxm.specs.Masks.{mask_at};
ghost use Rattle.of_regions.specs.Dividing.{AreDividedBy, AreWithout, IsBitOf, IsByBit, IsByTag};
ghost use Rattle.of_regions.specs.{Conditions.IsCondition, Known.is_known_by, Known.rule_in, Meeting.IsCrossed, Regions.AreParts, Regions.InRegion, Regions.IsEither};

use crate::meeting::is_apart;
use crate::region::Region;
use of_frames::Tagging;
use of_headers::{Field, FieldKey};
use of_oxm::{FieldMask, MatchField, bits_of};

// These bits without those of a mask.
pub fn without(bits: u128, mask: u128) -> u128
    ensures { AreWithout bits mask result }
{
    bits ^ (bits & mask)
}

// One of these bits: the highest, if the field may have a mask, such as that of a prefix; else the lowest.
fn one_of(field: Field, bits: u128) -> u128
    requires { 0 < bits }
    ensures { IsBitOf bits result }
{
    if field.row().maskable {
        return highest(bits);
    }
    lowest(bits)
}

fn highest(bits: u128) -> u128
    requires { 0 < bits }
    ensures { IsBitOf bits result }
{
    1 << bits.ilog2()
}

pub fn lowest(bits: u128) -> u128
    requires { 0 < bits }
    ensures { IsBitOf bits result }
{
    1 << bits.trailing_zeros()
}

impl Region {
    // The same, with these bits of a field that has it.
    pub fn learned(self, field: Field, mask: u128, known: u128) -> Region
        requires { is_known_by (ones_of field) (rule_in self.shape self.tagging field) (Some mask) (Some known) ≡ true }
        ensures masks { (f : TheField) → mask_at result.masks f ≡ (if number_of f == number_of field then Some mask else mask_at self.masks f) }
        ensures known { (f : TheField) → value result.known f ≡ (if number_of f == number_of field then Some known else value self.known f) }
        ensures same { (result.shape ≡ self.shape) × (result.tagging ≡ self.tagging) }
    {
        Region {
            shape: self.shape,
            tagging: self.tagging,
            masks: FieldMask {
                masks: self.masks.masks.with(field, mask),
            },
            known: self.known.with(field, known),
        }
    }

    // Those whose field has a bit, and those whose field lacks it.
    fn by_bit(self, e: &MatchField, mask: u128, known: u128) -> (Region, Region)
        requires condition { IsCondition e.now }
        requires crossed { IsCrossed self e.now }
        requires mask { mask_at self.masks e.now.field ≡ Some mask }
        requires known { value self.known e.now.field ≡ Some known }
        ensures within { (map : TheField → Option ℕ) → InRegion result.0 map ⊎ InRegion result.1 map → InRegion self map }
        ensures all { (map : TheField → Option ℕ) → InRegion self map → InRegion result.0 map ⊎ InRegion result.1 map }
        ensures apart { (map : TheField → Option ℕ) → InRegion result.0 map → InRegion result.1 map → ⊥ }
        ensures bit { IsByBit e.now result.0 result.1 }
    {
        let bit = one_of(e.field, without(bits_of(e), mask));
        (
            self.learned(e.field, mask | bit, known | bit),
            self.learned(e.field, mask | bit, known),
        )
    }

    // Those without a tag (OpenFlow 1.3.5, 7.2.3.7: VLAN_VID is OFPVID_NONE).
    pub fn untagged(self) -> Region
        requires { self.tagging ≡ None }
        ensures within { (map : TheField → Option ℕ) → InRegion result map → InRegion self map }
        ensures all { (map : TheField → Option ℕ) → IsTagging Untagged map → InRegion self map → InRegion result map }
        ensures vid { (map : TheField → Option ℕ) → InRegion result map → seen (Some 0x1fff) (map VlanVid) ≡ Some 0 }
        ensures known { result.tagging ≡ Some Untagged }
    {
        Region {
            shape: self.shape,
            tagging: Some(Tagging::Untagged),
            masks: FieldMask {
                masks: self
                    .masks
                    .masks
                    .with(Field::VlanVid, 0x1fff)
                    .with(Field::VlanPcp, 0),
            },
            known: self.known.with(Field::VlanVid, 0),
        }
    }

    // Those with a tag (7.2.3.7: VLAN_VID has the bit OFPVID_PRESENT).
    pub fn tagged(self) -> Region
        requires { self.tagging ≡ None }
        ensures within { (map : TheField → Option ℕ) → InRegion result map → InRegion self map }
        ensures all { (map : TheField → Option ℕ) → IsTagging Tagged map → InRegion self map → InRegion result map }
        ensures vid { (map : TheField → Option ℕ) → InRegion result map → seen (Some 0x1000) (map VlanVid) ≡ Some 0x1000 }
        ensures known { result.tagging ≡ Some Tagged }
    {
        Region {
            shape: self.shape,
            tagging: Some(Tagging::Tagged),
            masks: FieldMask {
                masks: self
                    .masks
                    .masks
                    .with(Field::VlanVid, 0x1000)
                    .with(Field::VlanPcp, 0),
            },
            known: self
                .known
                .with(Field::VlanVid, 0x1000)
                .with(Field::VlanPcp, 0),
        }
    }

    // Two parts, or the same the other way round.
    fn in_order(as_given: bool, first: Region, second: Region) -> (Region, Region)
        ensures { IsEither first second result.0 result.1 }
    {
        if as_given {
            (first, second)
        } else {
            (second, first)
        }
    }

    // Those with a tag and those without.
    fn by_tag(self, tagged_first: bool) -> (Region, Region)
        requires { self.tagging ≡ None }
        ensures parts { AreParts self result.0 result.1 }
        ensures tag { IsByTag result.0 result.1 ⊎ IsByTag result.1 result.0 }
    {
        Region::in_order(tagged_first, self.tagged(), self.untagged())
    }

    /// Two parts by a bit that a field of a match looks at and that is not known, or by the tag, if nothing is known of the field: each packet is in
    /// one of them (if it is one with a tag or without), and none is in both. The match agrees less with the second.
    pub fn divided(self, e: &MatchField) -> (Region, Region)
        requires condition { IsCondition e.now }
        requires crossed { IsCrossed self e.now }
        ensures { AreDividedBy e.now self result.0 result.1 }
    {
        match (self.masks.masks.get(e.field), self.known.get(e.field)) {
            (None, _) => self.by_tag(e.field != Field::VlanVid || e.value != 0),
            (Some(_), None) => unreachable!(),
            (Some(mask), Some(known)) => {
                let (with, without) = self.by_bit(e, mask, known);
                Region::in_order(is_apart(&without, e), with, without)
            }
        }
    }
}
