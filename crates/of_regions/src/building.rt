//! The region of a match.
ghost use Rattle.std.specs.Prelude.{◌≡◌, ◌≤◌, ◌==◌, ℕ, Option, Some, None, IfNone, IfSome, if◌then◌else◌, true};
ghost use Rattle.of_layers.specs.{declared.field.Field.Field as TheField, declared.field.Field.TheVariants.VlanPcp, declared.field.Field.TheVariants.VlanVid};
ghost use Rattle.of_layers.specs.Fields.{all_fields, number_of, ones_of};
ghost use Rattle.of_headers.specs.FieldMap.{value, seen};
ghost use Rattle.of_oxm.specs.{Masks.looked_at, Masks.mask_at, Masks.value_of, Relations.matches_map};
ghost use Rattle.of_frames.specs.{Rules.HasShape, Rules.Obeys, declared.shape.Rule.TheVariants.Free};
ghost use Rattle.of_regions.specs.{Building.AreOthers, Building.IsBegunField, Building.IsUnknown, Building.bits_at, Joining.IsAsked, Joining.IsRule, Joining.Joined, Known.rule_in as rule_is};
ghost use Rattle.of_regions.specs.Regions.{HasTagging, InRegion, InOneRegion};

use crate::joining::{Bits, joined};
use crate::region::Region;
use of_frames::{Rule, Shape, Tagging};
use of_headers::{Field, FieldKey};
use of_oxm::{FieldMask, Match, key_of, mask_of, matched_is_seen};

/// What is known of each field so far.
#[derive(Clone, Copy)]
pub struct Fields {
    pub masks: FieldMask,
    pub known: FieldKey,
}

// What a shape and a tagging say about a field.
fn rule_in(shape: Shape, tagging: Option<Tagging>, field: Field) -> Rule
    ensures { result ≡ rule_is shape tagging field }
{
    match (field, tagging) {
        (Field::VlanVid | Field::VlanPcp, None) => Rule::Free,
        (Field::VlanVid | Field::VlanPcp, Some(tagging)) => tagging.rule(field),
        _ => shape.rule(field),
    }
}

// The same key with a value of one more field, if there is one.
fn put(key: FieldKey, field: Field, number: Option<u128>) -> FieldKey
    requires absent { value key field ≡ None }
    requires within { IfSome number (λ n. n ≤ ones_of field) }
    ensures { (f : TheField) → value result f ≡ (if number_of f == number_of field then number else value key f) }
{
    match number {
        None => key,
        Some(number) => key.with(field, number),
    }
}

impl Fields {
    // Nothing is known.
    fn empty() -> Fields
        ensures { ((f : TheField) → mask_at result.masks f ≡ None) × ((f : TheField) → value result.known f ≡ None) }
    {
        Fields {
            masks: FieldMask::empty(),
            known: FieldKey::empty(),
        }
    }

    // The same, with what is known of one more field.
    fn with(self, field: Field, bits: Bits) -> Fields
        requires unknown { IsUnknown self field }
        requires within { IfSome bits.mask (λ n. n ≤ ones_of field) × IfSome bits.known (λ n. n ≤ ones_of field) }
        ensures masks { (f : TheField) → mask_at result.masks f ≡ (if number_of f == number_of field then bits.mask else mask_at self.masks f) }
        ensures known { (f : TheField) → value result.known f ≡ (if number_of f == number_of field then bits.known else value self.known f) }
    {
        Fields {
            masks: FieldMask {
                masks: put(self.masks.masks, field, bits.mask),
            },
            known: put(self.known, field, bits.known),
        }
    }
}

// One more field of such packets, of which a match asks these bits under this mask. None if there are none.
fn begin(
    fields: Fields,
    rule: Rule,
    field: Field,
    mask: Option<u128>,
    asked: Option<u128>,
) -> Option<Fields>
    requires unknown { IsUnknown fields field }
    requires rule { IsRule (ones_of field) rule }
    requires asked { IsAsked (ones_of field) mask asked }
    requires free { rule ≡ Free → mask ≡ None }
    ensures joined { IfSome result (λ new. Joined (ones_of field) rule mask asked (bits_at new field)) }
    ensures others { IfSome result (AreOthers fields field) }
    ensures none { IfNone result ((o : Option ℕ) → seen mask o ≡ asked → Obeys rule o → ⊥) }
{
    let bits = joined(rule, mask, asked, field.row().ones)?;
    Some(fields.with(field, bits))
}

// Each field once.
fn every_field() -> &'static [Field]
    ensures { result.now ≡ all_fields }
{
    &Field::ALL
}

// What is known of packets of a shape and a tagging that a match matches. None if there are none.
fn begun(shape: Shape, tagging: Option<Tagging>, m: &Match) -> Option<Fields>
    requires tags { tagging ≡ None → (looked_at m.now VlanVid ≡ None) × (looked_at m.now VlanPcp ≡ None) }
    ensures some { IfSome result (λ fields. (f : TheField) → IsBegunField shape tagging m.now fields f) }
    ensures none { IfNone result ((map : TheField → Option ℕ) → matches_map m.now map ≡ true → HasShape shape map → HasTagging tagging map → ⊥) }
{
    m.known();
    matched_is_seen();
    let (masks, asked) = (mask_of(m).masks, key_of(m));
    let mut fields = Fields::empty();
    for field in every_field() {
        let rule = rule_in(shape, tagging, *field);
        match begin(fields, rule, *field, masks.get(*field), asked.get(*field)) {
            None => return None,
            Some(next) => fields = next,
        }
    }
    Some(fields)
}

impl Region {
    /// The packets of a shape that a match matches, those with a tag or those without. None if there are none.
    ///
    /// No tagging stands for both, if the match does not look at tags.
    pub fn of_match(shape: Shape, tagging: Option<Tagging>, m: &Match) -> Option<Region>
        requires tags { tagging ≡ None → (looked_at m.now VlanVid ≡ None) × (looked_at m.now VlanPcp ≡ None) }
        ensures is { IfSome result (λ r. (r.shape ≡ shape) × (r.tagging ≡ tagging)) }
        ensures matched { IfSome result (λ r. (map : TheField → Option ℕ) → InRegion r map → matches_map m.now map ≡ true) }
        ensures all { (map : TheField → Option ℕ) → matches_map m.now map ≡ true → HasShape shape map → HasTagging tagging map → InOneRegion result map }
    {
        m.known();
        matched_is_seen();
        let Fields { masks, known } = begun(shape, tagging, m)?;
        Some(Region {
            shape,
            tagging,
            masks,
            known,
        })
    }
}
