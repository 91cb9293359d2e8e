//! What a match looks at, as a mask for each field, and keys under it.

ghost use Rattle.std.specs.Prelude.{◌≡◌, ◌↔◌, ℕ, List, Option, None, true};
ghost use Rattle.std.specs.List.{AllByRecursion};
ghost use Rattle.of_layers.specs.declared.field.Field.{Field};
ghost use Rattle.of_headers.specs.FieldMap.{value, seen, either};
ghost use Rattle.of_oxm.specs.{declared.match_field.MatchField.MatchField, NormalForm.IsKept, NormalForm.IsAscending, NormalForm.IsMatch, Relations.matches_map};
ghost use Rattle.of_oxm.specs.Masks.{looked_at, value_of, mask_at, Agree};

use crate::flow_match::Match;
use crate::match_field::MatchField;
use crate::relations::bits_of;
use of_headers::FieldKey;

/// For each field a mask, or none where the field is not looked at.
#[derive(Clone, Copy, PartialEq, Eq, Hash)]
pub struct FieldMask {
    pub masks: FieldKey,
}

impl FieldMask {
    /// What is seen of a key under the masks: of a field with a mask, the bits under it; no other field.
    pub fn masked(&self, key: &FieldKey) -> FieldKey
        ensures { (f : Field) → value result f ≡ seen (mask_at self.now f) (value key.now f) }
    {
        key.under(&self.masks)
    }

    /// No field is looked at.
    pub fn empty() -> FieldMask
        ensures { (f : Field) → mask_at result f ≡ None }
    {
        FieldMask {
            masks: FieldKey::empty(),
        }
    }

    /// The bits that one or both masks look at.
    pub fn or(&self, other: &FieldMask) -> FieldMask
        ensures { (f : Field) → mask_at result f ≡ either (mask_at self.now f) (mask_at other.now f) }
    {
        FieldMask {
            masks: self.masks.or(&other.masks),
        }
    }
}

fn masks_in(fields: &[MatchField]) -> FieldKey
    requires each { AllByRecursion IsKept fields.now }
    requires rising { IsAscending fields.now }
    ensures { (f : Field) → value result f ≡ looked_at fields.now f }
{
    let mut masks = FieldKey::empty();
    for e in fields {
        masks.put(e.field, bits_of(e));
    }
    masks
}

fn values_in(fields: &[MatchField]) -> FieldKey
    requires each { AllByRecursion IsKept fields.now }
    requires rising { IsAscending fields.now }
    ensures { (f : Field) → value result f ≡ value_of fields.now f }
{
    let mut values = FieldKey::empty();
    for e in fields {
        values.put(e.field, e.value);
    }
    values
}

/// The bits that a match looks at, in each field (OpenFlow 1.3.5, 7.2.3.5).
pub fn mask_of(m: &Match) -> FieldMask
    ensures { (f : Field) → mask_at result f ≡ looked_at m.now f }
{
    FieldMask {
        masks: masks_in(&m.fields),
    }
}

/// The values that a match asks for: what a key that it matches is under `mask_of`.
pub fn key_of(m: &Match) -> FieldKey
    ensures { (f : Field) → value result f ≡ value_of m.now f }
{
    values_in(&m.fields)
}

/// A match tells no two field maps apart that agree in all the bits that it looks at.
pub fn agreeing_match_alike()
    ensures { (m : List MatchField) (j k : Field → Option ℕ) →
        IsMatch m → Agree (looked_at m) j k → matches_map m j ≡ matches_map m k }
{}

/// A match matches a field map exactly where what is seen of the map under the match's mask is the match's values.
pub fn matched_is_seen()
    ensures { (m : List MatchField) (k : Field → Option ℕ) →
        IsMatch m → (matches_map m k ≡ true) ↔ ((f : Field) → seen (looked_at m f) (k f) ≡ value_of m f) }
{}
