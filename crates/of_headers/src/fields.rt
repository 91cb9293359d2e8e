//! Keys as field maps: one field read, one field added, all fields under a mask.

ghost use Rattle.std.specs.Prelude.{◌≡◌, ◌≤◌, ◌^◌, ◌==◌, ℕ, if◌then◌else◌, Some, None, IsTrue};
ghost use Rattle.of_layers.specs.{Layers.Layers, declared.field.Field.Field as TheField, Fields.number_of, Fields.ones_of};
ghost use Rattle.of_headers.specs.FieldMap.{value, field_map, seen, either};

use crate::key::FieldKey;
use crate::numbers::Numbers;
use crate::seeing::are_seen;
use of_layers::Field;

/// The bit of a field in a word of presence.
#[tactic(auto, unfolding(of_layers::specs::Fields::row_of))]
fn bit(field: Field) -> u32
    ensures { result ≡ 2 ^ number_of field }
{
    1 << (field as u32)
}

impl FieldKey {
    /// The key without fields.
    #[tactic(auto, unfolding(crate::specs::FieldMap::value))]
    pub fn empty() -> FieldKey
        ensures { (f : TheField) → value result f ≡ None }
    {
        FieldKey {
            numbers: Numbers::ZERO,
        }
    }

    /// The value of a field, or `None` where the key lacks it.
    pub fn get(&self, field: Field) -> Option<u128>
        ensures { result ≡ value self.now field }
    {
        if self.numbers.present & bit(field) == 0 {
            return None;
        }
        Some(self.numbers.get(field))
    }

    /// The key with one more field, or with another value of it.
    pub fn with(self, field: Field, number: u128) -> FieldKey
        requires { number ≤ ones_of field }
        ensures { (f : TheField) → value result f ≡ (if number_of f == number_of field then Some number else value self f) }
    {
        let mut numbers = self.numbers;
        numbers.present |= bit(field);
        numbers.set(field, number);
        FieldKey { numbers }
    }

    /// Puts one more field into the key, or another value of it.
    pub fn put(&mut self, field: Field, number: u128)
        requires { number ≤ ones_of field }
        ensures { (f : TheField) → value self.new f ≡ (if number_of f == number_of field then Some number else value self.old f) }
    {
        self.numbers.present |= bit(field);
        self.numbers.set(field, number);
    }

    /// The key of the same frame at this port, with this metadata.
    #[tactic(auto, unfolding(of_layers::specs::Fields::row_of))]
    pub fn received(self, in_port: u32, metadata: u64) -> FieldKey
        ensures { (l : Layers) (port seen_before : ℕ) → value self ≡ field_map l port seen_before → value result ≡ field_map l in_port metadata }
    {
        self.with(Field::InPort, u128::from(in_port))
            .with(Field::Metadata, u128::from(metadata))
    }

    /// What is seen of the key under a mask for each field: a field without a mask is ignored, and is absent.
    pub fn under(&self, mask: &FieldKey) -> FieldKey
        ensures { (f : TheField) → value result f ≡ seen (value mask.now f) (value self.now f) }
    {
        FieldKey {
            numbers: self.numbers.both(&mask.numbers),
        }
    }

    /// Whether this is what is seen of a key under a mask, which is not made for that ([`FieldKey::under`]).
    pub fn is_under(&self, key: &FieldKey, mask: &FieldKey) -> bool
        ensures { IsTrue result → (f : TheField) → value self.now f ≡ seen (value mask.now f) (value key.now f) }
    {
        are_seen(&self.numbers, &key.numbers, &mask.numbers)
    }

    /// The fields of both keys: of a field that both have, the bits that one or both values have.
    pub fn or(&self, other: &FieldKey) -> FieldKey
        ensures { (f : TheField) → value result f ≡ either (value self.now f) (value other.now f) }
    {
        FieldKey {
            numbers: self.numbers.either(&other.numbers),
        }
    }
}

/// Keys with the same fields are the same.
pub fn same_fields()
    ensures { (j k : FieldKey) → ((f : TheField) → value j f ≡ value k f) → j ≡ k }
{}
