//! What a match matches, covers and overlaps.

ghost use Rattle.std.specs.Prelude.{◌≡◌, ℕ, List, Option, true};
ghost use Rattle.std.specs.{List.list_any, List.list_all, Option.option_copied};
ghost use Rattle.of_headers.specs.FieldMap.{value};
ghost use Rattle.of_oxm.specs.Relations.{bits_looked_at, agrees as agrees_with, first_difference as first_missed, is_within as within, can_both as both_can, IsWithinBits, matches_map, covers_match, overlaps_match};
ghost use Rattle.of_oxm.specs.{NormalForm.IsMatch, NormalForm.normal, Meaning.are_met, Prerequisites.is_met, declared.match_field.MatchField.MatchField};
ghost use Rattle.of_layers.specs.{declared.field.Field.Field, declared.field.Prerequisite.Prerequisite};

use crate::flow_match::Match;
use crate::match_field::MatchField;
use of_headers::FieldKey;

/// The bits that a field of a match looks at: those of its mask, or all of the field.
pub fn bits_of(e: &MatchField) -> u128
    ensures { result ≡ bits_looked_at e.now }
{
    match e.mask {
        Some(mask) => mask,
        None => e.field.row().ones,
    }
}

/// Whether a field of a match agrees with a value, or with its absence.
pub fn agrees(e: &MatchField, value: Option<u128>) -> bool
    ensures { result ≡ agrees_with e.now value }
{
    match value {
        None => false,
        Some(value) => value & bits_of(e) == e.value,
    }
}

/// The first field that does not agree with that of a packet.
pub fn first_difference<'a>(fields: &'a [MatchField], key: &FieldKey) -> Option<&'a MatchField>
    ensures { option_copied result ≡ first_missed fields.now (value key.now) }
{
    fields.iter().find(|e| !agrees(e, key.get(e.field)))
}

fn is_within(x: &MatchField, y: &MatchField) -> bool
    ensures { result ≡ within x.now y.now }
{
    let bits = bits_of(x);
    y.field.number() == x.field.number() && bits & bits_of(y) == bits && y.value & bits == x.value
}

fn can_both(x: &MatchField, y: &MatchField) -> bool
    ensures { result ≡ both_can x.now y.now }
{
    !(y.field.number() == x.field.number()) || y.value & bits_of(x) == x.value & bits_of(y)
}

fn has_within(x: &MatchField, fields: &[MatchField]) -> bool
    ensures { result ≡ list_any (λ y. within x.now y) fields.now }
{
    fields.iter().any(|y| is_within(x, y))
}

fn can_all(x: &MatchField, fields: &[MatchField]) -> bool
    ensures { result ≡ list_all (λ y. both_can x.now y) fields.now }
{
    fields.iter().all(|y| can_both(x, y))
}

fn fields_match(fields: &[MatchField], key: &FieldKey) -> bool
    ensures { result ≡ matches_map fields.now (value key.now) }
{
    fields.iter().all(|e| agrees(e, key.get(e.field)))
}

fn fields_cover(d: &[MatchField], m: &[MatchField]) -> bool
    ensures { result ≡ covers_match d.now m.now }
{
    d.iter().all(|x| has_within(x, m))
}

fn fields_overlap(m: &[MatchField], n: &[MatchField]) -> bool
    ensures { result ≡ overlaps_match m.now n.now }
{
    m.iter().all(|x| can_all(x, n))
}

/// Whether a frame of this key is matched: it has each field of the match, and agrees with its value under its mask (OpenFlow 1.3.5, 5.3).
pub fn matches(m: &Match, key: &FieldKey) -> bool
    ensures { result ≡ matches_map m.now (value key.now) }
{
    fields_match(&m.fields, key)
}

/// Whether the first match covers the second: each field of the first is in the second, with at least its mask and the same bits under it (OpenFlow 1.3.5, 6.4).
pub fn covers(d: &Match, m: &Match) -> bool
    ensures { result ≡ covers_match d.now m.now }
{
    fields_cover(&d.fields, &m.fields)
}

/// Whether two matches overlap: where both look at a field, their values agree under both masks (OpenFlow 1.3.5, 6.4).
pub fn overlaps(m: &Match, n: &Match) -> bool
    ensures { result ≡ overlaps_match m.now n.now }
{
    fields_overlap(&m.fields, &n.fields)
}

/// What a match covers, it matches wherever the covered one does.
pub fn covered_is_matched()
    ensures { (d m : List MatchField) (map : Field → Option ℕ) →
        covers_match d m ≡ true → matches_map m map ≡ true → matches_map d map ≡ true }
{}

/// What is matched wherever another match matches covers it, so that `covers` returns true wherever it may.
pub fn matched_is_covered()
    ensures { (d m : List MatchField) → IsMatch d → IsMatch m →
        ((map : Field → Option ℕ) → IsWithinBits map → matches_map m map ≡ true → matches_map d map ≡ true) → covers_match d m ≡ true }
{}

/// What a match covers has what the match has of the prerequisites of a field (OpenFlow 1.3.5, 7.2.3.6).
pub fn covered_has_prerequisites()
    ensures { (d m : List MatchField) (need : Prerequisite) → IsMatch d → IsMatch m →
        covers_match d m ≡ true → is_met d need ≡ true → is_met m need ≡ true }
{}

/// The normal form of a match matches what each of its fields agrees with as it was encoded, a mask of zeros agreeing with anything (OpenFlow 1.3.5, 7.2.3.5).
pub fn normal_form_is_meant()
    ensures { (fields : List MatchField) (map : Field → Option ℕ) → matches_map (normal fields) map ≡ are_met fields map }
{}

/// Two matches overlap exactly where some field map is matched by both.
pub fn overlap_is_common_match()
    ensures common { (m n : List MatchField) → IsMatch m → IsMatch n → overlaps_match m n ≡ true →
        (map : Field → Option ℕ) × IsWithinBits map × (matches_map m map ≡ true) × (matches_map n map ≡ true) }
    ensures overlap { (m n : List MatchField) (map : Field → Option ℕ) →
        matches_map m map ≡ true → matches_map n map ≡ true → overlaps_match m n ≡ true }
{}
