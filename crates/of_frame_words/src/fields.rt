//! Fields that are those of a match.
ghost use Rattle.std.specs.Prelude.{◌≡◌, ℕ, length, IsTrue, IfSome, IfNone, Option, false, nat_lt};
ghost use Rattle.std.specs.List.{list_all};
ghost use Rattle.of_layers.specs.Fields.{number_of};
ghost use Rattle.of_frame_words.specs.Fields.{rises_by_number as is_ascending_by, is_kept as is_kept_by, is_kept_mask as is_kept_mask_by, is_match};

use of_layers::Field;
use of_oxm::{Match, MatchField, prerequisites_met};

fn is_kept_mask(field: Field, value: u128, mask: Option<u128>) -> bool
    ensures { result ≡ is_kept_mask_by field value mask }
{
    let row = field.row();
    match mask {
        None => true,
        Some(mask) => {
            row.maskable
                && 0 < mask
                && mask < row.ones
                && mask & row.ones == mask
                && value & mask == value
        }
    }
}

fn is_kept(e: &MatchField) -> bool
    ensures { result ≡ is_kept_by e.now }
{
    e.value <= e.field.row().ones && is_kept_mask(e.field, e.value, e.mask)
}

// Whether the field has a lower number than each of these.
fn is_first(e: &MatchField, others: &[MatchField]) -> bool
    ensures { result ≡ list_all (λ x. nat_lt (number_of e.now.field) (number_of x.field)) others.now }
{
    others
        .iter()
        .all(|other| e.field.number() < other.field.number())
}

fn is_ascending(fields: &[MatchField]) -> bool
    ensures { result ≡ is_ascending_by fields.now }
{
    match fields {
        [] => true,
        [e, others @ ..] => is_first(e, others) && is_ascending(others),
    }
}

fn are_kept(fields: &[MatchField]) -> bool
    ensures { result ≡ list_all is_kept_by fields.now }
{
    fields.iter().all(is_kept)
}

/// The match of these fields, if a flow may have it as it stands (OpenFlow 1.3.5, 7.2.3.5 and 7.2.3.6).
pub fn match_of(fields: Vec<MatchField>) -> Option<Match>
    ensures some { IfSome result (λ m. (m ≡ fields.items) × IsTrue (is_match fields.items)) }
    ensures none { IfNone result (is_match fields.items ≡ false) }
{
    if are_kept(&fields) && is_ascending(&fields) && prerequisites_met(&fields) {
        Some(Match::new(fields))
    } else {
        None
    }
}
