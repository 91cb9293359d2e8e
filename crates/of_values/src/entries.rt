//! Flow entries in words.
ghost use Rattle.std.specs.{Prelude.◌≡◌, Prelude.◌++◌, Prelude.OnOk, List.flat_map};
ghost use Rattle.of_values.specs.Entries.{entry_words, field_words, further_field, match_words};

use crate::digits::push_decimal;
use crate::values::push_value_words;
use of_oxm::MatchField;
use std::alloc::AllocError;

/// Appends a field of a match: its name and its value.
#[tactic(auto, unfolding(crate::specs::Entries::field_words))]
pub fn push_field_words(out: &mut Vec<u8>, e: &MatchField) -> Result<(), AllocError>
    ensures { OnOk result (out.new.items ≡ out.old.items ++ field_words e.now) }
{
    out.extend_from_slice(e.field.name())?;
    out.push(b' ')?;
    push_value_words(out, e.field, e.value, e.mask)
}

fn push_further_field(out: &mut Vec<u8>, e: &MatchField) -> Result<(), AllocError>
    ensures { OnOk result (out.new.items ≡ out.old.items ++ further_field e.now) }
{
    out.extend_from_slice(b", ")?;
    push_field_words(out, e)
}

fn push_fields(out: &mut Vec<u8>, fields: &[MatchField]) -> Result<(), AllocError>
    ensures { OnOk result (out.new.items ≡ out.old.items ++ flat_map further_field fields.now) }
{
    for e in fields {
        push_further_field(out, e)?;
    }
    Ok(())
}

#[tactic(auto, unfolding(crate::specs::Entries::match_words))]
fn push_match(out: &mut Vec<u8>, fields: &[MatchField]) -> Result<(), AllocError>
    ensures { OnOk result (out.new.items ≡ out.old.items ++ match_words fields.now) }
{
    match fields {
        [] => out.extend_from_slice(b", any packet"),
        _ => push_fields(out, fields),
    }
}

/// Appends a flow entry: its priority and its match (OpenFlow 1.3.5, 5.2).
#[tactic(auto, unfolding(crate::specs::Entries::entry_words))]
pub fn push_entry_words(
    out: &mut Vec<u8>,
    priority: u16,
    fields: &[MatchField],
) -> Result<(), AllocError>
    ensures { OnOk result (out.new.items ≡ out.old.items ++ entry_words priority fields.now) }
{
    out.extend_from_slice(b"priority ")?;
    push_decimal(out, u128::from(priority))?;
    push_match(out, fields)
}
