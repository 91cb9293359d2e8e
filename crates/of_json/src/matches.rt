//! Matches.
ghost use Rattle.std.specs.Prelude.{◌≡◌, ◌++◌, OnOk};
ghost use Rattle.of_json.specs.Parts.{match_member, match_object};

use crate::listing::push_listed;
use crate::parts::push_key;
use of_oxm::MatchField;
use of_values::push_value_words;
use std::alloc::AllocError;

#[tactic(auto, unfolding(crate::specs::Parts::match_member))]
fn push_match(out: &mut Vec<u8>, e: &MatchField) -> Result<(), AllocError>
    ensures { OnOk result (out.new.items ≡ out.old.items ++ match_member e.now) }
{
    push_key(out, e.field.name())?;
    out.push(b'"')?;
    push_value_words(out, e.field, e.value, e.mask)?;
    out.push(b'"')?;
    Ok(())
}

/// Appends a match, as an object.
#[tactic(auto, unfolding(crate::specs::Parts::match_object))]
pub fn push_match_object(out: &mut Vec<u8>, fields: &[MatchField]) -> Result<(), AllocError>
    ensures { OnOk result (out.new.items ≡ out.old.items ++ match_object fields.now) }
{
    out.push(b'{')?;
    push_listed(out, fields, push_match)?;
    out.push(b'}')?;
    Ok(())
}
