//! Conditions on frames, in words.
ghost use Rattle.std.specs.Prelude.{◌≡◌, IfOk, IfErr, Ok, find, not};
ghost use Rattle.std.specs.Option.{option_copied};
ghost use Rattle.of_regions.specs.Conditions.{AreConditions};
ghost use Rattle.of_frame_words.specs.Conditions.{conditions_in_words, fit_fields, is_fit_beside, is_proper as is_proper_field, why_unfit as why_unfit_so};
ghost use Rattle.of_frame_words.specs.Refusals.{FrameStops};

use crate::said::why_missing;
use crate::why::{NoFrame, Why, refuse};
use crate::words::add_words;
use of_ovs_words::{fields_of, text_for};
use of_oxm::{MatchField, is_met};
use std::alloc::Global;

fn is_proper(e: &MatchField) -> bool
    ensures { result ≡ is_proper_field e.now }
{
    let row = e.field.row();
    let looked = e.mask.unwrap_or(row.ones);
    looked & row.ones == looked
        && e.value & looked == e.value
        && (row.maskable || looked == row.ones)
}

// Whether a match may have a field beside the others.
fn is_fit(fields: &[MatchField], e: &MatchField) -> bool
    ensures { result ≡ is_fit_beside fields.now e.now }
{
    is_proper(e) && is_met(fields, e.field.row().need)
}

fn first_unfit(fields: &[MatchField]) -> Option<&MatchField>
    ensures { option_copied result ≡ find (λ e. not (is_fit_beside fields.now e)) fields.now }
{
    fields.iter().find(|e| !is_fit(fields, e))
}

fn why_unfit(e: &MatchField) -> Why
    ensures { result ≡ why_unfit_so e.now }
{
    if is_proper(e) {
        Why::Word(why_missing(e.field.row().need))
    } else {
        Why::Word(of_ovs_words::Why::Value)
    }
}

// The fields, if a match may have each beside the others.
fn fit(alloc: Global, fields: Vec<MatchField>) -> Result<Vec<MatchField>, NoFrame>
    ensures fit { IfOk result (λ done. fit_fields fields.items ≡ Ok done.items) }
    ensures conditions { IfOk result (λ done. AreConditions done.items) }
    ensures stopped { IfErr result (FrameStops (fit_fields fields.items)) }
{
    match first_unfit(&fields) {
        None => Ok(fields),
        Some(e) => Err(refuse(alloc, text_for(e.field), why_unfit(e))),
    }
}

/// The conditions that words say of frames, such as `in_port=1,ip,nw_dst=10.0.0.0/8`: a match, which a flow of the switch may have.
///
/// The words are those of a match (ovs-fields(7)). Refused is the first word without a meaning, and then the first field that a match may not have.
pub fn read_conditions(alloc: Global, text: &[u8]) -> Result<Vec<MatchField>, NoFrame>
    ensures read { IfOk result (λ fields. conditions_in_words text.now ≡ Ok fields.items) }
    ensures conditions { IfOk result (λ fields. AreConditions fields.items) }
    ensures stopped { IfErr result (FrameStops (conditions_in_words text.now)) }
{
    let mut settings = Vec::new(alloc);
    add_words(alloc, &mut settings, true, text)?;
    let fields = fields_of(alloc, &settings)?;
    fit(alloc, fields)
}
