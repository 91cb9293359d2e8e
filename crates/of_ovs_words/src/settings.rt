//! The meaning of words for a match, one after the other.
ghost use Rattle.std.specs.Prelude.{◌≡◌, ◌==◌, ◌≤◌, ◌<◌, ◌++◌, ◌∷◌, [], not, IfOk, IfErr, OnOk, Ok, filter_map};
ghost use Rattle.of_layers.specs.Fields.{number_of};
ghost use Rattle.of_ovs_words.specs.Matches.{fields_of_settings as fields_in, tag_with, tagged_setting as tagged_by, takes_tag_back as takes_back, with_match_field, with_protocol, with_field_setting, with_tci, without_settings};
ghost use Rattle.of_ovs_words.specs.{Settings.exact, Settings.last_of, Stops.IfRefused, Stops.Stops};

use crate::field_word::{FieldWord, Form};
use crate::lists::push_one;
use crate::protocol_word::ProtocolWord;
use crate::setting::{field_for, last, setting_in, under};
use crate::stop::Stop;
use crate::tci::tci_settings;
use crate::why::Why;
use of_layers::Field;
use of_oxm::MatchField;
use std::alloc::{AllocError, Global};

fn push_exact(settings: &mut Vec<MatchField>, field: Field, value: u128) -> Result<(), AllocError>
    ensures { OnOk result (settings.new.items ≡ settings.old.items ++ exact field value ∷ []) }
{
    settings.push(MatchField {
        field,
        value,
        mask: None,
    })?;
    Ok(())
}

/// Appends what a word for a protocol says.
pub fn set_protocol(
    settings: &mut Vec<MatchField>,
    word: ProtocolWord,
    value: &[u8],
) -> Result<(), Stop>
    ensures added { IfOk result (λ _. with_protocol settings.old.items word value.now ≡ Ok settings.new.items) }
    ensures stopped { IfErr result (Stops (with_protocol settings.old.items word value.now)) }
    ensures same { IfErr result (IfRefused (settings.new.items ≡ settings.old.items)) }
{
    if !value.is_empty() {
        return Err(Stop::Refused(Why::Unknown));
    }
    push_exact(settings, Field::EthType, u128::from(word.ethertype))?;
    if let Some(number) = word.protocol {
        push_exact(settings, Field::IpProto, u128::from(number))?;
    }
    Ok(())
}

// Appends that there is a tag, for a field of a tag.
fn push_tag(settings: &mut Vec<MatchField>, field: Field) -> Result<(), AllocError>
    ensures { OnOk result (settings.new.items ≡ settings.old.items ++ tag_with field settings.old.items) }
{
    if field.number() == Field::VlanPcp.number() {
        let tag = tagged(last(settings, Field::VlanVid));
        push_one(settings, tag)?;
    }
    Ok(())
}

// The number of a VLAN, with the bit that says that there is a tag.
fn tagged(vid: Option<MatchField>) -> Option<MatchField>
    ensures { result ≡ tagged_by vid }
{
    match vid {
        None => under(Field::VlanVid, 0x1000, 0x1000),
        Some(e) => under(
            Field::VlanVid,
            e.value | 0x1000,
            e.mask.unwrap_or(0x1fff) | 0x1000,
        ),
    }
}

// Whether a field is VLAN_PCP, and something was said of it.
fn takes_tag_back(settings: &[MatchField], field: Field) -> bool
    ensures { result ≡ takes_back field settings.now }
{
    field.number() == Field::VlanPcp.number() && last(settings, Field::VlanPcp).is_some()
}

// Whether a setting is of another field.
fn is_of_other(e: &MatchField, field: Field) -> bool
    ensures { result ≡ not (number_of e.now.field == number_of field) }
{
    e.field.number() != field.number()
}

// The settings of other fields.
fn others(
    alloc: Global,
    settings: &[MatchField],
    field: Field,
) -> Result<Vec<MatchField>, AllocError>
    ensures { IfOk result (λ others. others.items ≡ without_settings field settings.now) }
{
    settings
        .iter()
        .copied()
        .filter(|e| is_of_other(e, field))
        .collect(alloc)
}

// Nothing is said of a field any more.
fn forget(settings: &mut Vec<MatchField>, field: Field) -> Result<(), AllocError>
    ensures ok { OnOk result (settings.new.items ≡ without_settings field settings.old.items) }
{
    *settings = others(*settings.allocator(), settings, field)?;
    Ok(())
}

fn set_one(settings: &mut Vec<MatchField>, word: FieldWord, value: &[u8]) -> Result<(), Stop>
    ensures added { IfOk result (λ _. with_field_setting settings.old.items word value.now ≡ Ok settings.new.items) }
    ensures stopped { IfErr result (Stops (with_field_setting settings.old.items word value.now)) }
    ensures same { IfErr result (IfRefused (settings.new.items ≡ settings.old.items)) }
{
    let field = field_for(word.target, settings).ok_or(Why::Protocol)?;
    match setting_in(word.form, field, value)? {
        None if takes_tag_back(settings, field) => return Err(Stop::Refused(Why::Value)),
        None => forget(settings, field)?,
        Some(setting) => {
            push_tag(settings, field)?;
            settings.push(setting)?;
        }
    }
    Ok(())
}

fn set_tci(settings: &mut Vec<MatchField>, value: &[u8]) -> Result<(), Stop>
    ensures added { IfOk result (λ _. with_tci settings.old.items value.now ≡ Ok settings.new.items) }
    ensures stopped { IfErr result (Stops (with_tci settings.old.items value.now)) }
    ensures same { IfErr result (IfRefused (settings.new.items ≡ settings.old.items)) }
{
    let (vid, pcp) = tci_settings(value)?;
    forget(settings, Field::VlanVid)?;
    forget(settings, Field::VlanPcp)?;
    push_one(settings, vid)?;
    push_one(settings, pcp)?;
    Ok(())
}

/// Appends what a word for a field says.
#[tactic(auto, unfolding(crate::specs::Matches::with_match_field))]
pub fn set_field(settings: &mut Vec<MatchField>, word: FieldWord, value: &[u8]) -> Result<(), Stop>
    ensures added { IfOk result (λ _. with_match_field settings.old.items word value.now ≡ Ok settings.new.items) }
    ensures stopped { IfErr result (Stops (with_match_field settings.old.items word value.now)) }
    ensures same { IfErr result (IfRefused (settings.new.items ≡ settings.old.items)) }
{
    if word.form == Form::Tci {
        set_tci(settings, value)
    } else {
        set_one(settings, word, value)
    }
}

/// The fields of a match: of each the last setting, in ascending order of number.
pub fn fields_of(alloc: Global, settings: &[MatchField]) -> Result<Vec<MatchField>, AllocError>
    ensures { IfOk result (λ fields. fields.items ≡ fields_in settings.now) }
{
    Field::ALL
        .iter()
        .filter_map(|field| last(settings, *field))
        .collect(alloc)
}
