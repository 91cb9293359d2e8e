//! The settings of fields that words say of a frame, or of a match.
ghost use Rattle.std.specs.Prelude.{◌≡◌, IfOk, IfErr, Ok};
ghost use Rattle.of_ovs_words.specs.{Stops.Stops as WordStops, Words.words_from};
ghost use Rattle.of_frame_words.specs.Said.{are_frame_words, by_name, has_mask as is_masked, has_value as has_a_value, is_masked_amiss, is_ttl_word as is_a_ttl_word, sets_no_field as is_passed_over, word_said, with_setting_word, with_setting_words};
ghost use Rattle.of_frame_words.specs.Refusals.{FrameStops};

use crate::why::{NoFrame, Why, refuse};
use of_lines::is;
use of_ovs_words::{
    FieldWord, ProtocolWord, Stop, cut_word, name_of, set_field, set_protocol, value_of,
};
use of_oxm::MatchField;
use std::alloc::Global;

// Whether some word has a value.
fn has_value(text: &[u8]) -> bool
    ensures { result ≡ has_a_value text.now }
{
    text.iter().any(|byte| *byte == b'=')
}

/// Whether a text is a frame in words, which hexadecimal digits never are: it has a value, or its first word is one for a protocol.
pub fn is_frame_words(text: &[u8]) -> bool
    ensures { result ≡ are_frame_words text.now }
{
    let (first, _) = cut_word(text);
    has_value(text) || ProtocolWord::named(first).is_some()
}

// Whether a mask comes after a value.
fn has_mask(value: &[u8]) -> bool
    ensures { result ≡ is_masked value.now }
{
    value.iter().any(|byte| *byte == b'/')
}

/// Whether a word is that for the TTL or hop limit, which no match has.
pub fn is_ttl_word(word: &[u8]) -> bool
    ensures { result ≡ is_a_ttl_word word.now }
{
    is(name_of(word), b"nw_ttl")
}

// Whether a word is empty, or in a frame that for its TTL.
#[tactic(auto, unfolding(crate::specs::Said::sets_no_field))]
fn sets_no_field(masks: bool, word: &[u8]) -> bool
    ensures { result ≡ is_passed_over masks word.now }
{
    word.is_empty() || (!masks && is_ttl_word(word))
}

// Appends what the word of a field or of a protocol says.
fn add_named(
    settings: &mut Vec<MatchField>,
    field: Option<FieldWord>,
    protocol: Option<ProtocolWord>,
    value: &[u8],
) -> Result<(), Stop>
    ensures added { IfOk result (λ _. by_name field protocol settings.old.items value.now ≡ Ok settings.new.items) }
    ensures stopped { IfErr result (WordStops (by_name field protocol settings.old.items value.now)) }
{
    match (field, protocol) {
        (Some(word), _) => set_field(settings, word, value),
        (None, Some(word)) => set_protocol(settings, word, value),
        (None, None) => Err(Stop::Refused(of_ovs_words::Why::Unknown)),
    }
}

// Appends what a word says.
fn add_said(settings: &mut Vec<MatchField>, word: &[u8]) -> Result<(), Stop>
    ensures added { IfOk result (λ _. word_said settings.old.items word.now ≡ Ok settings.new.items) }
    ensures stopped { IfErr result (WordStops (word_said settings.old.items word.now)) }
{
    let name = name_of(word);
    add_named(
        settings,
        FieldWord::named(name),
        ProtocolWord::named(name),
        value_of(word),
    )
}

// Whether a word has a mask where words have none.
fn has_mask_amiss(masks: bool, word: &[u8]) -> bool
    ensures { result ≡ is_masked_amiss masks word.now }
{
    !masks && has_mask(value_of(word))
}

// The same for a word that may be refused.
fn add_word(
    alloc: Global,
    settings: &mut Vec<MatchField>,
    masks: bool,
    word: &[u8],
) -> Result<(), NoFrame>
    ensures added { IfOk result (λ _. with_setting_word masks settings.old.items word.now ≡ Ok settings.new.items) }
    ensures stopped { IfErr result (FrameStops (with_setting_word masks settings.old.items word.now)) }
{
    if has_mask_amiss(masks, word) {
        return Err(refuse(alloc, word, Why::Mask));
    }
    match add_said(settings, word) {
        Ok(()) => Ok(()),
        Err(Stop::NoMemory) => Err(NoFrame::NoMemory),
        Err(Stop::Refused(why)) => Err(refuse(alloc, word, Why::Word(why))),
    }
}

/// Appends what words say, which may have masks or not, until one is refused.
pub fn add_words(
    alloc: Global,
    settings: &mut Vec<MatchField>,
    masks: bool,
    text: &[u8],
) -> Result<(), NoFrame>
    ensures added { IfOk result (λ _. with_setting_words masks settings.old.items (words_from 0 text.now) ≡ Ok settings.new.items) }
    ensures stopped { IfErr result (FrameStops (with_setting_words masks settings.old.items (words_from 0 text.now))) }
{
    let mut rest = text;
    while !rest.is_empty() {
        let (word, after) = cut_word(rest);
        rest = after;
        if !sets_no_field(masks, word) {
            match add_word(alloc, settings, masks, word) {
                Ok(()) => {}
                Err(stop) => return Err(stop),
            }
        }
    }
    Ok(())
}
