//! What a word says as an action.
ghost use Rattle.std.specs.Prelude.{◌≡◌, ◌≤◌, ◌<◌, ◌^◌, ◌++◌, IfOk, Ok, Err, Some, None, IfErr, OnOk};
ghost use Rattle.std.specs.List.{fold};
ghost use Rattle.of_ovs_words.specs.Actions.{actions_in_words, arrow_target as arrow_target_of, with_action_in_word, with_key as with_key_of, action_in_word as action_of, action_without_value as alone_of, controller_in as controller_of, is_drop_word as drops_of, verb_action as verb_action_of, is_beside_drop as is_with_drop, is_matched as is_matched_by, length_in as length_of, new_value as new_value_of, output_at as output_of, output_in as sent_to, push_vlan_in as push_vlan_of, set_field_by as set_of, set_field_in as set_field_of, tag_first, tags as tags_of, tags_after as tags_behind, truncates as truncates_at};
ghost use Rattle.of_ovs_words.specs.{Outcomes.through_words, Words.words_from, Stops.IfRefused, Stops.Stops, declared.stop.Stop.TheVariants.NoMemory};
ghost use Rattle.of_wire.specs.declared.limits.TheConstants.{OFPCML_NO_BUFFER};

use crate::action_word::{ActionWord, Verb};
use crate::field_word::{FieldWord, Form, Target};
use crate::lists::push_one;
use crate::numbers::{number_in, numbered};
use crate::port::port_in;
use crate::setting::{field_for, fitting_in, last};
use crate::stop::Stop;
use crate::why::Why;
use crate::words::{cut_word, name_of, value_of};
use of_actions::Action;
use of_layers::Field;
use of_lines::{cut, is};
use of_oxm::MatchField;
use of_wire::limits::{OFPCML_NO_BUFFER, OFPP_CONTROLLER};
use std::alloc::AllocError;

// A word of controller(max_len=128,id=0,reason=action), after this length.
#[tactic(auto, unfolding(crate::specs::Actions::with_key))]
fn with_key(len: u16, word: &[u8]) -> Result<u16, Why>
    ensures { result ≡ with_key_of len word.now }
{
    let name = name_of(word);
    let value = value_of(word);
    if is(name, b"max_len") {
        Ok(numbered(0x1_0000, value)? as u16)
    } else if is(name, b"id") && is(value, b"0") {
        Ok(len)
    } else if is(name, b"reason") && is(value, b"action") {
        Ok(len)
    } else {
        Err(Why::Unknown)
    }
}

fn length_by_keys(words: &[u8]) -> Result<u16, Why>
    ensures { result ≡ through_words with_key_of OFPCML_NO_BUFFER (words_from 0 words.now) }
{
    let mut len = OFPCML_NO_BUFFER;
    let mut rest = words;
    while !rest.is_empty() {
        let (word, after) = cut_word(rest);
        rest = after;
        if !word.is_empty() {
            match with_key(len, word) {
                Ok(next) => len = next,
                Err(why) => return Err(why),
            }
        }
    }
    Ok(len)
}

// The length in CONTROLLER, CONTROLLER:128 or controller(max_len=128).
fn length_in(value: &[u8]) -> Result<u16, Why>
    ensures { result ≡ length_of value.now }
{
    match number_in(0x1_0000, value) {
        Some(len) => Ok(len as u16),
        None => length_by_keys(value),
    }
}

fn controller_in(value: &[u8]) -> Result<Action, Why>
    ensures { result ≡ controller_of value.now }
{
    let max_len = length_in(value)?;
    Ok(Action::Output {
        port: OFPP_CONTROLLER,
        max_len,
    })
}

fn push_vlan_in(value: &[u8]) -> Result<Action, Why>
    ensures { result ≡ push_vlan_of value.now }
{
    match numbered(0x1_0000, value)? {
        0x8100 => Ok(Action::PushVlan(0x8100)),
        0x88a8 => Ok(Action::PushVlan(0x88a8)),
        _ => Err(Why::Value),
    }
}

// A value that a field is set to.
fn new_value(form: Form, field: Field, value: &[u8]) -> Result<u128, Why>
    ensures { result ≡ new_value_of form field value.now }
{
    let number = fitting_in(form, field, value)?;
    if form == Form::Vlan && number == 0 {
        return Err(Why::Value);
    }
    Ok(number)
}

fn set_by(settings: &[MatchField], target: Target, form: Form, value: &[u8]) -> Result<Action, Why>
    ensures { result ≡ set_of settings.now target form value.now }
{
    let field = field_for(target, settings).ok_or(Why::Protocol)?;
    let value = new_value(form, field, value)?;
    Ok(Action::SetField { field, value })
}

// The name of the field behind the minus sign of VALUE->FIELD.
fn arrow_target(arrow: &[u8]) -> &[u8]
    ensures { result.now ≡ arrow_target_of arrow.now }
{
    match arrow {
        [b'>', name @ ..] => name,
        _ => &[],
    }
}

// VALUE->FIELD
fn set_field_in(settings: &[MatchField], value: &[u8]) -> Result<Action, Why>
    ensures { result ≡ set_field_of settings.now value.now }
{
    let (value, arrow) = cut(value, b'-');
    match FieldWord::named(arrow_target(arrow)) {
        Some(word) => set_by(settings, word.target, word.form, value),
        None => Err(Why::Unknown),
    }
}

// A word without a value.
fn alone(value: &[u8], action: Option<Action>) -> Result<Option<Action>, Why>
    ensures { result ≡ alone_of value.now action }
{
    if value.is_empty() {
        Ok(action)
    } else {
        Err(Why::Unknown)
    }
}

// To a port, or why the word is none; a whole packet for the controller.
fn output_in(otherwise: Why, word: &[u8]) -> Result<Action, Why>
    ensures { result ≡ sent_to otherwise word.now }
{
    let port = port_in(otherwise, word)?;
    Ok(Action::Output {
        port,
        max_len: if port == OFPP_CONTROLLER {
            OFPCML_NO_BUFFER
        } else {
            0
        },
    })
}

// Whether it is output(port=2,max_len=100).
fn truncates(value: &[u8]) -> bool
    ensures { result ≡ truncates_at value.now }
{
    let name = name_of(value);
    is(name, b"port") || is(name, b"max_len")
}

fn output_at(value: &[u8]) -> Result<Action, Why>
    ensures { result ≡ output_of value.now }
{
    if truncates(value) {
        Err(Why::Truncates)
    } else {
        output_in(Why::PortName, value)
    }
}

// The action of a verb; none of `drop`.
#[tactic(auto, unfolding(crate::specs::Actions::verb_action))]
fn verb_action(settings: &[MatchField], verb: Verb, value: &[u8]) -> Result<Option<Action>, Why>
    ensures { result ≡ verb_action_of settings.now verb value.now }
{
    match verb {
        Verb::Output => output_at(value).map(Some),
        Verb::Controller => controller_in(value).map(Some),
        Verb::Group => Ok(Some(Action::Group(numbered(0x1_0000_0000, value)? as u32))),
        Verb::Drop => alone(value, None),
        Verb::PushVlan => push_vlan_in(value).map(Some),
        Verb::PopVlan => alone(value, Some(Action::PopVlan)),
        Verb::SetField => set_field_in(settings, value).map(Some),
        Verb::Mod(target, form) | Verb::Tag(target, form) => {
            set_by(settings, target, form, value).map(Some)
        }
        Verb::DecTtl => alone(value, Some(Action::DecNwTtl)),
        Verb::SetTtl => Ok(Some(Action::SetNwTtl(numbered(0x100, value)? as u8))),
        Verb::Write | Verb::Clear | Verb::Metadata | Verb::Goto | Verb::Resubmit => {
            Err(Why::Unknown)
        }
    }
}

// A word that is no verb is a port.
fn action_in(settings: &[MatchField], word: &[u8]) -> Result<Option<Action>, Why>
    ensures { result ≡ action_of settings.now word.now }
{
    match ActionWord::named(name_of(word)) {
        Some(named) => verb_action(settings, named.verb, value_of(word)),
        None => output_in(Why::Unknown, word).map(Some),
    }
}

// Whether the match says that there is a tag.
fn is_matched(settings: &[MatchField]) -> bool
    ensures { result ≡ is_matched_by settings.now }
{
    match last(settings, Field::VlanVid) {
        Some(e) => e.value >= 0x1000,
        None => false,
    }
}

// How many tags there are after an action, of so many before it.
fn tags_after(count: usize, action: Action) -> usize
    ensures { result ≡ tags_behind count action }
{
    match action {
        Action::PushVlan(_) => count.saturating_add(1).min(128),
        Action::PopVlan => count.saturating_sub(1),
        _ => count,
    }
}

fn count_tags(count: usize, actions: &[Action]) -> usize
    ensures { result ≡ fold tags_behind count actions.now }
{
    actions
        .iter()
        .fold(count, |count, action| tags_after(count, *action))
}

// Whether the word asks for a tag.
fn tags(word: &[u8]) -> bool
    ensures { result ≡ tags_of word.now }
{
    match ActionWord::named(name_of(word)) {
        Some(named) => matches!(named.verb, Verb::Tag(_, _)),
        None => false,
    }
}

/// Whether the word is `drop`.
pub fn drops(word: &[u8]) -> bool
    ensures { result ≡ drops_of word.now }
{
    match ActionWord::named(name_of(word)) {
        Some(named) => matches!(named.verb, Verb::Drop),
        None => false,
    }
}

// Appends a tag, where the word asks for one and there is none after the actions before.
fn push_tag(
    settings: &[MatchField],
    earlier: &[Action],
    done: &mut Vec<Action>,
    word: &[u8],
) -> Result<(), AllocError>
    ensures { OnOk result (done.new.items ≡ done.old.items ++ tag_first settings.now earlier.now done.old.items word.now) }
{
    if tags(word) {
        let matched = if is_matched(settings) { 1 } else { 0 };
        let count = count_tags(count_tags(matched, earlier), done);
        if count == 0 {
            done.push(Action::PushVlan(0x8100))?;
        }
    }
    Ok(())
}

fn is_beside_drop(dropped: bool, done: &[Action], word: &[u8]) -> bool
    ensures { result ≡ is_with_drop dropped done.now word.now }
{
    dropped || drops(word) && !done.is_empty()
}

/// Appends what a word says as an action, after these settings of the match and the lists before; whether it is `drop`. A word that is
/// refused leaves the actions as they were.
#[tactic(auto, unfolding(crate::specs::Actions::with_action_in_word))]
pub fn push_action(
    settings: &[MatchField],
    earlier: &[Action],
    dropped: bool,
    done: &mut Vec<Action>,
    word: &[u8],
) -> Result<bool, Stop>
    ensures added { IfOk result (λ drop. with_action_in_word settings.now earlier.now dropped done.old.items word.now ≡ Ok (drop, done.new.items)) }
    ensures stopped { IfErr result (Stops (with_action_in_word settings.now earlier.now dropped done.old.items word.now)) }
    ensures same { IfErr result (IfRefused (done.new.items ≡ done.old.items)) }
{
    if is_beside_drop(dropped, done, word) {
        return Err(Stop::Refused(Why::Alone));
    }
    let action = action_in(settings, word)?;
    push_tag(settings, earlier, done, word)?;
    push_one(done, action)?;
    Ok(drops(word))
}

/// Appends what words say as actions.
pub fn push_actions(
    settings: &[MatchField],
    earlier: &[Action],
    done: &mut Vec<Action>,
    words: &[u8],
) -> Result<(), Stop>
    ensures added { IfOk result (λ _. actions_in_words settings.now earlier.now done.old.items (words_from 0 words.now) ≡ Ok done.new.items) }
    ensures stopped { IfErr result (Stops (actions_in_words settings.now earlier.now done.old.items (words_from 0 words.now))) }
{
    let mut dropped = false;
    let mut rest = words;
    while !rest.is_empty() {
        let (word, after) = cut_word(rest);
        rest = after;
        if !word.is_empty() {
            match push_action(settings, earlier, dropped, done, word) {
                Ok(drop) => dropped = drop,
                Err(stop) => return Err(stop),
            }
        }
    }
    Ok(())
}
