//! Requirements in words.
ghost use Rattle.std.specs.Prelude.{◌≡◌, ◌≤◌, ◌<◌, length, codes, IfErr, IfOk, Ok};
ghost use Rattle.of_require.specs.Reading.{behind_expected as behind_expected_word, behind_word, by_said, demand_said, end_said, ending_said, exits_in as exits_in_words, fields_worded as fields_in_words, frames_said, having_said, is_blank as is_blank_text, is_demand_word, leaving_said, match_refused, match_said, passing_said, place_named, places_in as places_in_words, quantifier_named, requirement_said, table_named, unspaced as unspaced_text, view_demand, view_requirement, first_word_in};
ghost use Rattle.of_require.specs.{Reading.SaidDemand.LeavesBy, Reading.SaidDemand.LeavesOnlyBy, Refusals.LineStops};
ghost use Rattle.of_regions.specs.Conditions.{AreConditions};
ghost use Rattle.of_frame_words.specs.Conditions.{conditions_in_words};
ghost use Rattle.of_ovs_words.specs.Outcomes.{numbered as numbered_in};

use crate::doing::names_nothing;
use crate::refusal::{NoRequirement, Refusal, Why, refuse};
use crate::requirement::{Demand, Quantifier, Requirement};
use of_actions::is_number;
use of_frame_words::{NoFrame, match_of, read_conditions};
use of_lines::{cut, is};
use of_ovs_words::{cut_word, numbered, port_in};
use of_oxm::{Match, MatchField};
use of_paths::Destination;
use of_wire::limits::{OFPP_CONTROLLER, TABLES};
use std::alloc::{AllocError, Global};

// A text without the spaces in front.
pub fn unspaced(text: &[u8]) -> &[u8]
    ensures { result.now ≡ unspaced_text text.now }
{
    for (i, b) in text.iter().enumerate() {
        if *b != b' ' {
            return &text[i..];
        }
    }
    &[]
}

// The first word, and the text behind it.
pub fn first_word(text: &[u8]) -> (&[u8], &[u8])
    ensures first { result.0.now ≡ first_word_in text.now }
    ensures rest { result.1.now ≡ behind_word text.now }
{
    cut(unspaced(text), b' ')
}

// The text behind a word that has to be the first one.
pub fn behind_expected<'a>(
    alloc: Global,
    text: &'a [u8],
    name: &[u8],
    why: Why,
) -> Result<&'a [u8], NoRequirement>
    ensures is { IfOk result (λ rest. behind_expected_word name.now why text.now ≡ Ok rest.now) }
    ensures stopped { IfErr result (LineStops (behind_expected_word name.now why text.now)) }
{
    let (word, rest) = first_word(text);
    if is(word, name) {
        Ok(rest)
    } else {
        Err(refuse(alloc, word, why))
    }
}

pub fn read_match(alloc: Global, word: &[u8]) -> Result<Vec<MatchField>, NoRequirement>
    ensures is { IfOk result (λ fields. match_refused (conditions_in_words word.now) ≡ Ok fields.items) }
    ensures conditions { IfOk result (λ fields. AreConditions fields.items) }
    ensures stopped { IfErr result (LineStops (match_refused (conditions_in_words word.now))) }
{
    match read_conditions(alloc, word) {
        Ok(fields) => Ok(fields),
        Err(NoFrame::NoMemory) => Err(NoRequirement::NoMemory),
        Err(NoFrame::Refused(refusal)) => Err(NoRequirement::Refused(Refusal {
            word: refusal.word,
            why: Why::Match(refusal.why),
        })),
    }
}

// A place: a port, `controller` or `drop`.
fn place_in(alloc: Global, word: &[u8]) -> Result<Destination, NoRequirement>
    ensures is { IfOk result (λ to. place_named word.now ≡ Ok to) }
    ensures stopped { IfErr result (LineStops (place_named word.now)) }
{
    if is(word, b"drop") {
        return Ok(Destination::Nothing);
    }
    match port_in(of_ovs_words::Why::Unknown, word) {
        Ok(OFPP_CONTROLLER) => Ok(Destination::Controller),
        Ok(port) if is_number(port) => Ok(Destination::Port(port)),
        _ => Err(refuse(alloc, word, Why::Place)),
    }
}

// Places, with commas between them.
fn places_in(alloc: Global, text: &[u8]) -> Result<Vec<Destination>, NoRequirement>
    ensures is { IfOk result (λ places. places_in_words text.now ≡ Ok places.items) }
    ensures stopped { IfErr result (LineStops (places_in_words text.now)) }
{
    if text.is_empty() {
        return Err(refuse(alloc, text, Why::Place));
    }
    let mut places = Vec::new(alloc);
    let mut rest = text;
    while !rest.is_empty() {
        let (word, after) = cut_word(rest);
        rest = after;
        match place_in(alloc, word) {
            Ok(to) => {
                if places.push(to).is_err() {
                    return Err(NoRequirement::NoMemory);
                }
            }
            Err(stop) => return Err(stop),
        }
    }
    Ok(places)
}

// `by PLACES`, and the text behind it.
fn read_by<'a>(alloc: Global, text: &'a [u8]) -> Result<(Vec<Destination>, &'a [u8]), NoRequirement>
    ensures by { IfOk result (λ read. by_said LeavesBy text.now ≡ Ok (LeavesBy read.0.items, read.1.now)) }
    ensures only { IfOk result (λ read. by_said LeavesOnlyBy text.now ≡ Ok (LeavesOnlyBy read.0.items, read.1.now)) }
    ensures stopped { IfErr result (LineStops (by_said LeavesBy text.now)) }
    ensures stopped_only { IfErr result (LineStops (by_said LeavesOnlyBy text.now)) }
{
    let rest = behind_expected(alloc, text, b"by", Why::Demand)?;
    let (word, rest) = first_word(rest);
    let places = places_in(alloc, word)?;
    Ok((places, rest))
}

// What is behind `leaves`, and the text behind it.
fn read_leaving<'a>(alloc: Global, text: &'a [u8]) -> Result<(Demand, &'a [u8]), NoRequirement>
    ensures is { IfOk result (λ read. leaving_said text.now ≡ Ok (view_demand read.0, read.1.now)) }
    ensures stopped { IfErr result (LineStops (leaving_said text.now)) }
{
    let (word, rest) = first_word(text);
    if is(word, b"only") {
        let (places, rest) = read_by(alloc, rest)?;
        Ok((Demand::LeavesOnlyBy(places), rest))
    } else {
        let (places, rest) = read_by(alloc, text)?;
        Ok((Demand::LeavesBy(places), rest))
    }
}

fn read_table(alloc: Global, word: &[u8]) -> Result<u8, NoRequirement>
    ensures is { IfOk result (λ table. table_named word.now (numbered_in TABLES word.now) ≡ Ok table) }
    ensures stopped { IfErr result (LineStops (table_named word.now (numbered_in TABLES word.now))) }
{
    match numbered(u128::from(TABLES), word) {
        Ok(table) => Ok(table as u8),
        Err(_) => Err(refuse(alloc, word, Why::Table)),
    }
}

// What is behind `passes`, and the text behind it.
fn read_passing<'a>(alloc: Global, text: &'a [u8]) -> Result<(Demand, &'a [u8]), NoRequirement>
    ensures is { IfOk result (λ read. passing_said text.now ≡ Ok (view_demand read.0, read.1.now)) }
    ensures stopped { IfErr result (LineStops (passing_said text.now)) }
{
    let rest = behind_expected(alloc, text, b"table", Why::Demand)?;
    let (word, rest) = first_word(rest);
    let table = read_table(alloc, word)?;
    Ok((Demand::PassesTable(table), rest))
}

// Places by which something leaves.
fn exits_in(alloc: Global, text: &[u8]) -> Result<Vec<Destination>, NoRequirement>
    ensures is { IfOk result (λ places. exits_in_words text.now ≡ Ok places.items) }
    ensures stopped { IfErr result (LineStops (exits_in_words text.now)) }
{
    let places = places_in(alloc, text)?;
    if names_nothing(&places) {
        return Err(refuse(alloc, text, Why::NoPlace));
    }
    Ok(places)
}

fn fields_in(alloc: Global, text: &[u8]) -> Result<Match, NoRequirement>
    ensures is { IfOk result (λ fields. fields_in_words text.now ≡ Ok fields) }
    ensures stopped { IfErr result (LineStops (fields_in_words text.now)) }
{
    if text.is_empty() {
        return Err(refuse(alloc, text, Why::Fields));
    }
    let fields = read_match(alloc, text)?;
    match match_of(fields) {
        Some(fields) => Ok(fields),
        None => Err(refuse(alloc, text, Why::Fields)),
    }
}

// What is behind `leaving`, and the text behind it.
fn read_having<'a>(alloc: Global, text: &'a [u8]) -> Result<(Demand, &'a [u8]), NoRequirement>
    ensures is { IfOk result (λ read. having_said text.now ≡ Ok (view_demand read.0, read.1.now)) }
    ensures stopped { IfErr result (LineStops (having_said text.now)) }
{
    let rest = behind_expected(alloc, text, b"by", Why::Demand)?;
    let (word, rest) = first_word(rest);
    let places = exits_in(alloc, word)?;
    let rest = behind_expected(alloc, rest, b"has", Why::Demand)?;
    let (word, rest) = first_word(rest);
    let fields = fields_in(alloc, word)?;
    Ok((Demand::Has { places, fields }, rest))
}

// What frames do, and the text behind it.
pub fn read_demand<'a>(alloc: Global, text: &'a [u8]) -> Result<(Demand, &'a [u8]), NoRequirement>
    ensures is { IfOk result (λ read. demand_said text.now ≡ Ok (view_demand read.0, read.1.now)) }
    ensures stopped { IfErr result (LineStops (demand_said text.now)) }
{
    let (word, rest) = first_word(text);
    if is(word, b"leaves") {
        read_leaving(alloc, rest)
    } else if is(word, b"leaving") {
        read_having(alloc, rest)
    } else if is(word, b"passes") {
        read_passing(alloc, rest)
    } else {
        Err(refuse(alloc, word, Why::Demand))
    }
}

fn is_blank(text: &[u8]) -> bool
    ensures { result ≡ is_blank_text text.now }
{
    unspaced(text).is_empty()
}

// That a line ends.
fn read_end(alloc: Global, text: &[u8]) -> Result<bool, NoRequirement>
    ensures is { IfOk result (λ b. end_said text.now ≡ Ok b) }
    ensures stopped { IfErr result (LineStops (end_said text.now)) }
{
    if is_blank(text) {
        return Ok(true);
    }
    let (word, _) = first_word(text);
    Err(refuse(alloc, word, Why::Ending))
}

// Whether a line ends with `except ttl`.
pub fn read_ending(alloc: Global, text: &[u8]) -> Result<bool, NoRequirement>
    ensures is { IfOk result (λ except. ending_said text.now ≡ Ok except) }
    ensures stopped { IfErr result (LineStops (ending_said text.now)) }
{
    if is_blank(text) {
        return Ok(false);
    }
    let rest = behind_expected(alloc, text, b"except", Why::Ending)?;
    let rest = behind_expected(alloc, rest, b"ttl", Why::Ending)?;
    read_end(alloc, rest)
}
