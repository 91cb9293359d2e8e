//! Requirements of a file.
ghost use Rattle.std.specs.Prelude.{◌≡◌, ◌++◌, map, IfErr, IfOk, OnOk, Ok};
ghost use Rattle.of_regions.specs.Conditions.{AreConditions};
ghost use Rattle.of_require.specs.Reading.{is_demand_word as is_demand_name, match_said, quantifier_named, requirement_said, view_requirement};
ghost use Rattle.of_require.specs.RequirementFiles.{AddsLine, FileStops, StopsAt, is_passed_or_blank as is_no_requirement, line_said, requirements_in, view_line};
ghost use Rattle.of_require.specs.Refusals.{LineStops};

use crate::reading::{behind_expected, first_word, read_demand, read_ending, read_match, unspaced};
use crate::refusal::{NoRequirement, NoRequirements, Why, refuse};
use crate::requirement::{Quantifier, Requirement};
use of_lines::{cut, is, is_passed_over};
use of_oxm::MatchField;
use std::alloc::Global;

/// A requirement of a file.
#[derive(Drop)]
pub struct Line {
    /// The number of its line, from 1.
    pub number: usize,
    pub text: Vec<u8>,
    pub requirement: Requirement,
}

fn is_demand_word(word: &[u8]) -> bool
    ensures { result ≡ is_demand_name word.now }
{
    is(word, b"leaves") || is(word, b"leaving") || is(word, b"passes")
}

// The frames that a requirement is about, and the text behind them.
fn read_frames<'a>(
    alloc: Global,
    text: &'a [u8],
) -> Result<(Vec<MatchField>, &'a [u8]), NoRequirement>
    ensures is { IfOk result (λ read. match_said text.now ≡ Ok (read.0.items, read.1.now)) }
    ensures conditions { IfOk result (λ read. AreConditions read.0.items) }
    ensures stopped { IfErr result (LineStops (match_said text.now)) }
{
    let (word, rest) = first_word(text);
    if is_demand_word(word) {
        return Ok((Vec::new(alloc), text));
    }
    match read_match(alloc, word) {
        Ok(fields) => Ok((fields, rest)),
        Err(stop) => Err(stop),
    }
}

fn read_quantifier(alloc: Global, word: &[u8]) -> Result<Quantifier, NoRequirement>
    ensures is { IfOk result (λ quantifier. quantifier_named word.now ≡ Ok quantifier) }
    ensures stopped { IfErr result (LineStops (quantifier_named word.now)) }
{
    if is(word, b"no") {
        Ok(Quantifier::No)
    } else if is(word, b"each") {
        Ok(Quantifier::Each)
    } else if is(word, b"some") {
        Ok(Quantifier::AtLeastOne)
    } else {
        Err(refuse(alloc, word, Why::Beginning))
    }
}

/// The requirement of a line, such as `no frame ip,nw_src=10.0.9.0/24 leaves by 2,3,4` (docs/REQUIRE.md). Refused is the first word without a meaning.
#[tactic(auto, unfolding(crate::specs::Reading::requirement_said))]
pub fn read_requirement(alloc: Global, line: &[u8]) -> Result<Requirement, NoRequirement>
    ensures is { IfOk result (λ requirement. requirement_said line.now ≡ Ok (view_requirement requirement)) }
    ensures stopped { IfErr result (LineStops (requirement_said line.now)) }
{
    let (word, rest) = first_word(line);
    let quantifier = read_quantifier(alloc, word)?;
    let rest = behind_expected(alloc, rest, b"frame", Why::Beginning)?;
    let (within, rest) = read_frames(alloc, rest)?;
    let (demand, rest) = read_demand(alloc, rest)?;
    let except_expired = read_ending(alloc, rest)?;
    Ok(Requirement {
        quantifier,
        within,
        except_expired,
        demand,
    })
}

fn is_passed_or_blank(line: &[u8]) -> bool
    ensures { result ≡ is_no_requirement line.now }
{
    is_passed_over(unspaced(line))
}

// Appends the requirement of the line with a number, unless the line is empty or a comment.
fn push_line(
    alloc: Global,
    lines: &mut Vec<Line>,
    number: usize,
    line: &[u8],
) -> Result<(), NoRequirement>
    ensures is { OnOk result (AddsLine number line.now lines.old.items lines.new.items) }
    ensures stopped { IfErr result (StopsAt (line_said number line.now) number) }
{
    let (text, _) = cut(line, b'\r');
    if is_passed_or_blank(text) {
        return Ok(());
    }
    let requirement = read_requirement(alloc, text)?;
    let text = text.to_vec(alloc)?;
    let line = Line {
        number,
        text,
        requirement,
    };
    match lines.push(line) {
        Ok(_) => Ok(()),
        Err(_) => Err(NoRequirement::NoMemory),
    }
}

/// The requirements of a file, one a line; empty lines and comments, which begin with `#`, are passed over. Refused is the first line that is none.
pub fn read_requirements(alloc: Global, file: &[u8]) -> Result<Vec<Line>, NoRequirements>
    ensures is { IfOk result (λ lines. requirements_in file.now ≡ Ok (map view_line lines.items)) }
    ensures stopped { IfErr result (FileStops (requirements_in file.now)) }
{
    let mut lines = Vec::new(alloc);
    let mut number: usize = 0;
    let mut rest = file;
    while !rest.is_empty() {
        let (line, after) = cut(rest, b'\n');
        rest = after;
        number += 1;
        match push_line(alloc, &mut lines, number, line) {
            Ok(()) => {}
            Err(why) => return Err(NoRequirements { line: number, why }),
        }
    }
    Ok(lines)
}
