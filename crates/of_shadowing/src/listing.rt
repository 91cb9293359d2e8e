//! The flows of a file of ovs-ofctl.
ghost use Rattle.std.specs.Prelude.{◌≡◌, ◌++◌, ◌∷◌, [], None, not, filter, find, map, IfOk, OnOk};
ghost use Rattle.std.specs.Option.{option_copied, option_map};
ghost use Rattle.of_text.specs.{Lines.lines_of, Views.view};
ghost use Rattle.of_values.specs.Origins.{view_words};
ghost use Rattle.of_ovs_lines.specs.{LineContentViews.view_line_content, PartialFlowViews.view_word_fault};
ghost use Rattle.of_shadowing.specs.Listings.{Refused, are_among_words, clause_name, listed_fault, flow_or_fault, is_same_flow, is_word_met as is_word_met_so, listed_content, listed_line, listed_text, listed_words, listing_of, no_listing, split_words, unmet_fault as unmet_fault_of, why_of as why_of_word, with_clause, with_listed, with_flow_listed};
ghost use Rattle.of_shadowing.specs.{Conditions.need_of_word, ListingViews.view_content, ListingViews.view_flow, ListingViews.view_listing, LineWordViews.view_line_words};

use crate::conditions::{is_need_met, need_of, why_unmet};
use crate::line_words::{LineWords, split_line};
use crate::listed_flow::ListedFlow;
use crate::rivals::are_among;
use of_frame_words::match_of;
use of_import::LineFaults;
use of_ovs_lines::{LineContent, Mode, WordFault, begins_group, read_line, trimmed};
use of_ovs_words::Why;
use of_oxm::MatchField;
use of_text::{FlowText, cut};
use of_values::push_decimal;
use std::alloc::{AllocError, Global};

/// Tables keep their numbers.
const ANY_TABLE: Mode = Mode {
    skip: false,
    renumber: true,
};

/// OFPTT_ALL, which is no table (OpenFlow 1.3.5, 7.3.4.1).
const NO_TABLE: u8 = 255;

/// What a line says.
#[derive(Drop)]
pub enum ListedLine {
    Nothing,
    Flow(ListedFlow),
    Refused(Vec<WordFault>),
}

/// The flows of a file of ovs-ofctl.
#[derive(Drop)]
pub struct Listing {
    /// In the order of the lines. A flow that has the table, the priority and the match of an earlier one replaces it.
    pub flows: Vec<ListedFlow>,
    /// The lines that are refused, and all words that they are refused for.
    pub faults: Vec<LineFaults>,
}

// The condition of a flow that is one of several clauses.
fn clause_word(alloc: Global, line: usize) -> Result<Vec<u8>, AllocError>
    ensures { IfOk result (λ word. word.items ≡ clause_name line) }
{
    let mut word = Vec::new(alloc);
    word.extend_from_slice(b"conjunction of line ")?;
    push_decimal(&mut word, line as u128)?;
    Ok(word)
}

// The conditions of a line.
fn with_clause_word(
    alloc: Global,
    line: usize,
    conditions: Vec<Vec<u8>>,
    is_clause: bool,
) -> Result<Vec<Vec<u8>>, AllocError>
    ensures { IfOk result (λ words. view_words words.items ≡ with_clause line is_clause (view_words conditions.items)) }
{
    let mut conditions = conditions;
    if is_clause {
        conditions.push(clause_word(alloc, line)?)?;
    }
    Ok(conditions)
}

// Whether a match has what the field of a condition needs.
fn is_word_met(fields: &[MatchField], word: &[u8]) -> bool
    ensures { result ≡ is_word_met_so fields.now word.now }
{
    match need_of(word) {
        None => true,
        Some(need) => is_need_met(fields, need),
    }
}

fn first_unmet<'a>(fields: &[MatchField], conditions: &'a [Vec<u8>]) -> Option<&'a Vec<u8>>
    ensures { option_copied result ≡ find (λ w. not (is_word_met_so fields.now w.items)) conditions.now }
{
    conditions.iter().find(|word| !is_word_met(fields, word))
}

fn why_of(word: &[u8]) -> Why
    ensures { result ≡ (why_of_word (need_of_word word.now) word.now).why }
{
    match need_of(word) {
        None => Why::Unknown,
        Some(need) => why_unmet(need),
    }
}

// The first condition whose field lacks what it needs.
fn unmet_fault(
    alloc: Global,
    fields: &[MatchField],
    conditions: &[Vec<u8>],
) -> Result<Option<WordFault>, AllocError>
    ensures { IfOk result (λ fault. option_map view_word_fault fault ≡
        unmet_fault_of (find (λ w. not (is_word_met_so fields.now w)) (view_words conditions.now))) }
{
    match first_unmet(fields, conditions) {
        None => Ok(None),
        Some(word) => Ok(Some(WordFault {
            why: why_of(word),
            word: word.to_vec(alloc)?,
        })),
    }
}

// Why a flow with these conditions is refused.
fn fault_of(
    alloc: Global,
    flow: &FlowText,
    conditions: &[Vec<u8>],
) -> Result<Option<WordFault>, AllocError>
    ensures { IfOk result (λ fault. option_map view_word_fault fault ≡ listed_fault (view flow.now) (view_words conditions.now)) }
{
    if flow.head.table == NO_TABLE {
        return Ok(Some(WordFault {
            word: b"table".to_vec(alloc)?,
            why: Why::Value,
        }));
    }
    unmet_fault(alloc, &flow.fields, conditions)
}

fn refused(alloc: Global, fault: WordFault) -> Result<ListedLine, AllocError>
    ensures { IfOk result (λ line. view_content line ≡ Refused (view_word_fault fault ∷ [])) }
{
    let mut faults = Vec::new(alloc);
    faults.push(fault)?;
    Ok(ListedLine::Refused(faults))
}

// A flow that is not refused, unless its fields are no match.
fn flow_from(
    alloc: Global,
    line: usize,
    words: LineWords,
    flow: FlowText,
) -> Result<ListedLine, AllocError>
    ensures { IfOk result (λ content. view_content content ≡ flow_or_fault line (view_line_words words) (view flow) None) }
{
    let (table, priority) = (flow.head.table, flow.head.priority);
    let LineWords {
        conditions,
        is_clause,
        scan,
        ..
    } = words;
    match match_of(flow.fields) {
        Some(fields) => Ok(ListedLine::Flow(ListedFlow {
            line,
            table,
            priority,
            fields,
            words: with_clause_word(alloc, line, conditions, is_clause)?,
            leads: scan.leads,
        })),
        None => refused(
            alloc,
            WordFault {
                word: b"match".to_vec(alloc)?,
                why: Why::Value,
            },
        ),
    }
}

// What a line says, of which this was read without its conditions.
fn content_from(
    alloc: Global,
    line: usize,
    words: LineWords,
    content: LineContent,
) -> Result<ListedLine, AllocError>
    ensures { IfOk result (λ listed. view_content listed ≡ listed_content line (view_line_words words) (view_line_content content)) }
{
    match content {
        LineContent::Nothing | LineContent::Group(_) => Ok(ListedLine::Nothing),
        LineContent::Refused(faults) => Ok(ListedLine::Refused(faults)),
        LineContent::Flow(flow, _) => match fault_of(alloc, &flow, &words.conditions)? {
            Some(fault) => refused(alloc, fault),
            None => flow_from(alloc, line, words, flow),
        },
    }
}

// What a line says that is no group.
fn read_words(alloc: Global, line: usize, text: &[u8]) -> Result<ListedLine, AllocError>
    ensures { IfOk result (λ listed. view_content listed ≡ listed_words line (split_words text.now)) }
{
    let words = split_line(alloc, text)?;
    let content = read_line(alloc, ANY_TABLE, &[], &words.plain)?;
    content_from(alloc, line, words, content)
}

#[tactic(auto, unfolding(crate::specs::Listings::listed_text))]
fn read_text(alloc: Global, line: usize, text: &[u8]) -> Result<ListedLine, AllocError>
    ensures { IfOk result (λ listed. view_content listed ≡ listed_text line text.now) }
{
    if begins_group(text) {
        return Ok(ListedLine::Nothing);
    }
    read_words(alloc, line, text)
}

// What the line of this number says.
fn read_listed(alloc: Global, line: usize, bytes: &[u8]) -> Result<ListedLine, AllocError>
    ensures { IfOk result (λ listed. view_content listed ≡ listed_line line bytes.now) }
{
    let (text, _) = cut(bytes, b'#');
    read_text(alloc, line, trimmed(text))
}

// Whether each of these words is among others.
fn are_words_among(words: &[Vec<u8>], others: &[Vec<u8>]) -> bool
    ensures { result ≡ are_among_words (view_words words.now) (view_words others.now) }
{
    are_among(words, others)
}

// Whether two flows have one table, one priority, one match and the same conditions.
fn is_same(a: &ListedFlow, b: &ListedFlow) -> bool
    ensures { result ≡ is_same_flow (view_flow a.now) (view_flow b.now) }
{
    a.table == b.table
        && a.priority == b.priority
        && a.fields.equals(&b.fields)
        && are_words_among(&a.words, &b.words)
        && are_words_among(&b.words, &a.words)
}

// Removes the flows that are the same as this one.
fn remove_same(flows: &mut Vec<ListedFlow>, flow: &ListedFlow)
    ensures { flows.new.items ≡ filter (λ g. not (is_same_flow (view_flow g) (view_flow flow.now))) flows.old.items }
{
    flows.retain(|other| !is_same(other, flow));
}

// Adds a flow, which replaces one that is the same.
fn add_flow(flows: &mut Vec<ListedFlow>, flow: ListedFlow) -> Result<(), AllocError>
    ensures { OnOk result (map view_flow flows.new.items ≡ with_flow_listed (view_flow flow) (map view_flow flows.old.items)) }
{
    remove_same(flows, &flow);
    flows.push(flow)?;
    Ok(())
}

impl Listing {
    // Of no line.
    fn new(alloc: Global) -> Listing
        ensures { view_listing result ≡ no_listing }
    {
        Listing {
            flows: Vec::new(alloc),
            faults: Vec::new(alloc),
        }
    }

    // Adds what a line says.
    fn add(&mut self, line: usize, listed: ListedLine) -> Result<(), AllocError>
        ensures { OnOk result (view_listing self.new ≡ with_listed line (view_content listed) (view_listing self.old)) }
    {
        match listed {
            ListedLine::Nothing => Ok(()),
            ListedLine::Flow(flow) => add_flow(&mut self.flows, flow),
            ListedLine::Refused(faults) => {
                self.faults.push(LineFaults { line, faults })?;
                Ok(())
            }
        }
    }
}

/// The flows of a file of ovs-ofctl, and its lines that are refused. Groups are passed over, and of actions only `conjunction` is looked at.
pub fn read_listing(alloc: Global, file: &[u8]) -> Result<Listing, AllocError>
    ensures { IfOk result (λ listing. view_listing listing ≡ listing_of (lines_of file.now)) }
{
    let mut listing = Listing::new(alloc);
    let mut number: usize = 0;
    let mut rest = file;
    while !rest.is_empty() {
        let (line, after) = cut(rest, b'\n');
        rest = after;
        number += 1;
        let listed = read_listed(alloc, number, line)?;
        listing.add(number, listed)?;
    }
    Ok(listing)
}
