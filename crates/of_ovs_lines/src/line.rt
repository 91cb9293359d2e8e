//! What a line says.
ghost use Rattle.std.specs.Prelude.{◌≡◌, ◌++◌, ◌∷◌, [], ◌||◌, codes, IfOk, OnOk};
ghost use Rattle.std.specs.{List.fold, Str.bytes_eq};
ghost use Rattle.of_text.specs.Lines.{before};
ghost use Rattle.of_ovs_words.specs.Words.{words_from};
ghost use Rattle.of_ovs_lines.specs.LineContents.{begins_group as begins_group_so, flow_content, group_content, parsed_flow, parsed_group, is_command_name as is_command_word, is_heading as is_heading_text, names_group_id as names_group_so, parsed_line, parsed_text as parsed_text_of, says_protocol as says_protocol_so, with_later_word, with_word_of_protocol, with_words, words_before_actions, trimmed as trimmed_of};
ghost use Rattle.of_ovs_lines.specs.{Finished.in_numbers, Finished.new_table_number as renumbered_by, PartialFlows.blank, PartialGroups.no_group, PartialGroups.with_group_word, Sound.IsSoundContent};
ghost use Rattle.of_ovs_lines.specs.{PartialFlowViews.view_partial_flow, PartialGroupViews.view_partial_group, LineContentViews.view_line_content};

use crate::finish::{flow_from, refusal_of};
use crate::mode::Mode;
use crate::partial_flow::{PartialFlow, begins_actions};
use crate::partial_group::{PartialGroup, is_other_command};
use crate::word_fault::WordFault;
use of_ovs_words::{ProtocolWord, Stop, cut_word, fields_of, is_gap, name_of};
use of_text::{FlowText, GroupText, cut, is};
use std::alloc::{AllocError, Global};

/// What a flow text does not have of the line of a flow.
#[derive(Drop)]
pub struct FlowMarks {
    /// Actions that are left out.
    pub left: Vec<Vec<u8>>,
    /// Whether GOTO_TABLE is its `resubmit`.
    pub resubmits: bool,
    /// What a dump counted of the flow, as words.
    pub counters: Vec<Vec<u8>>,
}

/// What a line says.
#[derive(Drop)]
pub enum LineContent {
    Nothing,
    Group(GroupText),
    Flow(FlowText, FlowMarks),
    Refused(Vec<WordFault>),
}

// Whether a word says a protocol, on which the fields of other words depend.
fn says_protocol(word: &[u8]) -> bool
    ensures { result ≡ says_protocol_so word.now }
{
    let name = name_of(word);
    ProtocolWord::named(name).is_some()
        || is(name, b"dl_type")
        || is(name, b"eth_type")
        || is(name, b"nw_proto")
        || is(name, b"ip_proto")
        || is(name, b"arp_op")
}

// Adds what a word says, if it says a protocol.
fn add_protocol_word(
    alloc: Global,
    partial: &mut PartialFlow,
    word: &[u8],
) -> Result<(), AllocError>
    ensures { OnOk result (view_partial_flow partial.new ≡ with_word_of_protocol (view_partial_flow partial.old) word.now) }
{
    if says_protocol(word) {
        partial.add_word(alloc, word)
    } else {
        Ok(())
    }
}

// Adds what the words of a match say that say a protocol.
fn add_protocol_words(
    alloc: Global,
    partial: &mut PartialFlow,
    text: &[u8],
) -> Result<(), AllocError>
    ensures { OnOk result (fold with_word_of_protocol (view_partial_flow partial.old) (words_before_actions (words_from 0 text.now)) ≡
        view_partial_flow partial.new) }
{
    let mut rest = text;
    while !rest.is_empty() {
        let (word, after) = cut_word(rest);
        rest = after;
        if begins_actions(word) {
            return Ok(());
        }
        match add_protocol_word(alloc, partial, word) {
            Ok(()) => {}
            Err(error) => return Err(error),
        }
    }
    Ok(())
}

// Adds what another word says.
fn add_later_word(alloc: Global, partial: &mut PartialFlow, word: &[u8]) -> Result<(), AllocError>
    ensures { OnOk result (view_partial_flow partial.new ≡ with_later_word (view_partial_flow partial.old) word.now) }
{
    if !partial.in_actions && says_protocol(word) {
        Ok(())
    } else {
        partial.add_word(alloc, word)
    }
}

// Adds what the other words say.
fn add_later_words(alloc: Global, partial: &mut PartialFlow, text: &[u8]) -> Result<(), AllocError>
    ensures { OnOk result (with_words with_later_word (view_partial_flow partial.old) (words_from 0 text.now) ≡ view_partial_flow partial.new) }
{
    let mut rest = text;
    while !rest.is_empty() {
        let (word, after) = cut_word(rest);
        rest = after;
        if !word.is_empty() {
            match add_later_word(alloc, partial, word) {
                Ok(()) => {}
                Err(error) => return Err(error),
            }
        }
    }
    Ok(())
}

// Adds what words say of a group.
fn add_group_words(alloc: Global, partial: &mut PartialGroup, text: &[u8]) -> Result<(), AllocError>
    ensures { OnOk result (with_words with_group_word (view_partial_group partial.old) (words_from 0 text.now) ≡ view_partial_group partial.new) }
{
    let mut rest = text;
    while !rest.is_empty() {
        let (word, after) = cut_word(rest);
        rest = after;
        if !word.is_empty() {
            match partial.add_word(alloc, word) {
                Ok(()) => {}
                Err(error) => return Err(error),
            }
        }
    }
    Ok(())
}

// The new number of a table, where the list has one.
fn renumbered(numbers: &[u8], table: u8) -> u8
    ensures { result ≡ renumbered_by numbers.now table }
{
    match numbers.get(usize::from(table)) {
        Some(number) => *number,
        None => table,
    }
}

fn renumber(partial: &mut PartialFlow, numbers: &[u8])
    ensures { view_partial_flow partial.new ≡ in_numbers numbers.now (view_partial_flow partial.old) }
{
    partial.head.table = renumbered(numbers, partial.head.table);
    partial.goto = match partial.goto {
        Some(table) => Some(renumbered(numbers, table)),
        None => None,
    };
}

fn one_fault(alloc: Global, fault: WordFault) -> Result<Vec<WordFault>, AllocError>
    ensures { IfOk result (λ faults. faults.items ≡ fault ∷ []) }
{
    let mut faults = Vec::new(alloc);
    faults.push(fault)?;
    Ok(faults)
}

// What the words of a flow say.
#[tactic(auto, unfolding(crate::specs::LineContents::flow_content))]
fn finish_flow(alloc: Global, partial: PartialFlow) -> Result<LineContent, AllocError>
    ensures parsed { IfOk result (λ content. view_line_content content ≡ flow_content (view_partial_flow partial)) }
    ensures sound { IfOk result IsSoundContent }
{
    let mut partial = partial;
    if !partial.faults.is_empty() {
        return Ok(LineContent::Refused(partial.faults));
    }
    let fields = fields_of(alloc, &partial.settings)?;
    if let Some(fault) = refusal_of(alloc, &fields, &partial)? {
        return Ok(LineContent::Refused(one_fault(alloc, fault)?));
    }
    let flow = flow_from(alloc, fields, &mut partial)?;
    Ok(LineContent::Flow(
        flow,
        FlowMarks {
            left: partial.left,
            resubmits: partial.resubmits,
            counters: partial.counters,
        },
    ))
}

fn read_flow(
    alloc: Global,
    mode: Mode,
    numbers: &[u8],
    text: &[u8],
) -> Result<LineContent, AllocError>
    ensures parsed { IfOk result (λ content. view_line_content content ≡ parsed_flow mode numbers.now text.now) }
    ensures sound { IfOk result IsSoundContent }
{
    let mut partial = PartialFlow::blank(alloc, mode);
    add_protocol_words(alloc, &mut partial, text)?;
    add_later_words(alloc, &mut partial, text)?;
    renumber(&mut partial, numbers);
    finish_flow(alloc, partial)
}

// What the words of a group say.
#[tactic(auto, unfolding(crate::specs::LineContents::group_content))]
fn finish_group(alloc: Global, partial: PartialGroup) -> Result<LineContent, AllocError>
    ensures parsed { IfOk result (λ content. view_line_content content ≡ group_content (view_partial_group partial)) }
    ensures sound { IfOk result IsSoundContent }
{
    if !partial.faults.is_empty() {
        return Ok(LineContent::Refused(partial.faults));
    }
    match partial.finish() {
        Ok(group) => Ok(LineContent::Group(group)),
        Err(Stop::Refused(why)) => {
            let word = b"type".to_vec(alloc)?;
            Ok(LineContent::Refused(one_fault(alloc, WordFault { word, why })?))
        }
        Err(Stop::NoMemory) => Err(AllocError),
    }
}

fn read_group(alloc: Global, text: &[u8]) -> Result<LineContent, AllocError>
    ensures parsed { IfOk result (λ content. view_line_content content ≡ parsed_group text.now) }
    ensures sound { IfOk result IsSoundContent }
{
    let mut partial = PartialGroup::blank(alloc);
    add_group_words(alloc, &mut partial, text)?;
    finish_group(alloc, partial)
}

/// Without white space before it.
pub fn trimmed(text: &[u8]) -> &[u8]
    ensures { result.now ≡ trimmed_of text.now }
{
    for (i, byte) in text.iter().enumerate() {
        if !is_gap(*byte) {
            return &text[i..];
        }
    }
    &[]
}

// Whether it is a line that dumps begin with.
fn is_heading(text: &[u8]) -> bool
    ensures { result ≡ is_heading_text text.now }
{
    let (word, _) = cut(text, b'_');
    is(word, b"OFPST") || is(word, b"NXST")
}

fn is_command(word: &[u8]) -> bool
    ensures { result ≡ is_command_word word.now }
{
    is(word, b"add") || is_other_command(word)
}

fn names_group(text: &[u8]) -> bool
    ensures { result ≡ names_group_so text.now }
{
    is(name_of(text), b"group_id") || is(name_of(text), b"type")
}

/// Whether it is a group, also behind a command. There is no white space before it.
pub fn begins_group(text: &[u8]) -> bool
    ensures { result ≡ begins_group_so text.now }
{
    let (word, rest) = cut_word(text);
    names_group(text) || is_command(word) && names_group(trimmed(rest))
}

fn read_text(
    alloc: Global,
    mode: Mode,
    numbers: &[u8],
    text: &[u8],
) -> Result<LineContent, AllocError>
    ensures parsed { IfOk result (λ content. view_line_content content ≡ parsed_text_of mode numbers.now text.now) }
    ensures sound { IfOk result IsSoundContent }
{
    if text.is_empty() || is_heading(text) {
        Ok(LineContent::Nothing)
    } else if begins_group(text) {
        read_group(alloc, text)
    } else {
        read_flow(alloc, mode, numbers, text)
    }
}

/// What a line says, or all its words that are refused; tables get the numbers of the list.
#[tactic(auto, unfolding(crate::specs::LineContents::parsed_line))]
pub fn read_line(
    alloc: Global,
    mode: Mode,
    numbers: &[u8],
    line: &[u8],
) -> Result<LineContent, AllocError>
    ensures parsed { IfOk result (λ content. view_line_content content ≡ parsed_line mode numbers.now line.now) }
    ensures sound { IfOk result IsSoundContent }
{
    let (text, _) = cut(line, b'#');
    read_text(alloc, mode, numbers, trimmed(text))
}
