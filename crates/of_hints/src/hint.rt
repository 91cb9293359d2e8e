//! Hints.
ghost use Rattle.of_hints.specs.Layout.{IsSo};
ghost use Rattle.std.specs.Prelude.{IfSome};

use crate::action_lines::{ActionWords, action_of};
use crate::forms::{EVENT_ROWS, FLOW_LINES, Form, LineNames, RowNames, form_of};
use crate::layout::{LayoutFault, layout_fault, text_fault};
use crate::marked::Place;
use crate::words::{WordFault, action_fault, words_fault};
use of_text::is_passed_over;
use thiserror::Error;

/// What is wrong with a line, as a sentence that says what to do.
#[derive(Clone, Copy, Debug, Error)]
pub enum Hint {
    #[error("{0}")]
    Layout(LayoutFault),
    #[error("unknown row; rows are {0}")]
    UnknownRow(RowNames),
    #[error("unknown line; lines are {0}{1}")]
    UnknownLine(LineNames, ActionWords),
    #[error("this is a line of flow text, which asm, trace and check read")]
    FlowText,
    #[error("this is a row of an event file, which replay, dis, trace and check read")]
    EventFile,
    #[error("this is a line of ovs-ofctl: convert the file with import")]
    OpenVswitch,
    #[error("a comment is a line of its own, which begins with #")]
    Comment,
    #[error("{0}")]
    Words(WordFault),
    #[error("connect, lost and c are rows of a controller, which are not allowed in this file")]
    Controller,
    #[error("the words are right, but the line is out of place: {0}")]
    Order(&'static str),
}

impl Hint {
    /// The number of the word that is wrong, from 1; None if it is no single one.
    pub fn word(&self) -> Option<usize> {
        match self {
            Hint::Words(WordFault::Word { place, .. }) => Some(*place),
            _ => None,
        }
    }

    /// Where it is in the line.
    pub fn place(&self, line: &[u8]) -> Place {
        match self {
            Hint::Words(WordFault::Word { place, .. }) => Place::of_word(line, *place),
            Hint::UnknownRow(_) | Hint::UnknownLine(_, _) => Place::of_word(line, 1),
            Hint::Comment => Place::of_part(line, b"#"),
            _ => Place::whole(line),
        }
    }
}

// Whether a word before an equals sign is one that lines of ovs-ofctl have.
fn is_ovs_line(line: &[u8]) -> bool {
    line.split(|byte| *byte == b'=').any(|part| {
        part.ends_with(b"actions") || part.ends_with(b"action") || part.ends_with(b"group_id")
    })
}

fn is_flow_line(line: &[u8]) -> bool {
    form_of(line, &FLOW_LINES).is_some() || action_of(line).is_some()
}

// What a line is that is none of an event file.
fn other_than_row(line: &[u8]) -> Hint
    ensures { IsSo result line.now }
{
    if is_flow_line(line) {
        Hint::FlowText
    } else if is_ovs_line(line) {
        Hint::OpenVswitch
    } else {
        Hint::UnknownRow(RowNames)
    }
}

// What a line is that is none of a flow text.
fn other_than_flow(line: &[u8]) -> Hint
    ensures { IsSo result line.now }
{
    if form_of(line, &EVENT_ROWS).is_some() {
        Hint::EventFile
    } else if is_ovs_line(line) {
        Hint::OpenVswitch
    } else {
        Hint::UnknownLine(LineNames, ActionWords)
    }
}

// What is wrong with a line of a flow text that is of none of its forms.
fn other_line(line: &[u8]) -> Option<Hint>
    ensures { IfSome result (λ hint. IsSo hint line.now) }
{
    match action_of(line) {
        Some((row, words)) => action_fault(row, words).map(Hint::Words),
        None => Some(other_than_flow(line)),
    }
}

// What is wrong with a line that has to be of one of these forms, if anything is; `otherwise` of another line.
fn fault(line: &[u8], forms: &[Form], otherwise: Option<Hint>) -> Option<Hint>
    requires { IfSome otherwise (λ hint. IsSo hint line.now) }
    ensures { IfSome result (λ hint. IsSo hint line.now) }
{
    if let Some(fault) = layout_fault(line) {
        return Some(Hint::Layout(fault));
    }
    if line.contains(&b'#') {
        return Some(Hint::Comment);
    }
    let Some((form, words)) = form_of(line, forms) else {
        return otherwise;
    };
    words_fault(&form, words).map(Hint::Words)
}

/// What is wrong with a line of an event file that is a bad row.
pub fn event_row_hint(line: &[u8]) -> Hint
    ensures { IsSo result line.now }
{
    fault(line, &EVENT_ROWS, Some(other_than_row(line))).unwrap_or(Hint::Controller)
}

// The rule of the order of lines for a line of this name.
fn order_of(line: &[u8]) -> &'static str {
    let name = match form_of(line, &FLOW_LINES) {
        Some((form, _)) => std::str::from_utf8(form.name).unwrap_or(""),
        None => "",
    };
    match name {
        "group" => "groups come before all flows, in ascending order of number",
        "bucket" => "a bucket comes below its group, behind the buckets before it",
        "match" => {
            "the matches of a flow come below it, in the order of fields, each once; a mask of all ones is left out, and so is a field whose mask is 0"
        }
        "" => "an action comes below the bucket, apply or write that it belongs to",
        _ => {
            "the instructions of a flow come below its matches, in the order apply, clear, write, metadata, goto, each once"
        }
    }
}

/// What is wrong with a line of a flow text that is a syntax fault.
pub fn flow_line_hint(line: &[u8]) -> Hint
    ensures { IsSo result line.now }
{
    fault(line, &FLOW_LINES, other_line(line)).unwrap_or(Hint::Order(order_of(line)))
}

/// What is wrong with a text that is to be imported, apart from its words.
pub fn import_hint(text: &[u8]) -> Option<Hint>
    ensures { IfSome result (λ hint. IsSo hint text.now) }
{
    if let Some(fault) = text_fault(text) {
        return Some(Hint::Layout(fault));
    }
    let line = text
        .split(|byte| *byte == b'\n')
        .find(|line| !is_passed_over(line))?;
    if is_flow_line(line) {
        return Some(Hint::FlowText);
    }
    if form_of(line, &EVENT_ROWS).is_some() {
        return Some(Hint::EventFile);
    }
    None
}
