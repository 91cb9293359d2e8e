//! What is done with a classifier, step by step, and what it answers.
use crate::checks::same;
use of_classifier::Lookup;
use of_headers::{FieldKey, read};
use of_oxm::{Match, read_match};
use std::alloc::Global;
use std::process::Abort;
use std::test::Fail;

/// An entry as a row writes it: its match on the wire and its priority.
pub(crate) struct Entry {
    pub fields: &'static [u8],
    pub priority: u16,
}

/// A frame as a row writes it.
#[derive(Clone, Copy)]
pub(crate) struct Frame {
    /// The last byte of its source.
    pub source: u8,
    pub in_port: u32,
    pub ether_type: u16,
}

/// What is asked of a classifier. An answer is a place in the order in which entries were added, from 0.
pub(crate) enum Question {
    Winner(Frame),
    Peek(Frame),
    /// The winner, in a region that looks at the ingress port.
    Region(Frame),
    /// The oldest entry of that match and priority.
    Same(Entry),
}

/// What is done with a classifier, or asked of it.
pub(crate) enum Step {
    Add(Entry),
    /// Takes out the oldest entry of that match and priority.
    Take(Entry),
    /// Makes the oldest entry of that match and priority the youngest.
    Renew(Entry),
    Ask(Question, Option<usize>),
    /// The priority of the entry of a place.
    Priority(usize, Option<u16>),
    Known,
    /// The winner, and how many masks were asked: of groups of masks alone.
    Find(Frame, Option<usize>, usize),
}

/// What a step does or shows, and the step.
pub(crate) type Row = (&'static str, Step);

pub(crate) fn key_of(frame: &Frame) -> Result<FieldKey, Fail> {
    let [high, low] = frame.ether_type.to_be_bytes();
    let source = frame.source;
    let bytes = [2, 0, 0, 0, 0, 2, 2, 0, 0, 0, 0, source, high, low];
    Ok(read(&bytes, frame.in_port, 0).ok().ok_or("a frame")?.key())
}

pub(crate) fn match_of(alloc: Global, entry: &Entry) -> Result<Match, Fail> {
    Ok(read_match(alloc, entry.fields).ok().ok_or("a match")?.0)
}

fn number_at(numbers: &[usize], place: usize) -> Result<usize, Fail> {
    Ok(*numbers.get(place).ok_or("an entry was added")?)
}

pub(crate) fn add<L: Lookup>(alloc: Global, lookup: &mut L, entry: &Entry) -> Result<usize, Fail> {
    Ok(lookup.add(match_of(alloc, entry)?, entry.priority)?)
}

#[tactic(auto, using(of_classifier::proofs::SameUsed::same_used))]
fn take_same<L: Lookup>(lookup: &mut L, fields: &Match, priority: u16) {
    if let Some(number) = lookup.same(fields, priority) {
        lookup.take(number);
    }
}

#[tactic(auto, using(of_classifier::proofs::SameUsed::same_used))]
fn renew_same<L: Lookup>(lookup: &mut L, fields: &Match, priority: u16) {
    if let Some(number) = lookup.same(fields, priority) {
        lookup.renew(number);
    }
}

/// The winner of a region, which looks at the ingress port.
fn in_region<L: Lookup>(rt: &impl Abort, lookup: &L, frame: &Frame) -> Result<Option<usize>, Fail> {
    let key = key_of(frame)?;
    let (found, mask) = lookup.region(&key);
    let in_port = mask.masked(&key).numbers.in_port;
    same(rt, "the region's port", &in_port, &frame.in_port);
    Ok(found)
}

/// The number of the entry that answers a question.
fn answer<L: Lookup>(
    rt: &impl Abort,
    alloc: Global,
    lookup: &mut L,
    question: &Question,
) -> Result<Option<usize>, Fail> {
    match question {
        Question::Winner(frame) => Ok(lookup.winner(&key_of(frame)?)),
        Question::Peek(frame) => Ok(lookup.peek(&key_of(frame)?)),
        Question::Region(frame) => in_region(rt, lookup, frame),
        Question::Same(entry) => Ok(lookup.same(&match_of(alloc, entry)?, entry.priority)),
    }
}

/// Asserts whether an answer is the entry of that place.
pub(crate) fn names(
    rt: &impl Abort,
    numbers: &[usize],
    what: &str,
    found: Option<usize>,
    place: Option<usize>,
) -> Result<(), Fail> {
    let wanted = match place {
        Some(place) => Some(number_at(numbers, place)?),
        None => None,
    };
    same(rt, what, &found, &wanted);
    Ok(())
}

fn priority_at<L: Lookup>(
    lookup: &L,
    numbers: &[usize],
    place: usize,
) -> Result<Option<u16>, Fail> {
    Ok(lookup.priority(number_at(numbers, place)?))
}

/// Does what a row says, and asserts its answer.
pub(crate) fn play<L: Lookup>(
    rt: &impl Abort,
    alloc: Global,
    lookup: &mut L,
    numbers: &mut Vec<usize>,
    what: &str,
    step: &Step,
) -> Result<(), Fail> {
    match step {
        Step::Add(entry) => numbers.push(add(alloc, lookup, entry)?)?,
        Step::Take(entry) => take_same(lookup, &match_of(alloc, entry)?, entry.priority),
        Step::Renew(entry) => renew_same(lookup, &match_of(alloc, entry)?, entry.priority),
        Step::Ask(question, place) => {
            let found = answer(rt, alloc, lookup, question)?;
            names(rt, numbers, what, found, *place)?;
        }
        Step::Priority(place, wanted) => {
            same(rt, what, &priority_at(lookup, numbers, *place)?, wanted);
        }
        Step::Known => lookup.known(),
        Step::Find(..) => return Err("groups of masks".into()),
    }
    Ok(())
}

/// Plays rows from an empty classifier on.
pub(crate) fn play_all<L: Lookup>(
    rt: &impl Abort,
    alloc: Global,
    rows: &[Row],
) -> Result<(), Fail> {
    let mut lookup = L::empty(alloc, 0)?;
    play_on(rt, alloc, &mut lookup, rows)
}

fn play_on<L: Lookup>(
    rt: &impl Abort,
    alloc: Global,
    lookup: &mut L,
    rows: &[Row],
) -> Result<(), Fail> {
    let mut numbers = Vec::new(alloc);
    for (what, step) in rows {
        play(rt, alloc, lookup, &mut numbers, what, step)?;
    }
    Ok(())
}
