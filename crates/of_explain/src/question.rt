//! What a comment asks.
ghost use Rattle.std.specs.Prelude.{◌≡◌, ℕ, List, None, Some, IfOk};
ghost use Rattle.of_explain.specs.Questions.{manner_named as manner_by, next_in, question_named, question_of, with_frame};

use of_replay::{cut_word, read_bytes, read_number};
use of_text::is;
use of_trace::{Asked, Form};
use std::alloc::AllocError;

/// How it is told what a frame would do.
#[derive(Clone, Copy, PartialEq, Eq)]
pub enum Manner {
    /// In words, as `replay --explain` tells it.
    Words,
    /// Step by step, as `trace` does.
    Steps(Form),
}

/// What a comment asks. The bytes of a frame, or its words, are in the buffer that it was read with.
#[derive(Clone, Copy, PartialEq, Eq)]
pub enum Question {
    /// The groups and flow tables.
    Flows,
    /// What a frame would do that is received next.
    Next { manner: Manner, port: u32 },
    /// The frame that words say.
    FrameOf,
    /// Nothing.
    Mark,
    Unknown,
}

fn manner_named(name: &[u8]) -> Option<Manner>
    ensures { result ≡ manner_by name.now }
{
    if is(name, b"frame") {
        return Some(Manner::Words);
    }
    if is(name, b"trace") {
        return Some(Manner::Steps(Form::Plain));
    }
    if is(name, b"explain") {
        return Some(Manner::Steps(Form::Explained));
    }
    if is(name, b"why") {
        return Some(Manner::Steps(Form::Why(Asked::All)));
    }
    None
}

// A question of one word.
fn question_of_word(name: &[u8]) -> Question
    ensures { (frame : List ℕ) → question_named name.now None ≡ with_frame frame result }
{
    if is(name, b"flows") {
        return Question::Flows;
    }
    if is(name, b"mark") {
        return Question::Mark;
    }
    Question::Unknown
}

// `PORT HEX`.
#[tactic(auto, unfolding(crate::specs::Questions::next_in))]
fn read_next(manner: Manner, words: &[u8], frame: &mut Vec<u8>) -> Result<Question, AllocError>
    ensures { IfOk result (λ q. next_in manner words.now ≡ with_frame frame.new.items q) }
{
    let (first, rest) = cut_word(words);
    let Some(port) = read_number(first) else {
        return Ok(Question::Unknown);
    };
    let Some(word) = rest else {
        return Ok(Question::Unknown);
    };
    if read_bytes(word, frame)? {
        Ok(Question::Next { manner, port })
    } else {
        Ok(Question::Unknown)
    }
}

// A question about a frame.
fn read_named(name: &[u8], words: &[u8], frame: &mut Vec<u8>) -> Result<Question, AllocError>
    ensures { IfOk result (λ q. question_named name.now (Some words.now) ≡ with_frame frame.new.items q) }
{
    if is(name, b"bytes") {
        frame.clear();
        frame.extend_from_slice(words)?;
        return Ok(Question::FrameOf);
    }
    match manner_named(name) {
        Some(manner) => read_next(manner, words, frame),
        None => Ok(Question::Unknown),
    }
}

/// What these words ask. The bytes of a frame, or its words, are put into the buffer.
#[tactic(auto, unfolding(crate::specs::Questions::question_of))]
pub fn read_question(words: &[u8], frame: &mut Vec<u8>) -> Result<Question, AllocError>
    ensures { IfOk result (λ q. question_of words.now ≡ with_frame frame.new.items q) }
{
    let (name, rest) = cut_word(words);
    match rest {
        Some(rest) => read_named(name, rest, frame),
        None => Ok(question_of_word(name)),
    }
}
