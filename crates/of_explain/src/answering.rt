//! Answers to questions.
ghost use Rattle.std.specs.Prelude.{◌≡◌, ◌++◌, ◌∷◌, [], IfErr, OnOk, codes};
ghost use Rattle.std.specs.Option.{option_copied};
ghost use Rattle.hex.specs.Hex.{encode_lower};
ghost use Rattle.of_switch.specs.declared.switch_error.SwitchError.TheVariants.{NoMemory};
ghost use Rattle.of_replay.specs.FileRuns.{switch_text};
ghost use Rattle.of_frame_words.specs.Frames.{frame_in_words};
ghost use Rattle.of_explain.specs.Questions.{Next, answer, answered_question, frame_line, question_words, with_answers, with_frame};

use crate::push_frame_notes;
use crate::question::{Manner, Question, read_question};
use of_build::push_hex;
use of_classifier::Lookup;
use of_frame_words::{NoFrame, read_frame};
use of_replay::{Row, RowPrinter};
use of_switch::{Switch, SwitchError};
use of_text::{disassemble, is};
use of_trace::{Output, trace_text};
use std::alloc::{AllocError, Global};

// The words of a comment that is a question.
fn words_in(line: &[u8]) -> Option<&[u8]>
    ensures { option_copied result ≡ question_words line.now }
{
    if line.len() < 3 {
        return None;
    }
    let (beginning, words) = line.split_at(3);
    if is(beginning, b"#? ") {
        Some(words)
    } else {
        None
    }
}

// Appends the groups and flow tables of a switch as flow text.
fn push_flows<L: Lookup>(
    alloc: Global,
    out: &mut Vec<u8>,
    switch: &Switch<L>,
) -> Result<(), AllocError>
    ensures { OnOk result (out.new.items ≡ out.old.items ++ switch_text switch.now) }
{
    let config = switch.config()?;
    let text = disassemble(alloc, &config)?;
    out.extend_from_slice(&text)
}

// Appends what a frame would do that is received next.
fn push_next<L: Lookup>(
    alloc: Global,
    out: &mut Vec<u8>,
    switch: &Switch<L>,
    manner: Manner,
    port: u32,
    frame: &[u8],
) -> Result<(), SwitchError>
    ensures text { OnOk result (out.new.items ≡ out.old.items ++ answer switch.now (Next manner port frame.now)) }
    ensures err { IfErr result (λ e. e ≡ NoMemory) }
{
    match manner {
        Manner::Words => push_frame_notes(alloc, out, switch, port, frame),
        Manner::Steps(form) => {
            let text = trace_text(alloc, switch, port, frame, Output::Lines(form))?;
            out.extend_from_slice(&text)?;
            Ok(())
        }
    }
}

fn push_frame_digits(alloc: Global, out: &mut Vec<u8>, frame: &[u8]) -> Result<(), AllocError>
    ensures { OnOk result (out.new.items ≡ out.old.items ++ encode_lower frame.now ++ 10 ∷ []) }
{
    push_hex(alloc, out, frame)?;
    out.push(b'\n')?;
    Ok(())
}

fn push_refused_word(out: &mut Vec<u8>, word: &[u8]) -> Result<(), AllocError>
    ensures { OnOk result (out.new.items ≡ out.old.items ++ codes "no frame: " ++ word.now ++ 10 ∷ []) }
{
    out.extend_from_slice(b"no frame: ")?;
    out.extend_from_slice(word)?;
    out.push(b'\n')?;
    Ok(())
}

// Appends the digits of the frame that words say, or the word that is refused.
fn push_frame_of(alloc: Global, out: &mut Vec<u8>, words: &[u8]) -> Result<(), AllocError>
    ensures { OnOk result (out.new.items ≡ out.old.items ++ frame_line (frame_in_words 1 words.now)) }
{
    match read_frame(alloc, 1, words) {
        Ok(received) => push_frame_digits(alloc, out, &received.frame),
        Err(NoFrame::Refused(refusal)) => push_refused_word(out, &refusal.word),
        Err(NoFrame::NoMemory) => Err(AllocError),
    }
}

// Appends the answer to a question, without the line that ends it.
fn push_answer<L: Lookup>(
    alloc: Global,
    out: &mut Vec<u8>,
    switch: &Switch<L>,
    question: Question,
    frame: &[u8],
) -> Result<(), SwitchError>
    ensures text { OnOk result (out.new.items ≡ out.old.items ++ answer switch.now (with_frame frame.now question)) }
    ensures err { IfErr result (λ e. e ≡ NoMemory) }
{
    match question {
        Question::Flows => Ok(push_flows(alloc, out, switch)?),
        Question::Next { manner, port } => push_next(alloc, out, switch, manner, port, frame),
        Question::FrameOf => Ok(push_frame_of(alloc, out, frame)?),
        Question::Mark => Ok(()),
        Question::Unknown => Ok(out.extend_from_slice(b"unknown question\n")?),
    }
}

// Appends the answer to the question of a comment.
#[tactic(auto, unfolding(crate::specs::Questions::answered_question))]
fn push_answered<L: Lookup>(
    alloc: Global,
    out: &mut Vec<u8>,
    switch: &Switch<L>,
    words: &[u8],
) -> Result<(), SwitchError>
    ensures text { OnOk result (out.new.items ≡ out.old.items ++ answered_question switch.now words.now) }
    ensures err { IfErr result (λ e. e ≡ NoMemory) }
{
    let mut frame = Vec::new(alloc);
    let question = read_question(words, &mut frame)?;
    push_answer(alloc, out, switch, question, &frame)?;
    Ok(out.extend_from_slice(b"?\n")?)
}

/// Prints for each row what another printer does, and answers questions: comments that begin with `#? `. The last line of an answer is `?`.
///
/// `flows` asks for the groups and flow tables as flow text; `frame PORT HEX` for what a frame would do that is received next, in words;
/// `trace PORT HEX`, `explain PORT HEX` and `why PORT HEX` for its steps; `bytes WORDS` for the frame that has these fields; `mark` for nothing. Nothing changes.
#[derive(Drop)]
pub struct Answering<T> {
    pub rows: T,
}

impl<L: Lookup, T: RowPrinter<L> + Drop> RowPrinter<L> for Answering<T> {
    ghost tale = { with_answers T.RowPrinter.tale };

    fn tell(
        &self,
        alloc: Global,
        switch: &mut Switch<L>,
        number: u64,
        line: &[u8],
        row: Row,
        bytes: &[u8],
        out: &mut Vec<u8>,
    ) -> Result<(), SwitchError> {
        match row {
            Row::Passed => match words_in(line) {
                Some(words) => push_answered(alloc, out, switch, words),
                None => self.rows.tell(alloc, switch, number, line, row, bytes, out),
            },
            Row::Connect
            | Row::Lost
            | Row::Chunk
            | Row::Frame { .. }
            | Row::Moment { .. }
            | Row::Ports(_) => self.rows.tell(alloc, switch, number, line, row, bytes, out),
        }
    }
}
