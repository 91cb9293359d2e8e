//! What a call gives.
ghost use Rattle.std.specs.Prelude.{◌≡◌, [], Some, length};
ghost use Rattle.of_replay.specs.Ended.{status_of};
ghost use Rattle.of_c.specs.Answers.{first_bad_line as first_line_of, line_at_fault as line_in, line_of_import as import_line, line_of_none, status_of_import as import_status, status_of_none, with_front};

use of_files::NoContents;
use of_import::{ImportError, LineFaults, LineRefusal};
use of_replay::memory::MemorySink;
use of_replay::{Ended, status};
use of_text::TextFault;
use std::alloc::Global;

/// What a call gave, beside its text.
#[repr(C)]
#[derive(Clone, Copy, Drop)]
pub struct Answer {
    /// The length of the whole text in bytes, also where the buffer has less room.
    pub length: usize,
    /// The line of the file that is at fault, from 1; 0: none.
    pub line: u64,
    /// The exit status of the command: 0 if all is well, 1 if the switch lacks the port, 2 if the file is at fault, 3 if memory ran out, 4 and 5 as the command has them.
    pub status: u8,
}

/// How a call ended.
#[derive(Clone, Copy)]
pub struct Outcome {
    pub status: u8,
    pub line: u64,
}

/// The exit status if a file, a row or words are at fault.
pub const BAD_FILE: u8 = 2;

/// The exit status if the switch does not have the port that is asked for.
pub const NO_PORT: u8 = 1;

/// The exit status if memory ran out.
pub const NO_MEMORY: u8 = 3;

// The line at fault.
fn line_of(ended: &Ended) -> u64
    ensures { result ≡ line_in ended.now }
{
    match ended {
        Ended::BadRow(line) => *line,
        Ended::Text(TextFault::Syntax(line)) => *line as u64,
        Ended::Text(TextFault::Refused { line, .. }) => *line as u64,
        _ => 0,
    }
}

/// How a run ended, with the line at fault.
pub fn outcome_of(ended: &Ended) -> Outcome
    ensures status { result.status ≡ status_of ended.now }
    ensures line { result.line ≡ line_in ended.now }
{
    Outcome {
        status: status(ended),
        line: line_of(ended),
    }
}

fn first_line(faults: &[LineFaults], refused: &[LineRefusal]) -> u64
    ensures { result ≡ first_line_of faults.now refused.now }
{
    match (faults.first(), refused.first()) {
        (Some(fault), _) => fault.line as u64,
        (None, Some(refusal)) => refusal.line as u64,
        (None, None) => 0,
    }
}

fn import_outcome(error: &ImportError) -> Outcome
    ensures status { result.status ≡ import_status error.now }
    ensures line { result.line ≡ import_line error.now }
{
    let line = match error {
        ImportError::Faults(faults, refused) => first_line(faults, refused),
        ImportError::Refused { line, .. } => *line as u64,
        ImportError::NoMemory | ImportError::TooMany(_) => 0,
    };
    let status = match error {
        ImportError::NoMemory => NO_MEMORY,
        _ => BAD_FILE,
    };
    Outcome { status, line }
}

/// Why a file describes no switch.
pub fn unread(why: &NoContents) -> Outcome
    ensures status { result.status ≡ status_of_none why.now }
    ensures line { result.line ≡ line_of_none why.now }
{
    match why {
        NoContents::Ended(ended) => outcome_of(ended),
        NoContents::NotImported(error) => import_outcome(error),
    }
}

fn copy_front(buffer: &mut [u8], text: &[u8])
    ensures { buffer.new ≡ with_front text.now buffer.old }
{
    let count = buffer.len().min(text.len());
    buffer[..count].copy_from_slice(&text[..count]);
}

/// Gives a text and how the call ended to the caller.
pub fn give(text: &[u8], outcome: Outcome, buffer: &mut [u8], answer: &mut Answer)
    ensures buffer { buffer.new ≡ with_front text.now buffer.old }
    ensures length { answer.new.length ≡ length text.now }
    ensures outcome { (answer.new.status ≡ outcome.status) × (answer.new.line ≡ outcome.line) }
{
    copy_front(buffer, text);
    answer.length = text.len();
    answer.status = outcome.status;
    answer.line = outcome.line;
}

/// A sink that takes all of a write.
pub fn sink(alloc: Global) -> MemorySink
    ensures bytes { result.bytes.items ≡ [] }
    ensures failures { result.failures ≡ 0 }
{
    MemorySink::new(alloc, usize::MAX, 0)
}
