//! Rows in words, without the many time rows of a log.
ghost use Rattle.std.specs.Prelude.{◌≡◌, ◌++◌, ◌∷◌, [], ℕ, List, IfOk, OnOk, if◌then◌else◌};
ghost use Rattle.std.specs.List.{list_all};
ghost use Rattle.of_text.specs.Lines.{ended};
ghost use Rattle.of_replay.specs.Lexing.{is_digit as is_decimal_digit};
ghost use Rattle.of_explain.specs.Folding.{IsFolded, folded_text, is_moment as is_moment_line, is_time_row as is_time_words};

use of_text::{cut, is};
use std::alloc::{AllocError, Global};
use std::marker::Model;

/// A text of rows in words that comes in parts, and is printed without the lines of time rows that do nothing and that another time row
/// follows.
#[derive(Drop)]
pub struct Folding {
    // the line of a time row, with its end, until it is known what comes next
    held: Vec<u8>,
    // the beginning of the line after it
    begun: Vec<u8>,
    alloc: Global,
}

impl Model for Folding {
    ghost use Rattle.of_explain.specs.Folding.{Fold};

    ghost Value = { Fold };

    ghost view = { λ f. record { held = f.held.items; begun = f.begun.items } };
}

fn is_digit(byte: u8) -> bool
    ensures { result ≡ is_decimal_digit byte }
{
    byte >= b'0' && byte <= b'9'
}

fn are_digits(word: &[u8]) -> bool
    ensures { result ≡ list_all is_decimal_digit word.now }
{
    word.iter().all(|byte| is_digit(*byte))
}

// Whether what comes behind the number of a line and a colon is a time row.
fn is_time_row(row: &[u8]) -> bool
    ensures { result ≡ is_time_words row.now }
{
    if row.len() < 3 {
        return false;
    }
    let (beginning, _) = row.split_at(3);
    is(beginning, b" t ")
}

// Whether it is the line of a time row.
fn is_moment(line: &[u8]) -> bool
    ensures { result ≡ is_moment_line line.now }
{
    let (number, row) = cut(line, b':');
    are_digits(number) && is_time_row(row)
}

// Appends a line and its end.
fn push_ended(out: &mut Vec<u8>, line: &[u8]) -> Result<(), AllocError>
    ensures { OnOk result (out.new.items ≡ out.old.items ++ ended line.now) }
{
    out.extend_from_slice(line)?;
    Ok(out.push(b'\n')?)
}

impl Folding {
    /// Nothing of a text came yet.
    pub fn new(alloc: Global) -> Self
        ensures { result ≡ record { held = []; begun = [] } }
    {
        Folding {
            held: Vec::new(alloc),
            begun: Vec::new(alloc),
            alloc,
        }
    }

    // The line that has begun ends.
    fn end_line(&mut self, out: &mut Vec<u8>) -> Result<(), AllocError>
        ensures held { OnOk result (self.new.held ≡ (if is_moment_line self.old.begun then ended self.old.begun else [])) }
        ensures begun { OnOk result (self.new.begun ≡ []) }
        ensures out { OnOk result (out.new.items ≡ out.old.items ++ (if is_moment_line self.old.begun then [] else self.old.held ++ ended self.old.begun)) }
    {
        if is_moment(&self.begun) {
            self.held.clear();
            push_ended(&mut self.held, &self.begun)?;
        } else {
            out.extend_from_slice(&self.held)?;
            push_ended(out, &self.begun)?;
            self.held.clear();
        }
        self.begun.clear();
        Ok(())
    }

    // The next byte comes.
    fn push(&mut self, byte: u8, out: &mut Vec<u8>) -> Result<(), AllocError>
        ensures { OnOk result ((text printed : List ℕ) → IsFolded text (printed ++ out.old.items) self.old →
            IsFolded (text ++ byte ∷ []) (printed ++ out.new.items) self.new) }
    {
        if byte != b'\n' {
            return Ok(self.begun.push(byte)?);
        }
        self.end_line(out)?;
        Ok(())
    }

    /// More of the text comes: what is printed now.
    pub fn pass(&mut self, text: &[u8]) -> Result<Vec<u8>, AllocError>
        ensures { IfOk result (λ out. (before printed : List ℕ) → IsFolded before printed self.old →
            IsFolded (before ++ text.now) (printed ++ out.items) self.new) }
    {
        let mut out = Vec::new(self.alloc);
        for byte in text {
            self.push(*byte, &mut out)?;
        }
        Ok(out)
    }

    /// The text ends: what is printed then.
    pub fn end(&self) -> Result<Vec<u8>, AllocError>
        ensures { IfOk result (λ out. (text printed : List ℕ) → IsFolded text printed self.now → printed ++ out.items ≡ folded_text text) }
    {
        let mut out = Vec::new(self.alloc);
        out.extend_from_slice(&self.held)?;
        out.extend_from_slice(&self.begun)?;
        Ok(out)
    }
}
