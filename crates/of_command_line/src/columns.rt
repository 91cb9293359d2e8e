//! Text in lines of at most 80 columns.

use std::alloc::{AllocError, Global};

/// How long a line is at most, unless one word is longer.
const COLUMNS: usize = 80;

/// How far the rest of a line is indented that is no row of a table, as below the first word behind `Usage: `.
const INDENT: usize = 7;

/// Lines of words. A word that has no place in the last line begins the next one.
#[derive(Drop)]
pub(crate) struct Lines {
    pub(crate) text: String,
    /// How long the last line is.
    pub(crate) column: usize,
    /// How far a new line is indented.
    pub(crate) indent: usize,
}

impl Lines {
    /// Appends a word behind so many spaces, or on a new line.
    pub(crate) fn push(&mut self, gap: usize, word: &str) -> Result<(), AllocError> {
        let after = self.column.saturating_add(gap).saturating_add(word.len());
        let spaces = if after > COLUMNS {
            self.text.push('\n')?;
            self.column = self.indent.saturating_add(word.len());
            self.indent
        } else {
            self.column = after;
            gap
        };
        for _ in 0..spaces {
            self.text.push(' ')?;
        }
        self.text.push_str(word)
    }
}

// What is right of the first two spaces that lie between words: the second column of a table.
fn second_column(line: &str) -> Option<&str> {
    let (_, rest) = line.trim_start().split_once("  ")?;
    Some(rest.trim_start())
}

// Appends a line in several ones: the words of a second column stay in it.
fn push_split(alloc: Global, text: &mut String, line: &str) -> Result<(), AllocError> {
    let column = second_column(line);
    let words = column.unwrap_or(line);
    let first = line.strip_suffix(words).unwrap_or("");
    let mut lines = Lines {
        text: first.to_string(alloc)?,
        column: first.len(),
        indent: if column.is_some() {
            first.len()
        } else {
            INDENT
        },
    };
    let mut gap = 0;
    for word in words.split(' ') {
        lines.push(gap, word)?;
        gap = 1;
    }
    text.push_str(lines.text.as_str())
}

/// A text whose longer lines are split between words.
pub(crate) fn in_columns(alloc: Global, text: &str) -> Result<String, AllocError> {
    let mut out = String::new(alloc);
    for line in text.lines() {
        if line.len() > COLUMNS {
            push_split(alloc, &mut out, line)?;
        } else {
            out.push_str(line)?;
        }
        out.push('\n')?;
    }
    Ok(out)
}
