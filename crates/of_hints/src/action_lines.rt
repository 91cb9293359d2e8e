//! The lines of actions in flow text, by the rows of the table of actions.

use crate::forms::{BYTE, HALF, NUMBER, Word, behind, write_letters};
use of_actions::{ACTIONS, ActionRow, Form};
use of_wire::keyword;
use std::fmt::{self, Display, Formatter, Write};

/// The words of all actions, each after a comma.
#[derive(Clone, Copy, Debug)]
pub struct ActionWords;

impl Display for ActionWords {
    fn fmt<W: Write>(&self, f: &mut Formatter<W>) -> fmt::Result {
        for row in &ACTIONS {
            f.write_str(", ")?;
            write_letters(f, keyword(&row.word))?;
        }
        Ok(())
    }
}

/// The line of an action, as people write it.
#[derive(Clone, Copy, Debug)]
pub struct ActionUsage {
    word: [u8; 12],
    others: &'static str,
}

impl Display for ActionUsage {
    fn fmt<W: Write>(&self, f: &mut Formatter<W>) -> fmt::Result {
        write_letters(f, keyword(&self.word))?;
        f.write_str(self.others)
    }
}

/// The line of this action, as people write it.
pub fn usage_of(row: ActionRow) -> ActionUsage {
    let others = match row.form {
        Form::Nothing => "",
        Form::Byte | Form::Word => " N",
        Form::Tag => " TYPE",
        Form::Port => " PORT MAX",
        Form::Field => " NAME VALUE",
    };
    let word = row.word;
    ActionUsage { word, others }
}

/// The words after that of an action of this form.
pub fn words_of(form: Form) -> &'static [Word] {
    match form {
        Form::Nothing => &[],
        Form::Byte => &[BYTE],
        Form::Tag => &[Word::Hex(2)],
        Form::Word => &[NUMBER],
        Form::Port => &[NUMBER, HALF],
        Form::Field => &[Word::Field, Word::Value],
    }
}

/// The action whose word a line begins with, and its other words.
pub fn action_of(line: &[u8]) -> Option<(ActionRow, Option<&[u8]>)> {
    for row in &ACTIONS {
        if let Some(words) = behind(line, keyword(&row.word)) {
            return Some((*row, words));
        }
    }
    None
}
