//! The words of a line: those that are conditions, and the others.
ghost use Rattle.std.specs.Prelude.{◌≡◌, ◌∷◌, [], ◌++◌, ◌||◌, not, filter, IfOk, OnOk};
ghost use Rattle.std.specs.Str.{str_eq_ignore_ascii_case};
ghost use Rattle.of_ovs_words.specs.Words.{word_name, words_from};
ghost use Rattle.of_ovs_lines.specs.LineContents.{with_words};
ghost use Rattle.of_values.specs.Origins.{view_words};
ghost use Rattle.of_shadowing.specs.LineWords.{with_actions_begun, is_conjunction as is_conjunction_so, is_field_of as is_field_of_so, no_line_words, with_action_passed, with_line_word, with_plain, with_word_named};
ghost use Rattle.of_shadowing.specs.LineWordViews.{view_line_words};

use crate::conditions::{is_arp_field, is_condition, is_fragments};
use crate::leads::Scan;
use of_ovs_lines::begins_actions;
use of_ovs_words::{cut_word, name_of, value_of};
use of_text::is;
use std::alloc::{AllocError, Global};

/// The words of a line, so far.
#[derive(Drop)]
pub struct LineWords {
    /// Those that are no conditions, and `actions=drop` in place of all actions.
    pub plain: Vec<u8>,
    /// Those that are conditions.
    pub conditions: Vec<Vec<u8>>,
    /// Whether a word is `rarp`.
    pub is_rarp: bool,
    pub in_actions: bool,
    /// Whether an action is `conjunction`.
    pub is_clause: bool,
    /// Where its actions lead.
    pub scan: Scan,
}

fn is_conjunction(word: &[u8]) -> bool
    ensures { result ≡ is_conjunction_so word.now }
{
    name_of(word).eq_ignore_ascii_case(b"conjunction")
}

// Whether two names are those of one field.
fn is_field_of(name: &[u8], other: &[u8]) -> bool
    ensures { result ≡ is_field_of_so name.now other.now }
{
    is(name, other) || is_fragments(name) && is_fragments(other)
}

// Removes the words of the field of this one.
fn remove_named(words: &mut Vec<Vec<u8>>, word: &[u8])
    ensures { words.new.items ≡ filter (λ w. not (is_field_of_so (word_name w.items) (word_name word.now))) words.old.items }
{
    words.retain(|other| !is_field_of(name_of(other), name_of(word)));
}

// Adds a word, which takes the place of those of its field.
fn replace_named(alloc: Global, words: &mut Vec<Vec<u8>>, word: &[u8]) -> Result<(), AllocError>
    ensures { OnOk result (view_words words.new.items ≡ with_word_named word.now (view_words words.old.items)) }
{
    let copy = word.to_vec(alloc)?;
    remove_named(words, word);
    words.push(copy)?;
    Ok(())
}

impl LineWords {
    /// Of no word.
    pub fn new(alloc: Global) -> LineWords
        ensures { view_line_words result ≡ no_line_words }
    {
        LineWords {
            plain: Vec::new(alloc),
            conditions: Vec::new(alloc),
            is_rarp: false,
            in_actions: false,
            is_clause: false,
            scan: Scan::new(alloc),
        }
    }

    // An action.
    fn add_action(&mut self, alloc: Global, word: &[u8]) -> Result<(), AllocError>
        ensures { OnOk result (view_line_words self.new ≡ with_action_passed (view_line_words self.old) word.now) }
    {
        self.is_clause = self.is_clause || is_conjunction(word);
        self.scan.add(alloc, word)
    }

    // `actions=` and the first action.
    fn begin_actions(&mut self, alloc: Global, word: &[u8]) -> Result<(), AllocError>
        ensures { OnOk result (view_line_words self.new ≡ with_actions_begun (view_line_words self.old) word.now) }
    {
        self.plain.extend_from_slice(b"actions=drop")?;
        self.in_actions = true;
        self.is_clause = is_conjunction(value_of(word));
        self.scan.add(alloc, value_of(word))
    }

    // A word that is no condition.
    fn add_plain(&mut self, word: &[u8]) -> Result<(), AllocError>
        ensures { OnOk result (view_line_words self.new ≡ with_plain (view_line_words self.old) word.now) }
    {
        self.plain.extend_from_slice(word)?;
        self.plain.push(b',')?;
        self.is_rarp = self.is_rarp || is(word, b"rarp");
        Ok(())
    }

    /// Adds a word.
    pub fn add(&mut self, alloc: Global, word: &[u8]) -> Result<(), AllocError>
        ensures { OnOk result (view_line_words self.new ≡ with_line_word (view_line_words self.old) word.now) }
    {
        if self.in_actions {
            self.add_action(alloc, word)
        } else if begins_actions(word) {
            self.begin_actions(alloc, word)
        } else if is_condition(word) || self.is_rarp && is_arp_field(name_of(word)) {
            replace_named(alloc, &mut self.conditions, word)
        } else {
            self.add_plain(word)
        }
    }
}

/// The words of a line.
pub fn split_line(alloc: Global, text: &[u8]) -> Result<LineWords, AllocError>
    ensures { IfOk result (λ words. with_words with_line_word no_line_words (words_from 0 text.now) ≡ view_line_words words) }
{
    let mut words = LineWords::new(alloc);
    let mut rest = text;
    while !rest.is_empty() {
        let (word, after) = cut_word(rest);
        rest = after;
        if !word.is_empty() {
            match words.add(alloc, word) {
                Ok(()) => {}
                Err(error) => return Err(error),
            }
        }
    }
    Ok(words)
}
