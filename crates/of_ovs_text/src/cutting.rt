//! Words, one after the other.
ghost use Rattle.std.specs.Prelude.{◌≡◌, Err};
ghost use Rattle.of_ovs_text.specs.{Cutting.after_leading, Cutting.leading_word, Reasons.SaysOrFails, Reasons.reason_of_word};

use crate::no_message::NoMessage;
use of_ovs_lines::trimmed;
use of_ovs_words::cut_word;
use of_wire::Bytes;
use std::alloc::Global;

/// The first word, and what comes after it, without white space before either.
pub fn cut_first(text: &[u8]) -> (&[u8], &[u8])
    ensures first { result.0.now ≡ leading_word text.now }
    ensures rest { result.1.now ≡ after_leading text.now }
{
    let (word, rest) = cut_word(trimmed(text));
    (word, trimmed(rest))
}

/// Refuses a word; if it is empty, a word is missing.
pub fn refuse_word(alloc: Global, word: &[u8]) -> Result<Bytes, NoMessage>
    ensures { SaysOrFails result (Err (reason_of_word word.now)) }
{
    if word.is_empty() {
        return Err(NoMessage::Missing);
    }
    Err(NoMessage::Word(word.to_vec(alloc)?))
}
