//! Words that are refused.

use of_ovs_words::Why;

/// A word that is refused, and why.
#[derive(Debug, Drop)]
pub struct WordFault {
    pub word: Vec<u8>,
    pub why: Why,
}
