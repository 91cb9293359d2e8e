//! Checksums that are updated with the words that they cover (RFC 1624, 3).

ghost use Rattle.std.specs.Prelude.{ℕ, ◌≡◌, ◌+◌, ◌*◌, ◌%◌, ◌≤◌, ◌<◌, ◌&&◌, Bool, nat_le, nat_lt, List, length};
ghost use Rattle.of_layers.specs.Reading.{word};
ghost use Rattle.of_rewrite.specs.Spans.{with_word, stepped_sum, followed, both_followed, IsEven, AreEven};

use crate::checksum::{change_of, renewed_by};

/// Words of a frame, each of two bytes: the byte where they begin, and how many there are.
#[derive(Clone, Copy)]
pub struct Span {
    pub at: usize,
    pub words: usize,
}

impl Span {
    /// Whether the word of a byte is one of them.
    fn has(self, at: usize) -> bool
        ensures { result ≡ (nat_le self.at at && nat_lt at (self.at + 2 * self.words)) }
    {
        self.at <= at && (at - self.at) / 2 < self.words
    }
}

/// A checksum, whether words under it changed, and the words that it covers.
#[derive(Clone, Copy)]
pub struct Sum {
    pub value: u16,
    pub differs: bool,
    pub front: Span,
    pub back: Span,
}

impl Sum {
    /// The checksum after the change of one word in one of its spans.
    fn step(self, there: bool, old: u16, new: u16) -> Sum
        ensures { result ≡ stepped_sum there old new self }
    {
        if there {
            Sum {
                value: renewed_by(self.value, change_of(old, new)),
                differs: self.differs || old != new,
                ..self
            }
        } else {
            self
        }
    }

    /// The checksum after the word at a byte changed.
    fn follow(self, at: usize, old: u16, new: u16) -> Sum
        requires even { IsEven self }
        requires word { at % 2 ≡ 0 }
        ensures { (s : List ℕ) → at + 2 ≤ length s → word s at ≡ old → result ≡ followed self s (with_word at new s) }
    {
        self.step(self.front.has(at), old, new)
            .step(self.back.has(at), old, new)
    }
}

/// The checksums of a frame: that of the IPv4 header, and that of what an IP packet carries.
#[derive(Clone, Copy)]
pub struct Sums {
    pub header: Sum,
    pub carried: Sum,
}

impl Sums {
    /// The checksums after the word at a byte changed.
    pub fn follow(self, at: usize, old: u16, new: u16) -> Sums
        requires even { AreEven self }
        requires word { at % 2 ≡ 0 }
        ensures { (s : List ℕ) → at + 2 ≤ length s → word s at ≡ old → result ≡ both_followed self s (with_word at new s) }
    {
        Sums {
            header: self.header.follow(at, old, new),
            carried: self.carried.follow(at, old, new),
        }
    }
}
