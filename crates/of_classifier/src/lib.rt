//! Classifiers: which entry wins if several match a frame (OpenFlow 1.3.5, 5.3).
#![tactic(auto)]

mod laws;
mod scan;

ghost use Rattle.std.specs.Prelude.{◌≡◌, ◌++◌, ℕ, List, [], ◌∷◌, Option, IsTrue, false, IfOk, OnErr};
ghost use Rattle.of_layers.specs.declared.field.Field.{Field};
ghost use Rattle.of_headers.specs.FieldMap.{value};
ghost use Rattle.of_wire.specs.Numbered.{is_used, is_distinct, without, moved_to_end};
ghost use Rattle.of_classifier.specs.{declared.Row.Row, Rows.made_row, Rows.row_number, Rows.same_of, Rows.priority_of, Winner.winner_of, Winner.winner_number};
ghost use Rattle.of_oxm.specs.Masks.{mask_at, Agree};

pub use laws::one_winner;
use of_headers::FieldKey;
use of_oxm::{FieldMask, Match};
pub use scan::{Scan, is_same, mask_of_all};
use std::alloc::{AllocError, Global};

/// An entry of a classifier.
#[derive(Drop)]
pub struct Row {
    /// By which its owner names it.
    pub number: usize,
    /// The higher one wins.
    pub priority: u16,
    pub fields: Match,
}

/// Finds the entry that wins if several match a frame (OpenFlow 1.3.5, 5.3).
pub trait Lookup: Sized + Drop {
    /// The entries, oldest first.
    ghost content: { Self → List Row };

    /// In each field the bits on which it depends which of the entries wins, or none.
    ghost looked: { List Row → (Field → Option ℕ) → Field → Option ℕ };

    /// Without entries. No answer depends on the seed, but who knows it may pick matches and frames that make answers late, where
    /// the entries are hashed.
    fn empty(alloc: Global, seed: u64) -> Result<Self, AllocError>
        ensures { IfOk result (λ lookup. content lookup ≡ []) };

    /// The number of the entry that wins. It may rearrange what helps to find it.
    fn winner(&mut self, key: &FieldKey) -> Option<usize>
        ensures answer { result ≡ winner_number (winner_of (content self.old) (value key.now)) }
        ensures kept { content self.new ≡ content self.old };

    /// The number of the entry that wins.
    fn peek(&self, key: &FieldKey) -> Option<usize>
        ensures { result ≡ winner_number (winner_of (content self.now) (value key.now)) };

    /// The number of the entry that wins, and the bits on which that depends: it wins for whatever
    /// agrees with the key in them.
    fn region(&self, key: &FieldKey) -> (Option<usize>, FieldMask)
        ensures answer { result.0 ≡ winner_number (winner_of (content self.now) (value key.now)) }
        ensures alike { (map : Field → Option ℕ) → Agree (mask_at result.1) map (value key.now) →
            winner_of (content self.now) map ≡ winner_of (content self.now) (value key.now) }
        ensures mask { (f : Field) → mask_at result.1 f ≡ looked (content self.now) (value key.now) f };

    /// The priority of the entry of that number.
    fn priority(&self, number: usize) -> Option<u16>
        ensures { result ≡ priority_of number (content self.now) };

    /// Appends an entry, under a number that was not in use, and returns the number.
    fn add(&mut self, fields: Match, priority: u16) -> Result<usize, AllocError>
        ensures ok { IfOk result (λ number. content self.new ≡ content self.old ++ made_row number priority fields ∷ []) }
        ensures unused { IfOk result (λ number. is_used row_number number (content self.old) ≡ false) }
        ensures err { OnErr result (content self.new ≡ content self.old) };

    /// Removes the entry of that number.
    fn take(&mut self, number: usize)
        requires { IsTrue (is_used row_number number (content self.old)) }
        ensures { content self.new ≡ without row_number number (content self.old) };

    /// The number of the oldest entry of that match and priority.
    fn same(&self, fields: &Match, priority: u16) -> Option<usize>
        ensures { result ≡ winner_number (same_of (content self.now) fields.now priority) };

    /// Makes the entry of that number the youngest.
    fn renew(&mut self, number: usize)
        requires { IsTrue (is_used row_number number (content self.old)) }
        ensures { content self.new ≡ moved_to_end row_number number (content self.old) };

    /// No two entries have the same number.
    fn known(&self)
        ensures { IsTrue (is_distinct row_number (content self.now)) };
}
