//! Who changed a view of a switch.
ghost use Rattle.std.specs.Prelude.{◌≡◌, ℕ, List};
ghost use Rattle.of_replay.specs.Rows.{with_bytes};
ghost use Rattle.of_history.specs.{Causes.by_row as caused_by, CauseViews.by_of};

use of_replay::Row;
use std::marker::Model;

/// What changed it.
#[derive(Clone, Copy)]
pub enum By {
    /// The message of the controller that has this number in the row, from 1.
    Message(u64),
    /// A time.
    Moment,
    /// A port is added or removed, or its link changes.
    Port,
    /// Another row.
    Row,
}

/// Who changed it.
#[derive(Drop)]
pub struct Cause<'a> {
    /// The number of the row's line, from 1.
    pub number: u64,
    pub line: &'a [u8],
    pub by: By,
    /// The message, or lines about what expires at the time.
    pub text: &'a [u8],
}

impl<'a> Model for Cause<'a> {
    ghost use Rattle.of_history.specs.{Causes.Cause as TheCause, CauseViews.by_of as by_whom};

    ghost Value = { TheCause };

    ghost view = { λ c. record { number = c.number; line = c.line.now; by = by_whom c.by c.text.now } };
}

/// By a row.
pub fn by_row(row: Row) -> By
    ensures { (bytes expired : List ℕ) → by_of result expired ≡ caused_by expired (with_bytes bytes row) }
{
    match row {
        Row::Moment { .. } => By::Moment,
        Row::Ports(_) => By::Port,
        Row::Passed | Row::Connect | Row::Lost | Row::Chunk | Row::Frame { .. } => By::Row,
    }
}
