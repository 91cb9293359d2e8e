//! Laws of the replies.
ghost use Rattle.std.specs.{Prelude.◌≡◌, Prelude.ℕ, Prelude.List, List.concat};
ghost use Rattle.of_statistics.specs.Replies.{AreReplies, AreWithin, most, replies, rows_in};

/// Replies of rows hold the rows whole and in their order: joined they are the rows, each but the last could not hold the
/// row that follows its own, and where each row fits a message, each reply does.
pub fn pieces_are_whole()
    ensures cut { (xid kind : ℕ) (rows : List (List ℕ)) → AreReplies xid kind rows (replies xid kind rows) }
    ensures joined { (xid kind : ℕ) (rows : List (List ℕ)) → rows_in (replies xid kind rows) ≡ concat rows }
    ensures fits { (xid kind : ℕ) (rows : List (List ℕ)) → AreWithin most rows → AreWithin 65535 (replies xid kind rows) }
{}
