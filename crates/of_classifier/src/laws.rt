//! What it is to win.
ghost use Rattle.std.specs.Prelude.{◌≡◌, ◌↔◌, ℕ, List, Option, Some, None};
ghost use Rattle.of_layers.specs.declared.field.Field.{Field as AField};
ghost use Rattle.of_classifier.specs.{declared.Row.Row as ARow, Winner.winner_of, Winner.Wins, Winner.NoneMatches};

/// The winner is the oldest of the matching entries of the highest priority, and there is none
/// exactly where no entry matches (OpenFlow 1.3.5, 5.3).
pub fn one_winner()
    ensures wins { (rows : List ARow) (key : AField → Option ℕ) (r : ARow) → (winner_of rows key ≡ Some r) ↔ ((place : ℕ) × Wins rows key place r) }
    ensures none { (rows : List ARow) (key : AField → Option ℕ) → (winner_of rows key ≡ None) ↔ NoneMatches rows key }
{}
