//! What is known from a history.
ghost use Rattle.std.specs.Prelude.{◌≡◌, ℕ, List, Option};
ghost use Rattle.of_datapath.specs.Datapath.{Forwarding};
ghost use Rattle.of_switch.specs.{declared.event.Event.Event, State.State};
ghost use Rattle.of_replay.specs.RowTexts.{row_happened};
ghost use Rattle.of_history.specs.{Turns.Turn, Turns.after_turns, Turns.row_turns, Changes.after_rows, Changes.rows_told_last, Changes.told_last};

/// At each place between two turns, and between two rows, the view is the text that was told last before it, or the first one where none was.
///
/// The turns of a row lead to the flow tables, groups and ports to which the row leads.
pub fn fates_between()
    ensures turns { (seen : Forwarding → List ℕ) (s : State) (before : List Turn) →
        told_last seen (seen s.core.forwarding) s before ≡ seen (after_turns s before).core.forwarding }
    ensures rows { (seen : Forwarding → List ℕ) (s : State) (before : List (Option Event)) →
        rows_told_last seen (seen s.core.forwarding) s before ≡ seen (after_rows s before).core.forwarding }
    ensures last { (s : State) (row : Option Event) → (after_turns s (row_turns s row)).core.forwarding ≡ (row_happened s row).state.core.forwarding }
{}
