//! Laws of turns, by their events.
ghost use Rattle.std.specs.Prelude.{◌≡◌, List, map, Some, None, true};
ghost use Rattle.std.specs.List.{AllByRecursion};
ghost use Rattle.of_switch.specs.Runs.{effects_in, run};
ghost use Rattle.of_replay.specs.{Lexing.lines_of_file, Rows.rows_of_lines, WrittenRows.HasLine};
ghost use Rattle.of_live.specs.{Live.Live, Turns.LiveTurns, Turns.passed, Turns.rows_text, Turns.after_live_turns, Recorded.effects, Recorded.events, Recorded.log_of};

use of_replay::written_rows_are_read;

/// What happens to a switch on a network, and what that gives, is the run of one list of events: those of its turns, in order.
pub fn turns_are_a_run()
    ensures state { (l : Live) (ts : LiveTurns) → (after_live_turns l ts).state ≡ (run (events l ts) l.state).state }
    ensures effects { (l : Live) (ts : LiveTurns) → effects l ts ≡ effects_in (run (events l ts) l.state).reports }
{}

/// The log has the rows of these events, and is read as them, if each has a row that is no longer than a line may be.
pub fn logs_are_read()
    ensures rows { (l : Live) (ts : LiveTurns) → log_of (passed true l ts) ≡ rows_text (events l ts) }
    ensures read { (l : Live) (ts : LiveTurns) → AllByRecursion HasLine (map Some (events l ts)) →
        rows_of_lines (lines_of_file (log_of (passed true l ts))) ≡ record { events = events l ts; bad = None } }
{
    written_rows_are_read();
}
