//! What is printed for the rows of a file.
ghost use Rattle.std.specs.Prelude.{◌≡◌, ◌++◌, ℕ, List, Option, IfErr, OnOk};
ghost use Rattle.of_switch.specs.{declared.event.Event.Event, State.State, declared.switch_error.SwitchError.TheVariants.NoMemory};
ghost use Rattle.of_replay.specs.{Rows.with_bytes, RowTexts.row_happened};

use crate::rows::Row;
use of_classifier::Lookup;
use of_switch::{Switch, SwitchError};
use std::alloc::Global;

/// Prints what rows do, one after the other.
pub trait RowPrinter<L: Lookup> {
    /// What is printed for a row that happens to a switch in this state, by the number of its line, from 1, its line and itself.
    ghost tale: { ℕ → State → List ℕ → Option Event → List ℕ };

    /// Plays the row of a line, whose bytes are given beside it, and appends what is printed for it.
    ///
    /// It fails only where memory runs out. Then some of that may have been appended.
    fn tell(
        &self,
        alloc: Global,
        switch: &mut Switch<L>,
        number: u64,
        line: &[u8],
        row: Row,
        bytes: &[u8],
        out: &mut Vec<u8>,
    ) -> Result<(), SwitchError>
        ensures text { OnOk result (out.new.items ≡ out.old.items ++ tale number switch.old line.now (with_bytes bytes.now row)) }
        ensures switch { OnOk result (switch.new ≡ (row_happened switch.old (with_bytes bytes.now row)).state) }
        ensures err { IfErr result (λ e. e ≡ NoMemory) };
}
