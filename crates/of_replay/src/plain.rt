//! What `replay` prints of a row: what the switch gives.
ghost use Rattle.of_replay.specs.RowTexts.{plain_row_text};

use crate::output::push_report;
use crate::play::play_row;
use crate::rows::Row;
use crate::telling::RowPrinter;
use of_classifier::Lookup;
use of_switch::{Switch, SwitchError};
use std::alloc::Global;

/// Prints for a row the lines of what it gives.
#[derive(Drop)]
pub struct Plain;

impl<L: Lookup> RowPrinter<L> for Plain {
    ghost tale = { plain_row_text };

    fn tell(
        &self,
        alloc: Global,
        switch: &mut Switch<L>,
        _number: u64,
        _line: &[u8],
        row: Row,
        bytes: &[u8],
        out: &mut Vec<u8>,
    ) -> Result<(), SwitchError> {
        let called = play_row(alloc, switch, row, bytes);
        push_report(alloc, out, called)
    }
}
