//! Rows of ports that the switch refuses.
use crate::teller::Teller;
use crate::{later_of, refusal_of, row_numbers};
use of_classifier::Scan;
use of_switch::{Event, PortChange, Switch};
use std::alloc::AllocError;

/// A change of ports by a row of the event file.
#[derive(Clone, Copy)]
struct DueRow {
    // in nanoseconds
    due: u64,
    // the number of its line, from 1
    line: usize,
    change: PortChange,
}

/// The ports that there are by all rows until now. Only rows add and remove ports, so a switch of its own refuses the same rows.
#[derive(Drop)]
pub struct PortRows<'r> {
    teller: &'r Teller<'r>,
    switch: Switch<Scan>,
    // those of the event file, and how many of them came
    rows: Vec<DueRow>,
    came: usize,
}

impl<'r> PortRows<'r> {
    /// The ports that are there before the first row.
    pub fn new(teller: &'r Teller<'r>, first: &[Event]) -> Result<Self, AllocError> {
        let mut ports = PortRows {
            teller,
            switch: Switch::<Scan>::new(teller.rt.alloc(), 1)?,
            rows: Vec::new(teller.rt.alloc()),
            came: 0,
        };
        for event in first {
            if let Event::Ports(change) = event {
                refusal_of(&mut ports.switch, *change)?;
            }
        }
        Ok(ports)
    }

    /// The rows of the bytes of an event file, which are these events.
    pub fn read(&mut self, file: &[u8], events: &[Event]) -> Result<(), AllocError> {
        let lines = row_numbers(self.teller.rt.alloc(), file)?;
        let mut due: u64 = 0;
        for (event, line) in events.iter().zip(lines.iter()) {
            if let Event::Ports(change) = event {
                self.rows.push(DueRow {
                    due,
                    line: *line,
                    change: *change,
                })?;
            }
            due = later_of(event, due);
        }
        Ok(())
    }

    /// The clock says this time: says which of the rows that are due by now are refused.
    pub fn pass(&mut self, now: u64) {
        for row in self.rows.iter().skip(self.came) {
            if row.due > now {
                return;
            }
            if let Ok(Some(why)) = refusal_of(&mut self.switch, row.change) {
                let _ = eprintln!(self.teller; "row {} refused: {why}", row.line);
            }
            self.came = self.came.saturating_add(1);
        }
    }

    /// Says that a row of standard input is refused, if it is.
    pub fn play(&mut self, number: u64, change: PortChange) {
        if let Ok(Some(why)) = refusal_of(&mut self.switch, change) {
            let _ = eprintln!(self.teller; "standard input: row {number} refused: {why}");
        }
    }
}
