//! What happens to a switch that serves: the rows of its event file as they are due, and the log.

use crate::event_log::EventLog;
use crate::teller::Teller;
use of_live::{push_chunk_row, push_row};
use of_serve::{Rows, waits};
use of_switch::Event;
use std::alloc::AllocError;
use std::cell::Cell;
use std::io::{self, ErrorKind, Stdout, Write};

/// The log of a switch that serves, if it keeps one.
#[derive(Drop)]
pub struct Journal<'r> {
    teller: &'r Teller<'r>,
    log: Option<EventLog<'r>>,
    // rows that are still to be written
    text: Vec<u8>,
    has_failed: &'r Cell<bool>,
}

impl<'r> Journal<'r> {
    /// `has_failed` becomes true if the log cannot be written.
    pub fn new(
        teller: &'r Teller<'r>,
        log: Option<EventLog<'r>>,
        has_failed: &'r Cell<bool>,
    ) -> Self {
        Journal {
            teller,
            log,
            text: Vec::new(teller.rt.alloc()),
            has_failed,
        }
    }

    fn settle(&mut self, pushed: Result<(), AllocError>) {
        if pushed.is_err() {
            let _ = eprintln!(self.teller; "cannot write the log: out of memory");
            self.has_failed.set(true);
        }
    }

    /// An event happens.
    pub fn push(&mut self, event: &Event) {
        if self.log.is_some() {
            let pushed = push_row(&mut self.text, event);
            self.settle(pushed);
        }
    }

    /// Bytes of the controller come.
    pub fn push_chunk(&mut self, bytes: &[u8]) {
        if self.log.is_some() {
            let pushed = push_chunk_row(&mut self.text, bytes);
            self.settle(pushed);
        }
    }

    /// Writes the rows, and returns whether all rows until now were written.
    pub fn write(&mut self) -> bool {
        if let Some(log) = &mut self.log {
            if !self.has_failed.get() && !log.write(&self.text) {
                self.has_failed.set(true);
            }
            self.text.clear();
        }
        !self.has_failed.get()
    }

    /// Whether the log could not be written.
    pub fn has_failed(&self) -> bool {
        self.has_failed.get()
    }
}

/// The rows of an event file that are still to come.
#[derive(Drop)]
pub struct Course {
    rows: Rows,
}

impl Course {
    pub fn new(rows: Vec<Event>) -> Self {
        Course {
            rows: Rows::new(rows),
        }
    }

    /// The clock says this time: it is written, and the rows that are due.
    pub fn pass(&mut self, now: u64, journal: &mut Journal<'_>) {
        journal.push(&Event::Moment(now));
        for _ in 0..u64::MAX {
            let Some(row) = self.rows.first() else {
                break;
            };
            if waits(row, now) {
                break;
            }
            if !matches!(row, Event::Moment(_)) {
                journal.push(row);
            }
            self.rows.pass();
        }
    }

    /// When the next row is due, or this moment if that is earlier, in nanoseconds.
    pub fn next_due(&self, most: u64) -> u64 {
        match self.rows.first() {
            Some(Event::Moment(nanos)) => most.min(*nanos),
            _ => most,
        }
    }
}

/// Standard output, to which nothing is written after the log could not be.
#[derive(Drop)]
pub struct Output<'r> {
    pub out: Stdout,
    pub has_failed: &'r Cell<bool>,
}

impl Write for Output<'_> {
    fn write(&mut self, buf: &[u8]) -> io::Result<usize> {
        if self.has_failed.get() {
            return Err(io::Error::from(ErrorKind::Other));
        }
        self.out.write(buf)
    }

    fn flush(&mut self) -> io::Result<()> {
        self.out.flush()
    }
}
