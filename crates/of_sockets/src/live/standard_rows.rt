//! Event rows on standard input, while the switch runs.
ghost use Rattle.std.specs.Prelude.{◌≡◌, length};

use super::lines::Lines;
use crate::teller::Teller;
use mio::unix::SourceFd;
use mio::{Interest, Registry, Token};
use of_live::{RunningRow, read_running_row};
use of_switch::Event;
use of_wire::front_of;
use std::io::{self, ErrorKind, Read, Stdin};
use std::os::fd::RawFd;

/// The token of standard input.
pub const ROWS: Token = Token(3);

const STANDARD_INPUT: RawFd = 0;

/// Rows on standard input.
#[derive(Drop)]
pub struct StandardRows<'r> {
    teller: &'r Teller<'r>,
    input: Stdin,
    lines: Lines,
    // the bytes of a frame
    frame: Vec<u8>,
    // how many lines came
    number: u64,
    is_readable: bool,
    // a file has always something to read
    is_file: bool,
    is_over: bool,
}

/// What standard input gave.
#[derive(Drop)]
pub enum Given {
    /// This event, on the line of that number.
    Row { number: u64, event: Event },
    /// No event, but there may be more.
    Nothing,
}

impl<'r> StandardRows<'r> {
    /// Waits for rows.
    pub fn new(teller: &'r Teller<'r>, registry: &Registry) -> io::Result<Self> {
        let descriptor = STANDARD_INPUT;
        let registered = registry.register(&mut SourceFd(&descriptor), ROWS, Interest::READABLE);
        let is_file = match registered {
            Ok(()) => false,
            // what a file answers
            Err(error) if error.kind() == ErrorKind::PermissionDenied => true,
            Err(error) => return Err(error),
        };
        Ok(StandardRows {
            teller,
            input: teller.rt.stdin(),
            lines: Lines::new(teller.rt.alloc()),
            frame: Vec::new(teller.rt.alloc()),
            number: 0,
            is_readable: is_file,
            is_file,
            is_over: false,
        })
    }

    /// Something came.
    pub fn wake(&mut self) {
        self.is_readable = true;
    }

    /// Whether something may come at once.
    pub fn is_ready(&self) -> bool {
        self.is_readable && !self.is_over || self.lines.first().is_some()
    }

    fn end(&mut self) {
        self.lines.end();
        self.is_over = true;
    }

    // Takes what one read gives. Standard input was said to be readable, so it does not wait.
    fn read(&mut self, registry: &Registry, buffer: &mut [u8])
        requires { length buffer.old ≡ 65536 }
        ensures { length buffer.new ≡ 65536 }
    {
        self.is_readable = self.is_file;
        match self.input.read(buffer) {
            Ok(0) => self.end(),
            Ok(count) => {
                if self.lines.push(front_of(buffer, count)).is_err() {
                    let _ = eprintln!(self.teller; "standard input: out of memory");
                    self.end();
                }
            }
            Err(error)
                if error.kind() == ErrorKind::Interrupted
                    || error.kind() == ErrorKind::WouldBlock => {}
            Err(error) => {
                let _ = eprintln!(self.teller; "cannot read standard input: {error}");
                self.end();
            }
        }
        self.wait_for_more(registry);
    }

    // Readiness is told again only after this.
    fn wait_for_more(&mut self, registry: &Registry) {
        if self.is_file || self.is_over {
            return;
        }
        let descriptor = STANDARD_INPUT;
        let again = registry.reregister(&mut SourceFd(&descriptor), ROWS, Interest::READABLE);
        if let Err(error) = again {
            let _ = eprintln!(self.teller; "cannot wait for standard input: {error}");
            self.end();
        }
    }

    // The first line, which has this row.
    fn given(&mut self, row: RunningRow) -> Given {
        let number = self.number;
        match row {
            RunningRow::Happens(event) => Given::Row { number, event },
            RunningRow::Skipped => Given::Nothing,
            RunningRow::Bad => {
                let _ = eprintln!(self.teller;
                    "standard input: bad row {number}: only rows of frames (`f`) and ports (`port`) can come while the switch runs"
                );
                Given::Nothing
            }
        }
    }

    // Takes the first line, if it came whole.
    fn take(&mut self) -> Option<Given> {
        let line = self.lines.first()?;
        let length = line.len();
        let row = read_running_row(self.teller.rt.alloc(), line, &mut self.frame);
        if !self.lines.pass(length) {
            return Some(Given::Nothing);
        }
        self.number = self.number.saturating_add(1);
        match row {
            Ok(row) => Some(self.given(row)),
            Err(_) => {
                let _ = eprintln!(self.teller;
                    "standard input: row {} left out: out of memory",
                    self.number
                );
                Some(Given::Nothing)
            }
        }
    }

    /// What comes next, if anything does.
    pub fn next(&mut self, registry: &Registry, buffer: &mut [u8]) -> Option<Given>
        requires { length buffer.old ≡ 65536 }
        ensures { length buffer.new ≡ 65536 }
    {
        if let Some(given) = self.take() {
            return Some(given);
        }
        if self.lines.leave_out() {
            self.number = self.number.saturating_add(1);
            let _ = eprintln!(self.teller;
                "standard input: bad row {}: longer than any row",
                self.number
            );
        }
        if !self.is_readable || self.is_over {
            return None;
        }
        self.read(registry, buffer);
        Some(Given::Nothing)
    }
}
