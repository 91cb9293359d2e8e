//! Standard error, which stops nothing.

use mio::unix::SourceFd;
use mio::{Events, Interest, Poll, Token};
use std::alloc::Global;
use std::cell::{Cell, RefCell};
use std::fmt::Display;
use std::io;
use std::os::fd::RawFd;
use std::time::Duration;

const STANDARD_ERROR: RawFd = 2;

/// Whether a pipe, a socket or a terminal takes a line now.
#[derive(Drop)]
struct Readiness {
    poll: Poll,
    events: Events<Global>,
}

impl Readiness {
    // A file cannot be waited for, and takes each line.
    fn new(rt: &HostRuntime) -> io::Result<Self> {
        let poll = Poll::new(rt)?;
        let events = Events::with_capacity(rt.alloc(), 1)?;
        let descriptor = STANDARD_ERROR;
        poll.registry()
            .register(&mut SourceFd(&descriptor), Token(0), Interest::WRITABLE)?;
        Ok(Readiness { poll, events })
    }

    fn takes_a_line(&mut self) -> io::Result<bool> {
        let descriptor = STANDARD_ERROR;
        // readiness is told again only after this
        self.poll
            .registry()
            .reregister(&mut SourceFd(&descriptor), Token(0), Interest::WRITABLE)?;
        self.poll
            .poll(&mut self.events, Some(Duration::from_millis(0)))?;
        Ok(!self.events.is_empty())
    }
}

/// Standard error. A line that it does not take at once, because nobody reads it, is left out and counted.
///
/// `eprintln!(teller; "..")` writes a line of at most 4,096 bytes, for which a pipe that is not full has room (pipe(7)).
#[derive(Drop)]
pub struct Teller<'r> {
    pub rt: &'r HostRuntime,
    readiness: RefCell<Option<Readiness>>,
    left_out: Cell<u64>,
}

impl<'r> Teller<'r> {
    pub fn new(rt: &'r HostRuntime) -> Self {
        Teller {
            rt,
            readiness: RefCell::new(Readiness::new(rt).ok()),
            left_out: Cell::new(0),
        }
    }

    fn takes_a_line(&self) -> bool {
        let Ok(mut readiness) = self.readiness.try_borrow_mut() else {
            return false;
        };
        match &mut *readiness {
            Some(readiness) => readiness.takes_a_line().unwrap_or(false),
            None => true,
        }
    }

    /// Writes a line, after how many were left out before it, if some were.
    pub fn eprintln<T: Display + Drop>(&self, line: T) {
        if !self.takes_a_line() {
            self.left_out.set(self.left_out.get().saturating_add(1));
            return;
        }
        let left_out = self.left_out.get();
        if left_out > 0 {
            let _ = eprintln!(self.rt;
                "lines left out, because nobody read standard error: {left_out}"
            );
            self.left_out.set(0);
        }
        let _ = self.rt.eprintln(line);
    }
}
