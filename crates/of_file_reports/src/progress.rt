//! What a run does, on standard error.
use std::cell::Cell;
use std::fmt::Display;
use std::io::IsTerminal;

/// Says on a terminal what a run does, in one line, which each further one overwrites.
#[derive(Drop)]
pub struct Progress<'r> {
    rt: &'r HostRuntime,
    is_terminal: bool,
    is_shown: Cell<bool>,
}

impl<'r> Progress<'r> {
    pub fn new(rt: &'r HostRuntime) -> Self {
        Progress {
            rt,
            is_terminal: rt.stderr().is_terminal(),
            is_shown: Cell::new(false),
        }
    }

    /// Says what is done now.
    pub fn say<T: Display + Drop>(&self, what: T) {
        if self.is_terminal {
            let _ = eprint!(self.rt; "\r\x1b[K{what}");
            self.is_shown.set(true);
        }
    }

    /// Takes the line away.
    pub fn end(&self) {
        if self.is_shown.get() {
            let _ = eprint!(self.rt; "\r\x1b[K");
            self.is_shown.set(false);
        }
    }
}
