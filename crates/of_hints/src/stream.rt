//! Standard output whose reader may go, as `head` does when it has its lines.
use of_replay::Ended;
use std::cell::Cell;
use std::io::{self, ErrorKind, Stdout, Write};

/// The reader of standard output.
#[derive(Drop)]
pub struct OutputReader {
    has_gone: Cell<bool>,
}

impl OutputReader {
    pub fn new() -> Self {
        OutputReader {
            has_gone: Cell::new(false),
        }
    }

    pub fn has_gone(&self) -> bool {
        self.has_gone.get()
    }

    /// Looks at what a write came to.
    pub fn look(&self, written: &io::Result<usize>) {
        if let Err(error) = written {
            if error.kind() == ErrorKind::BrokenPipe {
                self.has_gone.set(true);
            }
        }
    }

    /// How a run ends: one that nobody reads any more is done.
    pub fn end(&self, ended: Ended) -> Ended {
        match ended {
            Ended::WriteFault if self.has_gone() => Ended::Done,
            ended => ended,
        }
    }
}

/// Standard output of a run that prints as it goes on, which ends when its reader has gone.
#[derive(Drop)]
pub struct Stream<'r> {
    out: Stdout,
    reader: &'r OutputReader,
}

impl<'r> Stream<'r> {
    pub fn new(out: Stdout, reader: &'r OutputReader) -> Self {
        Stream { out, reader }
    }
}

impl Write for Stream<'_> {
    fn write(&mut self, buf: &[u8]) -> io::Result<usize> {
        let written = self.out.write(buf);
        self.reader.look(&written);
        written
    }

    fn flush(&mut self) -> io::Result<()> {
        self.out.flush()
    }
}
