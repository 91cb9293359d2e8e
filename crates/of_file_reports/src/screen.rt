//! Standard output: in color where it is a terminal, and quiet when its reader has gone.
ghost use Rattle.std.specs.Io.{WritesAtMost};

use crate::progress::Progress;
use of_command_line::{CheckOutput, Colors, CommandLine, Request, paint};
use of_hints::{OutputReader, Stream};
use of_replay::Ended;
use std::io::{self, IsTerminal, Write};

/// Where a run prints.
#[derive(Drop)]
pub struct Screen<'r> {
    pub rt: &'r HostRuntime,
    /// What the run does, until it prints.
    pub progress: Progress<'r>,
    is_colored: bool,
    reader: OutputReader,
}

// Whether what is asked for is a report in words.
fn is_in_words(request: &Request) -> bool {
    match request {
        Request::Trace(asked) => !asked.json && !asked.lines,
        Request::History(asked) => !asked.json,
        Request::Check(asked) => asked.output != CheckOutput::Json,
        Request::Diff(asked) => !asked.json,
        Request::Paths(asked) => !asked.json,
        _ => false,
    }
}

// Whether the user wants no colors in any program (https://no-color.org).
fn is_without_colors(rt: &HostRuntime) -> bool {
    match std::env::var(rt, "NO_COLOR") {
        Ok(value) => !value.is_empty(),
        Err(_) => false,
    }
}

impl<'r> Screen<'r> {
    /// What is printed without colors.
    pub fn plain(rt: &'r HostRuntime) -> Self {
        Screen {
            rt,
            progress: Progress::new(rt),
            is_colored: false,
            reader: OutputReader::new(),
        }
    }

    /// A report in words has colors if --color says so, and without it on a terminal.
    pub fn new(rt: &'r HostRuntime, line: &CommandLine) -> Self {
        let is_wanted = match line.colors {
            Colors::Always => true,
            Colors::Never => false,
            Colors::Auto => rt.stdout().is_terminal() && !is_without_colors(rt),
        };
        Screen {
            rt,
            progress: Progress::new(rt),
            is_colored: is_wanted && is_in_words(&line.request),
            reader: OutputReader::new(),
        }
    }

    /// For a report: if its reader has gone, the rest of it is written nowhere.
    pub fn report(&self) -> Report<'_, 'r> {
        Report { screen: self }
    }

    /// For what is printed as a run goes on.
    pub fn stream(&self) -> Stream<'_> {
        Stream::new(self.rt.stdout(), &self.reader)
    }

    /// How a run ends whose output this is.
    pub fn end(&self, ended: Ended) -> Ended {
        self.reader.end(ended)
    }

    // Writes some of the bytes; in color all of them, or none.
    fn put(&self, bytes: &[u8]) -> io::Result<usize>
        ensures { WritesAtMost result bytes.now }
    {
        let mut out = self.rt.stdout();
        if self.is_colored {
            if let Ok(painted) = paint(self.rt.alloc(), bytes) {
                out.write_all(&painted)?;
                return Ok(bytes.len());
            }
        }
        out.write(bytes)
    }
}

/// Standard output of a report.
#[derive(Drop)]
pub struct Report<'s, 'r> {
    screen: &'s Screen<'r>,
}

impl Write for Report<'_, '_> {
    fn write(&mut self, buf: &[u8]) -> io::Result<usize> {
        self.screen.progress.end();
        let reader = &self.screen.reader;
        if reader.has_gone() {
            return Ok(buf.len());
        }
        let written = self.screen.put(buf);
        reader.look(&written);
        if reader.has_gone() {
            return Ok(buf.len());
        }
        written
    }

    fn flush(&mut self) -> io::Result<()> {
        Ok(())
    }
}
