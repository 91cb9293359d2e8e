//! Lines of a stream that comes in parts.
use of_text::cut;
use std::alloc::AllocError;

/// How many bytes a line has at most: more than the row of the longest frame.
const LONGEST: usize = 65_536;

/// What came of a stream, from the first line on that was not taken.
#[derive(Drop)]
pub struct Lines {
    bytes: Vec<u8>,
    // how many of them were taken
    start: usize,
    is_over: bool,
    // the line that begins here is the rest of one that was too long
    is_rest: bool,
}

impl Lines {
    pub fn new(alloc: std::alloc::Global) -> Self {
        Lines {
            bytes: Vec::new(alloc),
            start: 0,
            is_over: false,
            is_rest: false,
        }
    }

    /// The stream ends here.
    pub fn end(&mut self) {
        self.is_over = true;
    }

    /// More of the stream came.
    pub fn push(&mut self, bytes: &[u8]) -> Result<(), AllocError> {
        let rest = self.bytes.len().saturating_sub(self.start);
        self.bytes.rotate_left(self.start.min(self.bytes.len()));
        self.bytes.truncate(rest);
        self.start = 0;
        self.bytes.extend_from_slice(bytes)
    }

    // What was not taken.
    fn rest(&self) -> &[u8] {
        match self.bytes.split_at_checked(self.start) {
            Some((_, rest)) => rest,
            None => &[],
        }
    }

    /// The first line, without its end, if all of it came.
    pub fn first(&self) -> Option<&[u8]> {
        let rest = self.rest();
        let (line, _) = cut(rest, b'\n');
        if line.len() < rest.len() || self.is_over && !line.is_empty() {
            Some(line)
        } else {
            None
        }
    }

    /// Passes over a line of so many bytes, and returns whether it is whole: it is not the rest of one that was too long.
    pub fn pass(&mut self, length: usize) -> bool {
        self.start = self.start.saturating_add(length).saturating_add(1);
        let is_whole = !self.is_rest;
        self.is_rest = false;
        is_whole
    }

    /// Leaves out a line of which more came than a row may have, and returns whether there was one.
    pub fn leave_out(&mut self) -> bool {
        if self.rest().len() <= LONGEST {
            return false;
        }
        self.bytes.clear();
        self.start = 0;
        let is_new = !self.is_rest;
        self.is_rest = true;
        is_new
    }
}
