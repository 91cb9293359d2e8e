//! Lines that were read, for what is still to be said about them.
use of_wire::front_of;
use std::alloc::{AllocError, Global};
use std::io::{self, Read};

/// The line of that number in a text, counted from 1.
pub fn line_in(text: &[u8], number: u64) -> Option<&[u8]> {
    let place = usize::try_from(number.checked_sub(1)?).ok()?;
    text.split(|byte| *byte == b'\n').nth(place)
}

/// Lines that were read, of which one may be at fault.
#[derive(Drop)]
pub struct Seen {
    bytes: Vec<u8>,
    // how many lines came before these
    before: u64,
    // whether there was no memory for them
    lost: bool,
}

impl Seen {
    pub fn nothing(alloc: Global) -> Self {
        Seen::whole(Vec::new(alloc))
    }

    /// A whole text.
    pub fn whole(bytes: Vec<u8>) -> Self {
        Seen {
            bytes,
            before: 0,
            lost: false,
        }
    }

    pub fn bytes(&self) -> &[u8] {
        self.bytes.as_slice()
    }

    // The line of that number, counted from 1.
    pub(crate) fn line(&self, number: u64) -> Option<&[u8]> {
        if self.lost {
            return None;
        }
        line_in(&self.bytes, number.checked_sub(self.before)?)
    }

    // Forgets the lines that have ended.
    fn forget(&mut self) -> Result<(), AllocError> {
        let ended = self.bytes.iter().filter(|byte| **byte == b'\n').count();
        if ended == 0 {
            return Ok(());
        }
        let open = self
            .bytes
            .split(|byte| *byte == b'\n')
            .last()
            .unwrap_or(&[]);
        let open = Vec::from_slice(*self.bytes.allocator(), open)?;
        self.bytes = open;
        self.before = self.before.saturating_add(ended as u64);
        Ok(())
    }

    // Keeps the bytes of a read, and the line that was open before it.
    fn keep(&mut self, part: &[u8]) -> Result<(), AllocError> {
        self.forget()?;
        self.bytes.extend_from_slice(part)
    }
}

/// A reader of rows that are played as they are read.
#[derive(Drop)]
pub struct Watched<R: Read + Drop> {
    reader: R,
    pub seen: Seen,
}

impl<R: Read + Drop> Watched<R> {
    pub fn new(alloc: Global, reader: R) -> Self {
        Watched {
            reader,
            seen: Seen::nothing(alloc),
        }
    }
}

impl<R: Read + Drop> Read for Watched<R> {
    fn read(&mut self, buf: &mut [u8]) -> io::Result<usize> {
        let count = self.reader.read(buf)?;
        if self.seen.keep(front_of(buf, count)).is_err() {
            self.seen.lost = true;
        }
        Ok(count)
    }
}
