//! The line of a fault, and a mark below its place.

use std::fmt::{self, Display, Formatter, Write};

/// So many columns of a line are shown.
const SHOWN: usize = 76;

/// So many columns are shown before a place that is further to the right.
const BEFORE: usize = 20;

/// Where in a line something is wrong: so many bytes from this one on.
#[derive(Clone, Copy)]
pub struct Place {
    pub start: usize,
    pub count: usize,
}

impl Place {
    /// All of a line.
    pub fn whole(line: &[u8]) -> Self {
        Place {
            start: 0,
            count: line.len(),
        }
    }

    /// The word of that number, from 1; all of the line if it has fewer.
    pub fn of_word(line: &[u8], number: usize) -> Self {
        let mut start = 0_usize;
        let mut place = 0_usize;
        for word in line.split(|byte| *byte == b' ') {
            place = place.saturating_add(1);
            if place == number {
                return Place {
                    start,
                    count: word.len(),
                };
            }
            start = start.saturating_add(word.len()).saturating_add(1);
        }
        Place::whole(line)
    }

    /// Where some bytes are first; all of the line if they are not in it.
    pub fn of_part(line: &[u8], part: &[u8]) -> Self {
        let mut start = 0_usize;
        for window in line.windows(part.len().max(1)) {
            if window == part {
                return Place {
                    start,
                    count: part.len(),
                };
            }
            start = start.saturating_add(1);
        }
        Place::whole(line)
    }
}

/// A line as it is shown, in two lines: what is no printable character of ASCII is a question mark, and a part of a long line is left out.
#[derive(Clone, Copy)]
pub struct Marked<'a> {
    line: &'a [u8],
    place: Place,
}

impl<'a> Marked<'a> {
    pub fn new(line: &'a [u8], place: Place) -> Self {
        Marked { line, place }
    }

    // How many bytes are left out before those that are shown.
    fn left_out(&self) -> usize {
        if self.place.start.saturating_add(self.place.count) <= SHOWN {
            0
        } else {
            self.place.start.saturating_sub(BEFORE)
        }
    }
}

fn write_times<W: Write>(f: &mut Formatter<W>, times: usize, letter: char) -> fmt::Result {
    for _ in 0..times {
        f.write_char(letter)?;
    }
    Ok(())
}

impl Display for Marked<'_> {
    fn fmt<W: Write>(&self, f: &mut Formatter<W>) -> fmt::Result {
        let left_out = self.left_out();
        f.write_str("  ")?;
        for byte in self.line.iter().skip(left_out).take(SHOWN) {
            let is_shown = *byte == b' ' || byte.is_ascii_graphic();
            f.write_char(if is_shown { char::from(*byte) } else { '?' })?;
        }
        f.write_str("\n  ")?;
        let start = self.place.start.saturating_sub(left_out);
        write_times(f, start, ' ')?;
        write_times(
            f,
            self.place
                .count
                .clamp(1, SHOWN.saturating_sub(start).max(1)),
            '^',
        )
    }
}
