//! The log: an event file of all that happens.

use crate::opening::{Unopened, opened};
use crate::teller::Teller;
use of_live::push_row;
use of_switch::Event;
use std::alloc::{AllocError, Global};
use std::fs::{File, OpenOptions};
use std::io::{self, Write};

/// The file of a log. Its first line is a comment that says how to replay it, and then come the rows of what happened before all else.
#[derive(Drop)]
pub struct EventLog<'r> {
    teller: &'r Teller<'r>,
    file: File,
    // how many bytes its whole rows have
    size: u64,
}

// A comment that says how to replay the log, and these rows.
fn first_lines(alloc: Global, dpid: u64, events: &[Event]) -> Result<Vec<u8>, AllocError> {
    let mut text = format!(in alloc; "# replay with --dpid {dpid}\n")?.into_bytes();
    for event in events {
        push_row(&mut text, event)?;
    }
    Ok(text)
}

impl<'r> EventLog<'r> {
    /// Begins the log of a switch with this datapath_id, to which these events happened first, if there is to be one. An existing file is
    /// replaced.
    pub fn begin(
        teller: &'r Teller<'r>,
        path: &Option<String>,
        dpid: u64,
        first: &[Event],
    ) -> Result<Option<Self>, Unopened> {
        match path {
            Some(path) => {
                let created = EventLog::create(teller, path.as_str(), dpid, first);
                Ok(Some(opened(created, "write the log")?))
            }
            None => Ok(None),
        }
    }

    fn create(teller: &'r Teller<'r>, path: &str, dpid: u64, first: &[Event]) -> io::Result<Self> {
        // a pipe is open from here on, so that its reader finds no end before the first row
        let _replaced = File::create(teller.rt, path)?;
        let file = OpenOptions::new().append(true).open(teller.rt, path)?;
        let begun = first_lines(teller.rt.alloc(), dpid, first)?;
        let mut log = EventLog {
            teller,
            file,
            size: 0,
        };
        log.append(&begun)?;
        Ok(log)
    }

    // Writes all of the rows, by one call if the system takes them all; or none of them stays in the file.
    fn append(&mut self, rows: &[u8]) -> io::Result<()> {
        if let Err(error) = self.file.write_all(rows) {
            // what is no file, such as a pipe, keeps what it took
            let _ = self.file.set_len(self.size);
            return Err(error);
        }
        let count = u64::try_from(rows.len()).unwrap_or(u64::MAX);
        self.size = self.size.saturating_add(count);
        Ok(())
    }

    /// Writes rows, and returns whether all of them were written; if not, none of them is in the file.
    pub fn write(&mut self, rows: &[u8]) -> bool {
        match self.append(rows) {
            Ok(()) => true,
            Err(error) => {
                let _ = eprintln!(self.teller; "cannot write the log: {error}");
                false
            }
        }
    }
}
