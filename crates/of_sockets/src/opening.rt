//! What cannot be opened at the start.

use crate::teller::Teller;
use std::io;

/// What could not be done, and why.
#[derive(Drop)]
pub struct Unopened {
    pub what: &'static str,
    pub why: io::Error,
}

/// What was opened, or what could not be done.
pub fn opened<T: Drop>(res: io::Result<T>, what: &'static str) -> Result<T, Unopened> {
    match res {
        Ok(it) => Ok(it),
        Err(why) => Err(Unopened { what, why }),
    }
}

/// What was opened. None, with a line on standard error, if it was not.
pub fn said<T: Drop>(teller: &Teller<'_>, res: Result<T, Unopened>) -> Option<T> {
    match res {
        Ok(it) => Some(it),
        Err(Unopened { what, why }) => {
            let _ = eprintln!(teller; "cannot {what}: {why}");
            None
        }
    }
}
