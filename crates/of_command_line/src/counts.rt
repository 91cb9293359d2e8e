//! How long a run goes on: in turns, in reads, and in the time of a connection that says nothing.

use crate::{NoRequest, number_in, refused};
use std::alloc::Global;

const DEFAULT_TURNS: u32 = 1_000_000;

pub(crate) const DEFAULT_READS: u32 = 1_000_000;

/// Seconds, as nanoseconds.
pub(crate) fn idle_of(alloc: Global, word: Option<&str>) -> Result<Option<u64>, NoRequest> {
    match word.map(number_in) {
        None => Ok(None),
        Some(Some(seconds)) if seconds > 0 => Ok(Some(u64::from(seconds) * 1_000_000_000)),
        Some(_) => Err(refused(alloc, "bad idle: it is a number of seconds, at least 1\n")?),
    }
}

pub(crate) fn live_turns_of(alloc: Global, word: Option<&str>) -> Result<u64, NoRequest> {
    let Some(word) = word else {
        return Ok(u64::MAX);
    };
    match number_in(word) {
        Some(turns) => Ok(u64::from(turns)),
        None => Err(refused(alloc, "bad turns: a 32-bit number\n")?),
    }
}

pub(crate) fn turns_of(alloc: Global, word: Option<&str>) -> Result<u32, NoRequest> {
    let Some(word) = word else {
        return Ok(DEFAULT_TURNS);
    };
    match number_in(word) {
        Some(turns) => Ok(turns),
        None => Err(refused(alloc, "bad turns: a 32-bit number\n")?),
    }
}

pub(crate) fn reads_of(alloc: Global, word: Option<&str>) -> Result<u32, NoRequest> {
    let Some(word) = word else {
        return Ok(DEFAULT_READS);
    };
    match number_in(word) {
        Some(reads) => Ok(reads),
        None => Err(refused(alloc, "bad reads: a 32-bit number\n")?),
    }
}
