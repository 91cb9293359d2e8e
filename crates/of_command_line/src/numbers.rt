//! Numbers of the command line.

use crate::{DEFAULT_DPID, NoRequest, refused};
use std::alloc::Global;

// Whether a decimal number has no sign and no zeros before it, as in event files and flow texts.
fn is_plain(word: &str) -> bool {
    !word.starts_with('+') && (word.len() <= 1 || !word.starts_with('0'))
}

// A number of 32 bits.
pub(crate) fn number_in(word: &str) -> Option<u32> {
    if is_plain(word) {
        u32::from_str_radix(word, 10).ok()
    } else {
        None
    }
}

// A number of 64 bits: decimal, or hexadecimal after 0x.
pub(crate) fn long_number_in(word: &str) -> Option<u64> {
    match word.strip_prefix("0x") {
        Some(digits) if !digits.starts_with('+') => u64::from_str_radix(digits, 16).ok(),
        None if is_plain(word) => u64::from_str_radix(word, 10).ok(),
        _ => None,
    }
}

pub(crate) fn dpid_of(alloc: Global, word: Option<&str>) -> Result<u64, NoRequest> {
    let Some(word) = word else {
        return Ok(DEFAULT_DPID);
    };
    match long_number_in(word) {
        Some(dpid) => Ok(dpid),
        None => Err(refused(alloc, "bad dpid: a 64-bit number\n")?),
    }
}
