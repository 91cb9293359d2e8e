//! Lists of port numbers, such as 1-8,100.

use crate::{NoRequest, number_in, refused};
use of_wire::limits::OFPP_MAX;
use std::alloc::{AllocError, Global};

/// How many ports a switch has at most.
const MOST: usize = 64;

// The numbers of a range, from a number to one that is no lower.
fn range_in(word: &str) -> Option<(u32, u32)> {
    let (first, last) = match word.split_once('-') {
        Some((first, last)) => (number_in(first)?, number_in(last)?),
        None => (number_in(word)?, number_in(word)?),
    };
    if 1 <= first && first <= last && last <= OFPP_MAX {
        Some((first, last))
    } else {
        None
    }
}

// Adds the numbers of a range; false if there are too many.
fn push_range(ports: &mut Vec<u32>, first: u32, last: u32) -> Result<bool, AllocError> {
    for port in first..=last {
        if ports.len() == MOST {
            return Ok(false);
        }
        if !ports.contains(&port) {
            ports.push(port)?;
        }
    }
    Ok(true)
}

// The numbers of a list; None if it is none, or has more than 64.
fn list_in(alloc: Global, words: &str) -> Result<Option<Vec<u32>>, AllocError> {
    let mut ports = Vec::new(alloc);
    for word in words.split(',') {
        match range_in(word) {
            Some((first, last)) if push_range(&mut ports, first, last)? => {}
            _ => return Ok(None),
        }
    }
    Ok(Some(ports))
}

/// The ports that --ports says, each once; None without it.
pub(crate) fn port_list_of(
    alloc: Global,
    words: Option<&str>,
) -> Result<Option<Vec<u32>>, NoRequest> {
    let Some(words) = words else {
        return Ok(None);
    };
    match list_in(alloc, words)? {
        Some(ports) => Ok(Some(ports)),
        None => Err(refused(
            alloc,
            "bad --ports: numbers and ranges such as 1-8,100; at most 64 ports\n",
        )?),
    }
}
