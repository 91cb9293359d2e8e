//! Reading matches, and asking whether they match a key.

use crate::clock::{Timed, time};
use crate::frames::{TAGGED_TCP, WEB_MATCH};
use of_headers::{FieldKey, read};
use of_oxm::{Match, matches, read_match};
use std::alloc::Global;
use std::io;

#[derive(Drop)]
struct Matches {
    web: Match,
    first: FieldKey,
    second: FieldKey,
}

impl Timed for Matches {
    fn call(&mut self, turn: u64) -> u64 {
        let is_match = if turn % 2 == 0 {
            matches(&self.web, &self.first)
        } else {
            matches(&self.web, &self.second)
        };
        u64::from(is_match)
    }
}

/// `matches` of a match of three fields, with a key that it matches and one that it does not by its last field, in turns.
pub fn time_matches(rt: &HostRuntime) -> io::Result<()> {
    let mut other = TAGGED_TCP;
    other[41] = 81;
    let (Ok((web, _)), Ok(first), Ok(second)) = (
        read_match(rt.alloc(), &WEB_MATCH),
        read(&TAGGED_TCP, 1, 0),
        read(&other, 1, 0),
    ) else {
        return println!(rt; "matches: no match or no key");
    };
    let mut timed = Matches {
        web,
        first: first.key(),
        second: second.key(),
    };
    time(rt, "matches", &mut timed)
}

#[derive(Drop)]
struct ReadMatch {
    alloc: Global,
    bytes: [u8; 24],
}

impl Timed for ReadMatch {
    fn call(&mut self, turn: u64) -> u64 {
        self.bytes[20] = (turn % 256) as u8;
        match read_match(self.alloc, &self.bytes) {
            Ok((web, size)) => (web.len() as u64).wrapping_add(size as u64),
            Err(_) => 0,
        }
    }
}

/// `read_match` of a match of three fields.
pub fn time_read_match(rt: &HostRuntime) -> io::Result<()> {
    let alloc = rt.alloc();
    time(
        rt,
        "read_match",
        &mut ReadMatch {
            alloc,
            bytes: WEB_MATCH,
        },
    )
}
