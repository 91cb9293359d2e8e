//! A clock that runs one thing for some seconds.

use std::io;
use std::time::Instant;

/// How many calls are made between two looks at the clock.
const CALLS: u64 = 1000;

/// The same where a call takes long.
const SLOW_CALLS: u64 = 10;

/// How long one thing is run.
const SECONDS: u64 = 2;

/// Something to be timed.
pub trait Timed {
    /// Does it once, and returns a number that depends on the answer. The turn says how often it was done.
    fn call(&mut self, turn: u64) -> u64;
}

fn call_often(timed: &mut impl Timed, first: u64, calls: u64) -> u64 {
    let mut sum = 0u64;
    for i in 0..calls {
        sum = sum
            .wrapping_mul(31)
            .wrapping_add(timed.call(first.wrapping_add(i)));
    }
    sum
}

/// Runs it for some seconds, and prints the nanoseconds of a call and a checksum of the answers.
pub fn time(rt: &HostRuntime, name: &str, timed: &mut impl Timed) -> io::Result<()> {
    time_by(rt, name, timed, CALLS)
}

/// The same of what takes long.
pub fn time_slow(rt: &HostRuntime, name: &str, timed: &mut impl Timed) -> io::Result<()> {
    time_by(rt, name, timed, SLOW_CALLS)
}

// With `each` calls between two looks at the clock.
fn time_by(rt: &HostRuntime, name: &str, timed: &mut impl Timed, each: u64) -> io::Result<()> {
    let mut calls = 0u64;
    let mut checksum = 0u64;
    let start = Instant::now(rt)?;
    for _ in 0..100_000_000 {
        checksum = checksum
            .wrapping_mul(31)
            .wrapping_add(call_often(timed, calls, each));
        calls = calls.wrapping_add(each);
        if start.elapsed(rt)?.as_secs() >= SECONDS {
            break;
        }
    }
    let tenths = start
        .elapsed(rt)?
        .as_nanos()
        .saturating_mul(10)
        .checked_div(u128::from(calls))
        .unwrap_or(0);
    println!(rt;
        "{name}: {}.{} ns per call, {calls} calls, checksum {checksum:016x}",
        tenths / 10,
        tenths % 10
    )
}
