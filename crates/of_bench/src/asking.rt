//! Requests of a controller on a switch, from bytes to bytes.

use crate::clock::{Timed, time};
use crate::lookups::Lookups;
use crate::switching::{add, adds, chunk, switch_after};
use of_switch::Switch;
use std::alloc::{AllocError, Global};
use std::io;

const BARRIER: [u8; 8] = [4, 20, 0, 8, 0, 0, 0, 3];

const FEATURES: [u8; 8] = [4, 5, 0, 8, 0, 0, 0, 4];

/// FLOW statistics of all entries of all tables.
const FLOWS: [u8; 56] = [
    4, 18, 0, 56, 0, 0, 0, 5, // header
    0, 1, 0, 0, 0, 0, 0, 0, // FLOW, flags, padding
    0xff, 0, 0, 0, 0xff, 0xff, 0xff, 0xff, // table, padding, out port
    0xff, 0xff, 0xff, 0xff, 0, 0, 0, 0, // out group, padding
    0, 0, 0, 0, 0, 0, 0, 0, // cookie
    0, 0, 0, 0, 0, 0, 0, 0, // its mask
    0, 1, 0, 4, 0, 0, 0, 0, // match
];

/// How many FLOW_MODs a stream has.
const STREAM: u16 = 10_000;

/// A switch, and a request to it.
#[derive(Drop)]
pub struct Asking {
    switch: Switch<Lookups>,
    request: Vec<u8>,
}

impl Timed for Asking {
    fn call(&mut self, _turn: u64) -> u64 {
        chunk(&mut self.switch, &self.request).unwrap_or(0)
    }
}

/// A request that a switch receives again and again after these messages; `None` where one is answered or memory runs out.
pub fn ask_again(
    alloc: Global,
    messages: Result<Vec<u8>, AllocError>,
    request: Result<Vec<u8>, AllocError>,
) -> Option<Asking> {
    let request = request.ok()?;
    let switch = switch_after(alloc, 2, messages)?;
    Some(Asking { switch, request })
}

// Times a request to a switch that has these flows in table 0.
fn time_asking(
    rt: &HostRuntime,
    name: &str,
    flows: u16,
    request: Result<Vec<u8>, AllocError>,
) -> io::Result<()> {
    match ask_again(rt.alloc(), adds(rt.alloc(), 1, flows, 0), request) {
        Some(mut timed) => time(rt, name, &mut timed),
        None => println!(rt; "{name}: no memory"),
    }
}

/// A BARRIER_REQUEST and its reply.
pub fn time_barrier(rt: &HostRuntime) -> io::Result<()> {
    let request = Vec::from_slice(rt.alloc(), &BARRIER);
    time_asking(rt, "barrier", 0, request)
}

/// A FEATURES_REQUEST and its reply.
pub fn time_features(rt: &HostRuntime) -> io::Result<()> {
    let request = Vec::from_slice(rt.alloc(), &FEATURES);
    time_asking(rt, "features", 0, request)
}

/// FLOW statistics of 4,096 entries.
pub fn time_flow_stats(rt: &HostRuntime) -> io::Result<()> {
    let request = Vec::from_slice(rt.alloc(), &FLOWS);
    time_asking(rt, "flow_stats", 4096, request)
}

// ADDs into 16 tables in turn.
fn stream(alloc: Global) -> Result<Vec<u8>, AllocError> {
    let mut bytes = Vec::new(alloc);
    for number in 0..STREAM {
        bytes.extend_from_slice(&add((number % 16) as u8, number / 16, 0))?;
    }
    Ok(bytes)
}

/// 10,000 ADDs in one chunk, of which each replaces an entry but in the first turn.
pub fn time_flow_mod_stream(rt: &HostRuntime) -> io::Result<()> {
    time_asking(rt, "flow_mod_stream", 0, stream(rt.alloc()))
}
