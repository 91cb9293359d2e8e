//! Rewriting frames in place.

use crate::clock::{Timed, time};
use crate::frames::TCP;
use of_layers::Field;
use of_rewrite::Frame;
use std::alloc::{AllocError, Global};
use std::io;

fn tcp_frame(alloc: Global) -> Result<Frame, AllocError> {
    let bytes = Vec::from_array(alloc, TCP)?;
    Ok(Frame::new(bytes))
}

#[derive(Drop)]
struct Set {
    frame: Frame,
}

impl Timed for Set {
    #[tactic(auto, unfolding(of_layers::specs::Fields::row_of))]
    fn call(&mut self, turn: u64) -> u64 {
        self.frame
            .set(Field::Ipv4Dst, u128::from(turn % 0x1_0000_0000));
        // The low byte of the IPv4 header's checksum.
        self.frame.bytes().get(25).copied().map_or(0, u64::from)
    }
}

/// `set` of IPV4_DST in a frame of IPv4 and TCP: a new address at each call, both checksums updated.
pub fn time_set(rt: &HostRuntime) -> io::Result<()> {
    match tcp_frame(rt.alloc()) {
        Ok(frame) => time(rt, "set", &mut Set { frame }),
        Err(AllocError) => println!(rt; "set: no memory"),
    }
}

#[derive(Drop)]
struct PushPop {
    frame: Frame,
}

impl Timed for PushPop {
    fn call(&mut self, _turn: u64) -> u64 {
        match self.frame.push_vlan(0x8100) {
            Ok(()) => {
                let longer = self.frame.len() as u64;
                self.frame.pop_vlan();
                longer
            }
            Err(AllocError) => 0,
        }
    }
}

/// `push_vlan`, and then `pop_vlan`, of a frame of 60 bytes.
pub fn time_push_pop(rt: &HostRuntime) -> io::Result<()> {
    match tcp_frame(rt.alloc()) {
        Ok(frame) => time(rt, "push_pop", &mut PushPop { frame }),
        Err(AllocError) => println!(rt; "push_pop: no memory"),
    }
}
