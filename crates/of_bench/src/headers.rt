//! Reading frames.

use crate::clock::{Timed, time};
use crate::frames::TAGGED_TCP;
use of_headers::read;
use std::io;

#[derive(Drop)]
struct Key {
    frame: [u8; 58],
}

impl Timed for Key {
    fn call(&mut self, turn: u64) -> u64 {
        self.frame[35] = (turn % 256) as u8;
        match read(&self.frame, (turn % 64) as u32, 0) {
            Ok(headers) => {
                let key = headers.key();
                u64::from(key.numbers.ipv4_src)
                    ^ u64::from(key.numbers.tcp_dst)
                    ^ u64::from(key.numbers.in_port)
            }
            Err(_) => 0,
        }
    }
}

/// `read` of a frame with one tag, IPv4 and TCP, and its key.
pub fn time_key(rt: &HostRuntime) -> io::Result<()> {
    time(rt, "key", &mut Key { frame: TAGGED_TCP })
}
