//! Standard input, which may have no bytes yet.

use std::io::{self, ErrorKind, Read, Stdin};
use std::thread;
use std::time::Duration;

/// How many milliseconds it pauses where there are no bytes yet.
const PAUSE: u64 = 5;

/// Standard input, as it was passed to the program. Where it does not block (O_NONBLOCK) and there are no bytes yet, a read pauses before it
/// says so: then reading it again and again takes no processor time to speak of.
#[derive(Drop)]
pub struct StandardInput<'r> {
    rt: &'r HostRuntime,
    input: Stdin,
}

impl<'r> StandardInput<'r> {
    pub fn new(rt: &'r HostRuntime) -> Self {
        StandardInput {
            rt,
            input: rt.stdin(),
        }
    }
}

impl Read for StandardInput<'_> {
    fn read(&mut self, buf: &mut [u8]) -> io::Result<usize> {
        let read = self.input.read(buf);
        if let Err(error) = &read {
            if error.kind() == ErrorKind::WouldBlock {
                thread::sleep(self.rt, Duration::from_millis(PAUSE));
            }
        }
        read
    }
}
