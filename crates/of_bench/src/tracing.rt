//! Traces.

use crate::clock::{Timed, time};
use crate::forwarding::eight_flows;
use crate::frames::TCP;
use crate::lookups::Lookups;
use crate::switching::switch_after;
use of_switch::Switch;
use of_trace::print;
use of_tracing::trace;
use std::alloc::Global;
use std::io;

#[derive(Drop)]
struct Traced {
    alloc: Global,
    switch: Switch<Lookups>,
    is_printed: bool,
}

impl Timed for Traced {
    fn call(&mut self, turn: u64) -> u64 {
        let Ok(traced) = trace(self.alloc, &self.switch, 1, &TCP) else {
            return turn;
        };
        if !self.is_printed {
            return traced.steps.len() as u64;
        }
        match print(self.alloc, &traced) {
            Ok(text) => text.len() as u64,
            Err(_) => turn,
        }
    }
}

fn time_traced(rt: &HostRuntime, name: &str, is_printed: bool) -> io::Result<()> {
    let Some(switch) = switch_after(rt.alloc(), 2, eight_flows(rt.alloc())) else {
        return println!(rt; "{name}: no memory");
    };
    let mut timed = Traced {
        alloc: rt.alloc(),
        switch,
        is_printed,
    };
    time(rt, name, &mut timed)
}

/// The trace of the frame of `frame`, without its text and with it.
pub fn time_trace(rt: &HostRuntime) -> io::Result<()> {
    time_traced(rt, "trace", false)?;
    time_traced(rt, "trace, printed", true)
}
