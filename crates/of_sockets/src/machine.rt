//! The machine's clock.
ghost use Rattle.std.specs.Prelude.{None as NotTold};

use crate::teller::Teller;
use crate::{Refusals, RefusedRow};
use of_serve::Clock;
use std::cell::Cell;
use std::time::Instant;

/// The machine's clock, from its creation on, in nanoseconds.
#[derive(Drop)]
pub struct Machine<'r> {
    rt: &'r HostRuntime,
    start: Option<Instant>,
    // what it said last
    last: Cell<u64>,
    // what it told the switch last
    told: Cell<u64>,
}

impl<'r> Machine<'r> {
    pub fn new(rt: &'r HostRuntime) -> Self {
        Machine {
            rt,
            start: Instant::now(rt).ok(),
            last: Cell::new(0),
            told: Cell::new(0),
        }
    }

    /// The time. Where the machine's clock fails, it is as late as it was.
    pub fn now(&self) -> u64 {
        if let Some(start) = &self.start {
            if let Ok(passed) = start.elapsed(self.rt) {
                let last = u64::try_from(passed.as_nanos()).unwrap_or(self.last.get());
                self.last.set(last);
            }
        }
        self.last.get()
    }

    /// The time that a switch was told last.
    pub fn told(&self) -> u64 {
        self.told.get()
    }
}

/// What tells a switch the time. What it said is not kept.
#[derive(Drop)]
pub struct MachineClock<'r> {
    teller: &'r Teller<'r>,
    machine: &'r Machine<'r>,
    // those of the event file, to be said when their time has come
    refusals: Option<Refusals>,
}

impl<'r> MachineClock<'r> {
    /// A clock that says the refused rows that are due before it tells the time to a turn.
    pub fn new(
        teller: &'r Teller<'r>,
        machine: &'r Machine<'r>,
        refusals: Option<Refusals>,
    ) -> Self {
        MachineClock {
            teller,
            machine,
            refusals,
        }
    }
}

// Says the refused rows that are due by now on standard error.
fn say_refused(teller: &Teller<'_>, refusals: &mut Refusals, now: u64) {
    for _ in 0..u64::MAX {
        let Some(RefusedRow { line, why, .. }) = refusals.next_due(now) else {
            break;
        };
        let _ = eprintln!(teller; "row {line} refused: {why}");
    }
}

impl Clock for MachineClock<'_> {
    ghost times = { λ _. NotTold };

    fn now(&mut self) -> u64 {
        let now = self.machine.now();
        self.machine.told.set(now);
        if let Some(refusals) = &mut self.refusals {
            say_refused(self.teller, refusals, now);
        }
        now
    }
}
