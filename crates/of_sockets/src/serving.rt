//! Controllers over TCP, for a switch that serves them.
ghost use Rattle.std.specs.Prelude.{◌≡◌, ◌<◌, ◌≤◌, None as NotTold, IfOk, IfSome, length};
ghost use Rattle.of_replay.specs.Told.{IsReading};

use crate::controller::Controller;
use crate::course::{Course, Journal};
use crate::event_log::EventLog;
use crate::machine::Machine;
use crate::opening::{Unopened, opened};
use crate::teller::Teller;
use mio::{Events, Poll};
use of_command_line::{Meeting, Serve};
use of_live::Input;
use of_replay::{Reading, Writing};
use of_serve::{Accepted, Peers};
use of_switch::Event;
use of_wire::front_of;
use std::alloc::Global;
use std::cell::Cell;
use std::io;
use std::time::Duration;

/// How many nanoseconds a read waits at most, if the read before it found nothing.
const READ_WAIT: u64 = 2_000_000_000;

/// How many nanoseconds a write waits for a controller that reads nothing, before the connection counts as lost.
const WRITE_WAIT: u64 = 10_000_000_000;

/// How many nanoseconds a wait takes at most, so that what the clock decides is seen in time.
const STEP: u64 = 100_000_000;

/// What connects a switch with its controllers, one at a time.
#[derive(Drop)]
struct Channel<'r> {
    teller: &'r Teller<'r>,
    machine: &'r Machine<'r>,
    poll: Poll,
    events: Events<Global>,
    controller: Controller<'r>,
    is_dialing: bool,
    // another controller came in place of the one that was served, and its accept is still to come
    is_met: bool,
    // whether the next read may wait: after a wait what the time brought goes out first
    may_wait: bool,
    course: Course,
    journal: Journal<'r>,
}

impl<'r> Channel<'r> {
    // Begins to listen, if controllers connect to the switch.
    fn new(
        teller: &'r Teller<'r>,
        machine: &'r Machine<'r>,
        asked: &Serve,
        first: &[Event],
        course: Course,
        has_failed: &'r Cell<bool>,
    ) -> Result<Self, Unopened> {
        let poll = opened(Poll::new(teller.rt), "wait for sockets")?;
        let events = Events::with_capacity(teller.rt.alloc(), 16);
        let events = opened(events.map_err(io::Error::from), "wait for sockets")?;
        let (meeting, idle, quiet) = (asked.meeting, asked.idle, asked.quiet);
        let controller = Controller::new(teller, meeting, idle, quiet, poll.registry());
        let controller = opened(controller, "listen")?;
        let log = EventLog::begin(teller, &asked.log, asked.dpid, first)?;
        Ok(Channel {
            teller,
            machine,
            poll,
            events,
            controller,
            is_dialing: matches!(meeting, Meeting::Dial(_)),
            is_met: false,
            may_wait: false,
            course,
            journal: Journal::new(teller, log, has_failed),
        })
    }

    // Waits until something may come, for so many nanoseconds at most, and returns whether it could.
    fn wait(&mut self, most: u64) -> bool {
        let timeout = Duration::from_nanos(most.min(STEP));
        match self.poll.poll(&mut self.events, Some(timeout)) {
            Ok(()) => {
                for event in self.events.iter() {
                    self.controller.wake(event);
                }
                true
            }
            Err(error) => {
                let _ = eprintln!(self.teller; "cannot wait for sockets: {error}");
                false
            }
        }
    }

    // Waits, unless something may come at once.
    fn wait_unless_ready(&mut self, most: u64) -> bool {
        let is_ready = self.controller.is_ready(true);
        self.wait(if is_ready { 0 } else { most })
    }

    // A controller that comes; or Nothing after a call that nobody answered, and the pause after it.
    fn meet(&mut self) -> Accepted {
        self.controller.close();
        let due = self.controller.due();
        for _ in 0..u64::MAX {
            let now = self.machine.now();
            if self.is_dialing && self.controller.has_called(due, now) {
                break;
            }
            if let Some(Input::Opened) = self.controller.meet_next(now, self.poll.registry()) {
                return Accepted::Open;
            }
            if !self.wait_unless_ready(STEP) {
                return Accepted::Fault;
            }
        }
        Accepted::Nothing
    }

    // The connection that begins, whose row is written.
    fn opened(&mut self) -> Accepted {
        self.is_met = false;
        self.may_wait = false;
        self.journal.push(&Event::Connect);
        if self.journal.write() {
            Accepted::Open
        } else {
            Accepted::Fault
        }
    }

    // The next controller, which may have come already.
    fn accept(&mut self) -> Accepted {
        if self.journal.has_failed() {
            return Accepted::Fault;
        }
        if self.is_met {
            return self.opened();
        }
        match self.meet() {
            Accepted::Open => self.opened(),
            other => other,
        }
    }

    // What comes of the connection now; None if nothing does.
    fn heard(&mut self, buffer: &mut [u8]) -> Option<Reading>
        requires room { length buffer.old ≡ 65536 }
        ensures room { length buffer.new ≡ 65536 }
        ensures fits { IfSome result (λ reading. IsReading reading 65536) }
    {
        let now = self.machine.now();
        match self
            .controller
            .next(true, now, self.poll.registry(), buffer)?
        {
            Input::Heard(n) if n > 0 => Some(Reading::Bytes(n)),
            Input::Ended => Some(Reading::End),
            Input::Opened => {
                self.is_met = true;
                Some(Reading::End)
            }
            _ => None,
        }
    }

    // What the connection says by this moment, in nanoseconds.
    fn hear(&mut self, until: u64, buffer: &mut [u8]) -> Reading
        requires room { length buffer.old ≡ 65536 }
        ensures room { length buffer.new ≡ 65536 }
        ensures fits { IsReading result 65536 }
    {
        for _ in 0..u64::MAX {
            let now = self.machine.now();
            if !self.wait_unless_ready(until.saturating_sub(now)) {
                return Reading::Fault;
            }
            if let Some(reading) = self.heard(buffer) {
                return reading;
            }
            if now >= until && !self.controller.is_ready(true) {
                break;
            }
        }
        Reading::Nothing
    }

    // The rows of what was heard, and of what was before it in the turn.
    fn note(&mut self, reading: Reading, buffer: &[u8]) -> bool
        requires fits { IsReading reading (length buffer.now) }
    {
        match reading {
            Reading::Bytes(n) => self.journal.push_chunk(front_of(buffer, n)),
            Reading::End | Reading::Fault => self.journal.push(&Event::Lost),
            Reading::Nothing => {}
        }
        self.journal.write()
    }

    // A read, which waits if the one before it found nothing without waiting, until the next row of the file is due at most.
    fn read(&mut self, buffer: &mut [u8]) -> Reading
        requires room { length buffer.old ≡ 65536 }
        ensures room { length buffer.new ≡ 65536 }
        ensures fits { IsReading result 65536 }
    {
        let told = self.machine.told();
        self.course.pass(told, &mut self.journal);
        let until = if self.may_wait {
            self.course.next_due(told.saturating_add(READ_WAIT))
        } else {
            0
        };
        let reading = self.hear(until, buffer);
        self.may_wait = !self.may_wait && reading == Reading::Nothing;
        if !self.note(reading, buffer) {
            return Reading::Fault;
        }
        reading
    }

    // Some of the bytes, one at least; None if the connection takes none for too long, and then it ends.
    fn write(&mut self, bytes: &[u8]) -> Option<usize>
        requires { 0 < length bytes.now }
        ensures fits { IfSome result (λ n. (0 < n) × (n ≤ length bytes.now)) }
    {
        if self.journal.has_failed() {
            return None;
        }
        let begun = self.machine.now();
        for _ in 0..u64::MAX {
            let written = self.controller.write(bytes);
            if written.taken > 0 {
                return Some(written.taken);
            }
            let waited = self.machine.now().saturating_sub(begun);
            if written.failed || waited >= WRITE_WAIT || !self.wait(STEP) {
                break;
            }
        }
        self.controller.close();
        self.journal.push(&Event::Lost);
        self.journal.write();
        None
    }
}

/// Controllers that connect by TCP, or one that is called. What they sent and took is not recorded.
#[derive(Drop)]
pub struct Sockets<'r> {
    channel: Channel<'r>,
    accepts: u64,
    reads: u64,
    accept_failures: u64,
    write_failures: u64,
    ghost few: { accept_failures ≤ accepts },
}

impl<'r> Sockets<'r> {
    /// Begins to listen, if controllers connect to the switch, and then the log, if there is to be one, with the rows of what happened to
    /// the switch already. `has_failed` becomes true if the log cannot be written.
    pub fn new(
        teller: &'r Teller<'r>,
        machine: &'r Machine<'r>,
        asked: &Serve,
        first: &[Event],
        course: Course,
        has_failed: &'r Cell<bool>,
    ) -> Result<Self, Unopened>
        ensures { IfOk result (λ s. (s.accepts ≡ 0) × (s.reads ≡ 0) × (s.accept_failures ≡ 0) × (s.write_failures ≡ 0)) }
    {
        Ok(Sockets {
            channel: Channel::new(teller, machine, asked, first, course, has_failed)?,
            accepts: 0,
            reads: 0,
            accept_failures: 0,
            write_failures: 0,
        })
    }
}

impl Peers for Sockets<'_> {
    ghost came = { λ _. NotTold };

    ghost took = { λ _. NotTold };

    ghost accepts = { λ s. s.accepts };

    ghost reads = { λ s. s.reads };

    ghost accept_failures = { λ s. s.accept_failures };

    ghost write_failures = { λ s. s.write_failures };

    fn accept(&mut self) -> Accepted {
        self.accepts += 1;
        match self.channel.accept() {
            Accepted::Open => Accepted::Open,
            Accepted::Nothing => Accepted::Nothing,
            Accepted::Fault => {
                self.accept_failures += 1;
                Accepted::Fault
            }
        }
    }

    fn read(&mut self, buffer: &mut [u8]) -> Reading {
        self.reads += 1;
        self.channel.read(buffer)
    }

    fn write(&mut self, bytes: &[u8]) -> Writing {
        match self.channel.write(bytes) {
            Some(n) => Writing::Wrote(n),
            None => {
                self.write_failures += 1;
                Writing::Fault
            }
        }
    }
}
