//! Sockets by turns: datagrams, a controller and the machine's clock.
ghost use Rattle.std.specs.Prelude.{◌≡◌, ◌<◌, ◌≤◌, length, IfSome};
ghost use Rattle.of_live.specs.Inputs.{IsInput};

use super::port_rows::PortRows;
use super::standard_rows::{Given, ROWS, StandardRows};
use super::tunnel::{Received, Tunnel};
use crate::controller::Controller;
use crate::opening::{Unopened, opened};
use crate::teller::Teller;
use mio::{Events, Interest, Poll, Token};
use of_command_line::Live as Asked;
use of_live::{Dropped, Endpoint, Input, Wanted, Written};
use of_switch::Event;
use std::alloc::Global;
use std::io;
use std::time::{Duration, Instant};

const TUNNEL: Token = Token(0);

/// How many milliseconds an idle switch waits at most, so that flows expire and rows of the event file happen in time.
const IDLE: u64 = 100;

/// How many rows of standard input come at most before the next datagram or message.
const ROWS_A_TURN: u32 = 64;

/// How often a switch looks for another datagram after the last one, before it waits.
const LOOKS: u32 = 32;

/// Sockets and a clock.
#[derive(Drop)]
pub struct Outside<'r> {
    teller: &'r Teller<'r>,
    poll: Poll,
    events: Events<Global>,
    tunnel: Tunnel<'r>,
    controller: Controller<'r>,
    rows: Option<StandardRows<'r>>,
    // how many rows may come before the next datagram
    rows_left: u32,
    ports: Option<PortRows<'r>>,
    start: Instant,
    // what the clock said last, in nanoseconds since the start; None before it said anything
    time: Option<u64>,
    // whether the controller comes before the next datagram
    is_controllers_turn: bool,
    // how often it looked for another datagram
    looks: u32,
    no_network: u64,
    no_port: u64,
    other_peer: u64,
    no_peer: u64,
}

impl<'r> Outside<'r> {
    /// Opens the sockets. The rows of ports are those that are watched for refusals.
    pub fn new(
        teller: &'r Teller<'r>,
        asked: &Asked,
        ports: Option<PortRows<'r>>,
    ) -> Result<Self, Unopened> {
        let rt = teller.rt;
        let poll = opened(Poll::new(rt), "wait for sockets")?;
        let events = Events::with_capacity(rt.alloc(), 16);
        let events = opened(events.map_err(io::Error::from), "wait for sockets")?;
        let mut tunnel = opened(Tunnel::new(rt, asked.tunnel), "receive datagrams")?;
        let registered = poll
            .registry()
            .register(tunnel.socket(), TUNNEL, Interest::READABLE);
        opened(registered, "receive datagrams")?;
        let (meeting, idle, quiet) = (asked.meeting, asked.idle, asked.quiet);
        let controller = Controller::new(teller, meeting, idle, quiet, poll.registry());
        let controller = opened(controller, "listen")?;
        let rows = if asked.rows {
            Some(opened(
                StandardRows::new(teller, poll.registry()),
                "wait for standard input",
            )?)
        } else {
            None
        };
        let start = opened(Instant::now(rt), "read the clock")?;
        Ok(Outside {
            teller,
            poll,
            events,
            tunnel,
            controller,
            rows,
            rows_left: ROWS_A_TURN,
            ports,
            start,
            time: None,
            is_controllers_turn: true,
            looks: LOOKS,
            no_network: 0,
            no_port: 0,
            other_peer: 0,
            no_peer: 0,
        })
    }

    // A datagram, unless the switch itself sent it.
    fn taken(&mut self, received: Received) -> Input
        requires { received.length ≤ 65536 }
        ensures { IsInput result }
    {
        let Received {
            length,
            from,
            is_own,
        } = received;
        if is_own {
            self.count(Dropped::OtherPeer);
            return Input::Nothing;
        }
        Input::Datagram { from, length }
    }

    // A datagram, if there may be one; for some time after the last one it looks again and again, unless the switch has messages to
    // handle.
    fn look(&mut self, wanted: Wanted, buffer: &mut [u8]) -> Option<Input>
        requires { length buffer.old ≡ 65536 }
        ensures room { length buffer.new ≡ 65536 }
        ensures fits { IfSome result IsInput }
    {
        if self.tunnel.is_tired() || !self.tunnel.is_ready() && self.looks >= LOOKS {
            return None;
        }
        if let Some(received) = self.tunnel.receive(buffer) {
            self.looks = 0;
            return Some(self.taken(received));
        }
        if self.looks >= LOOKS || wanted.at_once {
            return None;
        }
        self.looks += 1;
        Some(Input::Nothing)
    }

    // A row of standard input, if there is one.
    fn next_row(&mut self, buffer: &mut [u8]) -> Option<Input>
        requires { length buffer.old ≡ 65536 }
        ensures room { length buffer.new ≡ 65536 }
        ensures fits { IfSome result IsInput }
    {
        let rows = self.rows.as_mut()?;
        self.rows_left = self.rows_left.checked_sub(1)?;
        match rows.next(self.poll.registry(), buffer)? {
            Given::Row { number, event } => {
                if let (Event::Ports(change), Some(ports)) = (&event, &mut self.ports) {
                    ports.play(number, *change);
                }
                Some(Input::Row(event))
            }
            Given::Nothing => Some(Input::Nothing),
        }
    }

    // A controller, rows and datagrams, by turns; None if nothing came.
    fn ready(&mut self, wanted: Wanted, buffer: &mut [u8]) -> Option<Input>
        requires { length buffer.old ≡ 65536 }
        ensures room { length buffer.new ≡ 65536 }
        ensures fits { IfSome result IsInput }
    {
        if self.is_controllers_turn {
            self.is_controllers_turn = false;
            let input = self.controller.next(
                wanted.hears,
                self.time.unwrap_or(0),
                self.poll.registry(),
                buffer,
            );
            if input.is_some() {
                return input;
            }
        }
        let row = self.next_row(buffer);
        if row.is_some() {
            return row;
        }
        self.look(wanted, buffer)
    }

    // Waits until something may come, or some time has passed.
    fn wait(&mut self, wanted: Wanted) -> io::Result<()> {
        let is_ready = wanted.at_once
            || self.controller.is_ready(wanted.hears)
            || self.tunnel.is_ready()
            || self.rows.as_ref().is_some_and(|rows| rows.is_ready());
        let timeout = if is_ready { 0 } else { IDLE };
        self.poll
            .poll(&mut self.events, Some(Duration::from_millis(timeout)))?;
        for event in self.events.iter() {
            match event.token() {
                TUNNEL => self.tunnel.wake(),
                ROWS => {
                    if let Some(rows) = &mut self.rows {
                        rows.wake();
                    }
                }
                _ => self.controller.wake(event),
            }
        }
        self.rows_left = ROWS_A_TURN;
        self.tunnel.begin_turn();
        self.is_controllers_turn = true;
        Ok(())
    }

    // If the machine's clock fails, it is as late as it was.
    fn tell_time(&mut self) -> Input
        ensures { IsInput result }
    {
        let before = self.time.unwrap_or(0);
        let now = match self.start.elapsed(self.teller.rt) {
            Ok(passed) => u64::try_from(passed.as_nanos()).unwrap_or(before),
            Err(_) => before,
        };
        self.time = Some(now);
        if let Some(ports) = &mut self.ports {
            ports.pass(now);
        }
        Input::Time(now)
    }

    /// What comes next: first the time, so that the first rows of the event file happen before anything else.
    pub fn next(&mut self, wanted: Wanted, buffer: &mut [u8]) -> Input
        requires { length buffer.old ≡ 65536 }
        ensures room { length buffer.new ≡ 65536 }
        ensures fits { IsInput result }
    {
        if self.time.is_none() {
            return self.tell_time();
        }
        if let Some(input) = self.ready(wanted, buffer) {
            return input;
        }
        match self.wait(wanted) {
            Ok(()) => self.tell_time(),
            Err(error) => {
                let _ = eprintln!(self.teller; "cannot wait for sockets: {error}");
                Input::Fault
            }
        }
    }

    /// Sends a datagram.
    pub fn send(&mut self, to: Endpoint, header: [u8; 8], frame: &[u8]) {
        self.tunnel.send(to, header, frame);
    }

    /// Counts what was dropped.
    pub fn count(&mut self, why: Dropped) {
        let count = match why {
            Dropped::NoNetwork => &mut self.no_network,
            Dropped::NoSuchPort => &mut self.no_port,
            Dropped::OtherPeer => &mut self.other_peer,
            Dropped::NoPeer => &mut self.no_peer,
        };
        *count = count.saturating_add(1);
    }

    /// Offers bytes to the controller.
    pub fn write(&mut self, bytes: &[u8]) -> Written
        requires { 0 < length bytes.now }
        ensures { result.taken ≤ length bytes.now }
    {
        self.controller.write(bytes)
    }

    /// Closes the connection with the controller.
    pub fn close(&mut self) {
        self.controller.close();
    }

    /// Says on standard error what was dropped, if anything was.
    pub fn say_counts(&self) {
        let counts = [
            (self.no_network, "datagrams without a network"),
            (self.no_port, "datagrams of networks that are no ports"),
            (
                self.other_peer,
                "datagrams from another address than the port's peer",
            ),
            (self.no_peer, "frames for ports whose peer is not known"),
            (
                self.tunnel.unsent(),
                "datagrams that the system did not take",
            ),
        ];
        for (count, what) in counts {
            if count > 0 {
                let _ = eprintln!(self.teller; "dropped: {count} {what}");
            }
        }
    }
}
