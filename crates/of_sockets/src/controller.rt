//! One controller at a time, over TCP, without waiting for it.
ghost use Rattle.std.specs.Prelude.{◌≡◌, ◌<◌, ◌≤◌, length, IfSome};
ghost use Rattle.of_live.specs.Inputs.{IsInput};

use crate::silence::{Heard, begins_whole};
use crate::teller::Teller;
use crate::{Ending, FIRST_PAUSE, Pauses, ending_of, is_nobody, read_some, write_some};
use mio::event::Event;
use mio::net::{TcpListener, TcpStream};
use mio::{Interest, Registry, Token};
use of_command_line::Meeting;
use of_live::{Input, Written};
use of_replay::Reading;
use of_wire::front_of;
use std::alloc::AllocError;
use std::io::{self, ErrorKind};
use std::net::SocketAddr;

/// The tokens of what may be ready.
const DOOR: Token = Token(1);

const CONNECTION: Token = Token(2);

const CALL: Token = Token(4);

/// How many nanoseconds a call of a controller waits for its answer.
const DIAL_WAIT: u64 = 5_000_000_000;

/// How controllers and the switch find each other.
#[derive(Drop)]
enum Door {
    Listening {
        listener: TcpListener,
        is_ready: bool,
    },
    Dialing(SocketAddr),
}

/// A call that is not answered yet.
#[derive(Drop)]
struct Call {
    stream: TcpStream,
    // when it began, in nanoseconds
    begun: u64,
    is_writable: bool,
}

/// Somebody who was accepted, and is served or closed when it is known whether the connection before is over.
#[derive(Drop)]
struct Guest {
    stream: TcpStream,
    address: SocketAddr,
}

/// A connection, and what is known of it.
#[derive(Drop)]
struct Connection {
    stream: TcpStream,
    is_readable: bool,
    is_writable: bool,
    // a write did not take all
    is_full: bool,
    // why it ends if it is closed now
    ending: Ending,
    heard: Heard,
    // what was heard until its first message was whole
    first: Vec<u8>,
    // how many others were closed at once meanwhile
    turned_away: u64,
}

impl Connection {
    // Something was heard.
    fn note(&mut self, bytes: &[u8], now: u64) -> Result<(), AllocError> {
        self.heard.last = now;
        if !self.heard.is_met {
            self.first.extend_from_slice(bytes)?;
            self.heard.is_met = begins_whole(&self.first);
        }
        if self.heard.is_met {
            self.first.truncate(0);
        }
        Ok(())
    }
}

/// Controllers that connect, or one that is called.
#[derive(Drop)]
pub struct Controller<'r> {
    teller: &'r Teller<'r>,
    door: Door,
    pauses: Pauses,
    // when the next call is due, or the next accept after one that failed, in nanoseconds
    due: u64,
    call: Option<Call>,
    guest: Option<Guest>,
    connection: Option<Connection>,
    // whether it was said that accepts fail
    is_failing: bool,
    // what the clock said last, in nanoseconds
    time: u64,
    // for how many nanoseconds a connection may say nothing, if that is limited
    idle: Option<u64>,
    quiet: bool,
}

impl<'r> Controller<'r> {
    /// Begins to listen, if controllers connect to the switch.
    pub fn new(
        teller: &'r Teller<'r>,
        meeting: Meeting,
        idle: Option<u64>,
        quiet: bool,
        registry: &Registry,
    ) -> io::Result<Self> {
        let door = match meeting {
            Meeting::Listen(address) => {
                let mut listener = TcpListener::bind(teller.rt, address)?;
                registry.register(&mut listener, DOOR, Interest::READABLE)?;
                Door::Listening {
                    listener,
                    is_ready: true,
                }
            }
            Meeting::Dial(address) => Door::Dialing(address),
        };
        Ok(Controller {
            teller,
            door,
            pauses: Pauses::new(),
            due: 0,
            call: None,
            guest: None,
            connection: None,
            is_failing: false,
            time: 0,
            idle,
            quiet,
        })
    }

    /// Something may be ready.
    pub fn wake(&mut self, event: &Event) {
        let is_readable = event.is_readable() || event.is_read_closed() || event.is_error();
        let is_writable = event.is_writable() || event.is_error();
        match event.token() {
            DOOR => {
                if let Door::Listening { is_ready, .. } = &mut self.door {
                    *is_ready = true;
                }
            }
            CALL => {
                if let Some(call) = &mut self.call {
                    call.is_writable = call.is_writable || is_writable;
                }
            }
            CONNECTION => {
                if let Some(connection) = &mut self.connection {
                    connection.is_readable = connection.is_readable || is_readable;
                    connection.is_writable = connection.is_writable || is_writable;
                }
            }
            _ => {}
        }
    }

    // Whether somebody may wait to be accepted.
    fn is_somebody_waiting(&self) -> bool {
        match &self.door {
            Door::Listening { is_ready, .. } => *is_ready && self.time >= self.due,
            Door::Dialing(_) => false,
        }
    }

    /// Whether something may come at once, to a switch that hears the connection or does not.
    pub fn is_ready(&self, hears: bool) -> bool {
        let is_readable = match &self.connection {
            Some(connection) => hears && connection.is_readable,
            None => false,
        };
        is_readable || self.guest.is_some() || self.is_somebody_waiting()
    }

    fn say(&self, text: &str, address: SocketAddr) {
        if !self.quiet {
            let _ = eprintln!(self.teller; "{text} {address}");
        }
    }

    // What was tried failed, or is not answered yet: it is tried again after a pause.
    fn pause(&mut self) {
        let pause = self.pauses.next().saturating_mul(1_000_000);
        self.due = self.time.saturating_add(pause);
    }

    // Accepts somebody who waits. An accept that fails, because there is no descriptor or no memory for it, is tried again.
    fn accept(&mut self) {
        if self.guest.is_some() || !self.is_somebody_waiting() {
            return;
        }
        let Door::Listening { listener, is_ready } = &mut self.door else {
            return;
        };
        match listener.accept() {
            Ok((stream, address)) => {
                self.pauses.reset();
                self.is_failing = false;
                self.guest = Some(Guest { stream, address });
            }
            Err(error) => {
                *is_ready = error.kind() != ErrorKind::WouldBlock;
                if !is_nobody(error.kind()) {
                    self.pause();
                    self.say_failing(&error);
                }
            }
        }
    }

    fn say_failing(&mut self, error: &io::Error) {
        if !self.is_failing {
            let _ = eprintln!(self.teller; "cannot accept: {error}; it is tried again");
        }
        self.is_failing = true;
    }

    // Whether there is a connection that does not give way.
    fn is_taken(&self) -> bool {
        match &self.connection {
            Some(connection) => !connection.heard.gives_way(self.time),
            None => false,
        }
    }

    // One that comes while there is a connection is closed at once; that is said once.
    fn turn_away(&mut self, address: SocketAddr) {
        let Some(connection) = &mut self.connection else {
            return;
        };
        connection.turned_away = connection.turned_away.saturating_add(1);
        if connection.turned_away == 1 {
            self.say(
                "closed at once, because there is another connection:",
                address,
            );
        }
    }

    // Serves the guest, if there is one, or closes it.
    fn meet(&mut self, registry: &Registry) -> Option<Input>
        ensures { IfSome result IsInput }
    {
        let Guest {
            mut stream,
            address,
        } = self.guest.take()?;
        if self.is_taken() {
            self.turn_away(address);
            return None;
        }
        stream.set_nodelay(true).ok()?;
        registry
            .register(
                &mut stream,
                CONNECTION,
                Interest::READABLE | Interest::WRITABLE,
            )
            .ok()?;
        Some(self.begin(stream, address))
    }

    // A connection begins, in place of the one that there may be.
    fn begin(&mut self, stream: TcpStream, address: SocketAddr) -> Input
        ensures { result ≡ Input.Opened }
    {
        if self.connection.is_some() {
            self.end(Ending::GaveWay);
        }
        self.connection = Some(Connection {
            stream,
            is_readable: false,
            is_writable: false,
            is_full: false,
            ending: Ending::BySwitch,
            heard: Heard {
                begun: self.time,
                last: self.time,
                is_met: false,
            },
            first: Vec::new(self.teller.rt.alloc()),
            turned_away: 0,
        });
        self.say("connection with", address);
        Input::Opened
    }

    // Whether the controller is to be called: there is no connection, or one of which nothing was heard for long.
    fn is_missed(&self) -> bool {
        match &self.connection {
            Some(connection) => connection.heard.is_doubted(self.time),
            None => true,
        }
    }

    // Gives up a call that was not answered for some time.
    fn hang_up(&mut self) {
        let Some(call) = &self.call else {
            return;
        };
        if self.time.saturating_sub(call.begun) >= DIAL_WAIT {
            self.call = None;
        }
    }

    // Calls the controller when that is due.
    fn dial(&mut self, registry: &Registry) {
        self.hang_up();
        let Door::Dialing(address) = &self.door else {
            return;
        };
        let address = *address;
        if self.call.is_some() || self.time < self.due || !self.is_missed() {
            return;
        }
        self.pause();
        if let Ok(stream) = TcpStream::connect(self.teller.rt, address) {
            let _ = self.await_answer(stream, registry);
        }
    }

    // A call is answered, or refused, when it may be written.
    fn await_answer(&mut self, stream: TcpStream, registry: &Registry) -> io::Result<()> {
        let mut stream = stream;
        stream.set_nodelay(true)?;
        registry.register(&mut stream, CALL, Interest::READABLE | Interest::WRITABLE)?;
        self.call = Some(Call {
            stream,
            begun: self.time,
            is_writable: false,
        });
        Ok(())
    }

    // Whether a call was answered.
    fn answered(&mut self, registry: &Registry) -> Option<Input>
        ensures { IfSome result IsInput }
    {
        let Door::Dialing(address) = &self.door else {
            return None;
        };
        let address = *address;
        if !self.call.as_ref()?.is_writable {
            return None;
        }
        let Call { mut stream, .. } = self.call.take()?;
        match stream.take_error() {
            Ok(None) => {}
            _ => return None,
        }
        registry
            .reregister(
                &mut stream,
                CONNECTION,
                Interest::READABLE | Interest::WRITABLE,
            )
            .ok()?;
        self.pauses.reset();
        self.due = self.time.saturating_add(FIRST_PAUSE * 1_000_000);
        Some(self.begin(stream, address))
    }

    // What the connection says, at the start of the buffer. It is also read if there is a guest: its end may have come before.
    fn hear(&mut self, buffer: &mut [u8]) -> Option<Input>
        requires { length buffer.old ≡ 65536 }
        ensures room { length buffer.new ≡ 65536 }
        ensures fits { IfSome result IsInput }
    {
        let now = self.time;
        let connection = self.connection.as_mut()?;
        if !connection.is_readable && self.guest.is_none() {
            return None;
        }
        let reading = read_some(&mut connection.stream, buffer);
        if let Some(why) = ending_of(reading) {
            return Some(self.end(why));
        }
        let Reading::Bytes(n) = reading else {
            connection.is_readable = false;
            return None;
        };
        match connection.note(front_of(buffer, n), now) {
            Ok(()) => Some(Input::Heard(n)),
            Err(_) => Some(self.end(Ending::ReadFailed)),
        }
    }

    // Nothing is heard, because the switch does not want to.
    fn pass_over(&mut self) -> Option<Input>
        ensures { IfSome result IsInput }
    {
        self.connection.as_mut()?.heard.last = self.time;
        None
    }

    // Gives up a connection of which too little was heard.
    fn give_up(&mut self) -> Option<Input>
        ensures { IfSome result IsInput }
    {
        let why = self
            .connection
            .as_ref()?
            .heard
            .ending(self.time, self.idle)?;
        Some(self.end(why))
    }

    fn end(&mut self, why: Ending) -> Input
        ensures { result ≡ Input.Ended }
    {
        if let Some(connection) = self.connection.take() {
            self.say_end(why, connection.turned_away);
        }
        Input::Ended
    }

    fn say_end(&self, why: Ending, turned_away: u64) {
        if self.quiet {
            return;
        }
        let _ = eprintln!(self.teller; "connection ended: {why}");
        if turned_away > 0 {
            let _ = eprintln!(self.teller; "closed at once meanwhile: {turned_away}");
        }
    }

    // Whether a connection that did not take all takes bytes again.
    fn takes_again(&mut self) -> Option<Input>
        ensures { IfSome result IsInput }
    {
        let connection = self.connection.as_mut()?;
        if !connection.is_full || !connection.is_writable {
            return None;
        }
        connection.is_full = false;
        connection.ending = Ending::BySwitch;
        Some(Input::Ready)
    }

    // The answer to a call, or the guest.
    fn come(&mut self, registry: &Registry) -> Option<Input>
        ensures { IfSome result IsInput }
    {
        self.dial(registry);
        if let Some(input) = self.answered(registry) {
            return Some(input);
        }
        self.meet(registry)
    }

    /// A controller that comes, if one does, where there is no connection.
    pub fn meet_next(&mut self, time: u64, registry: &Registry) -> Option<Input>
        ensures fits { IfSome result IsInput }
    {
        self.time = time;
        self.accept();
        self.come(registry)
    }

    /// What comes from controllers, if something does: the end of a connection comes before the next one. The connection is read only
    /// if the switch hears it, and what the switch does not hear is no silence.
    pub fn next(
        &mut self,
        hears: bool,
        time: u64,
        registry: &Registry,
        buffer: &mut [u8],
    ) -> Option<Input>
        requires { length buffer.old ≡ 65536 }
        ensures room { length buffer.new ≡ 65536 }
        ensures fits { IfSome result IsInput }
    {
        self.time = time;
        if let Some(input) = self.takes_again() {
            return Some(input);
        }
        self.accept();
        let input = if hears {
            self.hear(buffer)
        } else {
            self.pass_over()
        };
        if input.is_some() {
            return input;
        }
        if let Some(input) = self.give_up() {
            return Some(input);
        }
        self.come(registry)
    }

    /// Whether the call that was due at this moment is over now, and the pause after it too.
    pub fn has_called(&self, due: u64, now: u64) -> bool {
        self.call.is_none() && self.due > due && now >= self.due
    }

    /// When the next call is due, in nanoseconds.
    pub fn due(&self) -> u64 {
        self.due
    }

    /// Offers bytes to the connection. One that takes a part of them takes no more for now.
    pub fn write(&mut self, bytes: &[u8]) -> Written
        requires { 0 < length bytes.now }
        ensures { result.taken ≤ length bytes.now }
    {
        let Some(connection) = &mut self.connection else {
            return Written {
                taken: 0,
                failed: true,
            };
        };
        match write_some(&mut connection.stream, bytes) {
            Ok(taken) => {
                connection.is_full = taken < bytes.len();
                connection.is_writable = taken == bytes.len();
                Written {
                    taken,
                    failed: false,
                }
            }
            Err(ending) => {
                connection.ending = ending;
                connection.is_full = true;
                connection.is_writable = false;
                Written {
                    taken: 0,
                    failed: ending != Ending::ReadsNothing,
                }
            }
        }
    }

    /// Closes the connection.
    pub fn close(&mut self) {
        if let Some(connection) = &self.connection {
            let ending = connection.ending;
            self.end(ending);
        }
    }
}
