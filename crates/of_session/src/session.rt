//! A controller's connection: its stream, and which messages of it are handled.
ghost use Rattle.std.specs.Prelude.{◌≡◌, ◌++◌, ◌≤◌, length, take, [], OnOk, OnErr, IfOk};
ghost use Rattle.of_messages.specs.{Heads.xid_of, declared.role.Role.Role as ARole};
ghost use Rattle.of_session.specs.Session.{next_of_connection, with_received, is_first_hello, judged, next_greeting as greeting_of, entered, IsNextReceived, IsSoundNext, IsNextSized};

use crate::stream::{Beginning, HEADER, Stream};
use byteorder::{BigEndian, ByteOrder};
use of_formats::messages::HELLO;
use of_messages::{Message, Role, agreed_version, read_message_as};
use of_wire::{Code, ReadError};
use std::alloc::{AllocError, Global};
use std::marker::Model;

/// The phase of a connection (OpenFlow 1.3.5, 6.3.1).
#[derive(Clone, Copy, Debug, PartialEq, Eq)]
pub enum Phase {
    /// There is no connection.
    Disconnected,
    /// The first message, a HELLO, is awaited.
    Greeting,
    /// A HELLO was accepted.
    Open,
}

/// What comes next in a connection.
#[derive(Drop)]
pub enum Next {
    /// Neither a whole message nor a malformed header is there.
    Nothing,
    /// A header whose length is below 8: the connection is to be closed.
    BadStream {
        xid: u32,
    },
    /// A first message that is no HELLO that agrees to version 4: the connection is to be closed.
    NotHello {
        xid: u32,
    },
    /// The HELLO that opens the connection, of this many bytes.
    Opened {
        size: usize,
    },
    /// A message of this many bytes.
    Read {
        xid: u32,
        size: usize,
        message: Message,
    },
    /// A message of this many bytes, which is refused.
    Refused {
        xid: u32,
        size: usize,
        code: Code,
    },
}

/// A controller's connection, or that there is none.
#[derive(Drop)]
pub struct Session {
    phase: Phase,
    stream: Stream,
    alloc: Global,
}

impl Model for Session {
    ghost use Rattle.of_session.specs.Session.{Connection};

    ghost Value = { Connection };

    ghost view = { λ s. record { phase = s.phase; pending = s.stream } };
}

impl Session {
    ghost use Rattle.of_session.specs.Session.{Connection, alone, greeting};

    /// Without a connection.
    pub fn new(alloc: Global) -> Session
        ensures { result ≡ alone }
    {
        Session {
            phase: Phase::Disconnected,
            stream: Stream::new(alloc),
            alloc,
        }
    }

    /// The phase of the connection.
    pub fn phase(&self) -> Phase
        ensures { result ≡ self.now.phase }
    {
        self.phase
    }

    /// The bytes that were received and not yet handled.
    pub fn pending(&self) -> &[u8]
        ensures { result.now ≡ self.now.pending }
    {
        self.stream.left()
    }

    /// A connection begins: its first message is awaited.
    pub fn connect(&mut self)
        ensures { self.new ≡ greeting }
    {
        self.phase = Phase::Greeting;
        self.stream.clear();
    }

    /// The connection ends, and the bytes that were received and not handled are dropped.
    pub fn close(&mut self)
        ensures { self.new ≡ alone }
    {
        self.phase = Phase::Disconnected;
        self.stream.clear();
    }

    /// Receives these bytes. Where memory runs out none of them was received.
    pub fn feed(&mut self, chunk: &[u8]) -> Result<(), AllocError>
        ensures ok { OnOk result (self.new ≡ with_received chunk.now self.old) }
        ensures err { OnErr result (self.new ≡ self.old) }
    {
        self.stream.feed(chunk)
    }

    /// What comes next from a controller of that role. It is the same until it is `taken`.
    pub fn next(&self, role: Role) -> Result<Next, AllocError>
        ensures next { IfOk result (λ next. next ≡ next_of_connection role self.now) }
        ensures there { IfOk result (λ next. IsNextReceived next self.now) }
        ensures sound { IfOk result IsSoundNext }
    {
        if self.phase == Phase::Disconnected {
            return Ok(Next::Nothing);
        }
        match self.stream.front() {
            Beginning::Waiting => Ok(Next::Nothing),
            Beginning::Malformed => Ok(Next::BadStream {
                xid: xid_at(self.stream.first(HEADER)),
            }),
            Beginning::Message(size) => judge(
                self.alloc,
                role,
                self.phase,
                self.stream.first(size),
            ),
        }
    }

    /// The first bytes that were received and not yet handled.
    pub fn first(&self, size: usize) -> &[u8]
        requires { size ≤ length self.now.pending }
        ensures { result.now ≡ take size self.now.pending }
    {
        self.stream.first(size)
    }

    /// What `next` gives was handled: a message is taken, a HELLO opens the connection, and a fault ends it.
    pub fn taken(&mut self)
        ensures { (role : ARole) → self.new ≡ entered (next_of_connection role self.old) self.old }
    {
        if self.phase == Phase::Disconnected {
            return;
        }
        match self.stream.front() {
            Beginning::Waiting => {}
            Beginning::Malformed => self.close(),
            Beginning::Message(size) if self.phase == Phase::Open => self.stream.take(size),
            Beginning::Message(size) => self.greeted(size),
        }
    }

    // The first message, of this many bytes, opens the connection, or ends it.
    fn greeted(&mut self, size: usize)
        requires header { 8 ≤ size }
        requires there { size ≤ length self.old.pending }
        ensures { self.new ≡ entered (greeting_of (take size self.old.pending)) self.old }
    {
        if is_accepted(self.stream.first(size)) {
            self.stream.take(size);
            self.phase = Phase::Open;
        } else {
            self.close();
        }
    }
}

fn xid_at(message: &[u8]) -> u32
    requires { 8 ≤ length message.now }
    ensures { result ≡ xid_of message.now }
{
    let (_, rest) = message.split_at(4);
    BigEndian::read_u32(rest)
}

// Whether a first message is a HELLO that agrees to version 4.
fn is_accepted(message: &[u8]) -> bool
    requires { 8 ≤ length message.now }
    ensures { result ≡ is_first_hello message.now }
{
    message[1] == HELLO && agreed_version(message) == 4
}

// What a whole message is to a connection in that phase.
fn judge(alloc: Global, role: Role, phase: Phase, message: &[u8]) -> Result<Next, AllocError>
    requires { 8 ≤ length message.now }
    ensures next { IfOk result (λ next. next ≡ judged role phase message.now) }
    ensures size { IfOk result (λ next. IsNextSized next (length message.now)) }
    ensures sound { IfOk result IsSoundNext }
{
    let size = message.len();
    if phase != Phase::Open {
        return Ok(greet(message));
    }
    let xid = xid_at(message);
    match read_message_as(alloc, role, message) {
        Ok(message) => Ok(Next::Read { xid, size, message }),
        Err(ReadError::Memory) => Err(AllocError),
        Err(ReadError::Refused(code)) => Ok(Next::Refused { xid, size, code }),
    }
}

fn greet(message: &[u8]) -> Next
    requires { 8 ≤ length message.now }
    ensures next { result ≡ greeting_of message.now }
    ensures size { IsNextSized result (length message.now) }
    ensures sound { IsSoundNext result }
{
    if is_accepted(message) {
        Next::Opened {
            size: message.len(),
        }
    } else {
        Next::NotHello {
            xid: xid_at(message),
        }
    }
}
