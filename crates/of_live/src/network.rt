//! The network of a switch: a clock, datagrams, one connection with a controller, and a log.
ghost use Rattle.std.specs.Prelude.{◌≡◌, ◌<◌, ◌≤◌, ◌++◌, ◌∷◌, ℕ, Bool, List, [], Option, length};
ghost use Rattle.of_live.specs.Acts.{Act, Records, Told, Drops, Logs, Sends, Writes, Closes};
ghost use Rattle.of_live.specs.Inputs.{IsInput, came_of, is_fault as is_fault_by, is_opened as is_opened_by, is_ready as is_ready_by};

use of_switch::Event;

/// Where datagrams are received: an address and a UDP port.
#[derive(Clone, Copy, PartialEq, Eq)]
pub struct Endpoint {
    /// An IPv6 address, or an IPv4 address as `::ffff:a.b.c.d`.
    pub address: u128,
    pub port: u16,
}

/// Why a datagram, or a frame that should leave, was dropped.
#[derive(Clone, Copy, PartialEq, Eq)]
pub enum Dropped {
    /// A datagram that is shorter than a header, or whose header names no network.
    NoNetwork,
    /// A datagram of a network that is no port of the switch.
    NoSuchPort,
    /// A datagram from another address than the one that was set for its port.
    OtherPeer,
    /// A frame for a port of which no peer is known.
    NoPeer,
}

/// What a switch wants of its network.
#[derive(Clone, Copy, PartialEq, Eq)]
pub struct Wanted {
    /// Whether it hears the controller. If not, the controller's bytes stay in the network.
    pub hears: bool,
    /// Whether it has messages to handle. If so, the network does not wait.
    pub at_once: bool,
}

/// What the network tells.
#[derive(Drop)]
pub enum Input {
    /// This many nanoseconds have passed since the start.
    Time(u64),
    /// A datagram, which fills the start of the buffer, and where its sender receives.
    Datagram { from: Endpoint, length: usize },
    /// A controller connected. The connection before it is over.
    Opened,
    /// Bytes of the controller, which fill the start of the buffer.
    Heard(usize),
    /// The controller's stream ended, or a read failed.
    Ended,
    /// The connection takes bytes again.
    Ready,
    /// A row that somebody wrote while the switch runs.
    Row(Event),
    /// Nothing came.
    Nothing,
    /// The network failed.
    Fault,
}

impl Input {
    /// Whether a controller connected.
    pub fn is_opened(&self) -> bool
        ensures { (buffer : List ℕ) → result ≡ is_opened_by (came_of self.now buffer) }
    {
        matches!(self, Input::Opened)
    }

    /// Whether the network failed.
    pub fn is_fault(&self) -> bool
        ensures { (buffer : List ℕ) → result ≡ is_fault_by (came_of self.now buffer) }
    {
        matches!(self, Input::Fault)
    }

    /// Whether the connection takes bytes again.
    pub fn is_ready(&self) -> bool
        ensures { (buffer : List ℕ) → result ≡ is_ready_by (came_of self.now buffer) }
    {
        matches!(self, Input::Ready)
    }
}

/// How a write to the connection ended.
#[derive(Clone, Copy, PartialEq, Eq)]
pub struct Written {
    /// How many bytes the connection took.
    pub taken: usize,
    /// Whether it failed. Otherwise it takes no more bytes for now, if it did not take all.
    pub failed: bool,
}

/// A network.
pub trait Network {
    /// What passed between it and the switch, in order, if it records that.
    ghost told: { Self → Option (List Act) };

    /// Whether it keeps a log.
    ghost keeps: { Self → Bool };

    /// Waits until something comes, or some time has passed, and tells what came. It tells bytes of the controller only to a switch
    /// that hears them, and does not wait if the switch wants the next turn at once. The buffer has 65,536 bytes.
    fn next(&mut self, wanted: Wanted, buffer: &mut [u8]) -> Input
        requires room { length buffer.old ≡ 65536 }
        ensures fits { IsInput result }
        ensures room { length buffer.new ≡ 65536 }
        ensures told { Records (told self.old) (Told wanted (came_of result buffer.new) ∷ []) (told self.new) }
        ensures keeps { keeps self.new ≡ keeps self.old };

    /// Whether it keeps a log of the rows of all events.
    fn is_logged(&self) -> bool
        ensures { result ≡ keeps self.now };

    /// Writes rows to the log, and returns whether all of them were written.
    fn log(&mut self, rows: &[u8]) -> bool
        ensures told { Records (told self.old) (Logs rows.now result ∷ []) (told self.new) }
        ensures keeps { keeps self.new ≡ keeps self.old };

    /// Sends a datagram, of a header and a frame. One that the network does not take is lost, as datagrams may be.
    fn send(&mut self, to: Endpoint, header: [u8; 8], frame: &[u8])
        ensures told { Records (told self.old) (Sends to (header ++ frame.now) ∷ []) (told self.new) }
        ensures keeps { keeps self.new ≡ keeps self.old };

    /// Learns that a datagram, or a frame that should leave, was dropped.
    fn count(&mut self, why: Dropped)
        ensures told { Records (told self.old) (Drops why ∷ []) (told self.new) }
        ensures keeps { keeps self.new ≡ keeps self.old };

    /// Offers bytes to the connection, which takes the first of them.
    fn write(&mut self, bytes: &[u8]) -> Written
        requires some { 0 < length bytes.now }
        ensures fits { result.taken ≤ length bytes.now }
        ensures told { Records (told self.old) (Writes bytes.now result.taken result.failed ∷ []) (told self.new) }
        ensures keeps { keeps self.new ≡ keeps self.old };

    /// Closes the connection.
    fn close(&mut self)
        ensures told { Records (told self.old) (Closes ∷ []) (told self.new) }
        ensures keeps { keeps self.new ≡ keeps self.old };
}
