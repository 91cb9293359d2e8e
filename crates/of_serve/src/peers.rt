//! Who connects to a switch, and what time it is.
ghost use Rattle.std.specs.Prelude.{◌≡◌, ◌+◌, ◌<◌, ◌≤◌, ◌^◌, ◌∷◌, ℕ, List, [], Option, length, take};
ghost use Rattle.of_replay.specs.Told.{answer_of, write_count, write_faults, IsReading, IsWriting};
ghost use Rattle.of_serve.specs.Told.{PeerCame, accept_came, Answered, then_told, accept_faults, then_begun, then_onto};

use of_replay::{Reading, Writing};

/// What an accept answered.
#[derive(Clone, Copy, PartialEq, Eq)]
pub enum Accepted {
    /// A peer connected: its connection is open from now on.
    Open,
    /// Nobody connected this time.
    Nothing,
    /// The accept failed.
    Fault,
}

/// Peers, one connection at a time.
pub trait Peers {
    /// What accepts and reads answered, in order, where it records that.
    ghost came: { Self → Option (List PeerCame) };

    /// The bytes that its writes took, a list a connection, the newest first, where it records them.
    ghost took: { Self → Option (List (List ℕ)) };

    /// How many accepts and reads there were, and how many accepts and writes failed.
    ghost accepts: { Self → ℕ };

    ghost reads: { Self → ℕ };

    ghost accept_failures: { Self → ℕ };

    ghost write_failures: { Self → ℕ };

    /// Checks whether a peer connects. The connection before it is given up.
    fn accept(&mut self) -> Accepted
        requires few { accepts self.old < 2 ^ 63 }
        ensures came { came self.new ≡ then_told (came self.old) (accept_came result ∷ []) }
        ensures took { took self.new ≡ then_begun (took self.old) result }
        ensures accepts { accepts self.new ≡ accepts self.old + 1 }
        ensures failures { accept_failures self.new ≡ accept_failures self.old + accept_faults result }
        ensures same { (reads self.new ≡ reads self.old) × (write_failures self.new ≡ write_failures self.old) };

    /// Reads bytes of the open connection into the start of the buffer, which has room for 65,536 bytes (`READ_SIZE`).
    fn read(&mut self, buffer: &mut [u8]) -> Reading
        requires room { length buffer.old ≡ 65536 }
        requires few { reads self.old < 2 ^ 63 }
        ensures fits { IsReading result (length buffer.new) }
        ensures came { came self.new ≡ then_told (came self.old) (Answered (answer_of result buffer.new) ∷ []) }
        ensures took { took self.new ≡ took self.old }
        ensures reads { reads self.new ≡ reads self.old + 1 }
        ensures same { (accepts self.new ≡ accepts self.old) × (accept_failures self.new ≡ accept_failures self.old) ×
            (write_failures self.new ≡ write_failures self.old) };

    /// Writes some of the bytes, from the start, to the open connection.
    fn write(&mut self, bytes: &[u8]) -> Writing
        requires some { 0 < length bytes.now }
        requires few { write_failures self.old < 2 ^ 63 }
        ensures fits { IsWriting result (length bytes.now) }
        ensures came { came self.new ≡ came self.old }
        ensures took { took self.new ≡ then_onto (took self.old) (take (write_count result) bytes.now) }
        ensures failures { write_failures self.new ≡ write_failures self.old + write_faults result }
        ensures same { (accepts self.new ≡ accepts self.old) × (reads self.new ≡ reads self.old) × (accept_failures self.new ≡ accept_failures self.old) };
}

/// A clock.
pub trait Clock {
    /// What it said, in order, where it records that.
    ghost times: { Self → Option (List ℕ) };

    /// How many nanoseconds have passed since the start.
    fn now(&mut self) -> u64
        ensures times { times self.new ≡ then_told (times self.old) (result ∷ []) };
}
