//! The bytes of a controller, as messages.
ghost use Rattle.std.specs.Prelude.{◌≡◌, ◌++◌, ◌*◌, ◌≤◌, ℕ, List, [], length, take, drop, OnOk, OnErr};
ghost use Rattle.of_session.specs.Stream.{beginning_of, beginning_is, IsThere, Splits};

use of_wire::{front_of, rest_from};
use std::alloc::{AllocError, Global};
use std::marker::Model;

/// How many bytes a message's header has (OpenFlow 1.3.5, 7.1).
pub const HEADER: usize = 8;

/// How the bytes that are left begin.
#[derive(Clone, Copy, Debug, PartialEq, Eq)]
pub enum Beginning {
    /// With a whole message of that many bytes.
    Message(usize),
    /// With a header whose length is below its own 8 bytes.
    Malformed,
    /// With neither yet.
    Waiting,
}

/// The bytes that were received and not yet taken.
///
/// Bytes that were taken are dropped where they are more than those that are left.
#[derive(Drop)]
pub struct Stream {
    bytes: Vec<u8>,
    start: usize,
}

impl Model for Stream {
    ghost use Rattle.std.specs.Prelude.{List, ℕ, ◌*◌, drop, length, ◌≤◌};

    ghost Value = { List ℕ };

    ghost view = { λ s. drop s.start s.bytes.items };

    ghost invariant = { λ s. 2 * s.start ≤ length s.bytes.items };
}

impl Stream {
    /// A stream from which nothing was received.
    pub fn new(alloc: Global) -> Stream
        ensures { result ≡ [] }
    {
        Stream {
            bytes: Vec::new(alloc),
            start: 0,
        }
    }

    /// Receives these bytes. Where memory runs out none of them was received.
    #[tactic(auto, using(crate::proofs::Compacting::drop_append))]
    pub fn feed(&mut self, chunk: &[u8]) -> Result<(), AllocError>
        ensures ok { OnOk result (self.new ≡ self.old ++ chunk.now) }
        ensures err { OnErr result (self.new ≡ self.old) }
    {
        self.bytes.extend_from_slice(chunk)
    }

    /// How many bytes are kept: those that are left, and of those that were taken as many at most.
    pub fn kept(&self) -> usize
        ensures left { length self.now ≤ result }
        ensures most { result ≤ 2 * length self.now }
    {
        self.bytes.len()
    }

    /// How the bytes begin.
    pub fn front(&self) -> Beginning
        ensures front { beginning_of self.now ≡ beginning_is result self.now }
        ensures there { IsThere result self.now }
    {
        front_in(self.left())
    }

    /// All bytes that are left.
    pub fn left(&self) -> &[u8]
        ensures { result.now ≡ self.now }
    {
        rest_from(&self.bytes, self.start)
    }

    /// The first bytes that are left.
    pub fn first(&self, size: usize) -> &[u8]
        requires { size ≤ length self.now }
        ensures { result.now ≡ take size self.now }
    {
        front_of(self.left(), size)
    }

    /// Takes the first bytes. No more bytes move than were taken since the last time that some moved.
    #[tactic(auto, using(crate::proofs::Compacting::drop_more))]
    pub fn take(&mut self, size: usize)
        requires { size ≤ length self.old }
        ensures { self.new ≡ drop size self.old }
    {
        let start = self.start + size;
        if start <= self.bytes.len() - start {
            self.start = start;
        } else {
            drop_front(&mut self.bytes, start);
            self.start = 0;
        }
    }

    /// Drops all bytes.
    pub fn clear(&mut self)
        ensures { self.new ≡ [] }
    {
        self.bytes.clear();
        self.start = 0;
    }
}

// The first bytes are dropped, and the others take their place.
#[tactic(auto, using(crate::proofs::Compacting::moved))]
fn drop_front(bytes: &mut Vec<u8>, count: usize)
    requires { count ≤ length bytes.old.items }
    ensures { bytes.new.items ≡ drop count bytes.old.items }
{
    let left = bytes.len() - count;
    bytes.as_mut_slice().copy_within(count.., 0);
    bytes.truncate(left);
}

fn front_in(bytes: &[u8]) -> Beginning
    ensures front { beginning_of bytes.now ≡ beginning_is result bytes.now }
    ensures there { IsThere result bytes.now }
{
    if bytes.len() < HEADER {
        return Beginning::Waiting;
    }
    let size = usize::from(bytes[2]) * 256 + usize::from(bytes[3]);
    if size < HEADER {
        return Beginning::Malformed;
    }
    if bytes.len() < size {
        return Beginning::Waiting;
    }
    Beginning::Message(size)
}

/// A stream is whole messages and a rest that is malformed or too short, in one way; and bytes that are received later change
/// none of its messages.
pub fn splits_once()
    ensures one { (stream : List ℕ) → (messages : List (List ℕ)) × (rest : List ℕ) × Splits stream messages rest }
    ensures only { (stream : List ℕ) (ms ns : List (List ℕ)) (r s : List ℕ) → Splits stream ms r → Splits stream ns s → (ms ≡ ns) × (r ≡ s) }
    ensures more { (stream chunk : List ℕ) (ms ns : List (List ℕ)) (r s : List ℕ) → Splits stream ms r → Splits (r ++ chunk) ns s →
        Splits (stream ++ chunk) (ms ++ ns) s }
{}
