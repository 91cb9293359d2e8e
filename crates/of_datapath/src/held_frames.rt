//! The frames that are held, by their ids.
ghost use Rattle.std.specs.Prelude.{◌≡◌, ◌≤◌, IfOk, Some, None, if◌then◌else◌};
ghost use Rattle.std.specs.Option.{option_copied};
ghost use Rattle.of_datapath.specs.Buffers.{id_following, forgotten, given_since, held, hold, is_id, last_id, none_held, used};

use crate::held_frame::HeldFrame;
use circular_buffer::HeapCircularBuffer;
use of_wire::limits::BUFFERS;
use std::alloc::{AllocError, Global};
use std::marker::Model;

/// How many frames are held at most: n_buffers of a FEATURES_REPLY (OpenFlow 1.3.5, 7.3.1).
const MOST_HELD: usize = BUFFERS as usize;

/// The largest id of a held frame: the next number is OFP_NO_BUFFER.
const LAST_ID: u32 = 0xffff_fffe;

/// The frames that are held for the controller (OpenFlow 1.3.5, 6.1.2 and 7.4.1): those of the last 256 ids that were not used.
///
/// Ids begin at 1 and rise by 1, and after 0xfffffffe comes 1.
#[derive(Drop)]
pub struct HeldFrames {
    next: u32,
    /// The places of the last ids, newest first.
    places: HeapCircularBuffer<Option<HeldFrame>>,
}

impl Model for HeldFrames {
    ghost use Rattle.std.specs.Prelude.{◌≡◌, ◌≤◌, length};
    ghost use Rattle.of_datapath.specs.Buffers.{HeldFrames, last_id, most_held};

    ghost Value = { HeldFrames };

    ghost view = { λ b. record { next = b.next; places = b.places.items } };

    ghost invariant = { λ b. (1 ≤ b.next) × (b.next ≤ last_id) × (b.places.capacity ≡ most_held) };
}

impl HeldFrames {
    /// Without frames. Memory for the places of 256 ids is taken once, here.
    pub fn new(alloc: Global) -> Result<Self, AllocError>
        ensures { IfOk result (λ b. b ≡ none_held) }
    {
        Ok(HeldFrames {
            next: 1,
            places: HeapCircularBuffer::with_capacity(alloc, MOST_HELD)?,
        })
    }

    /// The id under which the next frame will be held.
    pub fn next_id(&self) -> u32
        ensures id { result ≡ self.now.next }
        ensures least { 1 ≤ result }
        ensures most { result ≤ last_id }
    {
        self.next
    }

    /// The frame that is held under an id; None where its frame was used, or given up, or where it is no id.
    pub fn frame(&self, id: u32) -> Option<&HeldFrame>
        ensures { option_copied result ≡ held id self.now }
    {
        let since = self.since(id)?;
        self.places.get(since)?.as_ref()
    }

    /// Holds a frame under the next id. The oldest of 256 places is given up. It takes no memory.
    pub fn hold(&mut self, frame: HeldFrame)
        ensures { self.new ≡ hold frame self.old }
    {
        self.places.push_front(Some(frame));
        self.next = following_id(self.next);
    }

    /// Empties the place of an id, if it is one of the last 256.
    pub fn use_up(&mut self, id: u32)
        ensures { self.new ≡ used id self.old }
    {
        if let Some(since) = self.since(id) {
            if let Some(place) = self.places.get_mut(since) {
                *place = None;
            }
        }
    }

    /// Forgets all frames. The next id stays.
    pub fn forget(&mut self)
        ensures { self.new ≡ forgotten self.old }
    {
        self.places.clear();
    }

    // How many ids were given after this one; None where it is no id.
    fn since(&self, id: u32) -> Option<usize>
        ensures { result ≡ (if is_id id then Some (given_since id self.now) else None) }
    {
        if id == 0 || id > LAST_ID {
            return None;
        }
        let circle = u64::from(LAST_ID);
        let given = (u64::from(self.next) + circle - 1 - u64::from(id)) % circle;
        Some(given as usize)
    }
}

/// The id that is given after this one.
pub fn following_id(id: u32) -> u32
    requires { id ≤ last_id }
    ensures following { result ≡ id_following id }
    ensures least { 1 ≤ result }
    ensures most { result ≤ last_id }
{
    if id == LAST_ID { 1 } else { id + 1 }
}
