//! A frame that is rewritten in place.

ghost use Rattle.std.specs.Prelude.{◌≡◌, ◌+◌, ◌≤◌, ◌<◌, ◌^◌, length, slice_range, nat_lt, IsTrue, IfOk, OnOk, OnErr};
ghost use Rattle.std.specs.Borrow.{sem};
ghost use Rattle.of_layers.specs.{Bits.bits_of, Fields.number_of, Fields.is_settable, Fields.ones_of, Layers.encoded, Layers.ttl, Reading.layers_of, Reading.is_tag_type};
ghost use Rattle.of_headers.specs.{FieldMap.value, FieldMap.field_map, Known.IsKnownOf, Tags.pushed, Tags.popped};
ghost use Rattle.of_rewrite.specs.Frames.{frame_set, frame_pushed, frame_popped, frame_ttl, frame_ttl_decremented};
ghost use Rattle.of_rewrite.specs.{Rewriting.field_set, Rewriting.number_set, Loans.lent, Loans.LendsField, Replaced.layers_set, Right.StayRight, Right.StayOff};
ghost use Rattle.of_rewrite.specs.TimeToLive.{ttl_of, dec_ttl_result, ttl_decremented_from, layers_ttl_decremented};

use crate::bytes::all_bytes;
use crate::rewrite;
use crate::tags::{control_of, insert_tag, is_tagged, remove_tag, tag_bytes};
use of_headers::{FieldKey, Known};
use of_layers::Field;
use std::alloc::{AllocError, Global};
use std::marker::Model;

/// What became of a TTL that was to be decremented.
#[derive(Clone, Copy, Debug, PartialEq, Eq)]
pub enum Ttl {
    /// It is one less.
    Done,
    /// It was 0 or 1, and stays so.
    Expired,
    /// The frame has no IP layer.
    Absent,
}

/// The bytes of a frame, at least 14, which are rewritten in place (OpenFlow 1.3.5, 5.12).
///
/// What is known of its headers stands beside them, so that they are read once: by the type's invariant it is what a new reading
/// would give. A tag that is pushed or popped moves the places of all layers alike, and no field that is set decides them.
#[derive(Drop)]
pub struct Frame {
    bytes: Vec<u8>,
    known: Known,
}

/// From here on one more tag would make a frame of 2^61 bytes.
const LONGEST: usize = (1 << 61) - 4;

/// Asks for more memory than an address space has, where one more tag would make a frame of 2^61 bytes: the allocator refuses that.
fn stay_countable(bytes: &mut Vec<u8>) -> Result<(), AllocError>
    ensures items { bytes.new.items ≡ bytes.old.items }
    ensures short { OnOk result (length bytes.new.items + 4 < 2 ^ 61) }
{
    if bytes.len() >= LONGEST {
        bytes.reserve(usize::MAX)?;
    }
    Ok(())
}

impl Model for Frame {
    ghost use Rattle.std.specs.Prelude.{List, ℕ, ◌≤◌, ◌<◌, ◌^◌, length};
    ghost use Rattle.of_headers.specs.Known.{IsKnownOf};

    ghost Value = { List ℕ };

    ghost view = { λ f. f.bytes.items };

    ghost invariant = { λ f. (14 ≤ length f.bytes.items) × (length f.bytes.items < 2 ^ 61) × IsKnownOf f.known f.bytes.items };
}

impl Frame {
    /// A frame of these bytes, of which there are at least 14: two addresses and a type (IEEE 802.3, 3.1.1).
    ///
    /// There are fewer than 2^61, so that places can be counted in bits; no memory holds more.
    pub fn new(bytes: Vec<u8>) -> Frame
        requires long { 14 ≤ length bytes.items }
        requires most { length bytes.items < 2 ^ 61 }
        ensures { result ≡ bytes.items }
    {
        Frame {
            bytes,
            known: Known::Nothing,
        }
    }

    /// A frame of these bytes, of whose headers so much is known.
    pub fn with_known(bytes: Vec<u8>, known: Known) -> Frame
        requires long { 14 ≤ length bytes.items }
        requires most { length bytes.items < 2 ^ 61 }
        requires known { IsKnownOf known bytes.items }
        ensures { result ≡ bytes.items }
    {
        Frame { bytes, known }
    }

    /// The same frame again.
    pub fn copy(&self, alloc: Global) -> Result<Frame, AllocError>
        ensures { IfOk result (λ frame. frame ≡ self.now) }
    {
        Ok(Frame {
            bytes: self.bytes.to_vec(alloc)?,
            known: self.known,
        })
    }

    /// The bytes of the frame.
    pub fn bytes(&self) -> &[u8]
        ensures bytes { result.now ≡ self.now }
        ensures long { 14 ≤ length result.now }
        ensures most { length result.now < 2 ^ 61 }
    {
        &self.bytes
    }

    /// How many bytes the frame has.
    pub fn len(&self) -> usize
        ensures length { result ≡ length self.now }
        ensures long { 14 ≤ result }
        ensures most { result < 2 ^ 61 }
    {
        self.bytes.len()
    }

    /// Pushes a VLAN tag of this type, 0x8100 or 0x88a8, after the source address (OpenFlow 1.3.5, 5.12).
    ///
    /// PCP and VID are those of the outermost tag, or 0; DEI is 0. Without memory for the four bytes nothing changes.
    pub fn push_vlan(&mut self, tpid: u16) -> Result<(), AllocError>
        requires { IsTrue (is_tag_type tpid) }
        ensures ok { OnOk result (self.new ≡ frame_pushed tpid self.old) }
        ensures layers { OnOk result (layers_of self.new ≡ pushed tpid (layers_of self.old)) }
        ensures length { OnOk result (length self.new ≡ length self.old + 4) }
        ensures err { OnErr result (self.new ≡ self.old) }
    {
        stay_countable(&mut self.bytes)?;
        all_bytes(&self.bytes);
        let control = control_of(&self.bytes);
        let tag = tag_bytes(tpid, control);
        insert_tag(&mut self.bytes, &tag)?;
        self.known = self.known.pushed();
        Ok(())
    }

    /// Pops the outermost VLAN tag (OpenFlow 1.3.5, 5.12). Without a tag nothing changes.
    pub fn pop_vlan(&mut self)
        ensures frame { self.new ≡ frame_popped self.old }
        ensures layers { layers_of self.new ≡ popped (layers_of self.old) }
        ensures length { length self.new ≤ length self.old }
    {
        all_bytes(&self.bytes);
        if is_tagged(&self.bytes) {
            remove_tag(&mut self.bytes);
            self.known = self.known.popped();
        }
    }

    /// Replaces a field, and updates each checksum that covers it (OpenFlow 1.3.5, 5.12; RFC 1624, 3). One that was wrong stays off
    /// by as much.
    ///
    /// Of VLAN_VID the low 12 bits are written, to the outermost tag. Where the frame has no such field nothing changes.
    pub fn set(&mut self, field: Field, value: u128)
        requires settable { IsTrue (is_settable field) }
        requires fits { value ≤ ones_of field }
        ensures frame { self.new ≡ frame_set field value self.old }
        ensures layers { layers_of self.new ≡ layers_set (number_of field) value (layers_of self.old) }
        ensures bytes { bits_of self.new ≡ encoded (field_set field value (layers_of self.old)) }
        ensures length { length self.new ≡ length self.old }
        ensures checksums { StayRight self.old self.new }
        ensures off { StayOff self.old self.new }
    {
        let layout = self.known.layout(&self.bytes);
        rewrite::set_field(&mut self.bytes, layout, field, value);
        self.known = Known::Places(layout);
    }

    /// IPv4's TTL or IPv6's hop limit, if the frame has an IP layer (RFC 791, 3.1; RFC 8200, 3).
    pub fn ttl(&self) -> Option<u8>
        ensures { result ≡ ttl_of (layers_of self.now) }
    {
        rewrite::ttl_in(&self.bytes, self.known.layout(&self.bytes))
    }

    /// Replaces IPv4's TTL or IPv6's hop limit, and updates the checksum of an IPv4 header. Without an IP layer nothing changes.
    pub fn set_ttl(&mut self, value: u8)
        ensures frame { self.new ≡ frame_ttl value self.old }
        ensures layers { layers_of self.new ≡ layers_set ttl value (layers_of self.old) }
        ensures bytes { bits_of self.new ≡ encoded (number_set ttl value (layers_of self.old)) }
        ensures length { length self.new ≡ length self.old }
        ensures checksums { StayRight self.old self.new }
        ensures off { StayOff self.old self.new }
    {
        let layout = self.known.layout(&self.bytes);
        rewrite::set_ttl(&mut self.bytes, layout, value);
        self.known = Known::Places(layout);
    }

    /// Decrements IPv4's TTL or IPv6's hop limit, and updates the checksum of an IPv4 header.
    ///
    /// Nothing changes where it is 0 or 1, nor without an IP layer.
    pub fn dec_ttl(&mut self) -> Ttl
        ensures answer { result ≡ dec_ttl_result (ttl_of (layers_of self.old)) }
        ensures frame { self.new ≡ frame_ttl_decremented self.old }
        ensures layers { layers_of self.new ≡ layers_ttl_decremented (ttl_of (layers_of self.old)) (layers_of self.old) }
        ensures bytes { bits_of self.new ≡ encoded (ttl_decremented_from (ttl_of (layers_of self.old)) (layers_of self.old)) }
        ensures length { length self.new ≡ length self.old }
        ensures checksums { StayRight self.old self.new }
        ensures off { StayOff self.old self.new }
    {
        let layout = self.known.layout(&self.bytes);
        let ttl = rewrite::dec_ttl(&mut self.bytes, layout);
        self.known = Known::Places(layout);
        ttl
    }

    /// The fields of the frame, as a lookup of a packet from this port with this metadata sees them (OpenFlow 1.3.5, 5.3).
    ///
    /// What is not known of its headers is read for this call alone ([`Frame::read_headers`]).
    pub fn key(&self, in_port: u32, metadata: u64) -> FieldKey
        ensures { value result ≡ field_map (layers_of self.now) in_port metadata }
    {
        self.known.key(&self.bytes, in_port, metadata)
    }

    /// Reads what is not known of its headers, and keeps it for the calls that follow.
    pub fn read_headers(&mut self)
        ensures { self.new ≡ self.old }
    {
        self.known.read(&self.bytes);
    }

    /// What is known of its headers.
    pub fn known(&self) -> Known
        ensures { IsKnownOf result self.now }
    {
        self.known
    }

    /// Whether [`Frame::field_mut`] lends a field: it fills whole bytes, and the frame has it.
    ///
    /// VLAN_VID, VLAN_PCP, IP_DSCP, IP_ECN and IPV6_FLABEL fill no whole bytes; IN_PORT and METADATA are no part of a frame.
    pub fn lends(&self, field: Field) -> bool
        ensures { result ≡ nat_lt (lent field self.now).0 (lent field self.now).1 }
    {
        let layout = self.known.layout(&self.bytes);
        !rewrite::field_range(&self.bytes, layout, field).is_empty()
    }

    /// Borrows the bytes of a field that fills whole bytes, mutably, and no bytes for another field ([`Frame::lends`]).
    ///
    /// No checksum is updated. What was known of the headers is forgotten, since the bytes that are written may decide the layers.
    pub fn field_mut(&mut self, field: Field) -> &mut [u8]
        ensures* lends { sem 𝓛 (LendsField self.entry field result) }
        ensures bytes { result.now ≡ slice_range self.old (lent field self.old).0 (lent field self.old).1 }
        ensures inside { ((lent field self.old).0 ≤ (lent field self.old).1) × ((lent field self.old).1 ≤ length self.old) }
    {
        let layout = self.known.layout(&self.bytes);
        let range = rewrite::field_range(&self.bytes, layout, field);
        self.known = Known::Nothing;
        self.bytes.slice_mut(range)
    }
}
