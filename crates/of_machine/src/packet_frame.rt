//! The frame of a packet.
ghost use Rattle.std.specs.Prelude.{◌≡◌, ◌≤◌, ◌<◌, ◌^◌, length, false, IsTrue, IfOk, OnOk};
ghost use Rattle.of_actions.specs.Supported.{is_supported};
ghost use Rattle.of_layers.specs.Reading.{layers_of};
ghost use Rattle.of_headers.specs.{FieldMap.value, FieldMap.field_map, Known.IsKnownOf};
ghost use Rattle.of_rewrite.specs.{Frames.frame_ttl_decremented, TimeToLive.ttl_of, TimeToLive.dec_ttl_result};
ghost use Rattle.of_machine.specs.Rows.{rewritten};

use of_actions::Action;
use of_headers::{FieldKey, Known};
use of_rewrite::{Frame, Ttl};
use std::alloc::{AllocError, Global};
use std::marker::Model;

/// Where the bytes are. Beside lent ones stands what is known of their headers, as a [`Frame`] knows it of its own.
#[derive(Drop)]
enum Held<'a> {
    Lent(&'a [u8], Known),
    Own(Frame),
}

/// The frame of a packet: borrowed from the caller, until an action changes it.
#[derive(Drop)]
pub struct PacketFrame<'a> {
    held: Held<'a>,
}

impl<'a> Model for PacketFrame<'a> {
    ghost use Rattle.std.specs.Prelude.{List, ℕ};
    ghost use Rattle.of_machine.specs.Held.{held_bytes, IsHeld};

    ghost Value = { List ℕ };

    ghost view = { λ f. held_bytes f.held };

    ghost invariant = { λ f. IsHeld f.held };
}

impl<'a> PacketFrame<'a> {
    /// A frame of these bytes, of which there are at least 14, and fewer than 2^61: no memory holds more.
    pub fn new(bytes: &'a [u8]) -> Self
        requires long { 14 ≤ length bytes.now }
        requires most { length bytes.now < 2 ^ 61 }
        ensures { result ≡ bytes.now }
    {
        PacketFrame {
            held: Held::Lent(bytes, Known::Nothing),
        }
    }

    /// The bytes of the frame.
    pub fn bytes(&self) -> &[u8]
        ensures bytes { result.now ≡ self.now }
        ensures long { 14 ≤ length result.now }
        ensures most { length result.now < 2 ^ 61 }
    {
        match &self.held {
            Held::Lent(bytes, _) => bytes,
            Held::Own(frame) => frame.bytes(),
        }
    }

    /// How many bytes the frame has.
    pub fn len(&self) -> usize
        ensures { result ≡ length self.now }
    {
        self.bytes().len()
    }

    // What is known of its headers.
    fn known(&self) -> Known
        ensures { IsKnownOf result self.now }
    {
        match &self.held {
            Held::Lent(_, known) => *known,
            Held::Own(frame) => frame.known(),
        }
    }

    // The same bytes, borrowed, with what is known of them.
    pub(crate) fn lend(&self) -> PacketFrame<'_>
        ensures { result ≡ self.now }
    {
        PacketFrame {
            held: Held::Lent(self.bytes(), self.known()),
        }
    }

    /// The fields of the frame, as a lookup of a packet from this port with this metadata sees them (OpenFlow 1.3.5, 5.3).
    ///
    /// Headers are read once, and again only where an action changed a field.
    pub fn key(&mut self, in_port: u32, metadata: u64) -> FieldKey
        ensures value { value result ≡ field_map (layers_of self.old) in_port metadata }
        ensures same { self.new ≡ self.old }
    {
        match &mut self.held {
            Held::Lent(bytes, known) => {
                known.read(bytes);
                known.key(bytes, in_port, metadata)
            }
            Held::Own(frame) => {
                frame.read_headers();
                frame.key(in_port, metadata)
            }
        }
    }

    // Does to it what the action does to a frame.
    pub(crate) fn rewrite(&mut self, alloc: Global, action: Action) -> Result<(), AllocError>
        requires { IsTrue (is_supported false action) }
        ensures { OnOk result (self.new ≡ rewritten action self.old) }
    {
        match &mut self.held {
            Held::Own(frame) => rewrite_frame(action, frame),
            Held::Lent(bytes, known) => {
                let mut frame = Frame::with_known(bytes.to_vec(alloc)?, *known);
                rewrite_frame(action, &mut frame)?;
                self.held = Held::Own(frame);
                Ok(())
            }
        }
    }

    // Decrements its TTL.
    pub(crate) fn dec_ttl(&mut self, alloc: Global) -> Result<Ttl, AllocError>
        ensures answer { IfOk result (λ ttl. ttl ≡ dec_ttl_result (ttl_of (layers_of self.old))) }
        ensures frame { OnOk result (self.new ≡ frame_ttl_decremented self.old) }
    {
        match &mut self.held {
            Held::Own(frame) => Ok(frame.dec_ttl()),
            Held::Lent(bytes, known) => {
                let mut frame = Frame::with_known(bytes.to_vec(alloc)?, *known);
                let ttl = frame.dec_ttl();
                self.held = Held::Own(frame);
                Ok(ttl)
            }
        }
    }
}

/// The frame that an action makes which rewrites it; others leave it as it is (OpenFlow 1.3.5, 5.12).
pub fn rewrite_frame(action: Action, frame: &mut Frame) -> Result<(), AllocError>
    requires { IsTrue (is_supported false action) }
    ensures { OnOk result (frame.new ≡ rewritten action frame.old) }
{
    match action {
        Action::PushVlan(tpid) => frame.push_vlan(tpid)?,
        Action::PopVlan => frame.pop_vlan(),
        Action::SetNwTtl(ttl) => frame.set_ttl(ttl),
        Action::SetField { field, value } => frame.set(field, value),
        _ => {}
    }
    Ok(())
}
