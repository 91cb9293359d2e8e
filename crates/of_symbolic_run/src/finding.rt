//! A search for a frame of a set.
ghost use Rattle.std.specs.Prelude.{◌≡◌, ◌≤◌, ◌<◌, ◌+◌, ◌%◌, ◌∷◌, [], ℕ, IfOk, OnOk, length, unwrap_or};
ghost use Rattle.of_layers.specs.{Reading.layers_of, declared.field.Field.TheVariants.VlanPcp, declared.field.Field.TheVariants.VlanVid};
ghost use Rattle.of_headers.specs.FieldMap.{field_map};
ghost use Rattle.of_rewrite.specs.Frames.{IsFrame};
ghost use Rattle.of_actions.specs.declared.action.Action.TheVariants.{SetField};
ghost use Rattle.of_regions.specs.Witness.{IsReceived, IsShortFrame, fields_in};
ghost use Rattle.of_symbolic.specs.{Actions.frame_of_actions, InnerTags.description_of, Parts.InPart};
ghost use Rattle.of_symbolic_run.specs.FrameSets.{FindsFrame, HasTtlIn, actions_put_below};

use crate::frame_set::FrameSet;
use of_headers::Field;
use of_regions::{Found, Packet};
use of_rewrite::Frame;
use std::alloc::{AllocError, Global};

/// What a search for a frame of a set finds.
#[derive(Drop)]
pub enum FrameFound {
    /// This frame, received at this port.
    Frame { frame: Vec<u8>, in_port: u32 },
    /// It has no frame.
    Empty,
    /// None was found: the search took so many steps, or found only frames of ports that no switch has.
    Undecided,
}

// The VID and the PCP of a frame's outermost tag.
fn outermost_tag(frame: &Frame) -> (u128, u128)
    ensures vid { result.0 ≡ unwrap_or (field_map (layers_of frame.now) 0 0 VlanVid) 0 % 4096 }
    ensures pcp { result.1 ≡ unwrap_or (field_map (layers_of frame.now) 0 0 VlanPcp) 0 % 8 }
{
    let key = frame.key(0, 0);
    let vid = key.get(Field::VlanVid).unwrap_or(0);
    let pcp = key.get(Field::VlanPcp).unwrap_or(0);
    (vid % 0x1000, pcp % 8)
}

// Sets the VID and the PCP of the outermost tag.
fn set_tag(frame: &mut Frame, vid: u128, pcp: u128)
    requires vid { vid < 4096 }
    requires pcp { pcp < 8 }
    ensures frame { frame.new ≡ frame_of_actions (SetField VlanVid vid ∷ SetField VlanPcp pcp ∷ []) frame.old }
    ensures length { length frame.new ≡ length frame.old }
{
    frame.set(Field::VlanVid, vid);
    frame.set(Field::VlanPcp, pcp);
}

// The outermost tag becomes the inner one, with this number, below a tag as it was itself.
fn put_below(frame: &mut Frame, number: u64) -> Result<(), AllocError>
    ensures frame { OnOk result (frame.new ≡ frame_of_actions (actions_put_below number
        (unwrap_or (field_map (layers_of frame.old) 0 0 VlanVid) 0 % 4096) (unwrap_or (field_map (layers_of frame.old) 0 0 VlanPcp) 0 % 8)) frame.old) }
    ensures length { OnOk result (length frame.new ≡ length frame.old + 4) }
{
    let (vid, pcp) = outermost_tag(frame);
    set_tag(
        frame,
        u128::from(number % 0x1000),
        u128::from(number / 0x2000 % 8),
    );
    frame.push_vlan(0x8100)?;
    set_tag(frame, vid, pcp);
    Ok(())
}

impl FrameSet {
    // A TTL that is not in the range is replaced by the least one.
    fn fit_ttl(&self, frame: &mut Frame)
        requires { IsFrame frame.old }
        ensures is { IsFrame frame.new }
        ensures long { length frame.new ≡ length frame.old }
        ensures ttl { HasTtlIn self.now.ttl_from self.now.ttl_to frame.new }
        ensures same { (port : ℕ) → description_of self.now.inner frame.new port ≡ description_of self.now.inner frame.old port }
    {
        let least = self.ttl_from;
        match frame.ttl() {
            Some(ttl) if ttl < least || self.ttl_to < ttl => frame.set_ttl(least),
            _ => {}
        }
    }

    // A frame of which the packet is the description.
    fn described_by(&self, packet: Packet) -> Result<Frame, AllocError>
        requires received { IsReceived packet }
        requires short { IsShortFrame packet.frame.items }
        requires within { InPart self.now.part (fields_in packet) }
        ensures is { IfOk result IsFrame }
        ensures short { IfOk result (λ frame. length frame ≤ 9216) }
        ensures same { IfOk result (λ frame. description_of self.now.inner frame packet.in_port ≡ fields_in packet) }
    {
        let mut frame = Frame::new(packet.frame);
        if packet.metadata != 0 {
            put_below(&mut frame, packet.metadata)?;
        }
        Ok(frame)
    }

    // A packet of the part as a frame of the set.
    fn frame_of_packet(&self, alloc: Global, packet: Packet) -> Result<FrameFound, AllocError>
        requires received { IsReceived packet }
        requires short { IsShortFrame packet.frame.items }
        requires within { InPart self.now.part (fields_in packet) }
        ensures { IfOk result (λ found. (steps : ℕ) → FindsFrame self.now steps found) }
    {
        let in_port = packet.in_port;
        let mut frame = self.described_by(packet)?;
        self.fit_ttl(&mut frame);
        let frame = frame.bytes().to_vec(alloc)?;
        Ok(FrameFound::Frame { frame, in_port })
    }

    /// Searches for a frame of the set that a switch may receive, in so many steps at most.
    pub fn find(&self, alloc: Global, steps: usize) -> Result<FrameFound, AllocError>
        ensures { IfOk result (FindsFrame self.now steps) }
    {
        let found = self.part.find(alloc, steps)?;
        match found {
            Found::Free(packet) => self.frame_of_packet(alloc, packet),
            Found::Taken(_) => Ok(FrameFound::Empty),
            Found::Unreceived(_) => Ok(FrameFound::Undecided),
            Found::Undecided => Ok(FrameFound::Undecided),
        }
    }
}
