//! Packets of a region.
ghost use Rattle.std.specs.Prelude.{◌≡◌, ℕ, IfNone, IfOk, IfSome, bit_and};
ghost use Rattle.of_layers.specs.declared.field.Field.TheVariants.{InPort, Metadata};
ghost use Rattle.of_regions.specs.Witness.{HasNoIngress, IsFrameIn, IsIngressPort, IsReceived, IsShortFrame, MayBe, fields_in};
ghost use Rattle.of_regions.specs.Regions.{InRegion};

use crate::dividing::{lowest, without};
use crate::region::Region;
use of_frames::{Tagging, frame_of};
use of_headers::Field;
use of_wire::limits::{OFPP_CONTROLLER, OFPP_MAX};
use std::alloc::{AllocError, Global};

/// A frame, the port at which it was received, and its metadata.
#[derive(Drop)]
pub struct Packet {
    pub frame: Vec<u8>,
    pub in_port: u32,
    pub metadata: u64,
}

// A port whose number has none of the bits of a mask.
fn port_outside(mask: u128) -> Option<u32>
    ensures some { IfSome result (λ port. IsIngressPort port × (bit_and port mask ≡ 0)) }
    ensures none { IfNone result (bit_and 0xffffffff mask ≡ 0xffffffff) }
{
    let bits = without(0xffff_ffff, mask);
    if bits == 0 {
        return None;
    }
    Some(lowest(bits) as u32)
}

// A port that a switch may have, of whose number these bits are known under a mask.
fn port_under(mask: u128, known: u128) -> Option<u32>
    requires { bit_and known mask ≡ known }
    ensures some { IfSome result (λ port. IsIngressPort port × (bit_and port mask ≡ known)) }
    ensures none { IfNone result ((port : ℕ) → bit_and port mask ≡ known → ¬ (IsIngressPort port)) }
{
    if known == 0 {
        return port_outside(mask);
    }
    if known <= u128::from(OFPP_MAX) {
        return Some(known as u32);
    }
    if u128::from(OFPP_CONTROLLER) & mask == known {
        return Some(OFPP_CONTROLLER);
    }
    None
}

impl Region {
    // A port by which packets of the region come in. None if a switch has no such port.
    fn ingress(&self) -> Option<u32>
        ensures some { IfSome result (λ port. IsIngressPort port × MayBe self.now InPort port) }
        ensures none { IfNone result (HasNoIngress self.now) }
    {
        match (
            self.masks.masks.get(Field::InPort),
            self.known.get(Field::InPort),
        ) {
            (Some(mask), Some(known)) => port_under(mask, known),
            _ => unreachable!(),
        }
    }

    // Metadata of packets of the region.
    fn metadata(&self) -> u64
        ensures { MayBe self.now Metadata result }
    {
        match self.known.get(Field::Metadata) {
            Some(known) => known as u64,
            None => unreachable!(),
        }
    }

    /// A frame of the region, with zeros for what is not known, and lengths and checksums that are right. It has at most one VLAN tag, and at
    /// most 1,500 bytes.
    pub fn frame(&self, alloc: Global) -> Result<Vec<u8>, AllocError>
        ensures { IfOk result (λ frame. IsFrameIn self.now frame.items) }
    {
        let tagging = self.tagging.unwrap_or(Tagging::Untagged);
        frame_of(alloc, self.shape, tagging, &self.known)
    }

    /// A packet of the region that a switch may receive (OpenFlow 1.3.5, 7.2.1 and 7.3.7). None if no packet of the region comes in by a port
    /// that a switch may have.
    pub fn packet(&self, alloc: Global) -> Result<Option<Packet>, AllocError>
        ensures some { IfOk result (λ found. IfSome found (λ p. IsReceived p × IsShortFrame p.frame.items × InRegion self.now (fields_in p))) }
        ensures none { IfOk result (λ found. IfNone found (HasNoIngress self.now)) }
    {
        let Some(in_port) = self.ingress() else {
            return Ok(None);
        };
        Ok(Some(Packet {
            frame: self.frame(alloc)?,
            in_port,
            metadata: self.metadata(),
        }))
    }
}
