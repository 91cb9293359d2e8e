//! A frame with given fields.
ghost use Rattle.std.specs.Prelude.{◌≡◌, ℕ, IfOk, length};
ghost use Rattle.of_layers.specs.Reading.{layers_of};
ghost use Rattle.of_headers.specs.FieldMap.{field_map, value};
ghost use Rattle.of_rewrite.specs.Frames.{IsFrame};
ghost use Rattle.of_frames.specs.{Given.fields_given, Given.number, Given.or_zero, Given.type_given, Packets.frame_given, Packets.frame_size, Packets.layers_given};

use crate::bits::{known_bytes, push_word};
use crate::packets::{push_body, push_ends, push_tags};
use crate::{Shape, Tagging};
use of_headers::{FieldKey, Numbers};
use std::alloc::{AllocError, Global};

// The type: that of the header behind it, or else the one that is given.
#[tactic(auto, unfolding(of_layers::specs::Fields::row_of))]
fn type_of(shape: Shape, numbers: &Numbers) -> u16
    ensures { result ≡ type_given shape (number numbers.now) }
{
    let given = numbers.eth_type;
    match shape {
        Shape::Bare => given,
        Shape::Arp => 0x0806,
        Shape::Ipv4 | Shape::Ipv4Tcp | Shape::Ipv4Udp | Shape::Ipv4Icmp => 0x0800,
        Shape::Ipv6 | Shape::Ipv6Tcp | Shape::Ipv6Udp | Shape::Ipv6Icmp => 0x86dd,
    }
}

// The frame with these numbers.
fn frame_with(
    alloc: Global,
    shape: Shape,
    tagging: Tagging,
    numbers: &Numbers,
) -> Result<Vec<u8>, AllocError>
    ensures { IfOk result (λ frame. frame.items ≡ frame_given shape tagging (number numbers.now)) }
{
    let mut out = Vec::new(alloc);
    push_ends(&mut out, numbers)?;
    push_tags(&mut out, tagging, numbers)?;
    push_word(&mut out, type_of(shape, numbers))?;
    push_body(&mut out, shape, numbers)?;
    known_bytes(out.as_slice());
    Ok(out)
}

/// The frame of this shape and tagging that has the values of these fields, each in the bits of its field; 0 for a field that the frame has and the key
/// lacks. Fields of the key that such frames lack do not count.
///
/// Lengths and checksums are right, TTL and hop limit are 64.
pub fn frame_of(
    alloc: Global,
    shape: Shape,
    tagging: Tagging,
    fields: &FieldKey,
) -> Result<Vec<u8>, AllocError>
    ensures bytes { IfOk result (λ frame. frame.items ≡ frame_given shape tagging (or_zero (value fields.now))) }
    ensures frame { IfOk result (λ frame. IsFrame frame.items) }
    ensures size { IfOk result (λ frame. length frame.items ≡ frame_size shape tagging) }
    ensures layers { IfOk result (λ frame. layers_of frame.items ≡ layers_given shape tagging (or_zero (value fields.now))) }
    ensures fields { IfOk result (λ frame. (port metadata : ℕ) →
        field_map (layers_of frame.items) port metadata ≡ fields_given shape tagging (or_zero (value fields.now)) port metadata) }
{
    frame_with(alloc, shape, tagging, &fields.numbers)
}
