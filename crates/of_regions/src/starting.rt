//! The regions of a match, by the shapes of packets.
ghost use Rattle.std.specs.Prelude.{◌≡◌, ◌≤◌, ◌+◌, ◌++◌, ◌⊎◌, ℕ, Option, None, IfOk, OnOk, length, false, is_some, ◌||◌};
ghost use Rattle.std.specs.List.{Contains};
ghost use Rattle.of_layers.specs.declared.field.Field.TheVariants.{VlanPcp, VlanVid};
ghost use Rattle.of_oxm.specs.Masks.{looked_at, mask_at};
ghost use Rattle.of_frames.specs.declared.shape.Shape.{Shape as TheShape};
ghost use Rattle.of_regions.specs.{Searching.IsStart, Starting.IsBegun, Starting.region_list};

use crate::region::Region;
use of_frames::{Shape, Tagging};
use of_headers::Field;
use of_oxm::{FieldMask, Match, mask_of};
use std::alloc::{AllocError, Global};

/// Each shape once. A search begins with the last one.
const TYPE_SAID: [Shape; 10] = [
    Shape::Bare,
    Shape::Ipv6Icmp,
    Shape::Ipv6Udp,
    Shape::Ipv6Tcp,
    Shape::Ipv6,
    Shape::Ipv4Icmp,
    Shape::Ipv4Udp,
    Shape::Ipv4Tcp,
    Shape::Ipv4,
    Shape::Arp,
];

/// The same, for a match that says nothing about the type: the shortest frames come first.
const TYPE_UNSAID: [Shape; 10] = [
    Shape::Ipv6Icmp,
    Shape::Ipv6Udp,
    Shape::Ipv6Tcp,
    Shape::Ipv6,
    Shape::Ipv4Icmp,
    Shape::Ipv4Udp,
    Shape::Ipv4Tcp,
    Shape::Ipv4,
    Shape::Arp,
    Shape::Bare,
];

// Each shape once. A search begins with the last one.
fn shapes(type_said: bool) -> &'static [Shape]
    ensures all { (shape : TheShape) → Contains result.now shape }
    ensures few { length result.now ≡ 10 }
{
    if type_said {
        return &TYPE_SAID;
    }
    &TYPE_UNSAID
}

// Whether a match looks at a field.
fn looks_at(mask: &FieldMask, field: Field) -> bool
    ensures { result ≡ is_some (mask_at mask.now field) }
{
    mask.masks.get(field).is_some()
}

// Whether a match looks at a VLAN tag.
fn asks_tag(own: &Match) -> bool
    ensures { result ≡ false → (looked_at own.now VlanVid ≡ None) × (looked_at own.now VlanPcp ≡ None) }
{
    let mask = mask_of(own);
    looks_at(&mask, Field::VlanVid) || looks_at(&mask, Field::VlanPcp)
}

// Appends a region, if there is one.
pub fn push_some(regions: &mut Vec<Region>, region: Option<Region>) -> Result<(), AllocError>
    ensures { OnOk result (regions.new.items ≡ regions.old.items ++ region_list region) }
{
    match region {
        None => Ok(()),
        Some(region) => Ok(regions.push(region)?),
    }
}

// Appends the packets of a shape that a match matches: those with a tag and those without, or all at once.
fn push_shape(
    regions: &mut Vec<Region>,
    shape: Shape,
    own: &Match,
    by_tag: bool,
) -> Result<(), AllocError>
    requires { by_tag ≡ false → (looked_at own.now VlanVid ≡ None) × (looked_at own.now VlanPcp ≡ None) }
    ensures { OnOk result (IsBegun own.now shape regions.old.items regions.new.items) }
{
    if by_tag {
        push_some(regions, Region::of_match(shape, Some(Tagging::Tagged), own))?;
        push_some(
            regions,
            Region::of_match(shape, Some(Tagging::Untagged), own),
        )?;
        return Ok(());
    }
    push_some(regions, Region::of_match(shape, None, own))?;
    Ok(())
}

/// The packets that a match matches, by their shapes, and with a tag or without if the match looks at tags. A search begins with the last.
pub fn regions_of(alloc: Global, own: &Match) -> Result<Vec<Region>, AllocError>
    ensures { IfOk result (λ regions. IsStart own.now regions.items) }
{
    let by_tag = asks_tag(own);
    let mut regions = Vec::new(alloc);
    for shape in shapes(looks_at(&mask_of(own), Field::EthType)) {
        push_shape(&mut regions, *shape, own, by_tag)?;
    }
    Ok(regions)
}
