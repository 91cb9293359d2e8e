//! Where a field is in a frame, from where its layers begin.

ghost use Rattle.std.specs.Prelude.{◌≡◌, ℕ, ◌+◌, ◌*◌, ◌^◌, ◌<◌, ◌≤◌, List, length};
ghost use Rattle.of_layers.specs.{Fields.number_of, Layers.Cell, Layers.cells, Layers.body_cells, Looking.locate_at, Looking.locate, Reading.body_of, Reading.layers_of};
ghost use Rattle.of_headers.specs.Places.{width, network_of, layout_of};

use crate::layers::{
    address_place, arp_place, bits_at, ipv4_place, ipv6_place, tag_place, transport_place,
    type_place,
};
use crate::layout::{Layout, Network};
use of_layers::{Field, Place};

/// A place among cells that begin `at` bits later.
fn behind(at: usize, place: Option<Place>) -> Option<Place>
    ensures { (n : ℕ) (cs : List Cell) → at + width cs < 2 ^ 64 → place ≡ locate_at 0 n cs → result ≡ locate_at at n cs }
{
    match place {
        None => None,
        Some(inner) => bits_at(at.wrapping_add(inner.first), inner.bits),
    }
}

impl Network {
    /// A field's place in what follows a frame's type, from there on.
    fn place(&self, field: Field) -> Option<Place>
        ensures { (kind : ℕ) (p : List ℕ) → 8 * length p < 2 ^ 64 → self.now ≡ network_of (body_of kind p) →
            result ≡ locate_at 0 (number_of field) (body_cells (body_of kind p)) }
    {
        match *self {
            Network::Plain => None,
            Network::Arp => arp_place(field),
            Network::Ipv4(payload) => {
                let inner = transport_place(payload.transport, field);
                ipv4_place(field).or(behind(payload.at.wrapping_mul(8), inner))
            }
            Network::Ipv6(named, payload) => {
                let inner = transport_place(payload.transport, field);
                ipv6_place(named, field).or(behind(payload.at.wrapping_mul(8), inner))
            }
        }
    }
}

impl Layout {
    /// Where a field is in a frame with this layout, or `None` where the frame lacks it, or where the field is no part of a frame (IN_PORT and METADATA).
    ///
    /// VLAN_VID has the 12 bits of the outermost tag. Places are counted in bits, so they fit for a frame below 2^61 bytes, and no memory holds a longer one.
    pub fn place(&self, field: Field) -> Option<Place>
        ensures { (s : List ℕ) → 14 ≤ length s → 8 * length s < 2 ^ 64 → self.now ≡ layout_of (layers_of s) → result ≡ locate field (cells (layers_of s)) }
    {
        let tags = self.tags.wrapping_mul(32);
        let tag = if self.tags == 0 {
            None
        } else {
            tag_place(field)
        };
        address_place(field)
            .or(tag)
            .or(behind(tags.wrapping_add(96), type_place(field)))
            .or(behind(tags.wrapping_add(112), self.network.place(field)))
    }
}
