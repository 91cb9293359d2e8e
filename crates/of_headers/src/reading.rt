//! The fields of a frame whose layout is known.
//!
//! Where two layers have a field of one name, the outer one's counts. So the inner layers' fields are put into a key first.

ghost use Rattle.std.specs.Prelude.{◌≡◌, ◌≤◌, [], ◌∷◌, ◌++◌, length, true};
ghost use Rattle.std.specs.Option.{option_or};
ghost use Rattle.of_layers.specs.Reading.{is_ipv4, ipv4_of, is_ipv6, ipv6_of, body_of, layers_of};
ghost use Rattle.of_layers.specs.{declared.field.Field.Field as TheField, Layers.cells_in, Layers.body_cells, Layers.ether_type, Looking.look};
ghost use Rattle.of_headers.specs.{declared.layout.Network.TheVariants.Ipv4 as InIpv4, declared.layout.Network.TheVariants.Ipv6 as InIpv6, FieldMap.value, FieldMap.field_map};
ghost use Rattle.of_headers.specs.Places.{network_of, layout_of};

use crate::bytes::{rest_from, word_at};
use crate::key::FieldKey;
use crate::layers::{add_arp, add_ends, add_ipv4, add_ipv6, add_tag, add_transport, add_type};
use crate::layout::{Layout, Network, Payload};

/// Puts the fields of an IPv4 packet into a key.
fn add_ipv4_packet(packet: &[u8], payload: Payload, key: &mut FieldKey)
    requires header { is_ipv4 packet.now ≡ true }
    requires places { InIpv4 payload ≡ network_of (ipv4_of packet.now) }
    ensures { (f : TheField) → value key.new f ≡ option_or (look f (body_cells (ipv4_of packet.now))) (value key.old f) }
{
    add_transport(payload.transport, rest_from(packet, payload.at), key);
    add_ipv4(packet, key);
}

/// Puts the fields of an IPv6 packet into a key.
fn add_ipv6_packet(packet: &[u8], named: usize, payload: Payload, key: &mut FieldKey)
    requires header { is_ipv6 packet.now ≡ true }
    requires places { InIpv6 named payload ≡ network_of (ipv6_of packet.now) }
    ensures { (f : TheField) → value key.new f ≡ option_or (look f (body_cells (ipv6_of packet.now))) (value key.old f) }
{
    add_transport(payload.transport, rest_from(packet, payload.at), key);
    add_ipv6(packet, named, key);
}

/// Puts a frame's type into a key, and the fields of what follows it.
fn add_body(kind: u16, packet: &[u8], network: Network, key: &mut FieldKey)
    requires { network ≡ network_of (body_of kind packet.now) }
    ensures { (f : TheField) → value key.new f ≡ option_or (look f (cells_in ether_type (kind ∷ []) ++ body_cells (body_of kind packet.now)))
        (value key.old f) }
{
    match network {
        Network::Plain => {}
        Network::Arp => add_arp(packet, key),
        Network::Ipv4(payload) => add_ipv4_packet(packet, payload, key),
        Network::Ipv6(named, payload) => add_ipv6_packet(packet, named, payload, key),
    }
    add_type(kind, key);
}

/// The fields of a frame with this layout, which was received at a port, with the metadata that a lookup sees.
pub fn key_in(frame: &[u8], layout: Layout, in_port: u32, metadata: u64) -> FieldKey
    requires long { 14 ≤ length frame.now }
    requires places { layout ≡ layout_of (layers_of frame.now) }
    ensures { value result ≡ field_map (layers_of frame.now) in_port metadata }
{
    let at = 12 + 4 * layout.tags;
    let mut key = FieldKey::empty();
    add_body(
        word_at(frame, at),
        rest_from(frame, at + 2),
        layout.network,
        &mut key,
    );
    add_ends(frame, in_port, metadata, &mut key);
    if layout.tags > 0 {
        add_tag(frame, &mut key);
    }
    key
}
