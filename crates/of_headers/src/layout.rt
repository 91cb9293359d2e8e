//! Where the layers of a frame begin.

ghost use Rattle.std.specs.Prelude.{◌≡◌, ◌+◌, ◌*◌, ◌^◌, ◌≤◌, ◌<◌, ◌==◌, ◌&&◌, ℕ, length, drop, IsTrue};
ghost use Rattle.of_layers.specs.Reading.{tag_count, is_tag_type, is_arp, is_ipv4, is_ipv6, ipv4_of, ipv6_of, body_of, layers_of};
ghost use Rattle.of_layers.specs.Layers.{Layers};
ghost use Rattle.of_headers.specs.{Places.network_of, Places.layout_of, Tags.pushed, Tags.popped};

use crate::bytes::{rest_from, word_at};
use crate::chain::chain_in;
use crate::transport::{named_over_ipv4, transport_in};
use of_layers::Transport;

/// What an IP packet carries, and where it begins, from the packet's start.
#[derive(Clone, Copy, PartialEq, Eq)]
pub struct Payload {
    pub transport: Transport,
    pub at: usize,
}

/// What follows the type of a frame.
#[derive(Clone, Copy, PartialEq, Eq)]
pub enum Network {
    /// Bytes that are not read further.
    Plain,
    /// ARP for Ethernet and IPv4 (RFC 826).
    Arp,
    /// An IPv4 packet (RFC 791).
    Ipv4(Payload),
    /// An IPv6 packet (RFC 8200): the byte of the number that names what it carries, from the packet's start, and its payload.
    Ipv6(usize, Payload),
}

/// Where the layers of a frame begin. The type follows the addresses and so many tags, and the network layer follows the type; so a tag that is pushed or popped changes the number of tags alone.
#[derive(Clone, Copy, PartialEq, Eq)]
pub struct Layout {
    /// How many VLAN tags the frame has.
    pub tags: usize,
    pub network: Network,
}

impl Layout {
    /// Where the layers begin once a VLAN tag was pushed: 32 bits later, but for the addresses.
    pub fn pushed(self) -> Layout
        ensures { (kind : ℕ) (l : Layers) → length l.tags + 1 < 2 ^ 64 → self ≡ layout_of l → result ≡ layout_of (pushed kind l) }
    {
        Layout {
            tags: self.tags.wrapping_add(1),
            network: self.network,
        }
    }

    /// Where the layers begin once the outermost VLAN tag was popped, if there was one.
    pub fn popped(self) -> Layout
        ensures { (l : Layers) → self ≡ layout_of l → result ≡ layout_of (popped l) }
    {
        Layout {
            tags: self.tags.saturating_sub(1),
            network: self.network,
        }
    }
}

/// Whether a type is that of a VLAN tag (IEEE 802.1Q, 9.5).
pub fn is_tag(kind: u16) -> bool
    ensures { result ≡ is_tag_type kind }
{
    kind == 0x8100 || kind == 0x88a8
}

/// How many tags follow the addresses, each with four bytes after its type.
fn tags_in(frame: &[u8]) -> usize
    requires { 14 ≤ length frame.now }
    ensures count { result ≡ tag_count (drop 12 frame.now) }
    ensures room { 14 + 4 * result ≤ length frame.now }
{
    let mut tags = 0;
    let mut at = 12;
    while at + 6 <= frame.len() && is_tag(word_at(frame, at)) {
        at += 4;
        tags += 1;
    }
    tags
}

/// Whether the bytes after a type begin with a whole ARP packet for Ethernet and IPv4.
fn has_arp(kind: u16, packet: &[u8]) -> bool
    ensures { result ≡ ((kind == 0x0806) && is_arp packet.now) }
{
    kind == 0x0806
        && packet.len() >= 28
        && word_at(packet, 0) == 1
        && word_at(packet, 2) == 0x0800
        && packet[4] == 6
        && packet[5] == 4
}

/// Whether the bytes after a type begin with a whole IPv4 header whose total length holds it.
fn has_ipv4(kind: u16, packet: &[u8]) -> bool
    ensures { result ≡ ((kind == 0x0800) && is_ipv4 packet.now) }
{
    if kind != 0x0800 || packet.len() < 20 {
        return false;
    }
    let header = 4 * (packet[0] % 16) as usize;
    packet[0] / 16 == 4
        && header >= 20
        && header <= packet.len()
        && header <= word_at(packet, 2) as usize
}

/// Where the layers of an IPv4 packet begin. A later fragment carries bytes alone.
fn ipv4_in(packet: &[u8]) -> Network
    requires { IsTrue (is_ipv4 packet.now) }
    ensures { result ≡ network_of (ipv4_of packet.now) }
{
    let at = 4 * (packet[0] % 16) as usize;
    let end = (word_at(packet, 2) as usize).min(packet.len());
    let transport = if word_at(packet, 6) % 8192 == 0 {
        transport_in(named_over_ipv4(packet[9]), end - at)
    } else {
        Transport::Nothing
    };
    Network::Ipv4(Payload { transport, at })
}

/// Whether the bytes after a type begin with a whole IPv6 header.
fn has_ipv6(kind: u16, packet: &[u8]) -> bool
    ensures { result ≡ ((kind == 0x86dd) && is_ipv6 packet.now) }
{
    kind == 0x86dd && packet.len() >= 40 && packet[0] / 16 == 6
}

/// Where the layers of an IPv6 packet begin.
fn ipv6_in(packet: &[u8]) -> Network
    requires { IsTrue (is_ipv6 packet.now) }
    ensures { result ≡ network_of (ipv6_of packet.now) }
{
    let end = (40 + word_at(packet, 4) as usize).min(packet.len());
    chain_in(&packet[..end], packet[6])
}

/// Where the layers of the bytes after a type begin.
fn network_in(kind: u16, packet: &[u8]) -> Network
    ensures { result ≡ network_of (body_of kind packet.now) }
{
    if has_arp(kind, packet) {
        Network::Arp
    } else if has_ipv4(kind, packet) {
        ipv4_in(packet)
    } else if has_ipv6(kind, packet) {
        ipv6_in(packet)
    } else {
        Network::Plain
    }
}

/// Where the layers of a frame begin.
pub fn layout_in(frame: &[u8]) -> Layout
    requires { 14 ≤ length frame.now }
    ensures { result ≡ layout_of (layers_of frame.now) }
{
    let tags = tags_in(frame);
    let at = 12 + 4 * tags;
    Layout {
        tags,
        network: network_in(word_at(frame, at), rest_from(frame, at + 2)),
    }
}
