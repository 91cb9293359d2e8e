//! What IP packets carry (IANA, Protocol Numbers).

ghost use Rattle.std.specs.Prelude.{◌≡◌};
ghost use Rattle.of_layers.specs.{Layers.size_of, Reading.over_ipv4, Reading.over_ipv6, Reading.whole_in};

use of_layers::Transport;

/// What a protocol's number names in an IPv4 packet.
pub fn named_over_ipv4(protocol: u8) -> Transport
    ensures { result ≡ over_ipv4 protocol }
{
    match protocol {
        6 => Transport::Tcp,
        17 => Transport::Udp,
        1 => Transport::Icmpv4,
        _ => Transport::Nothing,
    }
}

/// What a protocol's number names in an IPv6 packet.
pub fn named_over_ipv6(protocol: u8) -> Transport
    ensures { result ≡ over_ipv6 protocol }
{
    match protocol {
        6 => Transport::Tcp,
        17 => Transport::Udp,
        58 => Transport::Icmpv6,
        _ => Transport::Nothing,
    }
}

/// How many bytes a header has.
fn header_bytes(kind: Transport) -> usize
    ensures { result ≡ size_of kind }
{
    match kind {
        Transport::Nothing => 0,
        Transport::Tcp => 20,
        Transport::Udp => 8,
        Transport::Icmpv4 | Transport::Icmpv6 => 4,
    }
}

/// The header that `room` bytes hold where this kind is named: the whole of it, or none.
pub fn transport_in(kind: Transport, room: usize) -> Transport
    ensures { result ≡ whole_in kind room }
{
    if header_bytes(kind) <= room {
        kind
    } else {
        Transport::Nothing
    }
}
