//! The extension headers of IPv6 (RFC 8200, 4).

ghost use Rattle.std.specs.Prelude.{◌≡◌, ◌+◌, ◌≤◌, length, drop};
ghost use Rattle.of_layers.specs.Reading.{over_ipv6, has_options, extension_size, has_extension, is_later, chain_of};
ghost use Rattle.of_headers.specs.Places.{network_behind};

use crate::bytes::{rest_from, word_at};
use crate::layout::{Network, Payload};
use crate::transport::{named_over_ipv6, transport_in};
use of_layers::Transport;

/// Whether a header of this kind has options or a route, with a field for its length.
fn tells_length(kind: u8) -> bool
    ensures { result ≡ has_options kind }
{
    kind == 0 || kind == 43 || kind == 60
}

/// How many bytes an extension header of this kind has, which begins here.
fn size_at(kind: u8, rest: &[u8]) -> usize
    requires { 2 ≤ length rest.now }
    ensures { result ≡ extension_size kind rest.now }
{
    if kind == 44 {
        8
    } else {
        8 * (rest[1] as usize + 1)
    }
}

/// Whether an extension header of this kind begins here, and is whole.
fn is_extension(kind: u8, rest: &[u8]) -> bool
    ensures { result ≡ has_extension kind rest.now }
{
    (kind == 44 || tells_length(kind)) && rest.len() >= 8 && size_at(kind, rest) <= rest.len()
}

/// Whether a header of this kind is that of a later fragment.
fn is_later_at(kind: u8, rest: &[u8]) -> bool
    requires { 8 ≤ length rest.now }
    ensures { result ≡ is_later kind rest.now }
{
    kind == 44 && word_at(rest, 2) / 8 != 0
}

/// Skips the extension headers of an IPv6 packet, which ends where its payload does; the first is of this kind.
pub fn chain_in(packet: &[u8], first: u8) -> Network
    requires { 40 ≤ length packet.now }
    ensures { result ≡ network_behind 6 40 (chain_of (length (drop 40 packet.now)) first (drop 40 packet.now)) }
{
    let mut kind = first;
    let mut named = 6;
    let mut at = 40;
    while is_extension(kind, rest_from(packet, at)) {
        let rest = rest_from(packet, at);
        if is_later_at(kind, rest) {
            let transport = Transport::Nothing;
            return Network::Ipv6(
                at,
                Payload {
                    transport,
                    at: at + 8,
                },
            );
        }
        named = at;
        at += size_at(kind, rest);
        kind = rest[0];
    }
    let transport = transport_in(named_over_ipv6(kind), packet.len() - at);
    Network::Ipv6(named, Payload { transport, at })
}
