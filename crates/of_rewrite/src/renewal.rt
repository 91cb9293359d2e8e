//! The checksums of a frame: their places, what they cover, and how they are written back.

ghost use Rattle.std.specs.Prelude.{◌≡◌, ◌+◌, ◌*◌, ◌/◌, ◌≤◌, ◌<◌, ◌^◌, false, if◌then◌else◌, length, IfSome};
ghost use Rattle.of_rewrite.specs.Renewal.{checksum_byte, word_or_zero, header_checksum_at, carried_at, sums_of, is_udp, settled, settled_in, with_header, with_carried, moved, written_at, HasRoom, no_words, packet_at, header_span, address_span, carried_span};
ghost use Rattle.of_rewrite.specs.Rewriting.{without_addresses};
ghost use Rattle.of_layers.specs.Layers.{size_of};

use crate::bytes::put_word;
use crate::sums::{Span, Sum, Sums};
use of_headers::{Layout, Network, Payload, word_at};
use of_layers::Transport;

/// No words.
const NO_WORDS: Span = Span { at: 0, words: 0 };

/// The byte of the checksum in the header of what an IP packet carries.
fn checksum_in(kind: Transport) -> Option<usize>
    ensures byte { result ≡ checksum_byte kind }
    ensures inside { IfSome result (λ n. n + 2 ≤ size_of kind) }
{
    match kind {
        Transport::Nothing => None,
        Transport::Tcp => Some(16),
        Transport::Udp => Some(6),
        Transport::Icmpv4 | Transport::Icmpv6 => Some(2),
    }
}

/// Whether the checksum in a header leaves the addresses out, or there is none.
fn leaves_addresses(kind: Transport) -> bool
    ensures { result ≡ without_addresses kind }
{
    matches!(kind, Transport::Nothing | Transport::Icmpv4)
}

/// How many words of 16 bits the header of what an IP packet carries has.
fn words_of(kind: Transport) -> usize
    ensures words { result ≡ size_of kind / 2 }
    ensures most { result ≤ 10 }
{
    match kind {
        Transport::Nothing => 0,
        Transport::Tcp => 10,
        Transport::Udp => 4,
        Transport::Icmpv4 | Transport::Icmpv6 => 2,
    }
}

/// The checksum of what an IP packet carries, which covers these words of addresses where it covers any.
fn carried_in(bytes: &[u8], packet: usize, payload: Payload, addresses: Span) -> Sum
    requires { packet + payload.at + size_of payload.transport ≤ length bytes.now }
    ensures { result ≡ record {
      value = word_or_zero bytes.now (moved (packet + payload.at) (checksum_byte payload.transport));
      differs = false;
      front = (if without_addresses payload.transport then no_words else addresses);
      back = record { at = packet + payload.at; words = size_of payload.transport / 2 };
    } }
{
    let at = packet + payload.at;
    let value = match checksum_in(payload.transport) {
        Some(byte) => word_at(bytes, at + byte),
        None => 0,
    };
    let front = if leaves_addresses(payload.transport) {
        NO_WORDS
    } else {
        addresses
    };
    let words = words_of(payload.transport);
    Sum {
        value,
        differs: false,
        front,
        back: Span { at, words },
    }
}

/// A checksum that covers nothing.
fn no_sum() -> Sum
    ensures { result ≡ record { value = 0; differs = false; front = no_words; back = no_words } }
{
    Sum {
        value: 0,
        differs: false,
        front: NO_WORDS,
        back: NO_WORDS,
    }
}

/// The checksums of a frame with this layout.
pub fn sums_in(bytes: &[u8], layout: Layout) -> Sums
    requires { HasRoom layout (length bytes.now) }
    ensures { result ≡ sums_of layout bytes.now }
{
    let at = 14 + 4 * layout.tags;
    match layout.network {
        Network::Plain | Network::Arp => Sums {
            header: no_sum(),
            carried: no_sum(),
        },
        Network::Ipv4(payload) => {
            let addresses = Span {
                at: at + 12,
                words: 4,
            };
            let header = Sum {
                value: word_at(bytes, at + 10),
                differs: false,
                front: Span {
                    at,
                    words: payload.at / 2,
                },
                back: NO_WORDS,
            };
            let carried = carried_in(bytes, at, payload, addresses);
            Sums { header, carried }
        }
        Network::Ipv6(_, payload) => {
            let addresses = Span {
                at: at + 8,
                words: 16,
            };
            let carried = carried_in(bytes, at, payload, addresses);
            Sums {
                header: no_sum(),
                carried,
            }
        }
    }
}

/// What is written for the checksum of what an IP packet carries: UDP's is optional over IPv4, and is never 0 once it is computed (RFC 768).
fn settle(may_lack: bool, kind: Transport, old: u16, sum: Sum) -> u16
    ensures { result ≡ settled may_lack kind old sum }
{
    if !matches!(kind, Transport::Udp) {
        sum.value
    } else if (may_lack && old == 0) || !sum.differs {
        old
    } else if sum.value == 0 {
        0xffff
    } else {
        sum.value
    }
}

/// Writes the checksum of what an IP packet carries.
fn put_carried(bytes: &mut [u8], packet: usize, payload: Payload, may_lack: bool, sum: Sum)
    requires { packet + payload.at + size_of payload.transport ≤ length bytes.old }
    ensures { bytes.new ≡ written_at (moved (packet + payload.at) (checksum_byte payload.transport))
        (settled may_lack payload.transport (word_or_zero bytes.old (moved (packet + payload.at) (checksum_byte payload.transport))) sum) bytes.old }
{
    if let Some(byte) = checksum_in(payload.transport) {
        let at = packet + payload.at + byte;
        let old = word_at(bytes, at);
        put_word(bytes, at, settle(may_lack, payload.transport, old, sum));
    }
}

/// Writes the checksums of a frame with this layout.
pub fn put_sums(bytes: &mut [u8], layout: Layout, sums: Sums)
    requires { HasRoom layout (length bytes.old) }
    ensures { bytes.new ≡ with_carried layout sums (with_header layout sums bytes.old) }
{
    let at = 14 + 4 * layout.tags;
    match layout.network {
        Network::Plain | Network::Arp => {}
        Network::Ipv4(payload) => {
            put_word(bytes, at + 10, sums.header.value);
            put_carried(bytes, at, payload, true, sums.carried);
        }
        Network::Ipv6(_, payload) => put_carried(bytes, at, payload, false, sums.carried),
    }
}
