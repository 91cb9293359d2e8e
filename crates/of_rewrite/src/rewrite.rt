//! A number of a frame replaced, and its checksums updated.

ghost use Rattle.std.specs.Prelude.{ℕ, ◌≡◌, ◌≢◌, ◌+◌, ◌*◌, ◌/◌, ◌≤◌, ◌<◌, ◌^◌, length, Some, IsTrue};
ghost use Rattle.of_layers.specs.{Bits.bits_of, Fields.number_of, Fields.is_settable, Layers.cells, Layers.encoded, Layers.ttl, Looking.locate_at, Reading.layers_of};
ghost use Rattle.of_headers.specs.Places.{layout_of};
ghost use Rattle.of_rewrite.specs.{Rewriting.number_set, Rewriting.field_set, Frames.bytes_in, Frames.frame_set, Frames.frame_ttl, Frames.frame_ttl_decremented, Loans.lent};
ghost use Rattle.of_rewrite.specs.{Right.StayRight, Right.StayOff, TimeToLive.ttl_of, TimeToLive.dec_ttl_result, TimeToLive.ttl_decremented_from, TimeToLive.layers_ttl_decremented};
ghost use Rattle.of_rewrite.specs.{Renewal.ttl_at, Renewal.packet_at, Replaced.Replaceable, Replaced.layers_set};

use crate::bytes::all_bytes;
use crate::frame::Ttl;
use crate::renewal::{put_sums, sums_in};
use crate::writing::put_number;
use of_headers::{Layout, Network};
use of_layers::{Field, Place};
use std::ops::Range;

/// Replaces the number of a place, and updates each checksum that covers it.
pub fn set_number(bytes: &mut [u8], layout: Layout, place: Place, value: u128)
    requires long { 14 ≤ length bytes.old }
    requires layout { layout ≡ layout_of (layers_of bytes.old) }
    requires most { place.bits ≤ 128 }
    requires fits { place.first + place.bits < 2 ^ 64 }
    requires room { (place.first + place.bits + 15) / 16 * 2 ≤ length bytes.old }
    ensures { (name : ℕ) → Replaceable name → locate_at 0 name (cells (layers_of bytes.old)) ≡ Some place →
        bits_of bytes.new ≡ encoded (number_set name value (layers_of bytes.old)) }
{
    all_bytes(bytes);
    let sums = sums_in(bytes, layout);
    let sums = put_number(bytes, place, value, sums);
    all_bytes(bytes);
    put_sums(bytes, layout, sums);
}

/// Replaces a field, and updates each checksum that covers it. Where the frame has no such field nothing changes.
pub fn set_field(bytes: &mut [u8], layout: Layout, field: Field, value: u128)
    requires settable { IsTrue (is_settable field) }
    requires long { 14 ≤ length bytes.old }
    requires short { length bytes.old < 2 ^ 61 }
    requires layout { layout ≡ layout_of (layers_of bytes.old) }
    ensures bits { bits_of bytes.new ≡ encoded (field_set field value (layers_of bytes.old)) }
    ensures frame { bytes.new ≡ frame_set field value bytes.old }
    ensures layers { layers_of bytes.new ≡ layers_set (number_of field) value (layers_of bytes.old) }
    ensures checksums { StayRight bytes.old bytes.new }
    ensures off { StayOff bytes.old bytes.new }
{
    all_bytes(bytes);
    if let Some(place) = layout.place(field) {
        set_number(bytes, layout, place, value);
    }
}

/// The byte of IPv4's TTL or of IPv6's hop limit.
fn ttl_byte(layout: Layout) -> Option<usize>
    requires { packet_at layout < 2 ^ 62 }
    ensures { result ≡ ttl_at (packet_at layout) layout.network }
{
    let at = 14 + 4 * layout.tags;
    match layout.network {
        Network::Plain | Network::Arp => None,
        Network::Ipv4(_) => Some(at + 8),
        Network::Ipv6(..) => Some(at + 7),
    }
}

/// Replaces IPv4's TTL or IPv6's hop limit, and updates the checksum of an IPv4 header. Without an IP layer nothing changes.
pub fn set_ttl(bytes: &mut [u8], layout: Layout, value: u8)
    requires long { 14 ≤ length bytes.old }
    requires short { length bytes.old < 2 ^ 61 }
    requires layout { layout ≡ layout_of (layers_of bytes.old) }
    ensures bits { bits_of bytes.new ≡ encoded (number_set ttl value (layers_of bytes.old)) }
    ensures frame { bytes.new ≡ frame_ttl value bytes.old }
    ensures layers { layers_of bytes.new ≡ layers_set ttl value (layers_of bytes.old) }
    ensures checksums { StayRight bytes.old bytes.new }
    ensures off { StayOff bytes.old bytes.new }
{
    all_bytes(bytes);
    if let Some(at) = ttl_byte(layout) {
        let place = Place {
            first: 8 * at,
            bits: 8,
        };
        set_number(bytes, layout, place, u128::from(value));
    }
}

/// IPv4's TTL or IPv6's hop limit, if the frame has an IP layer.
pub fn ttl_in(bytes: &[u8], layout: Layout) -> Option<u8>
    requires long { 14 ≤ length bytes.now }
    requires short { length bytes.now < 2 ^ 61 }
    requires layout { layout ≡ layout_of (layers_of bytes.now) }
    ensures value { result ≡ ttl_of (layers_of bytes.now) }
    ensures frame { bytes.now ≡ bytes_in (cells (layers_of bytes.now)) }
    ensures encoded { bits_of bytes.now ≡ encoded (cells (layers_of bytes.now)) }
{
    all_bytes(bytes);
    match ttl_byte(layout) {
        Some(at) => Some(bytes[at]),
        None => None,
    }
}

/// Decrements IPv4's TTL or IPv6's hop limit, and updates the checksum of an IPv4 header.
pub fn dec_ttl(bytes: &mut [u8], layout: Layout) -> Ttl
    requires long { 14 ≤ length bytes.old }
    requires short { length bytes.old < 2 ^ 61 }
    requires layout { layout ≡ layout_of (layers_of bytes.old) }
    ensures answer { result ≡ dec_ttl_result (ttl_of (layers_of bytes.old)) }
    ensures bits { bits_of bytes.new ≡ encoded (ttl_decremented_from (ttl_of (layers_of bytes.old)) (layers_of bytes.old)) }
    ensures frame { bytes.new ≡ frame_ttl_decremented bytes.old }
    ensures layers { layers_of bytes.new ≡ layers_ttl_decremented (ttl_of (layers_of bytes.old)) (layers_of bytes.old) }
    ensures checksums { StayRight bytes.old bytes.new }
    ensures off { StayOff bytes.old bytes.new }
{
    match ttl_in(bytes, layout) {
        None => Ttl::Absent,
        Some(0 | 1) => Ttl::Expired,
        Some(old) => {
            set_ttl(bytes, layout, old - 1);
            Ttl::Done
        }
    }
}

/// The bytes of a field that fills whole bytes; none for other fields, nor where the frame lacks it.
pub fn field_range(bytes: &[u8], layout: Layout, field: Field) -> Range<usize>
    requires long { 14 ≤ length bytes.now }
    requires short { length bytes.now < 2 ^ 61 }
    requires layout { layout ≡ layout_of (layers_of bytes.now) }
    ensures bounds { (result.start, result.end) ≡ lent field bytes.now }
    ensures order { result.start ≤ result.end }
    ensures room { result.end ≤ length bytes.now }
{
    all_bytes(bytes);
    match layout.place(field) {
        Some(place) if place.first % 8 == 0 && place.bits % 8 == 0 => {
            place.first / 8..(place.first + place.bits) / 8
        }
        _ => 0..0,
    }
}
