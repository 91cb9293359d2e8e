//! Checksums (RFC 1071, 1) of the headers of a frame with given fields.
ghost use Rattle.std.specs.Prelude.{◌≡◌, ◌≤◌, ◌<◌, ◌/◌, ◌%◌, ◌^◌};
ghost use Rattle.of_rewrite.specs.Checksum.{never_zero as never_zero_of};
ghost use Rattle.of_frames.specs.Checksums.{carried_checksum as carried_checksum_of, checksum_of, header_sum, ipv4_sum as ipv4_sum_of, ipv6_sum as ipv6_sum_of, protocol_with, service_given, size_with, word_sum};
ghost use Rattle.of_frames.specs.Given.{number};

use of_headers::{Numbers, Transport};

/// The protocol (IANA, Protocol Numbers): that of the header that an IP packet carries, or else the one that is given.
#[tactic(auto, unfolding(of_layers::specs::Fields::row_of))]
pub fn protocol_of(kind: Transport, numbers: &Numbers) -> u8
    ensures { result ≡ protocol_with kind (number numbers.now) }
{
    let given = numbers.ip_proto;
    match kind {
        Transport::Nothing => given,
        Transport::Tcp => 6,
        Transport::Udp => 17,
        Transport::Icmpv4 => 1,
        Transport::Icmpv6 => 58,
    }
}

/// How many bytes the header that an IP packet carries takes.
pub fn size_of(kind: Transport) -> u16
    ensures size { result ≡ size_with kind }
    ensures small { result ≤ 20 }
{
    match kind {
        Transport::Nothing => 0,
        Transport::Tcp => 20,
        Transport::Udp | Transport::Icmpv4 | Transport::Icmpv6 => 8,
    }
}

/// DSCP and ECN in one byte.
#[tactic(auto, unfolding(of_layers::specs::Fields::row_of))]
pub fn service_of(numbers: &Numbers) -> u8
    ensures { result ≡ service_given (number numbers.now) }
{
    (numbers.ip_dscp % 64) * 4 + numbers.ip_ecn % 4
}

// The checksum of words with this sum.
fn checksum(sum: u32) -> u16
    ensures { result ≡ checksum_of sum }
{
    if sum == 0 {
        0xffff
    } else {
        0xffff - (1 + (sum - 1) % 0xffff) as u16
    }
}

// The word of a number above so many bits.
fn word_above(value: u128, bits: u32) -> u32
    requires { bits < 128 }
    ensures word { result ≡ value / 2 ^ bits % 65536 }
    ensures small { result < 65536 }
{
    ((value >> bits) % 0x1_0000) as u32
}

// The sum of the words of four bytes.
fn sum_of_double(double: u32) -> u32
    ensures sum { result ≡ word_sum 2 double }
    ensures small { result ≤ 131070 }
{
    word_above(double as u128, 16) + word_above(double as u128, 0)
}

// The sum of the words of sixteen bytes.
fn sum_of_sixteen(value: u128) -> u32
    ensures sum { result ≡ word_sum 8 value }
    ensures small { result ≤ 524280 }
{
    word_above(value, 112)
        + (word_above(value, 96)
            + (word_above(value, 80)
                + (word_above(value, 64)
                    + (word_above(value, 48)
                        + (word_above(value, 32)
                            + (word_above(value, 16) + word_above(value, 0)))))))
}

/// The checksum of an IPv4 header without options (RFC 791, 3.1).
#[tactic(auto, unfolding(of_layers::specs::Fields::row_of))]
pub fn header_checksum(kind: Transport, numbers: &Numbers) -> u16
    ensures { result ≡ checksum_of (header_sum kind (number numbers.now)) }
{
    checksum(
        0x4500
            + service_of(numbers) as u32
            + (20 + size_of(kind) as u32)
            + (0x4000 + protocol_of(kind, numbers) as u32)
            + sum_of_double(numbers.ipv4_src)
            + sum_of_double(numbers.ipv4_dst),
    )
}

/// The sum of what TCP and UDP take in of an IPv4 packet beside their own headers (RFC 9293, 3.1; RFC 768).
#[tactic(auto, unfolding(of_layers::specs::Fields::row_of))]
pub fn ipv4_sum(kind: Transport, numbers: &Numbers) -> u32
    ensures sum { result ≡ ipv4_sum_of kind (number numbers.now) }
    ensures small { result < 2 ^ 24 }
{
    sum_of_double(numbers.ipv4_src)
        + sum_of_double(numbers.ipv4_dst)
        + protocol_of(kind, numbers) as u32
        + size_of(kind) as u32
}

/// The same of an IPv6 packet (RFC 8200, 8.1).
#[tactic(auto, unfolding(of_layers::specs::Fields::row_of))]
pub fn ipv6_sum(kind: Transport, numbers: &Numbers) -> u32
    ensures sum { result ≡ ipv6_sum_of kind (number numbers.now) }
    ensures small { result < 2 ^ 24 }
{
    sum_of_sixteen(numbers.ipv6_src)
        + sum_of_sixteen(numbers.ipv6_dst)
        + protocol_of(kind, numbers) as u32
        + size_of(kind) as u32
}

// UDP never has the checksum 0 (RFC 768).
fn never_zero(checksum: u16) -> u16
    ensures { result ≡ never_zero_of checksum }
{
    if checksum == 0 { 0xffff } else { checksum }
}

/// The checksum in the header that an IP packet carries, if what it takes in beside that header sums up to `around`.
#[tactic(auto, unfolding(of_layers::specs::Fields::row_of))]
pub fn carried_checksum(around: u32, kind: Transport, numbers: &Numbers) -> u16
    requires { around < 2 ^ 24 }
    ensures { result ≡ carried_checksum_of around kind (number numbers.now) }
{
    match kind {
        Transport::Nothing => 0,
        Transport::Tcp => {
            checksum(around + numbers.tcp_src as u32 + numbers.tcp_dst as u32 + 0x5000)
        }
        Transport::Udp => never_zero(checksum(
            around + numbers.udp_src as u32 + numbers.udp_dst as u32 + 8,
        )),
        Transport::Icmpv4 => {
            checksum(numbers.icmpv4_type as u32 * 256 + numbers.icmpv4_code as u32)
        }
        Transport::Icmpv6 => {
            checksum(around + numbers.icmpv6_type as u32 * 256 + numbers.icmpv6_code as u32)
        }
    }
}
