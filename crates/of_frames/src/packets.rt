//! The headers of a frame with given fields, appended to bytes.
ghost use Rattle.std.specs.Prelude.{◌++◌, OnOk};
ghost use Rattle.of_layers.specs.Layers.{addresses, arp, body_cells, carried_cells, cells_in, encoded, ipv4, ipv6, named, tag_cells};
ghost use Rattle.of_layers.specs.{Bits.bits, declared.field.Field.TheVariants.IpProto, declared.transport.Transport.TheVariants.Tcp, declared.transport.Transport.TheVariants.Udp};
ghost use Rattle.of_frames.specs.Packets.{arp_given, body_given, carried_given, ends_given, ipv4_given, ipv6_given, body_over_ipv4, body_over_ipv6, tags_given};
ghost use Rattle.of_frames.specs.{declared.shape.Tagging.TheVariants.Tagged, Adding.Adds, Given.number};

use crate::bits::{push_address, push_byte, push_double, push_sixteen, push_word};
use crate::sums::{
    carried_checksum, header_checksum, ipv4_sum, ipv6_sum, protocol_of, service_of, size_of,
};
use crate::{Shape, Tagging};
use of_headers::{Numbers, Transport};
use std::alloc::AllocError;

/// How many addresses of six bytes there are.
const ADDRESSES: u64 = 1 << 48;

const TTL: u8 = 64;

/// Appends the addresses (IEEE 802.3, 3.1.1).
pub fn push_ends(out: &mut Vec<u8>, numbers: &Numbers) -> Result<(), AllocError>
    ensures { OnOk result (Adds out.old.items out.new.items (encoded (cells_in addresses (ends_given (number numbers.now))))) }
{
    push_address(out, numbers.eth_dst % ADDRESSES)?;
    push_address(out, numbers.eth_src % ADDRESSES)?;
    Ok(())
}

// Appends a customer tag (IEEE 802.1Q, 9.5).
fn push_one_tag(out: &mut Vec<u8>, numbers: &Numbers) -> Result<(), AllocError>
    ensures { OnOk result (Adds out.old.items out.new.items (encoded (tag_cells (tags_given Tagged (number numbers.now))))) }
{
    let control = (numbers.vlan_pcp % 8) as u16 * 0x2000 + numbers.vlan_vid % 0x1000;
    push_word(out, 0x8100)?;
    push_word(out, control)?;
    Ok(())
}

/// Appends a tag, if there is one.
pub fn push_tags(out: &mut Vec<u8>, tagging: Tagging, numbers: &Numbers) -> Result<(), AllocError>
    ensures { OnOk result (Adds out.old.items out.new.items (encoded (tag_cells (tags_given tagging (number numbers.now))))) }
{
    match tagging {
        Tagging::Untagged => Ok(()),
        Tagging::Tagged => push_one_tag(out, numbers),
    }
}

// Appends ARP for Ethernet and IPv4 (RFC 826).
fn push_arp(out: &mut Vec<u8>, numbers: &Numbers) -> Result<(), AllocError>
    ensures { OnOk result (Adds out.old.items out.new.items (encoded (cells_in arp (arp_given (number numbers.now))))) }
{
    push_word(out, 1)?;
    push_word(out, 0x0800)?;
    push_byte(out, 6)?;
    push_byte(out, 4)?;
    push_word(out, numbers.arp_op)?;
    push_address(out, numbers.arp_sha % ADDRESSES)?;
    push_double(out, numbers.arp_spa)?;
    push_address(out, numbers.arp_tha % ADDRESSES)?;
    push_double(out, numbers.arp_tpa)?;
    Ok(())
}

// Appends a TCP header without options (RFC 9293, 3.1).
fn push_tcp(out: &mut Vec<u8>, numbers: &Numbers, checksum: u16) -> Result<(), AllocError>
    ensures { OnOk result (Adds out.old.items out.new.items (encoded (carried_cells (carried_given Tcp (number numbers.now) checksum)))) }
{
    push_word(out, numbers.tcp_src)?;
    push_word(out, numbers.tcp_dst)?;
    push_double(out, 0)?;
    push_double(out, 0)?;
    push_word(out, 0x5000)?;
    push_word(out, 0)?;
    push_word(out, checksum)?;
    push_word(out, 0)?;
    Ok(())
}

// Appends a UDP header (RFC 768).
fn push_udp(out: &mut Vec<u8>, numbers: &Numbers, checksum: u16) -> Result<(), AllocError>
    ensures { OnOk result (Adds out.old.items out.new.items (encoded (carried_cells (carried_given Udp (number numbers.now) checksum)))) }
{
    push_word(out, numbers.udp_src)?;
    push_word(out, numbers.udp_dst)?;
    push_word(out, 8)?;
    push_word(out, checksum)?;
    Ok(())
}

// Appends a header of ICMP (RFC 792; RFC 4443, 2.1).
fn push_icmp(out: &mut Vec<u8>, kind: u8, code: u8, checksum: u16) -> Result<(), AllocError>
    ensures { OnOk result (Adds out.old.items out.new.items (bits 8 kind ++ (bits 8 code ++ (bits 16 checksum ++ bits 32 0)))) }
{
    push_byte(out, kind)?;
    push_byte(out, code)?;
    push_word(out, checksum)?;
    push_double(out, 0)?;
    Ok(())
}

// Appends the header that an IP packet carries.
fn push_carried(
    out: &mut Vec<u8>,
    kind: Transport,
    numbers: &Numbers,
    checksum: u16,
) -> Result<(), AllocError>
    ensures { OnOk result (Adds out.old.items out.new.items (encoded (carried_cells (carried_given kind (number numbers.now) checksum)))) }
{
    match kind {
        Transport::Nothing => Ok(()),
        Transport::Tcp => push_tcp(out, numbers, checksum),
        Transport::Udp => push_udp(out, numbers, checksum),
        Transport::Icmpv4 => push_icmp(out, numbers.icmpv4_type, numbers.icmpv4_code, checksum),
        Transport::Icmpv6 => push_icmp(out, numbers.icmpv6_type, numbers.icmpv6_code, checksum),
    }
}

// Appends an IPv4 header without options (RFC 791, 3.1).
fn push_ipv4_header(out: &mut Vec<u8>, kind: Transport, numbers: &Numbers) -> Result<(), AllocError>
    ensures { OnOk result (Adds out.old.items out.new.items (encoded (cells_in ipv4 (ipv4_given kind (number numbers.now))))) }
{
    push_byte(out, 0x45)?;
    push_byte(out, service_of(numbers))?;
    push_word(out, 20 + size_of(kind))?;
    push_double(out, 0)?;
    push_byte(out, TTL)?;
    push_byte(out, protocol_of(kind, numbers))?;
    push_word(out, header_checksum(kind, numbers))?;
    push_double(out, numbers.ipv4_src)?;
    push_double(out, numbers.ipv4_dst)?;
    Ok(())
}

// Appends an IPv4 packet.
fn push_ipv4(out: &mut Vec<u8>, kind: Transport, numbers: &Numbers) -> Result<(), AllocError>
    ensures { OnOk result (Adds out.old.items out.new.items (encoded (body_cells (body_over_ipv4 kind (number numbers.now))))) }
{
    let checksum = carried_checksum(ipv4_sum(kind, numbers), kind, numbers);
    push_ipv4_header(out, kind, numbers)?;
    push_carried(out, kind, numbers, checksum)?;
    Ok(())
}

// Appends an IPv6 header (RFC 8200, 3).
fn push_ipv6_header(out: &mut Vec<u8>, kind: Transport, numbers: &Numbers) -> Result<(), AllocError>
    ensures { OnOk result (Adds out.old.items out.new.items (encoded (cells_in (ipv6 (named IpProto 8)) (ipv6_given kind (number numbers.now))))) }
{
    let class = 6 * 256 + service_of(numbers) as u32;
    push_double(out, class * 0x10_0000 + numbers.ipv6_flabel % 0x10_0000)?;
    push_word(out, size_of(kind))?;
    push_byte(out, protocol_of(kind, numbers))?;
    push_byte(out, TTL)?;
    push_sixteen(out, numbers.ipv6_src)?;
    push_sixteen(out, numbers.ipv6_dst)?;
    Ok(())
}

// Appends an IPv6 packet.
fn push_ipv6(out: &mut Vec<u8>, kind: Transport, numbers: &Numbers) -> Result<(), AllocError>
    ensures { OnOk result (Adds out.old.items out.new.items (encoded (body_cells (body_over_ipv6 kind (number numbers.now))))) }
{
    let checksum = carried_checksum(ipv6_sum(kind, numbers), kind, numbers);
    push_ipv6_header(out, kind, numbers)?;
    push_carried(out, kind, numbers, checksum)?;
    Ok(())
}

/// Appends what comes after the type.
pub fn push_body(out: &mut Vec<u8>, shape: Shape, numbers: &Numbers) -> Result<(), AllocError>
    ensures { OnOk result (Adds out.old.items out.new.items (encoded (body_cells (body_given shape (number numbers.now))))) }
{
    match shape {
        Shape::Bare => Ok(()),
        Shape::Arp => push_arp(out, numbers),
        Shape::Ipv4 => push_ipv4(out, Transport::Nothing, numbers),
        Shape::Ipv4Tcp => push_ipv4(out, Transport::Tcp, numbers),
        Shape::Ipv4Udp => push_ipv4(out, Transport::Udp, numbers),
        Shape::Ipv4Icmp => push_ipv4(out, Transport::Icmpv4, numbers),
        Shape::Ipv6 => push_ipv6(out, Transport::Nothing, numbers),
        Shape::Ipv6Tcp => push_ipv6(out, Transport::Tcp, numbers),
        Shape::Ipv6Udp => push_ipv6(out, Transport::Udp, numbers),
        Shape::Ipv6Icmp => push_ipv6(out, Transport::Icmpv6, numbers),
    }
}
