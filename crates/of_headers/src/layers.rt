//! The fields of each layer: how a key gets them, and their places.

ghost use Rattle.std.specs.Prelude.{◌≡◌, ℕ, ◌+◌, ◌*◌, ◌/◌, ◌%◌, ◌^◌, ◌<◌, ◌≤◌, ◌==◌, if◌then◌else◌, List, [], ◌∷◌, length, slice_index, slice_set, Some};
ghost use Rattle.std.specs.Option.{option_or};
ghost use Rattle.of_layers.specs.Layers.{cells_in, addresses, outer_tag, ether_type, arp, ipv4, ipv6, items_of, size_of, named as item_named};
ghost use Rattle.of_layers.specs.Reading.{word, six, tag_numbers, arp_numbers, ipv4_numbers, ipv6_numbers, numbers_of};
ghost use Rattle.of_layers.specs.{declared.field.Field.Field as TheField, declared.field.Field.TheVariants.IpProto};
ghost use Rattle.of_layers.specs.declared.transport.Transport.TheVariants.{Tcp, Udp, Icmpv4, Icmpv6};
ghost use Rattle.of_layers.specs.{Fields.number_of, Looking.look, Looking.locate_at};
ghost use Rattle.of_headers.specs.{FieldMap.value, Parts.untagged, Parts.tagged};

use crate::bytes::{double_at, six_at, sixteen_at, word_at};
use crate::key::FieldKey;
use of_layers::{Field, Place, Transport};

pub(crate) fn bits_at(first: usize, bits: usize) -> Option<Place>
    ensures { result ≡ Some (record { first = first; bits = bits }) }
{
    Some(Place { first, bits })
}

// ---- addresses, and what is known without a tag

/// The bits of the fields that a frame has without tags.
const ENDS: u32 = (1 << Field::InPort as u32)
    | (1 << Field::Metadata as u32)
    | (1 << Field::EthDst as u32)
    | (1 << Field::EthSrc as u32)
    | (1 << Field::VlanVid as u32);

/// Puts the addresses of a frame without tags into a key, and what is known of its ingress port.
pub(crate) fn add_ends(frame: &[u8], in_port: u32, metadata: u64, key: &mut FieldKey)
    requires { 12 ≤ length frame.now }
    ensures { (f : TheField) → value key.new f ≡ option_or (look f (cells_in untagged (in_port ∷ metadata ∷ six frame.now 0 ∷ six frame.now 6 ∷ 0 ∷ [])))
        (value key.old f) }
{
    key.numbers.present |= ENDS;
    key.numbers.in_port = in_port;
    key.numbers.metadata = metadata;
    key.numbers.eth_dst = six_at(frame, 0);
    key.numbers.eth_src = six_at(frame, 6);
    key.numbers.vlan_vid = 0;
}

/// A field's place among the addresses.
#[tactic(auto, unfolding(of_layers::specs::Fields::row_of))]
pub(crate) fn address_place(field: Field) -> Option<Place>
    ensures { (a b : ℕ) → result ≡ locate_at 0 (number_of field) (cells_in addresses (a ∷ b ∷ [])) }
{
    match field {
        Field::EthDst => bits_at(0, 48),
        Field::EthSrc => bits_at(48, 48),
        _ => None,
    }
}

// ---- the outermost tag

/// The bits of a tag's fields.
const TAG: u32 = (1 << Field::VlanVid as u32) | (1 << Field::VlanPcp as u32);

/// Puts the fields of the outermost tag into a key.
pub(crate) fn add_tag(frame: &[u8], key: &mut FieldKey)
    requires { 16 ≤ length frame.now }
    ensures { (f : TheField) → value key.new f ≡ option_or (look f (cells_in tagged ((4096 + word frame.now 14 % 4096) ∷ (word frame.now 14 / 8192) ∷ [])))
        (value key.old f) }
{
    let tag = word_at(frame, 14);
    key.numbers.present |= TAG;
    key.numbers.vlan_vid = 4096 + tag % 4096;
    key.numbers.vlan_pcp = (tag / 8192) as u8;
}

/// A field's place in the outermost tag, from the frame's start.
#[tactic(auto, unfolding(of_layers::specs::Fields::row_of))]
pub(crate) fn tag_place(field: Field) -> Option<Place>
    ensures { (s : List ℕ) → result ≡ locate_at 96 (number_of field) (cells_in outer_tag (tag_numbers s)) }
{
    match field {
        Field::VlanPcp => bits_at(112, 3),
        Field::VlanVid => bits_at(116, 12),
        _ => None,
    }
}

// ---- the type

/// The bit of a frame's type.
const TYPE: u32 = (1 << Field::EthType as u32);

/// Puts a frame's type into a key.
pub(crate) fn add_type(kind: u16, key: &mut FieldKey)
    ensures { (f : TheField) → value key.new f ≡ option_or (look f (cells_in ether_type (kind ∷ []))) (value key.old f) }
{
    key.numbers.present |= TYPE;
    key.numbers.eth_type = kind;
}

/// A frame's type among its own bits.
#[tactic(auto, unfolding(of_layers::specs::Fields::row_of))]
pub(crate) fn type_place(field: Field) -> Option<Place>
    ensures { (kind : ℕ) → result ≡ locate_at 0 (number_of field) (cells_in ether_type (kind ∷ [])) }
{
    match field {
        Field::EthType => bits_at(0, 16),
        _ => None,
    }
}

// ---- ARP

/// The bits of ARP's fields.
const ARP: u32 = (1 << Field::ArpOp as u32)
    | (1 << Field::ArpSpa as u32)
    | (1 << Field::ArpTpa as u32)
    | (1 << Field::ArpSha as u32)
    | (1 << Field::ArpTha as u32);

/// Puts the fields of an ARP packet into a key.
pub(crate) fn add_arp(packet: &[u8], key: &mut FieldKey)
    requires { 28 ≤ length packet.now }
    ensures { (f : TheField) → value key.new f ≡ option_or (look f (cells_in arp (arp_numbers packet.now))) (value key.old f) }
{
    key.numbers.present |= ARP;
    key.numbers.arp_op = word_at(packet, 6);
    key.numbers.arp_sha = six_at(packet, 8);
    key.numbers.arp_spa = double_at(packet, 14);
    key.numbers.arp_tha = six_at(packet, 18);
    key.numbers.arp_tpa = double_at(packet, 24);
}

/// A field's place in an ARP packet.
#[tactic(auto, unfolding(of_layers::specs::Fields::row_of))]
pub(crate) fn arp_place(field: Field) -> Option<Place>
    ensures { (p : List ℕ) → result ≡ locate_at 0 (number_of field) (cells_in arp (arp_numbers p)) }
{
    match field {
        Field::ArpOp => bits_at(48, 16),
        Field::ArpSha => bits_at(64, 48),
        Field::ArpSpa => bits_at(112, 32),
        Field::ArpTha => bits_at(144, 48),
        Field::ArpTpa => bits_at(192, 32),
        _ => None,
    }
}

// ---- IPv4

/// The bits of IPv4's fields.
const IPV4: u32 = (1 << Field::IpDscp as u32)
    | (1 << Field::IpEcn as u32)
    | (1 << Field::IpProto as u32)
    | (1 << Field::Ipv4Src as u32)
    | (1 << Field::Ipv4Dst as u32);

/// Puts the fields of an IPv4 header into a key.
pub(crate) fn add_ipv4(packet: &[u8], key: &mut FieldKey)
    requires { 20 ≤ length packet.now }
    ensures { (f : TheField) → value key.new f ≡ option_or (look f (cells_in ipv4 (ipv4_numbers packet.now))) (value key.old f) }
{
    key.numbers.present |= IPV4;
    key.numbers.ip_dscp = packet[1] / 4;
    key.numbers.ip_ecn = packet[1] % 4;
    key.numbers.ip_proto = packet[9];
    key.numbers.ipv4_src = double_at(packet, 12);
    key.numbers.ipv4_dst = double_at(packet, 16);
}

/// A field's place in an IPv4 header.
#[tactic(auto, unfolding(of_layers::specs::Fields::row_of))]
pub(crate) fn ipv4_place(field: Field) -> Option<Place>
    ensures { (p : List ℕ) → result ≡ locate_at 0 (number_of field) (cells_in ipv4 (ipv4_numbers p)) }
{
    match field {
        Field::IpDscp => bits_at(8, 6),
        Field::IpEcn => bits_at(14, 2),
        Field::IpProto => bits_at(72, 8),
        Field::Ipv4Src => bits_at(96, 32),
        Field::Ipv4Dst => bits_at(128, 32),
        _ => None,
    }
}

// ---- IPv6

/// The bits of IPv6's fields.
const IPV6: u32 = (1 << Field::IpDscp as u32)
    | (1 << Field::IpEcn as u32)
    | (1 << Field::IpProto as u32)
    | (1 << Field::Ipv6Src as u32)
    | (1 << Field::Ipv6Dst as u32)
    | (1 << Field::Ipv6Flabel as u32);

/// Puts the fields of an IPv6 header into a key; what it carries is named by a byte of it, or of its last extension header.
pub(crate) fn add_ipv6(packet: &[u8], named: usize, key: &mut FieldKey)
    requires header { 40 ≤ length packet.now }
    requires within { named < length packet.now }
    ensures { (f : TheField) → value key.new f ≡ option_or (look f (cells_in (ipv6 (item_named IpProto 8))
        (slice_set (ipv6_numbers packet.now) 5 (slice_index packet.now named)))) (value key.old f) }
{
    let class = word_at(packet, 0);
    key.numbers.present |= IPV6;
    key.numbers.ip_dscp = (class / 64 % 64) as u8;
    key.numbers.ip_ecn = (class / 16 % 4) as u8;
    key.numbers.ip_proto = packet[named];
    key.numbers.ipv6_src = sixteen_at(packet, 8);
    key.numbers.ipv6_dst = sixteen_at(packet, 24);
    key.numbers.ipv6_flabel = double_at(packet, 0) % 1048576;
}

/// A field's place in an IPv6 header; what it carries is named by a byte of it, or of its last extension header.
#[tactic(auto, unfolding(of_layers::specs::Fields::row_of))]
pub(crate) fn ipv6_place(named: usize, field: Field) -> Option<Place>
    ensures { (p : List ℕ) → 8 * named < 2 ^ 64 → result ≡ (if number_of field == 10 then Some (record { first = 8 * named; bits = 8 }) else locate_at 0
        (number_of field) (cells_in (ipv6 (item_named IpProto 8)) (ipv6_numbers p))) }
{
    match field {
        Field::IpDscp => bits_at(4, 6),
        Field::IpEcn => bits_at(10, 2),
        Field::Ipv6Flabel => bits_at(12, 20),
        Field::IpProto => bits_at(named.wrapping_mul(8), 8),
        Field::Ipv6Src => bits_at(64, 128),
        Field::Ipv6Dst => bits_at(192, 128),
        _ => None,
    }
}

// ---- what an IP packet carries

/// The bits of TCP's ports.
const TCP: u32 = (1 << Field::TcpSrc as u32) | (1 << Field::TcpDst as u32);

/// Puts the ports of a TCP header into a key.
fn add_tcp(header: &[u8], key: &mut FieldKey)
    requires { 20 ≤ length header.now }
    ensures { (f : TheField) → value key.new f ≡ option_or (look f (cells_in (items_of Tcp) (numbers_of Tcp header.now))) (value key.old f) }
{
    key.numbers.present |= TCP;
    key.numbers.tcp_src = word_at(header, 0);
    key.numbers.tcp_dst = word_at(header, 2);
}

/// The bits of UDP's ports.
const UDP: u32 = (1 << Field::UdpSrc as u32) | (1 << Field::UdpDst as u32);

/// Puts the ports of a UDP header into a key.
fn add_udp(header: &[u8], key: &mut FieldKey)
    requires { 8 ≤ length header.now }
    ensures { (f : TheField) → value key.new f ≡ option_or (look f (cells_in (items_of Udp) (numbers_of Udp header.now))) (value key.old f) }
{
    key.numbers.present |= UDP;
    key.numbers.udp_src = word_at(header, 0);
    key.numbers.udp_dst = word_at(header, 2);
}

/// The bits of ICMP's type and code over IPv4.
const ICMPV4: u32 = (1 << Field::Icmpv4Type as u32) | (1 << Field::Icmpv4Code as u32);

/// Puts the type and code of an ICMP header over IPv4 into a key.
fn add_icmpv4(header: &[u8], key: &mut FieldKey)
    requires { 4 ≤ length header.now }
    ensures { (f : TheField) → value key.new f ≡ option_or (look f (cells_in (items_of Icmpv4) (numbers_of Icmpv4 header.now))) (value key.old f) }
{
    key.numbers.present |= ICMPV4;
    key.numbers.icmpv4_type = header[0];
    key.numbers.icmpv4_code = header[1];
}

/// The bits of ICMP's type and code over IPv6.
const ICMPV6: u32 = (1 << Field::Icmpv6Type as u32) | (1 << Field::Icmpv6Code as u32);

/// Puts the type and code of an ICMP header over IPv6 into a key.
fn add_icmpv6(header: &[u8], key: &mut FieldKey)
    requires { 4 ≤ length header.now }
    ensures { (f : TheField) → value key.new f ≡ option_or (look f (cells_in (items_of Icmpv6) (numbers_of Icmpv6 header.now))) (value key.old f) }
{
    key.numbers.present |= ICMPV6;
    key.numbers.icmpv6_type = header[0];
    key.numbers.icmpv6_code = header[1];
}

/// Puts the fields of what an IP packet carries into a key.
pub(crate) fn add_transport(kind: Transport, header: &[u8], key: &mut FieldKey)
    requires { size_of kind ≤ length header.now }
    ensures { (f : TheField) → value key.new f ≡ option_or (look f (cells_in (items_of kind) (numbers_of kind header.now))) (value key.old f) }
{
    match kind {
        Transport::Nothing => {}
        Transport::Tcp => add_tcp(header, key),
        Transport::Udp => add_udp(header, key),
        Transport::Icmpv4 => add_icmpv4(header, key),
        Transport::Icmpv6 => add_icmpv6(header, key),
    }
}

/// A field's place in the header that an IP packet carries.
#[tactic(auto, unfolding(of_layers::specs::Fields::row_of, of_layers::specs::Reading::numbers_of))]
pub(crate) fn transport_place(kind: Transport, field: Field) -> Option<Place>
    ensures { (s : List ℕ) → result ≡ locate_at 0 (number_of field) (cells_in (items_of kind) (numbers_of kind s)) }
{
    match (kind, field) {
        (Transport::Tcp, Field::TcpSrc) | (Transport::Udp, Field::UdpSrc) => bits_at(0, 16),
        (Transport::Tcp, Field::TcpDst) | (Transport::Udp, Field::UdpDst) => bits_at(16, 16),
        (Transport::Icmpv4, Field::Icmpv4Type) | (Transport::Icmpv6, Field::Icmpv6Type) => bits_at(
            0, 8,
        ),
        (Transport::Icmpv4, Field::Icmpv4Code) | (Transport::Icmpv6, Field::Icmpv6Code) => bits_at(
            8, 8,
        ),
        _ => None,
    }
}
