//! Whether a key is what is seen of another one under a mask.
//!
//! Fields are looked at in four groups, of which one is passed over where the mask has no field of it: most masks have few fields.

ghost use Rattle.std.specs.Prelude.{◌≡◌, ◌∷◌, [], IsTrue, bit_and};
ghost use Rattle.of_headers.specs.Seeing.{AreSeen};

use crate::numbers::Numbers;
use of_layers::Field;

/// The bits of the ports of TCP and UDP.
const PORTS: u32 = (1 << Field::TcpSrc as u32)
    | (1 << Field::TcpDst as u32)
    | (1 << Field::UdpSrc as u32)
    | (1 << Field::UdpDst as u32);

/// Whether the ports of TCP and UDP are what is seen of a key under a mask.
#[tactic(auto, unfolding(crate::specs::Seeing::AreSeen))]
fn has_ports(seen: &Numbers, key: &Numbers, mask: &Numbers) -> bool
    ensures { IsTrue result → AreSeen seen.now key.now mask.now (13 ∷ 14 ∷ 15 ∷ 16 ∷ []) }
{
    if mask.present & PORTS == 0 {
        return true;
    }
    seen.tcp_src == key.tcp_src & mask.tcp_src
        && seen.tcp_dst == key.tcp_dst & mask.tcp_dst
        && seen.udp_src == key.udp_src & mask.udp_src
        && seen.udp_dst == key.udp_dst & mask.udp_dst
}

/// The bits of IN_PORT, METADATA, and the fields of Ethernet and its outermost tag.
const OUTER: u32 = (1 << Field::InPort as u32)
    | (1 << Field::Metadata as u32)
    | (1 << Field::EthDst as u32)
    | (1 << Field::EthSrc as u32)
    | (1 << Field::VlanVid as u32)
    | (1 << Field::VlanPcp as u32);

/// Whether IN_PORT, METADATA, and the fields of Ethernet and its outermost tag are what is seen of a key under a mask.
#[tactic(auto, unfolding(crate::specs::Seeing::AreSeen))]
fn has_outer(seen: &Numbers, key: &Numbers, mask: &Numbers) -> bool
    ensures { IsTrue result → AreSeen seen.now key.now mask.now (0 ∷ 2 ∷ 3 ∷ 4 ∷ 6 ∷ 7 ∷ []) }
{
    if mask.present & OUTER == 0 {
        return true;
    }
    seen.in_port == key.in_port & mask.in_port
        && seen.metadata == key.metadata & mask.metadata
        && seen.eth_dst == key.eth_dst & mask.eth_dst
        && seen.eth_src == key.eth_src & mask.eth_src
        && seen.vlan_vid == key.vlan_vid & mask.vlan_vid
        && seen.vlan_pcp == key.vlan_pcp & mask.vlan_pcp
}

/// The bits of a frame's type, and the fields of IPv4.
const NETWORK: u32 = (1 << Field::EthType as u32)
    | (1 << Field::IpDscp as u32)
    | (1 << Field::IpEcn as u32)
    | (1 << Field::IpProto as u32)
    | (1 << Field::Ipv4Src as u32)
    | (1 << Field::Ipv4Dst as u32);

/// Whether a frame's type, and the fields of IPv4 are what is seen of a key under a mask.
#[tactic(auto, unfolding(crate::specs::Seeing::AreSeen))]
fn has_network(seen: &Numbers, key: &Numbers, mask: &Numbers) -> bool
    ensures { IsTrue result → AreSeen seen.now key.now mask.now (5 ∷ 8 ∷ 9 ∷ 10 ∷ 11 ∷ 12 ∷ []) }
{
    if mask.present & NETWORK == 0 {
        return true;
    }
    seen.eth_type == key.eth_type & mask.eth_type
        && seen.ip_dscp == key.ip_dscp & mask.ip_dscp
        && seen.ip_ecn == key.ip_ecn & mask.ip_ecn
        && seen.ip_proto == key.ip_proto & mask.ip_proto
        && seen.ipv4_src == key.ipv4_src & mask.ipv4_src
        && seen.ipv4_dst == key.ipv4_dst & mask.ipv4_dst
}

/// The bits of the fields of ARP, of ICMP, and of IPv6 alone.
const OTHERS: u32 = (1 << Field::Icmpv4Type as u32)
    | (1 << Field::Icmpv4Code as u32)
    | (1 << Field::ArpOp as u32)
    | (1 << Field::ArpSpa as u32)
    | (1 << Field::ArpTpa as u32)
    | (1 << Field::ArpSha as u32)
    | (1 << Field::ArpTha as u32)
    | (1 << Field::Ipv6Src as u32)
    | (1 << Field::Ipv6Dst as u32)
    | (1 << Field::Ipv6Flabel as u32)
    | (1 << Field::Icmpv6Type as u32)
    | (1 << Field::Icmpv6Code as u32);

/// Whether the fields of ARP, of ICMP, and of IPv6 alone are what is seen of a key under a mask.
#[tactic(auto, unfolding(crate::specs::Seeing::AreSeen))]
fn has_others(seen: &Numbers, key: &Numbers, mask: &Numbers) -> bool
    ensures { IsTrue result → AreSeen seen.now key.now mask.now (19 ∷ 20 ∷ 21 ∷ 22 ∷ 23 ∷ 24 ∷ 25 ∷ 26 ∷ 27 ∷ 28 ∷ 29 ∷ 30 ∷ []) }
{
    if mask.present & OTHERS == 0 {
        return true;
    }
    seen.icmpv4_type == key.icmpv4_type & mask.icmpv4_type
        && seen.icmpv4_code == key.icmpv4_code & mask.icmpv4_code
        && seen.arp_op == key.arp_op & mask.arp_op
        && seen.arp_spa == key.arp_spa & mask.arp_spa
        && seen.arp_tpa == key.arp_tpa & mask.arp_tpa
        && seen.arp_sha == key.arp_sha & mask.arp_sha
        && seen.arp_tha == key.arp_tha & mask.arp_tha
        && seen.ipv6_src == key.ipv6_src & mask.ipv6_src
        && seen.ipv6_dst == key.ipv6_dst & mask.ipv6_dst
        && seen.ipv6_flabel == key.ipv6_flabel & mask.ipv6_flabel
        && seen.icmpv6_type == key.icmpv6_type & mask.icmpv6_type
        && seen.icmpv6_code == key.icmpv6_code & mask.icmpv6_code
}

/// Whether numbers are what is seen of a key under a mask.
pub(crate) fn are_seen(seen: &Numbers, key: &Numbers, mask: &Numbers) -> bool
    ensures present { IsTrue result → seen.now.present ≡ bit_and key.now.present mask.now.present }
    ensures ports { IsTrue result → AreSeen seen.now key.now mask.now (13 ∷ 14 ∷ 15 ∷ 16 ∷ []) }
    ensures outer { IsTrue result → AreSeen seen.now key.now mask.now (0 ∷ 2 ∷ 3 ∷ 4 ∷ 6 ∷ 7 ∷ []) }
    ensures network { IsTrue result → AreSeen seen.now key.now mask.now (5 ∷ 8 ∷ 9 ∷ 10 ∷ 11 ∷ 12 ∷ []) }
    ensures others { IsTrue result → AreSeen seen.now key.now mask.now (19 ∷ 20 ∷ 21 ∷ 22 ∷ 23 ∷ 24 ∷ 25 ∷ 26 ∷ 27 ∷ 28 ∷ 29 ∷ 30 ∷ []) }
{
    seen.present == key.present & mask.present
        && has_ports(seen, key, mask)
        && has_outer(seen, key, mask)
        && has_network(seen, key, mask)
        && has_others(seen, key, mask)
}
