//! The numbers of a key: a place for each field.

ghost use Rattle.std.specs.Prelude.{◌≡◌, ◌≤◌, bit_and, bit_or, slice_index, slice_set};
ghost use Rattle.of_layers.specs.Fields.{number_of, ones_of};
ghost use Rattle.of_headers.specs.Numbers.{numbers_in, bits_both, bits_either};

use of_layers::Field;

/// A number for each field, and bit `n` of `present` for the field of number `n`.
///
/// Addresses of Ethernet are numbers of 48 bits, VLAN_VID has 13, VLAN_PCP 3, IP_DSCP 6, IP_ECN 2 and IPV6_FLABEL 20.
#[derive(Clone, Copy, Debug, PartialEq, Eq, Hash)]
pub struct Numbers {
    pub present: u32,
    pub in_port: u32,
    pub metadata: u64,
    pub eth_dst: u64,
    pub eth_src: u64,
    pub eth_type: u16,
    pub vlan_vid: u16,
    pub vlan_pcp: u8,
    pub ip_dscp: u8,
    pub ip_ecn: u8,
    pub ip_proto: u8,
    pub ipv4_src: u32,
    pub ipv4_dst: u32,
    pub tcp_src: u16,
    pub tcp_dst: u16,
    pub udp_src: u16,
    pub udp_dst: u16,
    pub icmpv4_type: u8,
    pub icmpv4_code: u8,
    pub arp_op: u16,
    pub arp_spa: u32,
    pub arp_tpa: u32,
    pub arp_sha: u64,
    pub arp_tha: u64,
    pub ipv6_src: u128,
    pub ipv6_dst: u128,
    pub ipv6_flabel: u32,
    pub icmpv6_type: u8,
    pub icmpv6_code: u8,
}

impl Numbers {
    /// Zeros alone.
    pub(crate) const ZERO: Numbers = Numbers {
        present: 0,
        in_port: 0,
        metadata: 0,
        eth_dst: 0,
        eth_src: 0,
        eth_type: 0,
        vlan_vid: 0,
        vlan_pcp: 0,
        ip_dscp: 0,
        ip_ecn: 0,
        ip_proto: 0,
        ipv4_src: 0,
        ipv4_dst: 0,
        tcp_src: 0,
        tcp_dst: 0,
        udp_src: 0,
        udp_dst: 0,
        icmpv4_type: 0,
        icmpv4_code: 0,
        arp_op: 0,
        arp_spa: 0,
        arp_tpa: 0,
        arp_sha: 0,
        arp_tha: 0,
        ipv6_src: 0,
        ipv6_dst: 0,
        ipv6_flabel: 0,
        icmpv6_type: 0,
        icmpv6_code: 0,
    };

    /// The number in the place of a field.
    #[tactic(auto, unfolding(of_layers::specs::Fields::row_of))]
    pub(crate) fn get(&self, field: Field) -> u128
        ensures { result ≡ slice_index (numbers_in self.now) (number_of field) }
    {
        match field {
            Field::InPort => u128::from(self.in_port),
            Field::Metadata => u128::from(self.metadata),
            Field::EthDst => u128::from(self.eth_dst),
            Field::EthSrc => u128::from(self.eth_src),
            Field::EthType => u128::from(self.eth_type),
            Field::VlanVid => u128::from(self.vlan_vid),
            Field::VlanPcp => u128::from(self.vlan_pcp),
            Field::IpDscp => u128::from(self.ip_dscp),
            Field::IpEcn => u128::from(self.ip_ecn),
            Field::IpProto => u128::from(self.ip_proto),
            Field::Ipv4Src => u128::from(self.ipv4_src),
            Field::Ipv4Dst => u128::from(self.ipv4_dst),
            Field::TcpSrc => u128::from(self.tcp_src),
            Field::TcpDst => u128::from(self.tcp_dst),
            Field::UdpSrc => u128::from(self.udp_src),
            Field::UdpDst => u128::from(self.udp_dst),
            Field::Icmpv4Type => u128::from(self.icmpv4_type),
            Field::Icmpv4Code => u128::from(self.icmpv4_code),
            Field::ArpOp => u128::from(self.arp_op),
            Field::ArpSpa => u128::from(self.arp_spa),
            Field::ArpTpa => u128::from(self.arp_tpa),
            Field::ArpSha => u128::from(self.arp_sha),
            Field::ArpTha => u128::from(self.arp_tha),
            Field::Ipv6Src => self.ipv6_src,
            Field::Ipv6Dst => self.ipv6_dst,
            Field::Ipv6Flabel => u128::from(self.ipv6_flabel),
            Field::Icmpv6Type => u128::from(self.icmpv6_type),
            Field::Icmpv6Code => u128::from(self.icmpv6_code),
        }
    }

    /// Puts a number into the place of a field.
    #[tactic(auto, unfolding(of_layers::specs::Fields::row_of))]
    pub(crate) fn set(&mut self, field: Field, number: u128)
        requires { number ≤ ones_of field }
        ensures number { numbers_in self.new ≡ slice_set (numbers_in self.old) (number_of field) number }
        ensures present { self.new.present ≡ self.old.present }
    {
        match field {
            Field::InPort => self.in_port = number as u32,
            Field::Metadata => self.metadata = number as u64,
            Field::EthDst => self.eth_dst = number as u64,
            Field::EthSrc => self.eth_src = number as u64,
            Field::EthType => self.eth_type = number as u16,
            Field::VlanVid => self.vlan_vid = number as u16,
            Field::VlanPcp => self.vlan_pcp = number as u8,
            Field::IpDscp => self.ip_dscp = number as u8,
            Field::IpEcn => self.ip_ecn = number as u8,
            Field::IpProto => self.ip_proto = number as u8,
            Field::Ipv4Src => self.ipv4_src = number as u32,
            Field::Ipv4Dst => self.ipv4_dst = number as u32,
            Field::TcpSrc => self.tcp_src = number as u16,
            Field::TcpDst => self.tcp_dst = number as u16,
            Field::UdpSrc => self.udp_src = number as u16,
            Field::UdpDst => self.udp_dst = number as u16,
            Field::Icmpv4Type => self.icmpv4_type = number as u8,
            Field::Icmpv4Code => self.icmpv4_code = number as u8,
            Field::ArpOp => self.arp_op = number as u16,
            Field::ArpSpa => self.arp_spa = number as u32,
            Field::ArpTpa => self.arp_tpa = number as u32,
            Field::ArpSha => self.arp_sha = number as u64,
            Field::ArpTha => self.arp_tha = number as u64,
            Field::Ipv6Src => self.ipv6_src = number,
            Field::Ipv6Dst => self.ipv6_dst = number,
            Field::Ipv6Flabel => self.ipv6_flabel = number as u32,
            Field::Icmpv6Type => self.icmpv6_type = number as u8,
            Field::Icmpv6Code => self.icmpv6_code = number as u8,
        }
    }

    /// The bits that both have, place by place.
    pub(crate) fn both(&self, other: &Numbers) -> Numbers
        ensures numbers { numbers_in result ≡ bits_both (numbers_in self.now) (numbers_in other.now) }
        ensures present { result.present ≡ bit_and self.now.present other.now.present }
    {
        Numbers {
            present: self.present & other.present,
            in_port: self.in_port & other.in_port,
            metadata: self.metadata & other.metadata,
            eth_dst: self.eth_dst & other.eth_dst,
            eth_src: self.eth_src & other.eth_src,
            eth_type: self.eth_type & other.eth_type,
            vlan_vid: self.vlan_vid & other.vlan_vid,
            vlan_pcp: self.vlan_pcp & other.vlan_pcp,
            ip_dscp: self.ip_dscp & other.ip_dscp,
            ip_ecn: self.ip_ecn & other.ip_ecn,
            ip_proto: self.ip_proto & other.ip_proto,
            ipv4_src: self.ipv4_src & other.ipv4_src,
            ipv4_dst: self.ipv4_dst & other.ipv4_dst,
            tcp_src: self.tcp_src & other.tcp_src,
            tcp_dst: self.tcp_dst & other.tcp_dst,
            udp_src: self.udp_src & other.udp_src,
            udp_dst: self.udp_dst & other.udp_dst,
            icmpv4_type: self.icmpv4_type & other.icmpv4_type,
            icmpv4_code: self.icmpv4_code & other.icmpv4_code,
            arp_op: self.arp_op & other.arp_op,
            arp_spa: self.arp_spa & other.arp_spa,
            arp_tpa: self.arp_tpa & other.arp_tpa,
            arp_sha: self.arp_sha & other.arp_sha,
            arp_tha: self.arp_tha & other.arp_tha,
            ipv6_src: self.ipv6_src & other.ipv6_src,
            ipv6_dst: self.ipv6_dst & other.ipv6_dst,
            ipv6_flabel: self.ipv6_flabel & other.ipv6_flabel,
            icmpv6_type: self.icmpv6_type & other.icmpv6_type,
            icmpv6_code: self.icmpv6_code & other.icmpv6_code,
        }
    }

    /// The bits that one or both have, place by place.
    pub(crate) fn either(&self, other: &Numbers) -> Numbers
        ensures numbers { numbers_in result ≡ bits_either (numbers_in self.now) (numbers_in other.now) }
        ensures present { result.present ≡ bit_or self.now.present other.now.present }
    {
        Numbers {
            present: self.present | other.present,
            in_port: self.in_port | other.in_port,
            metadata: self.metadata | other.metadata,
            eth_dst: self.eth_dst | other.eth_dst,
            eth_src: self.eth_src | other.eth_src,
            eth_type: self.eth_type | other.eth_type,
            vlan_vid: self.vlan_vid | other.vlan_vid,
            vlan_pcp: self.vlan_pcp | other.vlan_pcp,
            ip_dscp: self.ip_dscp | other.ip_dscp,
            ip_ecn: self.ip_ecn | other.ip_ecn,
            ip_proto: self.ip_proto | other.ip_proto,
            ipv4_src: self.ipv4_src | other.ipv4_src,
            ipv4_dst: self.ipv4_dst | other.ipv4_dst,
            tcp_src: self.tcp_src | other.tcp_src,
            tcp_dst: self.tcp_dst | other.tcp_dst,
            udp_src: self.udp_src | other.udp_src,
            udp_dst: self.udp_dst | other.udp_dst,
            icmpv4_type: self.icmpv4_type | other.icmpv4_type,
            icmpv4_code: self.icmpv4_code | other.icmpv4_code,
            arp_op: self.arp_op | other.arp_op,
            arp_spa: self.arp_spa | other.arp_spa,
            arp_tpa: self.arp_tpa | other.arp_tpa,
            arp_sha: self.arp_sha | other.arp_sha,
            arp_tha: self.arp_tha | other.arp_tha,
            ipv6_src: self.ipv6_src | other.ipv6_src,
            ipv6_dst: self.ipv6_dst | other.ipv6_dst,
            ipv6_flabel: self.ipv6_flabel | other.ipv6_flabel,
            icmpv6_type: self.icmpv6_type | other.icmpv6_type,
            icmpv6_code: self.icmpv6_code | other.icmpv6_code,
        }
    }
}
