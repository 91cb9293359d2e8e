//! The match fields of OpenFlow 1.3.5 and their table (7.2.3.7).

ghost use Rattle.std.specs.Prelude.{◌≡◌, ◌≤◌, ◌<◌};
ghost use Rattle.of_layers.specs.Fields.{name_of, row_of, number_of, field_at};

/// The prerequisite of a field, elsewhere in its match (OpenFlow 1.3.5, 7.2.3.6).
#[derive(Clone, Copy, PartialEq, Eq)]
pub enum Prerequisite {
    Nothing,
    /// A VLAN_VID other than 0, which says that there is no tag.
    Tag,
    /// ETH_TYPE 0x0800 or 0x86dd.
    Ip,
    /// ETH_TYPE 0x0800.
    Ipv4,
    /// ETH_TYPE 0x86dd.
    Ipv6,
    /// ETH_TYPE 0x0806.
    Arp,
    /// IP_PROTO 6.
    Tcp,
    /// IP_PROTO 17.
    Udp,
    /// ETH_TYPE 0x0800 and IP_PROTO 1.
    Icmpv4,
    /// ETH_TYPE 0x86dd and IP_PROTO 58.
    Icmpv6,
}

/// A field that a match can name, with its number in the class `OFPXMC_OPENFLOW_BASIC` (OpenFlow 1.3.5, 7.2.3.7).
#[derive(Clone, Copy, Debug, PartialEq, Eq)]
pub enum Field {
    InPort = 0,
    Metadata = 2,
    EthDst = 3,
    EthSrc = 4,
    EthType = 5,
    VlanVid = 6,
    VlanPcp = 7,
    IpDscp = 8,
    IpEcn = 9,
    IpProto = 10,
    Ipv4Src = 11,
    Ipv4Dst = 12,
    TcpSrc = 13,
    TcpDst = 14,
    UdpSrc = 15,
    UdpDst = 16,
    Icmpv4Type = 19,
    Icmpv4Code = 20,
    ArpOp = 21,
    ArpSpa = 22,
    ArpTpa = 23,
    ArpSha = 24,
    ArpTha = 25,
    Ipv6Src = 26,
    Ipv6Dst = 27,
    Ipv6Flabel = 28,
    Icmpv6Type = 29,
    Icmpv6Code = 30,
}

/// What the table of fields says of one field (OpenFlow 1.3.5, 7.2.3.7).
#[derive(Clone, Copy)]
pub struct FieldRow {
    /// Its number in the class `OFPXMC_OPENFLOW_BASIC`.
    pub number: u8,
    /// How many bits a value has.
    pub bits: u32,
    /// How many bytes a value has on the wire.
    pub bytes: usize,
    /// The largest value: a one in each bit.
    pub ones: u128,
    /// Whether a mask may follow its value.
    pub maskable: bool,
    /// Whether a set-field action may set it.
    pub settable: bool,
    pub need: Prerequisite,
}

fn make_row(
    number: u8,
    bits: u32,
    bytes: usize,
    ones: u128,
    maskable: bool,
    settable: bool,
    need: Prerequisite,
) -> FieldRow
    ensures { result ≡ record { number = number; bits = bits; bytes = bytes; ones = ones; maskable = maskable; settable = settable; need = need } }
{
    FieldRow {
        number,
        bits,
        bytes,
        ones,
        maskable,
        settable,
        need,
    }
}

impl Field {
    /// Each field once, in the order of their numbers.
    pub const ALL: [Field; 28] = [
        Field::InPort,
        Field::Metadata,
        Field::EthDst,
        Field::EthSrc,
        Field::EthType,
        Field::VlanVid,
        Field::VlanPcp,
        Field::IpDscp,
        Field::IpEcn,
        Field::IpProto,
        Field::Ipv4Src,
        Field::Ipv4Dst,
        Field::TcpSrc,
        Field::TcpDst,
        Field::UdpSrc,
        Field::UdpDst,
        Field::Icmpv4Type,
        Field::Icmpv4Code,
        Field::ArpOp,
        Field::ArpSpa,
        Field::ArpTpa,
        Field::ArpSha,
        Field::ArpTha,
        Field::Ipv6Src,
        Field::Ipv6Dst,
        Field::Ipv6Flabel,
        Field::Icmpv6Type,
        Field::Icmpv6Code,
    ];

    /// The field's number in the class `OFPXMC_OPENFLOW_BASIC`.
    #[tactic(auto, unfolding(crate::specs::Fields::row_of))]
    pub fn number(self) -> u8
        ensures { result ≡ number_of self }
    {
        self as u8
    }

    /// The field's row of the table.
    #[tactic(auto, unfolding(crate::specs::Fields::row_of))]
    pub fn row(self) -> FieldRow
        ensures row { result ≡ row_of self }
        ensures some { 1 ≤ result.bytes }
        ensures most { result.bytes ≤ 16 }
        ensures low { result.number < 31 }
    {
        let number = self.number();
        match self {
            Field::InPort => make_row(
                number,
                32,
                4,
                0xffffffff,
                false,
                false,
                Prerequisite::Nothing,
            ),
            Field::Metadata => make_row(
                number,
                64,
                8,
                0xffffffffffffffff,
                true,
                false,
                Prerequisite::Nothing,
            ),
            Field::EthDst => make_row(
                number,
                48,
                6,
                0xffffffffffff,
                true,
                true,
                Prerequisite::Nothing,
            ),
            Field::EthSrc => make_row(
                number,
                48,
                6,
                0xffffffffffff,
                true,
                true,
                Prerequisite::Nothing,
            ),
            Field::EthType => make_row(number, 16, 2, 0xffff, false, false, Prerequisite::Nothing),
            Field::VlanVid => make_row(number, 13, 2, 0x1fff, true, true, Prerequisite::Nothing),
            Field::VlanPcp => make_row(number, 3, 1, 0x7, false, true, Prerequisite::Tag),
            Field::IpDscp => make_row(number, 6, 1, 0x3f, false, true, Prerequisite::Ip),
            Field::IpEcn => make_row(number, 2, 1, 0x3, false, true, Prerequisite::Ip),
            Field::IpProto => make_row(number, 8, 1, 0xff, false, false, Prerequisite::Ip),
            Field::Ipv4Src => make_row(number, 32, 4, 0xffffffff, true, true, Prerequisite::Ipv4),
            Field::Ipv4Dst => make_row(number, 32, 4, 0xffffffff, true, true, Prerequisite::Ipv4),
            Field::TcpSrc => make_row(number, 16, 2, 0xffff, false, true, Prerequisite::Tcp),
            Field::TcpDst => make_row(number, 16, 2, 0xffff, false, true, Prerequisite::Tcp),
            Field::UdpSrc => make_row(number, 16, 2, 0xffff, false, true, Prerequisite::Udp),
            Field::UdpDst => make_row(number, 16, 2, 0xffff, false, true, Prerequisite::Udp),
            Field::Icmpv4Type => make_row(number, 8, 1, 0xff, false, true, Prerequisite::Icmpv4),
            Field::Icmpv4Code => make_row(number, 8, 1, 0xff, false, true, Prerequisite::Icmpv4),
            Field::ArpOp => make_row(number, 16, 2, 0xffff, false, true, Prerequisite::Arp),
            Field::ArpSpa => make_row(number, 32, 4, 0xffffffff, true, true, Prerequisite::Arp),
            Field::ArpTpa => make_row(number, 32, 4, 0xffffffff, true, true, Prerequisite::Arp),
            Field::ArpSha => make_row(number, 48, 6, 0xffffffffffff, true, true, Prerequisite::Arp),
            Field::ArpTha => make_row(number, 48, 6, 0xffffffffffff, true, true, Prerequisite::Arp),
            Field::Ipv6Src => make_row(
                number,
                128,
                16,
                0xffffffffffffffffffffffffffffffff,
                true,
                true,
                Prerequisite::Ipv6,
            ),
            Field::Ipv6Dst => make_row(
                number,
                128,
                16,
                0xffffffffffffffffffffffffffffffff,
                true,
                true,
                Prerequisite::Ipv6,
            ),
            Field::Ipv6Flabel => make_row(number, 20, 4, 0xfffff, true, true, Prerequisite::Ipv6),
            Field::Icmpv6Type => make_row(number, 8, 1, 0xff, false, true, Prerequisite::Icmpv6),
            Field::Icmpv6Code => make_row(number, 8, 1, 0xff, false, true, Prerequisite::Icmpv6),
        }
    }

    /// The field's name, in lower case.
    #[tactic(auto, unfolding(crate::specs::Fields::name_of))]
    pub fn name(self) -> &'static [u8]
        ensures { result.now ≡ name_of self }
    {
        match self {
            Field::InPort => b"in_port",
            Field::Metadata => b"metadata",
            Field::EthDst => b"eth_dst",
            Field::EthSrc => b"eth_src",
            Field::EthType => b"eth_type",
            Field::VlanVid => b"vlan_vid",
            Field::VlanPcp => b"vlan_pcp",
            Field::IpDscp => b"ip_dscp",
            Field::IpEcn => b"ip_ecn",
            Field::IpProto => b"ip_proto",
            Field::Ipv4Src => b"ipv4_src",
            Field::Ipv4Dst => b"ipv4_dst",
            Field::TcpSrc => b"tcp_src",
            Field::TcpDst => b"tcp_dst",
            Field::UdpSrc => b"udp_src",
            Field::UdpDst => b"udp_dst",
            Field::Icmpv4Type => b"icmpv4_type",
            Field::Icmpv4Code => b"icmpv4_code",
            Field::ArpOp => b"arp_op",
            Field::ArpSpa => b"arp_spa",
            Field::ArpTpa => b"arp_tpa",
            Field::ArpSha => b"arp_sha",
            Field::ArpTha => b"arp_tha",
            Field::Ipv6Src => b"ipv6_src",
            Field::Ipv6Dst => b"ipv6_dst",
            Field::Ipv6Flabel => b"ipv6_flabel",
            Field::Icmpv6Type => b"icmpv6_type",
            Field::Icmpv6Code => b"icmpv6_code",
        }
    }

    /// The field of a number on the wire, or `None` where no field that is known has it.
    #[tactic(auto, unfolding(crate::specs::Fields::field_at))]
    pub fn from_number(number: u8) -> Option<Field>
        ensures { result ≡ field_at number }
    {
        Field::ALL.iter().copied().find(|f| f.number() == number)
    }
}
