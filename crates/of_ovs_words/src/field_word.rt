//! The words for match fields (ovs-fields(7)).
ghost use Rattle.std.specs.{Prelude.◌≡◌, Option.option_copied};
ghost use Rattle.of_ovs_words.specs.FieldWords.{field_word_named, is_for_field as is_word_for, text_for as text_of, word_for as written_for};

use crate::keywords::{is_keyword, padded};
use crate::setting::field_for;
use of_layers::Field;
use of_wire::keyword;

/// Which field a word is for.
#[derive(Clone, Copy)]
pub enum Target {
    /// This one.
    Exact(Field),
    /// ARP_OP of ARP, else IP_PROTO.
    Protocol,
    /// ARP_SPA of ARP, else IPV4_SRC.
    NetworkSource,
    /// ARP_TPA of ARP, else IPV4_DST.
    NetworkDestination,
    /// TCP_SRC of TCP, UDP_SRC of UDP.
    TransportSource,
    /// TCP_DST of TCP, UDP_DST of UDP.
    TransportDestination,
    /// The type of ICMP or ICMPv6, else as `TransportSource`.
    SourceOrType,
    /// The code of ICMP or ICMPv6, else as `TransportDestination`.
    DestinationOrCode,
    /// ICMPV6_TYPE of IPv6, else ICMPV4_TYPE.
    IcmpType,
    /// ICMPV6_CODE of IPv6, else ICMPV4_CODE.
    IcmpCode,
}

/// How its value is written.
#[derive(Clone, Copy, PartialEq, Eq)]
pub enum Form {
    /// A number, which a mask may follow.
    Number,
    /// A port: its number, or its name where it is reserved.
    Port,
    /// An Ethernet address.
    Mac,
    /// An IPv4 address; the mask is one too, or a number of bits.
    Ipv4,
    /// An IPv6 address; the mask is one too, or a number of bits.
    Ipv6,
    /// The byte of the IP header that has DSCP in its upper six bits.
    Tos,
    /// A VLAN id, or 0xffff for no tag.
    Vlan,
    /// The two bytes of a VLAN tag, where the bit 0x1000 says that there is one.
    Tci,
}

/// A word for a match field: its text, which spaces fill up, which field it is for, and how its value is written.
#[derive(Clone, Copy)]
pub struct FieldWord {
    pub text: [u8; 20],
    pub target: Target,
    pub form: Form,
}

macro_rules! field {
    ($text:expr, Exact($field:ident), $form:ident) => {
        FieldWord {
            text: padded!($text),
            target: Target::Exact(Field::$field),
            form: Form::$form,
        }
    };
    ($text:expr, $target:ident, $form:ident) => {
        FieldWord {
            text: padded!($text),
            target: Target::$target,
            form: Form::$form,
        }
    };
}

/// Each word once. If several are for one field, the first one is written.
pub const FIELD_WORDS: [FieldWord; 41] = [
    field!(b"in_port", Exact(InPort), Port),
    field!(b"metadata", Exact(Metadata), Number),
    field!(b"dl_src", Exact(EthSrc), Mac),
    field!(b"eth_src", Exact(EthSrc), Mac),
    field!(b"dl_dst", Exact(EthDst), Mac),
    field!(b"eth_dst", Exact(EthDst), Mac),
    field!(b"dl_type", Exact(EthType), Number),
    field!(b"eth_type", Exact(EthType), Number),
    field!(b"dl_vlan", Exact(VlanVid), Vlan),
    field!(b"vlan_vid", Exact(VlanVid), Number),
    field!(b"dl_vlan_pcp", Exact(VlanPcp), Number),
    field!(b"vlan_pcp", Exact(VlanPcp), Number),
    field!(b"vlan_tci", Exact(VlanVid), Tci),
    field!(b"nw_tos", Exact(IpDscp), Tos),
    field!(b"ip_dscp", Exact(IpDscp), Number),
    field!(b"nw_ecn", Exact(IpEcn), Number),
    field!(b"ip_ecn", Exact(IpEcn), Number),
    field!(b"nw_proto", Protocol, Number),
    field!(b"ip_proto", Protocol, Number),
    field!(b"nw_src", NetworkSource, Ipv4),
    field!(b"ip_src", NetworkSource, Ipv4),
    field!(b"nw_dst", NetworkDestination, Ipv4),
    field!(b"ip_dst", NetworkDestination, Ipv4),
    field!(b"tp_src", SourceOrType, Number),
    field!(b"tp_dst", DestinationOrCode, Number),
    field!(b"tcp_src", Exact(TcpSrc), Number),
    field!(b"tcp_dst", Exact(TcpDst), Number),
    field!(b"udp_src", Exact(UdpSrc), Number),
    field!(b"udp_dst", Exact(UdpDst), Number),
    field!(b"icmp_type", IcmpType, Number),
    field!(b"icmp_code", IcmpCode, Number),
    field!(b"icmpv6_type", Exact(Icmpv6Type), Number),
    field!(b"icmpv6_code", Exact(Icmpv6Code), Number),
    field!(b"arp_op", Exact(ArpOp), Number),
    field!(b"arp_spa", Exact(ArpSpa), Ipv4),
    field!(b"arp_tpa", Exact(ArpTpa), Ipv4),
    field!(b"arp_sha", Exact(ArpSha), Mac),
    field!(b"arp_tha", Exact(ArpTha), Mac),
    field!(b"ipv6_src", Exact(Ipv6Src), Ipv6),
    field!(b"ipv6_dst", Exact(Ipv6Dst), Ipv6),
    field!(b"ipv6_label", Exact(Ipv6Flabel), Number),
];

impl FieldWord {
    /// The word of this text.
    #[tactic(auto, unfolding(crate::specs::FieldWords::field_word_named))]
    pub fn named(text: &[u8]) -> Option<FieldWord>
        ensures { result ≡ field_word_named text.now }
    {
        FIELD_WORDS
            .iter()
            .copied()
            .find(|word| is_keyword(&word.text, text))
    }

    // Whether the word is for that field, if no other setting says more.
    fn is_for(&self, field: Field) -> bool
        ensures { result ≡ is_word_for field self.now }
    {
        match field_for(self.target, &[]) {
            Some(exact) => exact.number() == field.number(),
            None => false,
        }
    }
}

// The word that is written for a field.
#[tactic(auto, unfolding(crate::specs::FieldWords::word_for))]
fn word_for(field: Field) -> Option<&'static FieldWord>
    ensures { option_copied result ≡ written_for field }
{
    FIELD_WORDS.iter().find(|word| word.is_for(field))
}

/// The text of the word that is written for a field.
pub fn text_for(field: Field) -> &'static [u8]
    ensures { result.now ≡ text_of field }
{
    match word_for(field) {
        Some(word) => keyword(&word.text),
        None => &[],
    }
}
