//! Which headers a frame has, and what this says about its fields.
ghost use Rattle.std.specs.Prelude.{◌≡◌};
ghost use Rattle.of_frames.specs.Rules.{has_header, is_arp_shape as has_arp, is_icmpv4 as has_icmpv4, is_icmpv6 as has_icmpv6, is_ipv4_shape as has_ipv4, is_ipv6_shape as has_ipv6, is_tcp as has_tcp, is_udp_shape as has_udp, of_shape, of_tagging, protocol_of, shape_type, valued as valued_at};

use of_headers::Field;
use of_layers::Prerequisite;

/// The headers of a frame behind its type.
#[derive(Clone, Copy, PartialEq, Eq)]
pub enum Shape {
    /// No header that OpenFlow knows.
    Bare,
    Arp,
    /// IPv4, and no header of those below that is whole.
    Ipv4,
    Ipv4Tcp,
    Ipv4Udp,
    Ipv4Icmp,
    Ipv6,
    Ipv6Tcp,
    Ipv6Udp,
    Ipv6Icmp,
}

/// Whether a frame has a VLAN tag.
#[derive(Clone, Copy, PartialEq, Eq)]
pub enum Tagging {
    Untagged,
    Tagged,
}

/// What is known about a field.
#[derive(Clone, Copy)]
pub enum Rule {
    /// Nothing.
    Free,
    /// The frame lacks it.
    Absent,
    /// It is there; under a mask it has these bits.
    Under(u128, u128),
}

/// OFPVID_PRESENT: the bit of VLAN_VID that says that there is a tag (OpenFlow 1.3.5, 7.2.3.7).
pub const PRESENT: u16 = 0x1000;

impl Shape {
    fn is_ipv4(self) -> bool
        ensures { result ≡ has_ipv4 self }
    {
        matches!(
            self,
            Shape::Ipv4 | Shape::Ipv4Tcp | Shape::Ipv4Udp | Shape::Ipv4Icmp
        )
    }

    fn is_ipv6(self) -> bool
        ensures { result ≡ has_ipv6 self }
    {
        matches!(
            self,
            Shape::Ipv6 | Shape::Ipv6Tcp | Shape::Ipv6Udp | Shape::Ipv6Icmp
        )
    }

    // Whether the header is there that a prerequisite names.
    fn has(self, need: Prerequisite) -> bool
        ensures { result ≡ has_header self need }
    {
        match need {
            Prerequisite::Nothing => true,
            Prerequisite::Tag => false,
            Prerequisite::Ip => self.is_ipv4() || self.is_ipv6(),
            Prerequisite::Ipv4 => self.is_ipv4(),
            Prerequisite::Ipv6 => self.is_ipv6(),
            Prerequisite::Arp => matches!(self, Shape::Arp),
            Prerequisite::Tcp => matches!(self, Shape::Ipv4Tcp | Shape::Ipv6Tcp),
            Prerequisite::Udp => matches!(self, Shape::Ipv4Udp | Shape::Ipv6Udp),
            Prerequisite::Icmpv4 => matches!(self, Shape::Ipv4Icmp),
            Prerequisite::Icmpv6 => matches!(self, Shape::Ipv6Icmp),
        }
    }

    // The type, if a header follows it.
    fn ethernet(self) -> Option<u128>
        ensures { result ≡ shape_type self }
    {
        match self {
            Shape::Bare => None,
            Shape::Arp => Some(0x0806),
            Shape::Ipv4 | Shape::Ipv4Tcp | Shape::Ipv4Udp | Shape::Ipv4Icmp => Some(0x0800),
            Shape::Ipv6 | Shape::Ipv6Tcp | Shape::Ipv6Udp | Shape::Ipv6Icmp => Some(0x86dd),
        }
    }

    // The protocol, if a header follows it.
    fn protocol(self) -> Option<u128>
        ensures { result ≡ protocol_of self }
    {
        match self {
            Shape::Ipv4Tcp | Shape::Ipv6Tcp => Some(6),
            Shape::Ipv4Udp | Shape::Ipv6Udp => Some(17),
            Shape::Ipv4Icmp => Some(1),
            Shape::Ipv6Icmp => Some(58),
            Shape::Bare | Shape::Arp | Shape::Ipv4 | Shape::Ipv6 => None,
        }
    }

    /// What this says about a field.
    pub fn rule(self, field: Field) -> Rule
        ensures { result ≡ of_shape self field }
    {
        match field {
            Field::VlanVid | Field::VlanPcp => Rule::Free,
            Field::EthType => valued(field, self.ethernet()),
            Field::IpProto => {
                if self.has(Prerequisite::Ip) {
                    return valued(field, self.protocol());
                }
                Rule::Absent
            }
            _ => {
                if self.has(field.row().need) {
                    return Rule::Under(0, 0);
                }
                Rule::Absent
            }
        }
    }
}

// It has this value, if one is said.
fn valued(field: Field, value: Option<u128>) -> Rule
    ensures { result ≡ valued_at field value }
{
    match value {
        None => Rule::Under(0, 0),
        Some(value) => Rule::Under(field.row().ones, value),
    }
}

impl Tagging {
    /// What this says about a field.
    pub fn rule(self, field: Field) -> Rule
        ensures { result ≡ of_tagging self field }
    {
        match (self, field) {
            (Tagging::Untagged, Field::VlanVid) => Rule::Under(0x1fff, 0),
            (Tagging::Untagged, Field::VlanPcp) => Rule::Absent,
            (Tagging::Tagged, Field::VlanVid) => Rule::Under(0x1000, 0x1000),
            (Tagging::Tagged, Field::VlanPcp) => Rule::Under(0, 0),
            _ => Rule::Free,
        }
    }
}
