//! How values of fields are written.
ghost use Rattle.std.specs.Prelude.{◌≡◌};
ghost use Rattle.of_values.specs.Values.{form_of as form_in};

use of_layers::Field;

/// How a value of a field is written.
#[derive(Clone, Copy, PartialEq, Eq)]
pub enum Form {
    /// In decimal.
    Number,
    /// In hexadecimal, with at least so many digits.
    Hexadecimal(u32),
    /// A port, of which the reserved ones have names (OpenFlow 1.3.5, 7.2.1).
    Port,
    /// The number of a VLAN, or whether there is a tag (OpenFlow 1.3.5, 7.2.3.7).
    Vlan,
    Ethernet,
    Ipv4,
    Ipv6,
}

/// The form of a field's values.
#[tactic(auto, unfolding(crate::specs::Values::form_of))]
pub fn form_of(field: Field) -> Form
    ensures { result ≡ form_in field }
{
    match field {
        Field::InPort => Form::Port,
        Field::Metadata => Form::Hexadecimal(1),
        Field::EthType => Form::Hexadecimal(4),
        Field::Ipv6Flabel => Form::Hexadecimal(5),
        Field::VlanVid => Form::Vlan,
        Field::EthDst | Field::EthSrc | Field::ArpSha | Field::ArpTha => Form::Ethernet,
        Field::Ipv4Src | Field::Ipv4Dst | Field::ArpSpa | Field::ArpTpa => Form::Ipv4,
        Field::Ipv6Src | Field::Ipv6Dst => Form::Ipv6,
        Field::VlanPcp
        | Field::IpDscp
        | Field::IpEcn
        | Field::IpProto
        | Field::TcpSrc
        | Field::TcpDst
        | Field::UdpSrc
        | Field::UdpDst
        | Field::Icmpv4Type
        | Field::Icmpv4Code
        | Field::ArpOp
        | Field::Icmpv6Type
        | Field::Icmpv6Code => Form::Number,
    }
}
