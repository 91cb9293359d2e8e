//! The prerequisites of fields, elsewhere in a match.

ghost use Rattle.std.specs.Prelude.{◌≡◌};
ghost use Rattle.of_oxm.specs.Prerequisites.{has, is_met as need_is_met, prerequisites_met as needs_are_met};

use crate::match_field::MatchField;
use of_layers::{Field, Prerequisite};

fn holds(fields: &[MatchField], field: Field, value: u128) -> bool
    ensures { result ≡ has fields.now field value }
{
    let number = field.number();
    fields
        .iter()
        .any(|e| e.field.number() == number && e.value == value)
}

fn is_tagged(fields: &[MatchField]) -> bool
    ensures { result ≡ need_is_met fields.now Prerequisite.Tag }
{
    let number = Field::VlanVid.number();
    fields
        .iter()
        .any(|e| e.field.number() == number && !(e.value == 0))
}

/// Whether a prerequisite is in a match (OpenFlow 1.3.5, 7.2.3.6).
pub fn is_met(fields: &[MatchField], need: Prerequisite) -> bool
    ensures { result ≡ need_is_met fields.now need }
{
    match need {
        Prerequisite::Nothing => true,
        Prerequisite::Tag => is_tagged(fields),
        Prerequisite::Ip => holds(fields, Field::EthType, 0x0800)
            || holds(fields, Field::EthType, 0x86dd),
        Prerequisite::Ipv4 => holds(fields, Field::EthType, 0x0800),
        Prerequisite::Ipv6 => holds(fields, Field::EthType, 0x86dd),
        Prerequisite::Arp => holds(fields, Field::EthType, 0x0806),
        Prerequisite::Tcp => holds(fields, Field::IpProto, 6),
        Prerequisite::Udp => holds(fields, Field::IpProto, 17),
        Prerequisite::Icmpv4 => holds(fields, Field::EthType, 0x0800)
            && holds(fields, Field::IpProto, 1),
        Prerequisite::Icmpv6 => holds(fields, Field::EthType, 0x86dd)
            && holds(fields, Field::IpProto, 58),
    }
}

/// Whether the prerequisites of all the fields are among them (OpenFlow 1.3.5, 7.2.3.6).
#[tactic(auto, unfolding(crate::specs::Prerequisites::prerequisites_met))]
pub fn prerequisites_met(fields: &[MatchField]) -> bool
    ensures { result ≡ needs_are_met fields.now }
{
    fields.iter().all(|e| is_met(fields, e.field.row().need))
}
