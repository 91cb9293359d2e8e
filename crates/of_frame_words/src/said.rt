//! The fields that settings say, and the headers that they ask for.
ghost use Rattle.std.specs.Prelude.{◌≡◌};
ghost use Rattle.of_headers.specs.FieldMap.{value as value_in};
ghost use Rattle.of_layers.specs.Fields.{prerequisite_of};
ghost use Rattle.of_frame_words.specs.Frames.{at_port, shape_of_ipv4_protocol as shape_over_ipv4, shape_of_ipv6_protocol as shape_over_ipv6, set_by, shape_by, tagging_by, why_missed as why_missed_so, word_why_missing as why_missing_so};

use crate::why::Why;
use of_frames::{PRESENT, Shape, Tagging};
use of_headers::{Field, FieldKey, Prerequisite};
use of_oxm::{MatchField, is_met};

// Nothing but the port.
fn key_at(port: u32) -> FieldKey
    ensures { value_in result ≡ at_port port }
{
    FieldKey::empty().with(Field::InPort, u128::from(port))
}

/// The fields that settings say, received at this port unless they say another one.
pub fn key_said(port: u32, settings: &[MatchField]) -> FieldKey
    ensures { value_in result ≡ set_by settings.now (at_port port) }
{
    let mut key = key_at(port);
    for e in settings {
        key.put(e.field, e.value & e.field.row().ones);
    }
    key
}

fn over_ipv4(protocol: u8) -> Shape
    ensures { result ≡ shape_over_ipv4 protocol }
{
    match protocol {
        6 => Shape::Ipv4Tcp,
        17 => Shape::Ipv4Udp,
        1 => Shape::Ipv4Icmp,
        _ => Shape::Ipv4,
    }
}

fn over_ipv6(protocol: u8) -> Shape
    ensures { result ≡ shape_over_ipv6 protocol }
{
    match protocol {
        6 => Shape::Ipv6Tcp,
        17 => Shape::Ipv6Udp,
        58 => Shape::Ipv6Icmp,
        _ => Shape::Ipv6,
    }
}

/// The headers that a type and a protocol ask for.
pub fn shape_of(ethertype: u16, protocol: u8) -> Shape
    ensures { result ≡ shape_by ethertype protocol }
{
    match ethertype {
        0x0806 => Shape::Arp,
        0x0800 => over_ipv4(protocol),
        0x86dd => over_ipv6(protocol),
        _ => Shape::Bare,
    }
}

/// Whether a VLAN_VID asks for a tag.
pub fn tagging_of(vid: u16) -> Tagging
    ensures { result ≡ tagging_by vid }
{
    if vid >= PRESENT {
        Tagging::Tagged
    } else {
        Tagging::Untagged
    }
}

/// Why a field without its prerequisite is refused.
pub fn why_missing(need: Prerequisite) -> of_ovs_words::Why
    ensures { result ≡ why_missing_so need }
{
    match need {
        Prerequisite::Nothing => of_ovs_words::Why::Unknown,
        Prerequisite::Tag => of_ovs_words::Why::NeedsTag,
        Prerequisite::Ip => of_ovs_words::Why::NeedsIp,
        Prerequisite::Ipv4 => of_ovs_words::Why::NeedsIpv4,
        Prerequisite::Ipv6 => of_ovs_words::Why::NeedsIpv6,
        Prerequisite::Arp => of_ovs_words::Why::NeedsArp,
        Prerequisite::Tcp => of_ovs_words::Why::NeedsTcp,
        Prerequisite::Udp => of_ovs_words::Why::NeedsUdp,
        Prerequisite::Icmpv4 => of_ovs_words::Why::NeedsIcmp,
        Prerequisite::Icmpv6 => of_ovs_words::Why::NeedsIcmp6,
    }
}

/// Why a frame does not have a setting.
pub fn why_missed(settings: &[MatchField], e: &MatchField) -> Why
    ensures { result ≡ why_missed_so settings.now e.now }
{
    let need = e.field.row().need;
    if is_met(settings, need) {
        Why::Impossible
    } else {
        Why::Word(why_missing(need))
    }
}
