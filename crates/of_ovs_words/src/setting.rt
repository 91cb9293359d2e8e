//! The meaning of words for a match.
ghost use Rattle.std.specs.Prelude.{◌≡◌, ◌≤◌, ◌<◌, ◌^◌, IfOk, IfSome, Some, None};
ghost use Rattle.of_layers.specs.Fields.{ones_of};
ghost use Rattle.of_ovs_words.specs.Settings.{by_ethertype as by_type, if_icmp as icmp, if_tcp_or_udp as tcp_or_udp, bits_in as bits_of, field_for as field_of, fitting_in as fitting_of, ipv4_mask_in as ipv4_mask_of, ipv6_mask_in as ipv6_mask_of, last_of, mask_by_form as mask_of, masked as masked_by, number_for as number_of, says as says_of, setting_in as setting_of, setting_under as under_bits, value_in as value_of, vlan_in as vlan_of};

use crate::field_word::{Form, Target};
use crate::ipv6::ipv6_in;
use crate::numbers::number_in;
use crate::port::port_in;
use crate::values::{ipv4_in, mac_in, prefix_mask};
use crate::why::Why;
use of_layers::Field;
use of_lines::{cut, is};
use of_oxm::MatchField;

const ARP: u128 = 0x0806;

const IPV6: u128 = 0x86dd;

/// The last setting of a field.
pub fn last(settings: &[MatchField], field: Field) -> Option<MatchField>
    ensures { result ≡ last_of field settings.now }
{
    settings
        .iter()
        .rev()
        .copied()
        .find(|e| e.field.number() == field.number())
}

/// Whether the settings say that value of a field.
pub fn says(settings: &[MatchField], field: Field, value: u128) -> bool
    ensures { result ≡ says_of field value settings.now }
{
    match last(settings, field) {
        Some(e) => e.value == value,
        None => false,
    }
}

// The field of this ETH_TYPE, or the other.
fn by_ethertype(settings: &[MatchField], ethertype: u128, field: Field, other: Field) -> Field
    ensures { Some result ≡ by_type settings.now ethertype field other }
{
    if says(settings, Field::EthType, ethertype) {
        field
    } else {
        other
    }
}

fn if_tcp_or_udp(settings: &[MatchField], field: Field, other: Field) -> Option<Field>
    ensures { result ≡ tcp_or_udp settings.now field other }
{
    if says(settings, Field::IpProto, 6) {
        Some(field)
    } else if says(settings, Field::IpProto, 17) {
        Some(other)
    } else {
        None
    }
}

fn if_icmp(
    settings: &[MatchField],
    field: Field,
    other: Field,
    rest: Option<Field>,
) -> Option<Field>
    ensures { result ≡ icmp settings.now field other rest }
{
    if says(settings, Field::IpProto, 1) {
        Some(field)
    } else if says(settings, Field::IpProto, 58) {
        Some(other)
    } else {
        rest
    }
}

/// The field that a word is for, after these settings.
#[tactic(auto, unfolding(crate::specs::Settings::field_for))]
pub fn field_for(target: Target, settings: &[MatchField]) -> Option<Field>
    ensures { result ≡ field_of target settings.now }
{
    match target {
        Target::Exact(field) => Some(field),
        Target::Protocol => Some(by_ethertype(settings, ARP, Field::ArpOp, Field::IpProto)),
        Target::NetworkSource => Some(by_ethertype(settings, ARP, Field::ArpSpa, Field::Ipv4Src)),
        Target::NetworkDestination => Some(by_ethertype(
            settings,
            ARP,
            Field::ArpTpa,
            Field::Ipv4Dst,
        )),
        Target::TransportSource => if_tcp_or_udp(settings, Field::TcpSrc, Field::UdpSrc),
        Target::TransportDestination => if_tcp_or_udp(settings, Field::TcpDst, Field::UdpDst),
        Target::SourceOrType => {
            let ports = if_tcp_or_udp(settings, Field::TcpSrc, Field::UdpSrc);
            if_icmp(settings, Field::Icmpv4Type, Field::Icmpv6Type, ports)
        }
        Target::DestinationOrCode => {
            let ports = if_tcp_or_udp(settings, Field::TcpDst, Field::UdpDst);
            if_icmp(settings, Field::Icmpv4Code, Field::Icmpv6Code, ports)
        }
        Target::IcmpType => Some(by_ethertype(
            settings,
            IPV6,
            Field::Icmpv6Type,
            Field::Icmpv4Type,
        )),
        Target::IcmpCode => Some(by_ethertype(
            settings,
            IPV6,
            Field::Icmpv6Code,
            Field::Icmpv4Code,
        )),
    }
}

// A number that fits a field of 64 bits at most.
fn number_for(field: Field, word: &[u8]) -> Option<u128>
    ensures { result ≡ number_of field word.now }
{
    number_in(field.row().ones.min(0xffff_ffff_ffff_ffff) + 1, word)
}

// 0xffff is no tag; else the bit 0x1000 says that there is one.
fn vlan_in(word: &[u8]) -> Option<u128>
    ensures { result ≡ vlan_of word.now }
{
    match number_in(0x1_0000, word)? {
        0xffff => Some(0),
        id if id < 0x1000 => Some(0x1000 + id),
        _ => None,
    }
}

#[tactic(auto, unfolding(crate::specs::Settings::value_in))]
fn value_in(form: Form, field: Field, word: &[u8]) -> Result<u128, Why>
    ensures { result ≡ value_of form field word.now }
{
    match form {
        Form::Number => number_for(field, word).ok_or(Why::Value),
        Form::Port => Ok(u128::from(port_in(Why::PortName, word)?)),
        Form::Mac => mac_in(word).ok_or(Why::Value),
        Form::Ipv4 => ipv4_in(word).ok_or(Why::Value),
        Form::Tos => match number_in(0x100, word) {
            Some(byte) if byte % 4 == 0 => Ok(byte / 4),
            _ => Err(Why::Value),
        },
        Form::Ipv6 => ipv6_in(word).ok_or(Why::Value),
        Form::Vlan => vlan_in(word).ok_or(Why::Value),
        Form::Tci => Err(Why::Value),
    }
}

/// The value of a word for a field, which fits the field.
pub fn fitting_in(form: Form, field: Field, word: &[u8]) -> Result<u128, Why>
    ensures value { result ≡ fitting_of form field word.now }
    ensures fits { IfOk result (λ value. value ≤ ones_of field) }
{
    let value = value_in(form, field, word)?;
    if value <= field.row().ones {
        Ok(value)
    } else {
        Err(Why::Value)
    }
}

// A mask of so many bits.
fn bits_in(field: Field, most: u128, word: &[u8]) -> Option<u128>
    requires { most < 128 }
    ensures { result ≡ bits_of field most word.now }
{
    let bits = number_in(most + 1, word)?;
    Some(prefix_mask(field.row().ones, bits as u32))
}

fn ipv4_mask(field: Field, word: &[u8]) -> Option<u128>
    ensures { result ≡ ipv4_mask_of field word.now }
{
    let (_, dotted) = cut(word, b'.');
    if dotted.is_empty() {
        bits_in(field, 32, word)
    } else {
        ipv4_in(word)
    }
}

fn ipv6_mask(field: Field, word: &[u8]) -> Option<u128>
    ensures { result ≡ ipv6_mask_of field word.now }
{
    let (_, address) = cut(word, b':');
    if !address.is_empty() {
        ipv6_in(word)
    } else if is(word, b"128") {
        Some(field.row().ones)
    } else {
        bits_in(field, 127, word)
    }
}

#[tactic(auto, unfolding(crate::specs::Settings::mask_by_form))]
fn mask_in(form: Form, field: Field, word: &[u8]) -> Option<u128>
    ensures { result ≡ mask_of form field word.now }
{
    match form {
        Form::Number => number_for(field, word),
        Form::Mac => mac_in(word),
        Form::Ipv4 => ipv4_mask(field, word),
        Form::Ipv6 => ipv6_mask(field, word),
        Form::Port | Form::Tos | Form::Vlan | Form::Tci => None,
    }
}

pub fn under(field: Field, value: u128, bits: u128) -> Option<MatchField>
    ensures { result ≡ under_bits field value bits }
{
    if bits == 0 {
        None
    } else if bits == field.row().ones {
        Some(MatchField {
            field,
            value,
            mask: None,
        })
    } else {
        Some(MatchField {
            field,
            value: value & bits,
            mask: Some(bits),
        })
    }
}

/// A value under a mask; none where the mask has no bit of the field.
pub fn masked(field: Field, value: u128, mask: u128) -> Option<MatchField>
    ensures { result ≡ masked_by field value mask }
{
    under(field, value, mask & field.row().ones)
}

/// What a value, and a mask after a slash, say of a field.
#[tactic(auto, unfolding(crate::specs::Settings::setting_in))]
pub fn setting_in(form: Form, field: Field, word: &[u8]) -> Result<Option<MatchField>, Why>
    ensures { result ≡ setting_of form field word.now }
{
    let (value, mask) = cut(word, b'/');
    let value = fitting_in(form, field, value)?;
    if mask.is_empty() {
        return Ok(Some(MatchField {
            field,
            value,
            mask: None,
        }));
    }
    match mask_in(form, field, mask) {
        Some(mask) => Ok(masked(field, value, mask)),
        None => Err(Why::Value),
    }
}
