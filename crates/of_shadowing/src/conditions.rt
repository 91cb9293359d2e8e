//! Match fields of Open vSwitch that OpenFlow 1.3 or this switch does not have (ovs-fields(7)).
ghost use Rattle.std.specs.Prelude.{◌≡◌, ◌==◌, ◌&&◌, ◌||◌, is_some};
ghost use Rattle.std.specs.{List.list_any, Str.bytes_eq};
ghost use Rattle.of_layers.specs.Fields.{number_of};
ghost use Rattle.of_text.specs.Lines.{lines_of};
ghost use Rattle.of_shadowing.specs.Conditions.{has_one_of as has_one_of_so, is_condition as is_condition_so, is_need_met as is_need_met_so, is_row_of, need_of as need_of_so, need_of_value as need_of_value_so, need_of_word, begins_with_digit as begins_with_digit_so, matches_field as has_field_so, has_other_ports as has_other_ports_so, is_arp_field as is_arp_so, is_fragments as is_fragments_so, is_masked as is_masked_so, why_unmet as why_unmet_so};

use of_layers::{Field, Prerequisite};
use of_ovs_words::{Why, name_of, value_of};
use of_oxm::{MatchField, is_met};
use of_text::{cut, is};

/// Fields that any match may have, a name in each line: registers, connection tracking, tunnels and the like.
const OF_ANY: [u8; 1385] = *b"\
    reg0\nreg1\nreg2\nreg3\nreg4\nreg5\nreg6\nreg7\nreg8\nreg9\nreg10\nreg11\nreg12\nreg13\nreg14\nreg15\nct_state\nct_zone\nct_mark\nct_label\n\
    ct_nw_src\nct_nw_dst\nct_nw_proto\nct_tp_src\nct_tp_dst\nct_ipv6_src\nct_ipv6_dst\ntun_id\ntun_src\ntun_dst\ntun_ipv6_src\ntun_ipv6_dst\n\
    tun_flags\ntun_gbp_id\ntun_gbp_flags\ntun_metadata0\ntun_metadata1\ntun_metadata2\ntun_metadata3\ntun_metadata4\ntun_metadata5\ntun_metadata6\n\
    tun_metadata7\ntun_metadata8\ntun_metadata9\ntun_metadata10\ntun_metadata11\ntun_metadata12\ntun_metadata13\ntun_metadata14\ntun_metadata15\n\
    tun_metadata16\ntun_metadata17\ntun_metadata18\ntun_metadata19\ntun_metadata20\ntun_metadata21\ntun_metadata22\ntun_metadata23\ntun_metadata24\n\
    tun_metadata25\ntun_metadata26\ntun_metadata27\ntun_metadata28\ntun_metadata29\ntun_metadata30\ntun_metadata31\ntun_metadata32\ntun_metadata33\n\
    tun_metadata34\ntun_metadata35\ntun_metadata36\ntun_metadata37\ntun_metadata38\ntun_metadata39\ntun_metadata40\ntun_metadata41\ntun_metadata42\n\
    tun_metadata43\ntun_metadata44\ntun_metadata45\ntun_metadata46\ntun_metadata47\ntun_metadata48\ntun_metadata49\ntun_metadata50\ntun_metadata51\n\
    tun_metadata52\ntun_metadata53\ntun_metadata54\ntun_metadata55\ntun_metadata56\ntun_metadata57\ntun_metadata58\ntun_metadata59\ntun_metadata60\n\
    tun_metadata61\ntun_metadata62\ntun_metadata63\npkt_mark\nconj_id\nrecirc_id\ndp_hash\nactset_output\nskb_priority\n\
    tun_erspan_ver\ntun_erspan_idx\ntun_erspan_dir\ntun_erspan_hwid\ntun_gtpu_flags\ntun_gtpu_msgtype\n";

/// Those of a network service header.
const OF_NSH: [u8; 79] =
    *b"nsh_flags\nnsh_ttl\nnsh_mdtype\nnsh_np\nnsh_spi\nnsh_si\nnsh_c1\nnsh_c2\nnsh_c3\nnsh_c4\n";

/// Those of ARP, which Open vSwitch has for RARP, too.
const OF_ARP: [u8; 39] = *b"arp_op\narp_spa\narp_tpa\narp_sha\narp_tha\n";

/// What has to be in a match beside a field. ovs-ofctl takes a field out of a match that does not have it.
#[derive(Clone, Copy)]
pub enum Need {
    Nothing,
    /// No ingress port beside a port by its name.
    NoPort,
    /// TCP or UDP, and no other word for the port.
    NoSource,
    NoDestination,
    /// IPv4 or IPv6.
    Ip,
    Tcp,
    Sctp,
    Mpls,
    Nsh,
    /// A neighbor solicitation or advertisement.
    Neighbor,
    Solicitation,
    Advertisement,
}

// Whether a name is one of the rows.
fn is_row(rows: &[u8], name: &[u8]) -> bool
    ensures { result ≡ is_row_of (lines_of rows.now) name.now }
{
    let mut rest = rows;
    while !rest.is_empty() {
        let (row, after) = cut(rest, b'\n');
        rest = after;
        if is(row, name) {
            return true;
        }
    }
    false
}

/// Whether it is the name of a field of ARP.
pub fn is_arp_field(name: &[u8]) -> bool
    ensures { result ≡ is_arp_so name.now }
{
    is_row(&OF_ARP, name)
}

/// Whether it is one of the two names of the field of fragments.
pub fn is_fragments(name: &[u8]) -> bool
    ensures { result ≡ is_fragments_so name.now }
{
    is(name, b"nw_frag") || is(name, b"ip_frag")
}

// What has to be beside the field of this name, if it is one of these fields.
#[tactic(auto, unfolding(crate::specs::Conditions::need_of))]
fn need_of_name(name: &[u8]) -> Option<Need>
    ensures { result ≡ need_of_so name.now }
{
    if is_row(&OF_ANY, name) {
        Some(Need::Nothing)
    } else if is(name, b"nw_ttl") || is_fragments(name) {
        Some(Need::Ip)
    } else if is(name, b"tcp_flags") {
        Some(Need::Tcp)
    } else if is(name, b"sctp_src") || is(name, b"sctp_dst") {
        Some(Need::Sctp)
    } else if is(name, b"mpls_label")
        || is(name, b"mpls_tc")
        || is(name, b"mpls_bos")
        || is(name, b"mpls_ttl")
    {
        Some(Need::Mpls)
    } else if is_row(&OF_NSH, name) {
        Some(Need::Nsh)
    } else if is(name, b"nd_target") {
        Some(Need::Neighbor)
    } else if is(name, b"nd_sll") {
        Some(Need::Solicitation)
    } else if is(name, b"nd_tll") {
        Some(Need::Advertisement)
    } else {
        None
    }
}

fn begins_with_digit(value: &[u8]) -> bool
    ensures { result ≡ begins_with_digit_so value.now }
{
    match value {
        [] => true,
        [first, ..] => b'0' <= *first && *first <= b'9',
    }
}

fn is_masked(value: &[u8]) -> bool
    ensures { result ≡ is_masked_so value.now }
{
    let (_, mask) = cut(value, b'/');
    !mask.is_empty()
}

// The same for a word: ports by their names and masks that OpenFlow 1.3 does not have are such fields, too.
#[tactic(auto, unfolding(crate::specs::Conditions::need_of_value))]
fn need_of_value(name: &[u8], value: &[u8]) -> Option<Need>
    ensures { result ≡ need_of_value_so name.now value.now }
{
    if is(name, b"in_port") && !begins_with_digit(value) {
        Some(Need::NoPort)
    } else if is(name, b"tp_src") && is_masked(value) {
        Some(Need::NoSource)
    } else if is(name, b"tp_dst") && is_masked(value) {
        Some(Need::NoDestination)
    } else {
        need_of_name(name)
    }
}

/// What has to be beside a word in a match, if it is a condition of its own.
pub fn need_of(word: &[u8]) -> Option<Need>
    ensures { result ≡ need_of_word word.now }
{
    need_of_value(name_of(word), value_of(word))
}

/// Whether a word is a condition of its own.
pub fn is_condition(word: &[u8]) -> bool
    ensures { result ≡ is_condition_so word.now }
{
    need_of(word).is_some()
}

fn has_one_of(fields: &[MatchField], field: Field, first: u128, second: u128) -> bool
    ensures { result ≡ has_one_of_so fields.now field first second }
{
    let number = field.number();
    fields.iter().any(|e| e.field.number() == number && (e.value == first || e.value == second))
}

fn matches_field(fields: &[MatchField], field: Field) -> bool
    ensures { result ≡ has_field_so fields.now field }
{
    let number = field.number();
    fields.iter().any(|e| e.field.number() == number)
}

// Whether a match is of TCP or UDP, and has no port in these fields.
fn has_other_ports(fields: &[MatchField], field: Field, other: Field) -> bool
    ensures { result ≡ has_other_ports_so fields.now field other }
{
    has_one_of(fields, Field::IpProto, 6, 17)
        && !(matches_field(fields, field) || matches_field(fields, other))
}

/// Whether a match has what a field needs.
pub fn is_need_met(fields: &[MatchField], need: Need) -> bool
    ensures { result ≡ is_need_met_so fields.now need }
{
    match need {
        Need::Nothing => true,
        Need::NoPort => !matches_field(fields, Field::InPort),
        Need::NoSource => has_other_ports(fields, Field::TcpSrc, Field::UdpSrc),
        Need::NoDestination => has_other_ports(fields, Field::TcpDst, Field::UdpDst),
        Need::Ip => is_met(fields, Prerequisite::Ip),
        Need::Tcp => is_met(fields, Prerequisite::Tcp),
        Need::Sctp => has_one_of(fields, Field::IpProto, 132, 132),
        Need::Mpls => has_one_of(fields, Field::EthType, 0x8847, 0x8848),
        Need::Nsh => has_one_of(fields, Field::EthType, 0x894f, 0x894f),
        Need::Neighbor => has_one_of(fields, Field::Icmpv6Type, 135, 136),
        Need::Solicitation => has_one_of(fields, Field::Icmpv6Type, 135, 135),
        Need::Advertisement => has_one_of(fields, Field::Icmpv6Type, 136, 136),
    }
}

/// Why a field is refused without what it needs.
pub fn why_unmet(need: Need) -> Why
    ensures { result ≡ why_unmet_so need }
{
    match need {
        Need::NoPort => Why::PortName,
        Need::NoSource | Need::NoDestination => Why::Value,
        Need::Ip => Why::NeedsIp,
        Need::Tcp => Why::NeedsTcp,
        Need::Neighbor | Need::Solicitation | Need::Advertisement => Why::NeedsIcmp6,
        Need::Nothing | Need::Sctp | Need::Mpls | Need::Nsh => Why::Unknown,
    }
}
