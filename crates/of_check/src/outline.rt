//! A few fields of a match, by which most pairs of entries are told apart.
ghost use Rattle.std.specs.Prelude.{◌≡◌, ◌<◌, IfOk};
ghost use Rattle.of_oxm.specs.Masks.{first_at};
ghost use Rattle.of_table.specs.{Entries.entry_of, Tables.table_at};
ghost use Rattle.of_check.specs.Outlines.{outline_of, outlines_agree, outlines_of as outlines_in, part_of, parts_agree};

use of_classifier::Lookup;
use of_layers::Field;
use of_oxm::{MatchField, bits_of};
use of_switch::Switch;
use of_table::Entry;
use std::alloc::{AllocError, Global};

/// The value of a field of a match, and its bits that are compared: none if the match does not have the field.
#[derive(Clone, Copy)]
pub struct Part {
    pub value: u128,
    pub bits: u128,
}

/// The priority of an entry, and the fields in which matches differ most often, those first that tell the most apart.
///
/// All fields of two matches are compared only if their outlines agree, since that takes much longer (OpenFlow 1.3.5, 7.2.3, for the fields).
#[derive(Clone, Copy)]
pub struct Outline {
    pub priority: u16,
    pub ipv4_dst: Part,
    pub ipv4_src: Part,
    pub tcp_dst: Part,
    pub udp_dst: Part,
    pub ip_proto: Part,
    pub eth_dst: Part,
    pub ipv6_dst: Part,
    pub vlan_vid: Part,
    pub in_port: Part,
}

fn first(fields: &[MatchField], field: Field) -> Option<MatchField>
    ensures { result ≡ first_at fields.now field }
{
    fields
        .iter()
        .copied()
        .find(|e| e.field.number() == field.number())
}

fn part_at(fields: &[MatchField], field: Field) -> Part
    ensures { result ≡ part_of (first_at fields.now field) }
{
    match first(fields, field) {
        None => Part { value: 0, bits: 0 },
        Some(e) => Part {
            value: e.value,
            bits: bits_of(&e),
        },
    }
}

/// The outline of an entry.
pub fn outlined(entry: &Entry) -> Outline
    ensures { result ≡ outline_of (entry_of entry.now) }
{
    let fields = entry.flow.fields.fields();
    Outline {
        priority: entry.flow.priority,
        ipv4_dst: part_at(fields, Field::Ipv4Dst),
        ipv4_src: part_at(fields, Field::Ipv4Src),
        tcp_dst: part_at(fields, Field::TcpDst),
        udp_dst: part_at(fields, Field::UdpDst),
        ip_proto: part_at(fields, Field::IpProto),
        eth_dst: part_at(fields, Field::EthDst),
        ipv6_dst: part_at(fields, Field::Ipv6Dst),
        vlan_vid: part_at(fields, Field::VlanVid),
        in_port: part_at(fields, Field::InPort),
    }
}

/// The outlines of the entries of a table, oldest first.
pub fn outlines_of<L: Lookup>(
    alloc: Global,
    switch: &Switch<L>,
    table: u8,
) -> Result<Vec<Outline>, AllocError>
    requires { table < 16 }
    ensures { IfOk result (λ outlines. outlines.items ≡ outlines_in (table_at table switch.now.core.forwarding.tables).flows) }
{
    let mut outlines = Vec::new(alloc);
    for entry in switch.datapath().entries(table) {
        outlines.push(outlined(entry))?;
    }
    Ok(outlines)
}

fn agree(a: &Part, b: &Part) -> bool
    ensures { result ≡ parts_agree a.now b.now }
{
    b.value & a.bits == a.value & b.bits
}

/// Whether two outlines have the same bits wherever both look. If not, no packet has both matches.
pub fn may_overlap(a: &Outline, b: &Outline) -> bool
    ensures { result ≡ outlines_agree a.now b.now }
{
    agree(&a.ipv4_dst, &b.ipv4_dst)
        && agree(&a.ipv4_src, &b.ipv4_src)
        && agree(&a.tcp_dst, &b.tcp_dst)
        && agree(&a.udp_dst, &b.udp_dst)
        && agree(&a.ip_proto, &b.ip_proto)
        && agree(&a.eth_dst, &b.eth_dst)
        && agree(&a.ipv6_dst, &b.ipv6_dst)
        && agree(&a.vlan_vid, &b.vlan_vid)
        && agree(&a.in_port, &b.in_port)
}
