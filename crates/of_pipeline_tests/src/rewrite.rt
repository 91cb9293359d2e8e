use crate::checks::same;
use crate::keys::value_of;
use crate::rewrite::steps::{Row, Step, frame_of, play_all};
use of_layers::Field;
use of_rewrite::{Frame, Ttl};
use of_test_peers::rows::{bytes_of, number_of, sides};
use std::alloc::Global;
use std::process::Abort;
use std::test::Fail;

mod ip;
mod kept;
mod rows;
mod steps;

/// A frame of a type that is not read, with a customer tag of PCP 5, DEI 1 and VID 5 (IEEE 802.1Q, 9.3).
const TAGGED: &[u8] = &[
    2, 0, 0, 0, 0, 2, 2, 0, 0, 0, 0, 1, 0x81, 0x00, 0xb0, 0x05, 0x88, 0xb5, 1, 2,
];

const UNTAGGED: &[u8] = &[2, 0, 0, 0, 0, 2, 2, 0, 0, 0, 0, 1, 0x88, 0xb5, 1, 2];

const TAGS: &[Row] = &[
    ("push of a service tag", Step::Push(0x88a8)),
    (
        "it has the VID of the tag behind it",
        Step::Ends(&[
            0x88, 0xa8, 0xa0, 0x05, 0x81, 0x00, 0xb0, 0x05, 0x88, 0xb5, 1, 2,
        ]),
    ),
    ("pop of it", Step::Pop),
    ("one tag is left", Step::Is(TAGGED)),
    ("pop of that", Step::Pop),
    ("four bytes less", Step::Length(16)),
    ("no tag is left", Step::Is(UNTAGGED)),
    ("push of a customer tag", Step::Push(0x8100)),
    (
        "it has the VID 0",
        Step::Ends(&[0x81, 0x00, 0, 0, 0x88, 0xb5, 1, 2]),
    ),
];

const TAG_FIELDS: &[Row] = &[
    ("set VLAN_VID", Step::Set(Field::VlanVid, 0x1007)),
    (
        "VLAN_VID is set",
        Step::Ends(&[0x81, 0x00, 0xb0, 0x07, 0x88, 0xb5, 1, 2]),
    ),
    ("set VLAN_PCP", Step::Set(Field::VlanPcp, 2)),
    (
        "VLAN_PCP is set",
        Step::Ends(&[0x81, 0x00, 0x50, 0x07, 0x88, 0xb5, 1, 2]),
    ),
    ("set ETH_SRC", Step::Set(Field::EthSrc, 0x0a0b0c0d0e0f)),
    (
        "ETH_SRC is set",
        Step::Begins(&[2, 0, 0, 0, 0, 2, 10, 11, 12, 13, 14, 15]),
    ),
];

const ABSENT: &[Row] = &[
    ("set IPV4_DST", Step::Set(Field::Ipv4Dst, 0x0a000003)),
    ("set VLAN_VID", Step::Set(Field::VlanVid, 0x1007)),
    ("set the hops", Step::SetTtl(9)),
    ("pop", Step::Pop),
    ("no hops", Step::Age(Ttl::Absent)),
    ("nothing changed", Step::Is(UNTAGGED)),
];

const LOANS: &[Row] = &[
    ("ETH_SRC is lent", Step::Lends(Field::EthSrc, true)),
    ("VLAN_VID is no bytes", Step::Lends(Field::VlanVid, false)),
    ("IPV4_DST is not there", Step::Lends(Field::Ipv4Dst, false)),
    ("ETH_SRC has six bytes", Step::Lent(Field::EthSrc, 6)),
    ("write over ETH_SRC", Step::FillSource(7)),
    ("nothing is lent of IN_PORT", Step::Lent(Field::InPort, 0)),
    (
        "the bytes up to the tag",
        Step::Begins(&[2, 0, 0, 0, 0, 2, 7, 7, 7, 7, 7, 7, 0x81]),
    ),
    (
        "the bytes behind ETH_SRC",
        Step::Ends(&[0x81, 0x00, 0xb0, 0x05, 0x88, 0xb5, 1, 2]),
    ),
];

/// Frames, and what is done with each.
const FRAMES: &[(&[u8], &[Row])] = &[
    (TAGGED, TAGS),
    (TAGGED, TAG_FIELDS),
    (UNTAGGED, ABSENT),
    (TAGGED, LOANS),
    (ip::TCP, ip::OVER_IPV4),
    (ip::TCP, ip::HOPS),
    (ip::UDP, ip::CHECKED),
    (ip::UNCHECKED_UDP, ip::UNCHECKED),
    (ip::PING, ip::OVER_IPV6),
    (ip::UDP_OVER_IPV6, ip::UDP_TO_PORTS),
    (kept::PADDED, kept::KNOWN),
    (kept::PADDED, kept::TAGS),
    (kept::PADDED, kept::FIELDS),
    (kept::PADDED, kept::LOAN),
];

#[test]
fn frames_step_by_step(rt: HostRuntime) -> Result<(), Fail> {
    for (bytes, rows) in FRAMES {
        play_all(&rt, rt.alloc(), bytes, rows)?;
    }
    Ok(())
}

/// Puts a run of bytes, which stands behind its place, into a frame.
fn put(rt: &impl Abort, alloc: Global, frame: &mut [u8], run: &str) -> Result<(), Fail> {
    let (at, bytes) = run.split_once(':').ok_or("a place and bytes")?;
    let at = number_of(at)?;
    let bytes = bytes_of(alloc, bytes)?;
    assert!(rt;
        at <= frame.len() && bytes.len() <= frame.len() - at,
        "{run}"
    );
    frame[at..at + bytes.len()].copy_from_slice(&bytes);
    Ok(())
}

/// The frame with these runs of bytes instead of those that stand there.
fn changed(rt: &impl Abort, alloc: Global, before: &[u8], runs: &str) -> Result<Vec<u8>, Fail> {
    let mut after = Vec::from_slice(alloc, before)?;
    for run in runs.split_whitespace() {
        put(rt, alloc, &mut after, run)?;
    }
    Ok(after)
}

/// The frame of these bytes with a field set.
fn after_setting(rt: &impl Abort, alloc: Global, before: &[u8], set: &str) -> Result<Frame, Fail> {
    let (field, value) = value_of(rt, alloc, set)?;
    assert!(rt; before.len() >= 14 && before.len() < 1000, "{set}");
    assert!(rt; field.row().settable, "{set}");
    let mut frame = frame_of(alloc, before)?;
    frame.set(field, value);
    Ok(frame)
}

/// Asserts what setting a field changes in a frame.
fn changes(
    rt: &impl Abort,
    alloc: Global,
    before: &[u8],
    line: &str,
    (set, runs): (&str, &str),
) -> Result<(), Fail> {
    let wanted = changed(rt, alloc, before, runs)?;
    let found = after_setting(rt, alloc, before, set)?;
    same(rt, line, &found.bytes(), &wanted.as_slice());
    Ok(())
}

/// Asserts of each row what setting its field changes in a frame.
fn set_in(rt: &impl Abort, alloc: Global, frame: &str, text: &str) -> Result<(), Fail> {
    let before = bytes_of(alloc, frame)?;
    for line in text.lines() {
        if let Some(row) = sides(line)? {
            changes(rt, alloc, &before, line, row)?;
        }
    }
    Ok(())
}

/// A frame, and rows of what setting a field changes in it.
const SETS: &[(&str, &str)] = &[
    (rows::ARP, rows::SET_IN_ARP),
    (rows::ARP_TAGGED, rows::SET_IN_ARP_TAGGED),
    (rows::TCP_OVER_IPV4, rows::SET_IN_TCP_OVER_IPV4),
    (rows::UDP_OVER_IPV4, rows::SET_IN_UDP_OVER_IPV4),
    (rows::ICMP_OVER_IPV4, rows::SET_IN_ICMP_OVER_IPV4),
    (rows::TCP_OVER_IPV6, rows::SET_IN_TCP_OVER_IPV6),
    (rows::UDP_OVER_IPV6, rows::SET_IN_UDP_OVER_IPV6),
    (rows::ICMPV6_OVER_IPV6, rows::SET_IN_ICMPV6_OVER_IPV6),
];

#[test]
fn set_fields(rt: HostRuntime) -> Result<(), Fail> {
    for (frame, text) in SETS {
        set_in(&rt, rt.alloc(), frame, text)?;
    }
    Ok(())
}
