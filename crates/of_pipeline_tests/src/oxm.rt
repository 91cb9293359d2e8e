use crate::checks::same;
use crate::keys::{key_of, says};
use of_headers::FieldKey;
use of_layers::Field;
use of_oxm::{
    Code, FieldMask, Match, MatchField, ReadError, covers, mask_of, matches, overlaps, read_match,
    write_match,
};
use of_test_peers::rows::{bytes_of, number_of, sides};
use std::alloc::Global;
use std::process::Abort;
use std::test::Fail;

mod rows;

// The code with which bytes are refused as OFPET_BAD_MATCH.
fn code_of(alloc: Global, bytes: &[u8]) -> Option<usize> {
    match read_match(alloc, bytes) {
        Err(ReadError::Refused(Code { kind: 4, code })) => Some(usize::from(code)),
        _ => None,
    }
}

/// Asserts with which code bytes are refused.
fn is_refused(rt: &impl Abort, alloc: Global, (bytes, code): (&str, &str)) -> Result<(), Fail> {
    let found = code_of(alloc, &bytes_of(alloc, bytes)?);
    same(rt, bytes, &found, &Some(number_of(code)?));
    Ok(())
}

/// Asserts that of each row.
fn are_refused(rt: &impl Abort, alloc: Global, text: &str) -> Result<(), Fail> {
    for line in text.lines() {
        if let Some(row) = sides(line)? {
            is_refused(rt, alloc, row)?;
        }
    }
    Ok(())
}

/// The match that all of these bytes are.
fn match_of(rt: &impl Abort, alloc: Global, words: &str) -> Result<Match, Fail> {
    let bytes = bytes_of(alloc, words)?;
    match read_match(alloc, &bytes) {
        Ok((found, size)) => {
            same(rt, words, &size, &bytes.len());
            Ok(found)
        }
        Err(_) => Err("the bytes are a match".into()),
    }
}

/// Asserts of each row what is written of the match that is all of its bytes.
fn are_written(rt: &impl Abort, alloc: Global, text: &str) -> Result<(), Fail> {
    for line in text.lines() {
        if let Some((bytes, wanted)) = sides(line)? {
            is_written(rt, alloc, bytes, wanted)?;
        }
    }
    Ok(())
}

fn is_written(rt: &impl Abort, alloc: Global, bytes: &str, wanted: &str) -> Result<(), Fail> {
    let written = write_match(alloc, &match_of(rt, alloc, bytes)?)?;
    let wanted = bytes_of(alloc, wanted)?;
    same(rt, bytes, &written.as_slice(), &wanted.as_slice());
    Ok(())
}

#[test]
fn read_and_written(rt: HostRuntime) -> Result<(), Fail> {
    are_refused(&rt, rt.alloc(), rows::REFUSED)?;
    are_written(&rt, rt.alloc(), rows::WRITTEN)
}

fn asks_for_port_one(rt: &impl Abort, found: &Match) {
    let of_port_one = matches!(
        found.fields(),
        [MatchField {
            field: Field::InPort,
            value: 1,
            mask: None
        }]
    );
    same(rt, "port 1", &(found.len(), of_port_one), &(1, true));
}

/// Asserts that a match is one that was made.
fn is_like(rt: &impl Abort, found: &Match, made: &Match) {
    let alike = (
        found.equals(made),
        covers(found, made),
        overlaps(found, made),
    );
    same(rt, "port 1", &alike, &(true, true, true));
}

#[test]
fn port_one(rt: HostRuntime) -> Result<(), Fail> {
    let found = match_of(&rt, rt.alloc(), "0001000c 80000004 00000001 00000000")?;
    asks_for_port_one(&rt, &found);
    is_like(&rt, &found, &Match::of_in_port(rt.alloc(), 1)?);
    is_like(&rt, &found, &found.copy()?);
    Ok(())
}

/// A match, and what it asks.
struct Asking {
    /// Its bytes.
    bytes: &'static str,
    /// Under which mask it looks at a key.
    mask: &'static str,
    /// What it wants to see there.
    asked: &'static str,
    /// A key in which it sees that.
    matched: &'static str,
    /// A key in which it does not.
    other: &'static str,
}

const ASKING: [Asking; 2] = [
    Asking {
        bytes: "0001000c 80000004 00000001 00000000",
        mask: "InPort=ffffffff",
        asked: "InPort=1",
        matched: "InPort=1",
        other: "InPort=2",
    },
    Asking {
        bytes: "00010016 80000a020800 800019080a000200ffffff00 0000",
        mask: "EthType=ffff Ipv4Dst=ffffff00",
        asked: "EthType=800 Ipv4Dst=a000200",
        matched: "InPort=3 EthType=800 Ipv4Dst=a000205",
        other: "InPort=3 EthType=800 Ipv4Dst=a000105",
    },
];

/// Asserts what a match asks.
fn asks(rt: &impl Abort, alloc: Global, row: &Asking) -> Result<(), Fail> {
    let found = match_of(rt, alloc, row.bytes)?;
    let matched = key_of(rt, alloc, row.matched)?;
    let other = key_of(rt, alloc, row.other)?;
    let answers = (matches(&found, &matched), matches(&found, &other));
    same(rt, row.bytes, &answers, &(true, false));
    is_asked(
        rt,
        alloc,
        row,
        &mask_of(&found),
        &of_oxm::key_of(&found),
        &matched,
    )
}

/// Asserts under which mask a match looks at a key, what it wants to see there, and that it sees that in a key.
fn is_asked(
    rt: &impl Abort,
    alloc: Global,
    row: &Asking,
    mask: &FieldMask,
    asked: &FieldKey,
    matched: &FieldKey,
) -> Result<(), Fail> {
    says(rt, alloc, row.bytes, &mask.masks, row.mask)?;
    says(rt, alloc, row.bytes, asked, row.asked)?;
    same(rt, row.bytes, &mask.masked(matched), asked);
    Ok(())
}

#[test]
fn seen_under_the_mask_of_a_match(rt: HostRuntime) -> Result<(), Fail> {
    for row in &ASKING {
        asks(&rt, rt.alloc(), row)?;
    }
    Ok(())
}
