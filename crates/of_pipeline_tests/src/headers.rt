use crate::checks::same;
use crate::keys::{key_of, says};
use of_headers::{FrameFault, Headers, check_length, read, read_inside, same_fields};
use of_layers::{Field, Place};
use of_test_peers::rows::{bytes_of, sides};
use std::alloc::Global;
use std::process::Abort;
use std::test::Fail;

mod rows;

/// Destination and source of each frame here.
const ENDS: &str = "020000000002 020000000001";

/// A frame of these bytes behind its addresses.
fn frame_of(alloc: Global, words: &str) -> Result<Vec<u8>, Fail> {
    bytes_of(alloc, format!(in alloc; "{ENDS} {words}")?.as_str())
}

/// Asserts which fields a frame of these bytes has beside the port, the metadata and its addresses.
fn has_beside(rt: &impl Abort, alloc: Global, (bytes, fields): (&str, &str)) -> Result<(), Fail> {
    let frame = frame_of(alloc, bytes)?;
    let key = read(&frame, 7, 9).expect(rt, "a frame").key();
    let wanted = format!(in alloc;
        "InPort=7 Metadata=9 EthDst=20000000002 EthSrc=20000000001 {fields}"
    )?;
    says(rt, alloc, bytes, &key, wanted.as_str())
}

fn add_place(alloc: Global, text: &mut String, field: Field, place: Place) -> Result<(), Fail> {
    let space = if text.is_empty() { "" } else { " " };
    let Place { first, bits } = place;
    text.push_str(&format!(in alloc; "{space}{field:?}={first}+{bits}")?)?;
    Ok(())
}

/// Where the fields of a frame stand.
fn places_of(alloc: Global, headers: &Headers) -> Result<String, Fail> {
    let mut text = String::new(alloc);
    for field in Field::ALL {
        if let Some(place) = headers.place(field) {
            add_place(alloc, &mut text, field, place)?;
        }
    }
    Ok(text)
}

/// Asserts where the fields of a frame of these bytes stand.
fn stands(rt: &impl Abort, alloc: Global, (bytes, places): (&str, &str)) -> Result<(), Fail> {
    let frame = frame_of(alloc, bytes)?;
    let headers = read(&frame, 7, 9).expect(rt, "a frame");
    same(rt, bytes, &places_of(alloc, &headers)?.as_str(), &places);
    Ok(())
}

/// Asserts of each row which fields its frame has, or where they stand.
fn hold(rt: &impl Abort, alloc: Global, text: &str, are_places: bool) -> Result<(), Fail> {
    for line in text.lines() {
        if let Some(row) = sides(line)? {
            if are_places {
                stands(rt, alloc, row)?;
            } else {
                has_beside(rt, alloc, row)?;
            }
        }
    }
    Ok(())
}

const FIELDS: &[&str] = &[
    rows::TAGS,
    rows::ARP,
    rows::IPV4_HEADERS,
    rows::IPV4_PAYLOADS,
    rows::IPV6_HEADERS,
    rows::IPV6_EXTENSION_HEADERS,
];

#[test]
fn fields(rt: HostRuntime) -> Result<(), Fail> {
    for text in FIELDS {
        hold(&rt, rt.alloc(), text, false)?;
    }
    hold(&rt, rt.alloc(), rows::PLACES, true)
}

#[test]
fn cut_tag(rt: HostRuntime) {
    let frame = b"\x02\0\0\0\0\x02\x02\0\0\0\0\x01\x81\0\xa0\x05";
    let headers = read_inside(frame, 1, 0).expect(&rt, "a frame");
    let found = (headers.layout.tags, headers.key().numbers.eth_type);
    same(&rt, "no tag, and the type of one", &found, &(0, 0x8100));
    let metadata = headers.key().get(Field::Metadata);
    same(&rt, "its metadata", &metadata, &Some(0));
}

#[test]
fn short_frame(rt: HostRuntime) {
    let frame = b"\x02\0\0\0\0\x02\x02\0\0\0\0\x01\x81";
    let read_so = matches!(read(frame, 1, 0), Err(FrameFault::Short));
    let checked_so = matches!(check_length(frame), Err(FrameFault::Short));
    same(&rt, "13 bytes", &(read_so, checked_so), &(true, true));
}

/// A key, a mask, and what is seen of the key under it.
const UNDER: &[(&str, &str, &str)] = &[
    (
        "EthType=800 Ipv4Src=a0b0c0d",
        "Ipv4Src=ffff0000 Ipv4Dst=ffffffff",
        "Ipv4Src=a0b0000",
    ),
    ("EthType=800 Ipv4Src=a0b0c0d", "", ""),
];

/// Asserts what is seen of a key under a mask.
fn is_seen(
    rt: &impl Abort,
    alloc: Global,
    (key, mask, wanted): (&str, &str, &str),
) -> Result<(), Fail> {
    let seen = key_of(rt, alloc, key)?.under(&key_of(rt, alloc, mask)?);
    same(rt, mask, &seen, &key_of(rt, alloc, wanted)?);
    says(rt, alloc, mask, &seen, wanted)
}

#[test]
fn key_under_a_mask(rt: HostRuntime) -> Result<(), Fail> {
    for row in UNDER {
        is_seen(&rt, rt.alloc(), *row)?;
    }
    same_fields();
    Ok(())
}
