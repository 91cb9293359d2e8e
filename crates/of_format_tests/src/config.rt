use crate::checks::same;
use of_build::messages;
use of_laws::{ConfigFault, build, config_of};
use of_test_peers::rows::bytes_of;
use of_text::{Config, assemble, disassemble};
use of_wire::{Bytes, Code};
use std::alloc::Global;
use std::process::Abort;
use std::test::Fail;

mod rows;

/// Two groups, of which one sends to the other, and three flows in two tables.
const TEXT: &[u8] = b"group 1 all
bucket 0 4294967295 4294967295
to_group 2
group 2 all
bucket 0 4294967295 4294967295
output 2 0
flow 0 10 0x0000000000000000 0 0 0
match in_port 0x00000001
apply
to_group 1
flow 0 5 0x00000000000000ff 0 0 1
goto 3
flow 3 0 0x0000000000000000 30 60 0
match eth_type 0x0800
write
output 3 0
";

/// The messages that rows encode.
fn encoded(alloc: Global, rows: &str) -> Result<Vec<Bytes>, Fail> {
    let mut encoded = Vec::new(alloc);
    for line in rows.lines() {
        if !line.starts_with('#') {
            encoded.push(Bytes::new(bytes_of(alloc, line)?))?;
        }
    }
    Ok(encoded)
}

const ONE_FLOW: &[u8] = b"flow 0 10 0x0000000000000000 0 0 0
match in_port 0x00000001
apply
output 2 0
";

const LATER_GROUP: &[u8] = b"group 1 all
bucket 0 4294967295 4294967295
to_group 2
group 2 indirect
bucket 7 1 2
output 2 0
";

/// How messages make a configuration: one after the other, or beside each other.
#[derive(Clone, Copy)]
enum How {
    InTurn,
    Beside,
}

/// Rows of messages, and the text of the configuration that they make.
const MADE: &[(How, &str, &[u8])] = &[
    (How::InTurn, rows::MESSAGES, TEXT),
    (How::InTurn, "", b""),
    (How::InTurn, rows::DELETED, b""),
    (How::Beside, rows::ONE_FLOW, ONE_FLOW),
    (How::Beside, rows::LATER_GROUP, LATER_GROUP),
];

/// Rows of messages that make none, the place of the message at fault, and the type and code of its ERROR; if it is not a command, none.
const NOT_MADE: &[(How, &str, usize, Option<(u16, u16)>)] = &[
    (How::InTurn, rows::ABSENT_GROUP, 1, Some((2, 9))),
    (How::InTurn, rows::BARRIER, 1, None),
    (How::InTurn, rows::TWO_AS_ONE, 0, None),
    (How::Beside, rows::SAME_FLOW, 1, Some((5, 3))),
    (How::Beside, rows::TO_ABSENT_GROUP, 0, Some((2, 9))),
    (How::Beside, rows::OTHER_FLAGS, 0, Some((5, 7))),
    (How::Beside, rows::BAD_LATER_GROUP, 1, Some((6, 12))),
    // not (0, 2/9): the group that is refused by itself counts as there
    (How::Beside, rows::NAMED_BAD_GROUP, 1, Some((6, 12))),
    (How::Beside, rows::HELD, 0, None),
    (How::Beside, rows::DELETED, 1, None),
    (How::Beside, rows::BARRIER, 0, None),
    // group 2, and then group 1
    (How::Beside, rows::MESSAGES, 1, None),
];

/// The configuration that the messages of these rows make.
fn made(alloc: Global, how: How, rows: &str) -> Result<Result<Config, ConfigFault>, Fail> {
    let sent = encoded(alloc, rows)?;
    match how {
        How::InTurn => Ok(config_of(alloc, &sent)),
        How::Beside => Ok(build(alloc, &sent)),
    }
}

fn is_made(
    rt: &impl Abort,
    alloc: Global,
    (how, rows, text): &(How, &str, &[u8]),
) -> Result<(), Fail> {
    let config = made(alloc, *how, rows)?.ok().ok_or("a configuration")?;
    let found = disassemble(alloc, &config)?;
    same(rt, rows, &found.as_slice(), text);
    Ok(())
}

#[test]
fn texts_of_messages(rt: HostRuntime) -> Result<(), Fail> {
    for row in MADE {
        is_made(&rt, rt.alloc(), row)?;
    }
    Ok(())
}

fn fault_of(place: usize, code: Option<(u16, u16)>) -> ConfigFault {
    match code {
        Some((kind, code)) => ConfigFault::Refused {
            place,
            code: Code { kind, code },
        },
        None => ConfigFault::NotACommand { place },
    }
}

fn is_not_made(
    rt: &impl Abort,
    alloc: Global,
    (how, rows, place, code): &(How, &str, usize, Option<(u16, u16)>),
) -> Result<(), Fail> {
    let found = made(alloc, *how, rows)?.err();
    same(rt, rows, &found, &Some(fault_of(*place, *code)));
    Ok(())
}

#[test]
fn faults_of_messages(rt: HostRuntime) -> Result<(), Fail> {
    for row in NOT_MADE {
        is_not_made(&rt, rt.alloc(), row)?;
    }
    Ok(())
}

/// Asserts that the messages are those.
fn are_same(rt: &impl Abort, found: &[Bytes], wanted: &[Bytes]) {
    same(rt, "messages", &found.len(), &wanted.len());
    for (one, other) in found.iter().zip(wanted) {
        same(rt, "a message", &one.as_slice(), &other.as_slice());
    }
}

fn sent(alloc: Global, text: &[u8]) -> Result<Vec<Bytes>, Fail> {
    let config = assemble(alloc, text).ok().ok_or("a configuration")?;
    Ok(messages(alloc, &config)?)
}

#[test]
fn messages_of_a_text(rt: HostRuntime) -> Result<(), Fail> {
    let found = sent(rt.alloc(), TEXT)?;
    let wanted = encoded(rt.alloc(), rows::MESSAGES)?;
    are_same(&rt, &found, &wanted);
    Ok(())
}
