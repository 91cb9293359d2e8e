//! Messages whose parts a test looks at, each by its bytes.
use crate::checks::same;
use crate::groups_and_ports::{self, WANTED_PORT_MOD, is_added};
use crate::messages::{self, brings, goes_to_tables, sends_on};
use of_messages::{GroupMod, Message, read_message};
use of_test_peers::rows::bytes_of;
use std::alloc::Global;
use std::process::Abort;
use std::test::Fail;

/// What a message is.
#[derive(Clone, Copy)]
enum Shown {
    FlowMod,
    Add,
    PortMod,
    /// From a port, with the number of a buffer or a frame.
    PacketOut(u32, Option<u32>),
}

fn shows(rt: &impl Abort, alloc: Global, message: &Message, shown: Shown) -> Result<(), Fail> {
    match (shown, message) {
        (Shown::FlowMod, Message::FlowMod(flow_mod)) => sends_on(rt, flow_mod),
        (Shown::Add, Message::GroupMod(GroupMod::Add(group))) => is_added(rt, alloc, group)?,
        (Shown::PortMod, Message::PortMod(found)) => {
            same(rt, "a PORT_MOD", found, &WANTED_PORT_MOD);
        }
        (Shown::PacketOut(port, buffer), Message::PacketOut(packet_out)) => {
            goes_to_tables(rt, packet_out, port);
            brings(rt, &packet_out.packet, buffer);
        }
        _ => return Err("another message".into()),
    }
    Ok(())
}

fn is_shown(rt: &impl Abort, alloc: Global, words: &str, shown: Shown) -> Result<(), Fail> {
    let message = read_message(alloc, &bytes_of(alloc, words)?)?;
    shows(rt, alloc, &message, shown)
}

const SHOWN: &[(&str, Shown)] = &[
    (messages::rows::FLOW_MOD, Shown::FlowMod),
    (messages::rows::PACKET_OUT, Shown::PacketOut(1, None)),
    (
        messages::rows::PACKET_OUT_BUFFERED,
        Shown::PacketOut(0xffff_fffd, Some(3)),
    ),
    (
        messages::rows::PACKET_OUT_BUFFERED_AND_MORE,
        Shown::PacketOut(0xffff_fffd, Some(3)),
    ),
    (groups_and_ports::rows::ADD, Shown::Add),
    (groups_and_ports::rows::PORT_MOD, Shown::PortMod),
];

#[test]
fn parts(rt: HostRuntime) -> Result<(), Fail> {
    for (words, shown) in SHOWN {
        is_shown(&rt, rt.alloc(), words, *shown)?;
    }
    Ok(())
}
