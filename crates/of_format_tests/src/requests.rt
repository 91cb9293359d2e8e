use crate::checks::same;
use of_actions::{Action, ActionList};
use of_laws::{WriteError, write_message};
use of_messages::{
    Message, MessageBytes, MultipartRequest, PacketData, PacketOut, TableMod, read_message,
};
use of_test_peers::rows::bytes_of;
use std::alloc::Global;
use std::test::Fail;

pub(crate) mod rows;

/// The transaction id of a message.
fn xid_of(message: &[u8]) -> Result<u32, Fail> {
    match message {
        [_, _, _, _, a, b, c, d, ..] => Ok(u32::from_be_bytes([*a, *b, *c, *d])),
        _ => Err("a header")?,
    }
}

/// What is written of the message that is read of some bytes.
pub(crate) fn message_again(alloc: Global, words: &str) -> Result<MessageBytes, Fail> {
    let bytes = bytes_of(alloc, words)?;
    let message = read_message(alloc, &bytes)?;
    Ok(write_message(alloc, xid_of(&bytes)?, &message)?)
}

/// A message that no bytes encode.
#[derive(Clone, Copy)]
enum Unencoded {
    /// Of a table that is not there.
    Table,
    /// For the counters of port ANY, as of one port.
    PortStats,
    /// From this port, with this buffer.
    PacketOut(u32, u32),
}

const UNENCODED: &[Unencoded] = &[
    Unencoded::Table,
    Unencoded::PortStats,
    Unencoded::PacketOut(0, 7),
    Unencoded::PacketOut(1, 0xffff_ffff),
];

fn packet_out(alloc: Global, in_port: u32, buffer: u32) -> Result<Message, Fail> {
    let mut actions = Vec::new(alloc);
    actions.push(Action::PopVlan)?;
    Ok(Message::PacketOut(PacketOut {
        in_port,
        actions: ActionList::new(actions).ok_or("one action")?,
        packet: PacketData::Buffered(buffer),
    }))
}

fn message_of(alloc: Global, unencoded: Unencoded) -> Result<Message, Fail> {
    match unencoded {
        Unencoded::Table => Ok(Message::TableMod(TableMod {
            table: 16,
            config: 0,
        })),
        Unencoded::PortStats => Ok(Message::Multipart(MultipartRequest::PortStats(Some(
            0xffff_ffff,
        )))),
        Unencoded::PacketOut(in_port, buffer) => packet_out(alloc, in_port, buffer),
    }
}

#[test]
fn without_bytes(rt: HostRuntime) -> Result<(), Fail> {
    for unencoded in UNENCODED {
        let message = message_of(rt.alloc(), *unencoded)?;
        let refusal = write_message(rt.alloc(), 1, &message).err();
        same(&rt, "no bytes", &refusal, &Some(WriteError::NotEncoded));
    }
    Ok(())
}
