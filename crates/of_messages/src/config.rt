//! The configuration of a switch and of its tables (OpenFlow 1.3.5, 7.3.2 and 7.3.3).
ghost use Rattle.std.specs.Prelude.{◌≡◌, ◌≤◌, length, IfOk};
ghost use Rattle.of_wire.specs.Failures.{Reads};
ghost use Rattle.of_messages.specs.{Configs.names_table as is_named, Configs.set_config_of, Configs.table_mod_of, Written.config_reply_bytes};

use crate::message_bytes::MessageBytes;
use crate::reading::rest_from;
use crate::writing::put_header;
use byteorder::{BigEndian, ByteOrder};
use of_formats::messages::GET_CONFIG_REPLY;
use of_wire::codes::{OFPSCFC_BAD_FLAGS, OFPTMFC_BAD_TABLE};
use of_wire::limits::{OFPTT_ALL, TABLES};
use of_wire::{Bytes, ReadError, put_u16};
use std::alloc::{AllocError, Global};

/// The size of a GET_CONFIG_REPLY.
const SIZE: usize = 12;

/// The configuration of a switch, whose flags are 0: fragments are treated as other frames are (OpenFlow 1.3.5, 7.3.2).
#[derive(Clone, Copy, PartialEq, Eq)]
pub struct SwitchConfig {
    /// How many bytes of a frame a PACKET_IN has that no action asked for; 0xffff for all.
    pub miss_send_len: u16,
}

/// A TABLE_MOD (OpenFlow 1.3.5, 7.3.3).
#[derive(Clone, Copy, PartialEq, Eq)]
pub struct TableMod {
    /// 0 to 15, or 255 for all tables.
    pub table: u8,
    pub config: u32,
}

/// Whether the number is that of a table, or stands for all.
pub(crate) fn names_table(table: u8) -> bool
    ensures { result ≡ is_named table }
{
    table < TABLES || table == OFPTT_ALL
}

pub(crate) fn read_set_config(message: &[u8]) -> Result<SwitchConfig, ReadError>
    requires { 12 ≤ length message.now }
    ensures { Reads result (set_config_of message.now) }
{
    if BigEndian::read_u16(rest_from(message, 8)) != 0 {
        return Err(ReadError::Refused(OFPSCFC_BAD_FLAGS));
    }
    let miss_send_len = BigEndian::read_u16(rest_from(message, 10));
    Ok(SwitchConfig { miss_send_len })
}

pub(crate) fn read_table_mod(message: &[u8]) -> Result<TableMod, ReadError>
    requires { 16 ≤ length message.now }
    ensures { Reads result (table_mod_of message.now) }
{
    let table = message[8];
    if !names_table(table) {
        return Err(ReadError::Refused(OFPTMFC_BAD_TABLE));
    }
    let config = BigEndian::read_u32(rest_from(message, 12));
    Ok(TableMod { table, config })
}

/// A GET_CONFIG_REPLY (OpenFlow 1.3.5, 7.3.2).
pub fn write_config_reply(
    alloc: Global,
    xid: u32,
    config: SwitchConfig,
) -> Result<MessageBytes, AllocError>
    ensures { IfOk result (λ bytes. bytes ≡ config_reply_bytes xid config) }
{
    let mut out = Vec::with_capacity(alloc, SIZE)?;
    put_header(&mut out, GET_CONFIG_REPLY, SIZE, xid)?;
    put_u16(&mut out, 0)?;
    put_u16(&mut out, config.miss_send_len)?;
    Ok(MessageBytes::new(Bytes::new(out)))
}
