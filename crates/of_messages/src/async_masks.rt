//! Which asynchronous messages a controller is sent (OpenFlow 1.3.5, 7.3.10).
ghost use Rattle.std.specs.Prelude.{◌≡◌, ◌≤◌, ◌+◌, ◌++◌, length, drop, IfOk, OnOk};
ghost use Rattle.of_messages.specs.{AsyncConfigs.async_masks_of, AsyncConfigs.masks, Written.async_reply_bytes};
ghost use Rattle.byteorder.specs.Endian.{big_bytes, big_number};

use crate::message_bytes::MessageBytes;
use crate::reading::rest_from;
use crate::writing::put_header;
use byteorder::{BigEndian, ByteOrder};
use of_formats::messages::GET_ASYNC_REPLY;
use of_wire::{Bytes, put_u32};
use std::alloc::{AllocError, Global};

/// The size of a GET_ASYNC_REPLY.
const SIZE: usize = 32;

/// The reasons for which a kind of message is sent, each a bit.
#[derive(Clone, Copy, PartialEq, Eq)]
pub struct RoleMasks {
    /// To a controller that is master or equal.
    pub master: u32,
    /// To a slave.
    pub slave: u32,
}

/// The reasons for which a controller is sent asynchronous messages.
#[derive(Clone, Copy, PartialEq, Eq)]
pub struct AsyncMasks {
    pub packet_in: RoleMasks,
    pub port_status: RoleMasks,
    pub flow_removed: RoleMasks,
}

fn read_role_masks(message: &[u8], at: usize) -> RoleMasks
    requires { at + 8 ≤ length message.now }
    ensures { result ≡ masks (big_number 4 (drop at message.now)) (big_number 4 (drop (at + 4) message.now)) }
{
    RoleMasks {
        master: BigEndian::read_u32(rest_from(message, at)),
        slave: BigEndian::read_u32(rest_from(message, at + 4)),
    }
}

pub(crate) fn read_async_masks(message: &[u8]) -> AsyncMasks
    requires { 32 ≤ length message.now }
    ensures { result ≡ async_masks_of message.now }
{
    AsyncMasks {
        packet_in: read_role_masks(message, 8),
        port_status: read_role_masks(message, 16),
        flow_removed: read_role_masks(message, 24),
    }
}

/// Appends the masks for a master and for a slave (OpenFlow 1.3.5, 7.3.10).
pub fn put_role_masks(out: &mut Vec<u8>, masks: RoleMasks) -> Result<(), AllocError>
    ensures { OnOk result (out.new.items ≡ out.old.items ++ (big_bytes 4 masks.master ++ big_bytes 4 masks.slave)) }
{
    put_u32(out, masks.master)?;
    put_u32(out, masks.slave)
}

/// A GET_ASYNC_REPLY (OpenFlow 1.3.5, 7.3.10).
pub fn write_async_reply(
    alloc: Global,
    xid: u32,
    masks: AsyncMasks,
) -> Result<MessageBytes, AllocError>
    ensures { IfOk result (λ bytes. bytes ≡ async_reply_bytes xid masks) }
{
    let mut out = Vec::with_capacity(alloc, SIZE)?;
    put_header(&mut out, GET_ASYNC_REPLY, SIZE, xid)?;
    put_role_masks(&mut out, masks.packet_in)?;
    put_role_masks(&mut out, masks.port_status)?;
    put_role_masks(&mut out, masks.flow_removed)?;
    Ok(MessageBytes::new(Bytes::new(out)))
}
