//! FEATURES_REPLY (OpenFlow 1.3.5, 7.3.1).
ghost use Rattle.std.specs.Prelude.{◌≡◌, ◌++◌, IfOk, OnOk};
ghost use Rattle.of_messages.specs.Written.{features_body, features_reply_bytes};

use crate::message_bytes::MessageBytes;
use crate::writing::put_header;
use of_formats::messages::FEATURES_REPLY;
use of_wire::limits::{BUFFERS, TABLES};
use of_wire::{Bytes, put_u32, put_u64};
use std::alloc::{AllocError, Global};

/// The size of a FEATURES_REPLY.
const SIZE: usize = 32;

/// OFPC_FLOW_STATS, OFPC_TABLE_STATS, OFPC_PORT_STATS and OFPC_GROUP_STATS.
const CAPABILITIES: u32 = 15;

// The buffers, the tables, no auxiliary connection with its padding, the capabilities, and four bytes that are reserved.
fn put_features(out: &mut Vec<u8>, dpid: u64) -> Result<(), AllocError>
    ensures { OnOk result (out.new.items ≡ out.old.items ++ features_body dpid) }
{
    put_u64(out, dpid)?;
    put_u32(out, BUFFERS)?;
    out.extend_from_slice(&[TABLES, 0, 0, 0])?;
    put_u32(out, CAPABILITIES)?;
    put_u32(out, 0)
}

/// The FEATURES_REPLY of the switch with that datapath id: 16 tables, and 256 buffers (OpenFlow 1.3.5, 7.3.1).
#[tactic(auto, using(crate::proofs::Lengths::features_reply_is))]
pub fn write_features_reply(alloc: Global, xid: u32, dpid: u64) -> Result<MessageBytes, AllocError>
    ensures { IfOk result (λ bytes. bytes ≡ features_reply_bytes xid dpid) }
{
    let mut out = Vec::with_capacity(alloc, SIZE)?;
    put_header(&mut out, FEATURES_REPLY, SIZE, xid)?;
    put_features(&mut out, dpid)?;
    Ok(MessageBytes::new(Bytes::new(out)))
}
