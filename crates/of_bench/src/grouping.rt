//! Groups, and frames to many ports.

use crate::asking::ask_again;
use crate::clock::{Timed, time_slow};
use crate::flows;
use crate::flows::push_flow;
use crate::forwarding::time_forward;
use std::alloc::{AllocError, Global};
use std::io;

/// How many groups a switch has at most, buckets a group, and actions a bucket.
const GROUPS: u32 = 256;

const BUCKETS: u32 = 16;

const ACTIONS: u32 = 64;

/// How many groups there are of a layer.
const LAYER: u32 = 85;

/// The commands of a GROUP_MOD.
const ADD: u8 = 0;

const MODIFY: u8 = 1;

/// APPLY_ACTIONS of an OUTPUT to FLOOD.
const TO_FLOOD: [u8; 24] = [
    0, 4, 0, 24, 0, 0, 0, 0, 0, 0, 0, 16, 0xff, 0xff, 0xff, 0xfb, 0, 0, 0, 0, 0, 0, 0, 0,
];

/// APPLY_ACTIONS of a GROUP to group 1.
const TO_GROUP: [u8; 16] = [0, 4, 0, 16, 0, 0, 0, 0, 0, 22, 0, 8, 0, 0, 0, 1];

// The first group that a group of the first two layers names; None of the third.
fn layer_behind(id: u32) -> Option<u32> {
    if id < LAYER {
        Some(LAYER)
    } else if id < 2 * LAYER {
        Some(2 * LAYER)
    } else {
        None
    }
}

// GROUP of one of the groups of the next layer, or POP_VLAN.
fn push_action(message: &mut Vec<u8>, behind: Option<u32>, number: u32) -> Result<(), AllocError> {
    match behind {
        Some(first) => {
            let group = first.wrapping_add(number % LAYER).to_be_bytes();
            message.extend_from_slice(&[0, 22, 0, 8, group[0], group[1], group[2], group[3]])
        }
        None => message.extend_from_slice(&[0, 18, 0, 8, 0, 0, 0, 0]),
    }
}

// A bucket of 64 actions, which has 528 bytes.
fn push_bucket(message: &mut Vec<u8>, behind: Option<u32>, bucket: u32) -> Result<(), AllocError> {
    message.extend_from_slice(&[0x02, 0x10, 0, 0])?;
    message.extend_from_slice(&[0xff; 8])?;
    message.extend_from_slice(&[0; 4])?;
    for place in 0..ACTIONS {
        push_action(
            message,
            behind,
            bucket.wrapping_mul(ACTIONS).wrapping_add(place),
        )?;
    }
    Ok(())
}

// A GROUP_MOD of a group of type ALL with all buckets and actions that it may have: 8,464 bytes.
fn push_group_mod(message: &mut Vec<u8>, command: u8, id: u32) -> Result<(), AllocError> {
    message.extend_from_slice(&[4, 15, 0x21, 0x10, 0, 0, 0, 2, 0, command, 0, 0])?;
    message.extend_from_slice(&id.to_be_bytes())?;
    for bucket in 0..BUCKETS {
        push_bucket(message, layer_behind(id), bucket)?;
    }
    Ok(())
}

// All groups that a switch may have, in three layers, each of which names the next.
fn full_groups(alloc: Global) -> Result<Vec<u8>, AllocError> {
    let mut messages = Vec::new(alloc);
    for behind in 1..=GROUPS {
        push_group_mod(&mut messages, ADD, GROUPS.wrapping_sub(behind))?;
    }
    Ok(messages)
}

// A MODIFY of the first of them.
fn modify_first(alloc: Global) -> Result<Vec<u8>, AllocError> {
    let mut message = Vec::new(alloc);
    push_group_mod(&mut message, MODIFY, 0)?;
    Ok(message)
}

/// A MODIFY of one of 256 groups of 16 buckets of 64 actions, in chains of three.
pub fn time_group_mod(rt: &HostRuntime) -> io::Result<()> {
    let alloc = rt.alloc();
    let Some(mut timed) = ask_again(alloc, full_groups(alloc), modify_first(alloc)) else {
        return println!(rt; "group_mod: no memory");
    };
    if timed.call(0) != 0 {
        return println!(rt; "group_mod: refused");
    }
    time_slow(rt, "group_mod", &mut timed)
}

// A flow to FLOOD.
fn flooding(alloc: Global) -> Result<Vec<u8>, AllocError> {
    let mut messages = Vec::new(alloc);
    push_flow(&mut messages, 0, &flows::PORT_MATCH, &TO_FLOOD)?;
    Ok(messages)
}

/// A frame that is sent out of 63 ports.
pub fn time_flood(rt: &HostRuntime) -> io::Result<()> {
    time_forward(rt, "flood", 64, flooding(rt.alloc()))
}

// An ADD of a group of type ALL with 16 buckets, each of which sends its packets to the next group.
fn push_link(message: &mut Vec<u8>, id: u8) -> Result<(), AllocError> {
    message.extend_from_slice(&[4, 15, 0x01, 0x90, 0, 0, 0, 2, 0, ADD, 0, 0, 0, 0, 0, id])?;
    for _ in 0..BUCKETS {
        message.extend_from_slice(&[0, 24, 0, 0])?;
        message.extend_from_slice(&[0xff; 8])?;
        message.extend_from_slice(&[0, 0, 0, 0, 0, 22, 0, 8, 0, 0, 0, id.wrapping_add(1)])?;
    }
    Ok(())
}

// The last of a chain: its 16 buckets send out of port 2.
fn push_last_link(message: &mut Vec<u8>, id: u8) -> Result<(), AllocError> {
    message.extend_from_slice(&[4, 15, 0x02, 0x10, 0, 0, 0, 2, 0, ADD, 0, 0, 0, 0, 0, id])?;
    for _ in 0..BUCKETS {
        message.extend_from_slice(&[0, 32, 0, 0])?;
        message.extend_from_slice(&[0xff; 8])?;
        message.extend_from_slice(&[0, 0, 0, 0, 0, 0, 0, 16, 0, 0, 0, 2])?;
        message.extend_from_slice(&[0; 8])?;
    }
    Ok(())
}

// A chain of three groups of 16 buckets, and a flow to it.
fn chained(alloc: Global) -> Result<Vec<u8>, AllocError> {
    let mut messages = Vec::new(alloc);
    push_last_link(&mut messages, 3)?;
    push_link(&mut messages, 2)?;
    push_link(&mut messages, 1)?;
    push_flow(&mut messages, 0, &flows::PORT_MATCH, &TO_GROUP)?;
    Ok(messages)
}

/// A frame through a chain of three groups of 16 buckets each: 4,096 frames are sent.
pub fn time_group_chain(rt: &HostRuntime) -> io::Result<()> {
    time_forward(rt, "group_chain", 2, chained(rt.alloc()))
}
