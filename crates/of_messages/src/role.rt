//! The role of a controller (OpenFlow 1.3.5, 6.3.4 and 7.3.9).
ghost use Rattle.std.specs.Prelude.{◌≡◌, ◌≤◌, length, IfOk};
ghost use Rattle.of_wire.specs.Failures.{Reads};
ghost use Rattle.of_messages.specs.{Roles.asked_by, Roles.generation_number, Roles.role_number, Roles.role_request_of, Written.role_reply_bytes};

use crate::message_bytes::MessageBytes;
use crate::reading::rest_from;
use crate::writing::put_header;
use byteorder::{BigEndian, ByteOrder};
use of_formats::messages::ROLE_REPLY;
use of_wire::codes::OFPRRFC_BAD_ROLE;
use of_wire::{Bytes, ReadError, put_u32, put_u64};
use std::alloc::{AllocError, Global};

/// The size of a ROLE_REPLY.
const SIZE: usize = 24;

/// The role of a controller (OpenFlow 1.3.5, 6.3.4).
#[derive(Clone, Copy, PartialEq, Eq)]
pub enum Role {
    Equal,
    Master,
    Slave,
}

/// The role that a ROLE_REQUEST asks for (OpenFlow 1.3.5, 7.3.9). `generation` is its generation_id.
#[derive(Clone, Copy, PartialEq, Eq)]
pub enum RoleRequest {
    NoChange,
    Equal,
    Master { generation: u64 },
    Slave { generation: u64 },
}

#[tactic(auto, unfolding(crate::specs::Roles::asked_by))]
fn request_from(number: u32, generation: u64) -> Option<RoleRequest>
    ensures { result ≡ asked_by number generation }
{
    match number {
        0 => Some(RoleRequest::NoChange),
        1 => Some(RoleRequest::Equal),
        2 => Some(RoleRequest::Master { generation }),
        3 => Some(RoleRequest::Slave { generation }),
        _ => None,
    }
}

pub(crate) fn read_role_request(message: &[u8]) -> Result<RoleRequest, ReadError>
    requires { 24 ≤ length message.now }
    ensures { Reads result (role_request_of message.now) }
{
    let number = BigEndian::read_u32(rest_from(message, 8));
    let generation = BigEndian::read_u64(rest_from(message, 16));
    match request_from(number, generation) {
        Some(request) => Ok(request),
        None => Err(ReadError::Refused(OFPRRFC_BAD_ROLE)),
    }
}

fn number_of(role: Role) -> u32
    ensures { result ≡ role_number role }
{
    match role {
        Role::Equal => 1,
        Role::Master => 2,
        Role::Slave => 3,
    }
}

// All ones for none.
fn generation_shown(generation: Option<u64>) -> u64
    ensures { result ≡ generation_number generation }
{
    generation.unwrap_or(u64::MAX)
}

/// A ROLE_REPLY (OpenFlow 1.3.5, 7.3.9): the controller's role now, and the last generation_id, if there was one.
pub fn write_role_reply(
    alloc: Global,
    xid: u32,
    role: Role,
    generation: Option<u64>,
) -> Result<MessageBytes, AllocError>
    ensures { IfOk result (λ bytes. bytes ≡ role_reply_bytes xid role generation) }
{
    let mut out = Vec::with_capacity(alloc, SIZE)?;
    put_header(&mut out, ROLE_REPLY, SIZE, xid)?;
    put_u32(&mut out, number_of(role))?;
    put_u32(&mut out, 0)?;
    put_u64(&mut out, generation_shown(generation))?;
    Ok(MessageBytes::new(Bytes::new(out)))
}
