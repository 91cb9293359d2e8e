//! The header of a message (OpenFlow 1.3.5, 7.1).
ghost use Rattle.std.specs.Prelude.{◌≡◌, ◌+◌, ◌++◌, ◌≤◌, length, IfOk};
ghost use Rattle.of_messages.specs.Written.{message_header};

use of_wire::{Bytes, put_u16, put_u32};
use std::alloc::{AllocError, Global};

/// The header of a message of that type, before `size` more bytes, for which there is room.
pub(crate) fn begin(alloc: Global, kind: u8, size: usize, xid: u32) -> Result<Vec<u8>, AllocError>
    requires { size ≤ 65527 }
    ensures { IfOk result (λ v. v.items ≡ message_header kind (8 + size) xid) }
{
    let mut out = Vec::with_capacity(alloc, 8 + size)?;
    out.extend_from_slice(&[4, kind])?;
    put_u16(&mut out, (8 + size) as u16)?;
    put_u32(&mut out, xid)?;
    Ok(out)
}

/// A message of that type, whose header these bytes follow.
pub(crate) fn write_with(
    alloc: Global,
    kind: u8,
    body: &[u8],
    xid: u32,
) -> Result<Bytes, AllocError>
    requires { length body.now ≤ 65527 }
    ensures { IfOk result (λ bytes. bytes ≡ message_header kind (8 + length body.now) xid ++ body.now) }
{
    let mut out = begin(alloc, kind, body.len(), xid)?;
    out.extend_from_slice(body)?;
    Ok(Bytes::new(out))
}
