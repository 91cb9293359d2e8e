//! Messages with a header.
ghost use Rattle.std.specs.Prelude.{◌≡◌, ◌++◌, IfOk, OnOk};
ghost use Rattle.of_messages.specs.Written.{message, message_header};

use of_wire::{Bytes, put_u32};
use std::alloc::{AllocError, Global};

// A header: version 4, type, length and transaction id.
fn put_header(out: &mut Vec<u8>, kind: u8, length: usize, xid: u32) -> Result<(), AllocError>
    ensures { OnOk result (out.new.items ≡ out.old.items ++ message_header kind length xid) }
{
    let high = (length / 256 % 256) as u8;
    let low = (length % 256) as u8;
    out.extend_from_slice(&[4, kind, high, low])?;
    put_u32(out, xid)
}

/// A message of that type (OpenFlow 1.3.5, 7.1).
pub fn message_of(alloc: Global, kind: u8, xid: u32, body: &[u8]) -> Result<Bytes, AllocError>
    ensures { IfOk result (λ bytes. bytes ≡ message kind xid body.now) }
{
    let mut out = Vec::new(alloc);
    put_header(&mut out, kind, 8 + body.len(), xid)?;
    out.extend_from_slice(body)?;
    Ok(Bytes::new(out))
}
