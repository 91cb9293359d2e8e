//! Replies to multipart requests, and rows that are packed into them.
ghost use Rattle.std.specs.Prelude.{◌≡◌, ◌≤◌, ◌++◌, drop, length, replicate, OnOk, IfOk};
ghost use Rattle.of_statistics.specs.Replies.{empty_draft, closed, head_bytes, reply, with_row};

use byteorder::{BigEndian, ByteOrder};
use of_formats::messages::MULTIPART_REPLY;
use of_messages::MessageBytes;
use of_wire::Bytes;
use std::alloc::{AllocError, Global};
use std::marker::Model;
use std::mem;

/// How many bytes are before the body of a reply.
const HEAD: usize = 16;

/// How many bytes a message has at most.
const MOST: usize = 65535;

/// OFPMPF_REPLY_MORE: more replies follow.
const MORE: u16 = 1;

/// The bytes of a reply, as long as nothing follows its head, which `sealed` writes.
pub(crate) fn begun(alloc: Global) -> Result<Vec<u8>, AllocError>
    ensures { IfOk result (λ v. v.items ≡ replicate 16 0) }
{
    let mut bytes = Vec::new(alloc);
    bytes.extend_from_slice(&[0; HEAD])?;
    Ok(bytes)
}

// What comes before the body: version 4, type 19, the length, the transaction id, the type of the request, flags, padding.
#[tactic(auto, unfolding(crate::specs::Replies::head_bytes))]
fn head_of(length: u16, xid: u32, kind: u16, flags: u16) -> [u8; HEAD]
    ensures { result ≡ head_bytes length xid kind flags }
{
    let mut head = [0; HEAD];
    head[0] = 4;
    head[1] = MULTIPART_REPLY;
    BigEndian::write_u16(&mut head[2..], length);
    BigEndian::write_u32(&mut head[4..], xid);
    BigEndian::write_u16(&mut head[8..], kind);
    BigEndian::write_u16(&mut head[10..], flags);
    head
}

// The first bytes become these.
fn put_front(bytes: &mut [u8], front: &[u8])
    requires { length front.now ≤ length bytes.old }
    ensures bytes { bytes.new ≡ front.now ++ drop (length front.now) bytes.old }
    ensures length { length bytes.new ≡ length bytes.old }
{
    bytes[..front.len()].copy_from_slice(front);
}

/// The reply whose body these bytes have after a head that is written now (OpenFlow 1.3.5, 7.1 and 7.3.5).
pub(crate) fn sealed(mut bytes: Vec<u8>, xid: u32, kind: u16, flags: u16) -> MessageBytes
    requires head { 16 ≤ length bytes.items }
    requires short { length bytes.items ≤ 65535 }
    ensures { result ≡ reply xid kind flags (drop 16 bytes.items) }
{
    let head = head_of(bytes.len() as u16, xid, kind, flags);
    put_front(&mut bytes, &head);
    MessageBytes::new(Bytes::new(bytes))
}

/// Replies that are being written: those that are full, and the one that takes the next row where that fits.
#[derive(Drop)]
pub(crate) struct Replies {
    alloc: Global,
    xid: u32,
    kind: u16,
    full: Vec<MessageBytes>,
    open: Vec<u8>,
}

impl Model for Replies {
    ghost use Rattle.std.specs.Prelude.{◌≤◌, drop, length};
    ghost use Rattle.of_statistics.specs.Replies.{Draft};

    ghost Value = { Draft };

    ghost view = { λ r. record { xid = r.xid; kind = r.kind; full = r.full.items; rows = drop 16 r.open.items } };

    ghost invariant = { λ r. (16 ≤ length r.open.items) × (length r.open.items ≤ 65535) };
}

impl Replies {
    /// Without rows.
    pub(crate) fn new(alloc: Global, xid: u32, kind: u16) -> Result<Replies, AllocError>
        ensures { IfOk result (λ r. r ≡ empty_draft xid kind) }
    {
        Ok(Replies {
            alloc,
            xid,
            kind,
            full: Vec::new(alloc),
            open: begun(alloc)?,
        })
    }

    /// One more row.
    pub(crate) fn push(&mut self, row: &[u8]) -> Result<(), AllocError>
        requires { length row.now ≤ 65519 }
        ensures { OnOk result (self.new ≡ with_row self.old row.now) }
    {
        if self.open.len() + row.len() > MOST {
            let full = mem::replace(&mut self.open, begun(self.alloc)?);
            self.full.push(sealed(full, self.xid, self.kind, MORE))?;
        }
        self.open.extend_from_slice(row)
    }

    /// All replies. The last one is without a flag.
    pub(crate) fn close(self) -> Result<Vec<MessageBytes>, AllocError>
        ensures { IfOk result (λ v. v.items ≡ closed self) }
    {
        let mut replies = self.full;
        replies.push(sealed(self.open, self.xid, self.kind, 0))?;
        Ok(replies)
    }
}
