//! Buckets from bytes (OpenFlow 1.3.5, 7.3.4.2).
ghost use Rattle.std.specs.Prelude.{◌≡◌, ◌≤◌, false, length, IsTrue, IfOk, OnOk, IfErr, Some, None};
ghost use Rattle.of_wire.specs.{Failures.Fails, Failures.Reads, Refusals.first_of};
ghost use Rattle.of_actions.specs.Supported.{are_supported};
ghost use Rattle.of_messages.specs.Buckets.{bucket_of_bytes, bucket_refusals, buckets_said, bucket_len_at};

use crate::reading::rest_from;
use byteorder::{BigEndian, ByteOrder};
use of_actions::read_actions;
use of_groups::{Bucket, Buckets};
use of_wire::ReadError;
use of_wire::codes::{OFPGMFC_BAD_BUCKET, OFPGMFC_OUT_OF_BUCKETS};
use std::alloc::Global;

// The bucket that the bytes begin with, and its size.
#[tactic(auto, unfolding(crate::specs::Buckets::bucket_refusals, crate::specs::Buckets::bucket_of_bytes))]
fn read_bucket(alloc: Global, rest: &[u8], seen: &[Bucket]) -> Result<(Bucket, usize), ReadError>
    ensures size { IfOk result (λ read. read.1 ≡ bucket_len_at rest.now) }
    ensures some { IfOk result (λ read. 16 ≤ read.1) }
    ensures whole { IfOk result (λ read. read.1 ≤ length rest.now) }
    ensures room { OnOk result (length seen.now ≤ 15) }
    ensures none { OnOk result (first_of (bucket_refusals seen.now rest.now) ≡ None) }
    ensures bucket { IfOk result (λ read. bucket_of_bytes rest.now ≡ Some read.0) }
    ensures served { IfOk result (λ read. IsTrue (are_supported false read.0.actions)) }
    ensures first { IfErr result (Fails (λ code. first_of (bucket_refusals seen.now rest.now) ≡ Some code)) }
{
    if seen.len() > 15 {
        return Err(ReadError::Refused(OFPGMFC_OUT_OF_BUCKETS));
    }
    if rest.len() < 16 {
        return Err(ReadError::Refused(OFPGMFC_BAD_BUCKET));
    }
    let len = BigEndian::read_u16(rest) as usize;
    if len < 16 || len % 8 != 0 || rest.len() < len {
        return Err(ReadError::Refused(OFPGMFC_BAD_BUCKET));
    }
    let (bytes, _) = rest_from(rest, 16).split_at(len - 16);
    let actions = read_actions(alloc, bytes, false)?;
    let bucket = Bucket {
        weight: BigEndian::read_u16(rest_from(rest, 2)),
        watch_port: BigEndian::read_u32(rest_from(rest, 4)),
        watch_group: BigEndian::read_u32(rest_from(rest, 8)),
        actions,
        packets: 0,
        bytes: 0,
    };
    Ok((bucket, len))
}

/// All of the bytes as buckets, which are refused one by one.
pub(crate) fn read_buckets(alloc: Global, bytes: &[u8]) -> Result<Buckets, ReadError>
    ensures { Reads result (buckets_said bytes.now) }
{
    let mut buckets = Buckets::new(alloc);
    let mut rest = bytes;
    while !rest.is_empty() {
        match read_bucket(alloc, rest, buckets.as_slice()) {
            Err(e) => return Err(e),
            Ok((bucket, size)) => {
                rest = rest_from(rest, size);
                buckets.push(bucket)?;
            }
        }
    }
    Ok(buckets)
}
