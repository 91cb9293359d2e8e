//! MULTIPART_REQUEST (OpenFlow 1.3.5, 7.3.5).
ghost use Rattle.std.specs.Prelude.{◌≡◌, ◌<◌, ◌^◌, ◌+◌, ◌++◌, ◌∷◌, [], true, length, IfOk, OnOk};
ghost use Rattle.of_oxm.specs.{Canonical.canonical, NormalForm.IsMatch};
ghost use Rattle.of_messages.specs.{Written.message_header, declared.message.Message.TheVariants.Multipart};
ghost use Rattle.of_laws.specs.Cells.{canonical_cells, FitsCells, byte, u16_cell, u32_cell, u64_cell, even, pad};
ghost use Rattle.of_laws.specs.{Requests.flows_cells, Sound.is_sound, Written.IsWritten};

use crate::header::begin;
use of_formats::messages::MULTIPART_REQUEST;
use of_messages::{FlowStatsRequest, MultipartRequest};
use of_oxm::write_match;
use of_wire::limits::{OFPG_ALL, OFPP_ANY};
use of_wire::{Bytes, put_u16, put_u32, put_u64};
use std::alloc::{AllocError, Global};

// The type of a request, no flags, and padding.
fn put_type(out: &mut Vec<u8>, number: u16) -> Result<(), AllocError>
    ensures { OnOk result (out.new.items ≡ out.old.items ++ canonical_cells (u16_cell number ∷ even 2 ∷ pad 4 ∷ [])) }
{
    put_u16(out, number)?;
    put_u16(out, 0)?;
    put_u32(out, 0)
}

// A request without a body.
fn write_bare(alloc: Global, xid: u32, number: u16) -> Result<Bytes, AllocError>
    ensures { IfOk result (λ bytes. bytes ≡ message_header MULTIPART_REQUEST 16 xid ++ canonical_cells (u16_cell number ∷ even 2 ∷ pad 4 ∷ [])) }
{
    let mut out = begin(alloc, MULTIPART_REQUEST, 8, xid)?;
    put_type(&mut out, number)?;
    Ok(Bytes::new(out))
}

// A request for a port or a group.
fn write_asked(alloc: Global, xid: u32, number: u16, asked: u32) -> Result<Bytes, AllocError>
    ensures text { IfOk result (λ bytes. bytes ≡
        message_header MULTIPART_REQUEST 24 xid ++ canonical_cells (u16_cell number ∷ even 2 ∷ pad 4 ∷ u32_cell asked ∷ pad 4 ∷ [])) }
    ensures fits { asked < 256 ^ 4 }
{
    let mut out = begin(alloc, MULTIPART_REQUEST, 16, xid)?;
    put_type(&mut out, number)?;
    put_u32(&mut out, asked)?;
    put_u32(&mut out, 0)?;
    Ok(Bytes::new(out))
}

// A table, and padding.
fn put_table(out: &mut Vec<u8>, table: u8) -> Result<(), AllocError>
    ensures text { OnOk result (out.new.items ≡ out.old.items ++ canonical_cells (byte table ∷ pad 3 ∷ [])) }
    ensures fits { table < 256 }
{
    out.extend_from_slice(&[table, 0, 0, 0])
}

// The first 16 bytes of a request for flows.
fn put_outputs(out: &mut Vec<u8>, r: &FlowStatsRequest) -> Result<(), AllocError>
    ensures text { let fields = byte r.now.table ∷ pad 3 ∷ u32_cell r.now.out_port ∷ u32_cell r.now.out_group ∷ pad 4 ∷ [] in
        OnOk result (out.new.items ≡ out.old.items ++ canonical_cells fields) }
    ensures fits { OnOk result (FitsCells (byte r.now.table ∷ u32_cell r.now.out_port ∷ u32_cell r.now.out_group ∷ [])) }
{
    put_table(out, r.table)?;
    put_u32(out, r.out_port)?;
    put_u32(out, r.out_group)?;
    put_u32(out, 0)
}

// The next 16 bytes.
fn put_cookies(out: &mut Vec<u8>, r: &FlowStatsRequest) -> Result<(), AllocError>
    ensures text { OnOk result (out.new.items ≡ out.old.items ++ canonical_cells (u64_cell r.now.cookie ∷ u64_cell r.now.cookie_mask ∷ [])) }
    ensures fits { OnOk result (FitsCells (u64_cell r.now.cookie ∷ u64_cell r.now.cookie_mask ∷ [])) }
{
    put_u64(out, r.cookie)?;
    put_u64(out, r.cookie_mask)
}

// The fields of a request for flows before its match, 32 bytes.
fn put_flows(out: &mut Vec<u8>, r: &FlowStatsRequest) -> Result<(), AllocError>
    ensures text { OnOk result (out.new.items ≡ out.old.items ++ canonical_cells (flows_cells r.now)) }
    ensures fits { OnOk result (FitsCells (flows_cells r.now)) }
{
    put_outputs(out, r)?;
    put_cookies(out, r)
}

// A request for flows.
fn write_flows(
    alloc: Global,
    xid: u32,
    number: u16,
    r: &FlowStatsRequest,
) -> Result<Bytes, AllocError>
    ensures text { let fields = canonical r.now.fields in
        let front = canonical_cells (u16_cell number ∷ even 2 ∷ pad 4 ∷ flows_cells r.now) in
        IfOk result (λ bytes. bytes ≡ message_header MULTIPART_REQUEST (8 + (40 + length fields)) xid ++ (front ++ fields)) }
    ensures fits { OnOk result (FitsCells (flows_cells r.now)) }
    ensures fields { IsMatch r.now.fields }
{
    r.fields.known();
    let fields = write_match(alloc, &r.fields)?;
    let mut out = begin(alloc, MULTIPART_REQUEST, 40 + fields.len(), xid)?;
    put_type(&mut out, number)?;
    put_flows(&mut out, r)?;
    out.extend_from_slice(&fields)?;
    Ok(Bytes::new(out))
}

/// A MULTIPART_REQUEST, without flags (OpenFlow 1.3.5, 7.3.5).
pub(crate) fn write_multipart(
    alloc: Global,
    xid: u32,
    request: &MultipartRequest,
) -> Result<Bytes, AllocError>
    requires { is_sound (Multipart request.now) ≡ true }
    ensures { IfOk result (IsWritten xid (Multipart request.now)) }
{
    match request {
        MultipartRequest::Description => write_bare(alloc, xid, 0),
        MultipartRequest::Flow(r) => write_flows(alloc, xid, 1, r),
        MultipartRequest::Aggregate(r) => write_flows(alloc, xid, 2, r),
        MultipartRequest::Table => write_bare(alloc, xid, 3),
        MultipartRequest::PortStats(port) => write_asked(alloc, xid, 4, port.unwrap_or(OFPP_ANY)),
        MultipartRequest::Group(group) => write_asked(alloc, xid, 6, group.unwrap_or(OFPG_ALL)),
        MultipartRequest::GroupDescription => write_bare(alloc, xid, 7),
        MultipartRequest::GroupFeatures => write_bare(alloc, xid, 8),
        MultipartRequest::PortDescription => write_bare(alloc, xid, 13),
    }
}
