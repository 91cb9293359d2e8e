//! Messages of a fixed size (OpenFlow 1.3.5, 7.3.2, 7.3.3, 7.3.4.3, 7.3.9 and 7.3.10).
ghost use Rattle.std.specs.Prelude.{◌≡◌, ◌++◌, true, IfOk, OnOk};
ghost use Rattle.byteorder.specs.Endian.{big_bytes};
ghost use Rattle.of_messages.specs.declared.message.Message.TheVariants.{SetConfig, PortMod as IsPortMod, TableMod as IsTableMod, RoleRequest as IsRoleRequest, SetAsync};
ghost use Rattle.of_laws.specs.{Cells.canonical_cells, Cells.FitsCells, Grammar.message_cells, Grammar.role_cells, Sound.is_sound, Written.IsWritten, Written.masks_cells};

use crate::header::begin;
use of_formats::messages::{PORT_MOD, ROLE_REQUEST, SET_ASYNC, SET_CONFIG, TABLE_MOD};
use of_messages::{
    AsyncMasks, PortMod, RoleMasks, RoleRequest, SwitchConfig, TableMod, put_role_masks,
};
use of_wire::{Bytes, put_u16, put_u32, put_u64};
use std::alloc::{AllocError, Global};

fn put_set_config(out: &mut Vec<u8>, config: SwitchConfig) -> Result<(), AllocError>
    ensures text { OnOk result (out.new.items ≡ out.old.items ++ canonical_cells (message_cells (SetConfig config))) }
    ensures fits { FitsCells (message_cells (SetConfig config)) }
{
    put_u16(out, 0)?;
    put_u16(out, config.miss_send_len)
}

/// A SET_CONFIG, without flags (OpenFlow 1.3.5, 7.3.2).
pub(crate) fn write_set_config(
    alloc: Global,
    xid: u32,
    config: SwitchConfig,
) -> Result<Bytes, AllocError>
    ensures { IfOk result (IsWritten xid (SetConfig config)) }
{
    let mut out = begin(alloc, SET_CONFIG, 4, xid)?;
    put_set_config(&mut out, config)?;
    Ok(Bytes::new(out))
}

fn put_table_mod(out: &mut Vec<u8>, m: TableMod) -> Result<(), AllocError>
    ensures text { OnOk result (out.new.items ≡ out.old.items ++ canonical_cells (message_cells (IsTableMod m))) }
    ensures fits { FitsCells (message_cells (IsTableMod m)) }
{
    out.extend_from_slice(&[m.table, 0, 0, 0])?;
    put_u32(out, m.config)
}

/// A TABLE_MOD (OpenFlow 1.3.5, 7.3.3).
pub(crate) fn write_table_mod(alloc: Global, xid: u32, m: TableMod) -> Result<Bytes, AllocError>
    requires { is_sound (IsTableMod m) ≡ true }
    ensures { IfOk result (IsWritten xid (IsTableMod m)) }
{
    let mut out = begin(alloc, TABLE_MOD, 8, xid)?;
    put_table_mod(&mut out, m)?;
    Ok(Bytes::new(out))
}

fn put_port_mod(out: &mut Vec<u8>, m: PortMod) -> Result<(), AllocError>
    ensures text { OnOk result (out.new.items ≡ out.old.items ++ canonical_cells (message_cells (IsPortMod m))) }
    ensures fits { FitsCells (message_cells (IsPortMod m)) }
{
    put_u32(out, m.port)?;
    put_u32(out, 0)?;
    out.extend_from_slice(&m.hw)?;
    put_u16(out, 0)?;
    put_u32(out, m.config)?;
    put_u32(out, m.mask)?;
    put_u64(out, 0)
}

/// A PORT_MOD, which advertises no features (OpenFlow 1.3.5, 7.3.4.3).
pub(crate) fn write_port_mod(alloc: Global, xid: u32, m: PortMod) -> Result<Bytes, AllocError>
    requires { is_sound (IsPortMod m) ≡ true }
    ensures { IfOk result (IsWritten xid (IsPortMod m)) }
{
    let mut out = begin(alloc, PORT_MOD, 32, xid)?;
    put_port_mod(&mut out, m)?;
    Ok(Bytes::new(out))
}

// The number of a role, and its generation_id, or 0.
fn role_numbers(request: RoleRequest) -> (u32, u64)
    ensures text { big_bytes 4 result.0 ++ (big_bytes 4 0 ++ big_bytes 8 result.1) ≡ canonical_cells (role_cells request) }
    ensures fits { FitsCells (role_cells request) }
{
    match request {
        RoleRequest::NoChange => (0, 0),
        RoleRequest::Equal => (1, 0),
        RoleRequest::Master { generation } => (2, generation),
        RoleRequest::Slave { generation } => (3, generation),
    }
}

/// A ROLE_REQUEST (OpenFlow 1.3.5, 7.3.9).
pub(crate) fn write_role_request(
    alloc: Global,
    xid: u32,
    request: RoleRequest,
) -> Result<Bytes, AllocError>
    ensures { IfOk result (IsWritten xid (IsRoleRequest request)) }
{
    let (role, generation) = role_numbers(request);
    let mut out = begin(alloc, ROLE_REQUEST, 16, xid)?;
    put_u32(&mut out, role)?;
    put_u32(&mut out, 0)?;
    put_u64(&mut out, generation)?;
    Ok(Bytes::new(out))
}

fn put_masks(out: &mut Vec<u8>, masks: RoleMasks) -> Result<(), AllocError>
    ensures text { OnOk result (out.new.items ≡ out.old.items ++ canonical_cells (masks_cells masks)) }
    ensures fits { FitsCells (masks_cells masks) }
{
    put_role_masks(out, masks)
}

/// A SET_ASYNC (OpenFlow 1.3.5, 7.3.10).
pub(crate) fn write_set_async(
    alloc: Global,
    xid: u32,
    masks: AsyncMasks,
) -> Result<Bytes, AllocError>
    ensures { IfOk result (IsWritten xid (SetAsync masks)) }
{
    let mut out = begin(alloc, SET_ASYNC, 24, xid)?;
    put_masks(&mut out, masks.packet_in)?;
    put_masks(&mut out, masks.port_status)?;
    put_masks(&mut out, masks.flow_removed)?;
    Ok(Bytes::new(out))
}
