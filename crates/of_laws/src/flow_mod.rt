//! FLOW_MOD (OpenFlow 1.3.5, 7.3.4.1).
ghost use Rattle.std.specs.Prelude.{◌≡◌, ◌<◌, ◌^◌, true, IfOk};
ghost use Rattle.of_messages.specs.declared.message.Message.TheVariants.{FlowMod as IsFlowMod};
ghost use Rattle.of_laws.specs.{Cells.FitsCells, Grammar.flow_mod_cells, Sound.is_sound, Written.IsWritten};

use of_messages::{FlowMod, write_flow_mod};
use of_wire::Bytes;
use std::alloc::{AllocError, Global};

// Its first numbers are such as their types hold.
fn first_known(m: &FlowMod)
    ensures cookie { m.now.cookie < 256 ^ 8 }
    ensures cookie_mask { m.now.cookie_mask < 256 ^ 8 }
    ensures table { m.now.table < 256 }
    ensures idle_timeout { m.now.idle_timeout < 256 ^ 2 }
    ensures hard_timeout { m.now.hard_timeout < 256 ^ 2 }
{
    let _cookie = m.cookie;
    let _cookie_mask = m.cookie_mask;
    let _table = m.table;
    let _idle_timeout = m.idle_timeout;
    let _hard_timeout = m.hard_timeout;
}

// And so are the others.
fn last_known(m: &FlowMod)
    ensures priority { m.now.priority < 256 ^ 2 }
    ensures buffer { m.now.buffer < 256 ^ 4 }
    ensures out_port { m.now.out_port < 256 ^ 4 }
    ensures out_group { m.now.out_group < 256 ^ 4 }
    ensures flags { m.now.flags < 256 ^ 2 }
{
    let _priority = m.priority;
    let _buffer = m.buffer;
    let _out_port = m.out_port;
    let _out_group = m.out_group;
    let _flags = m.flags;
}

fn known(m: &FlowMod)
    ensures { FitsCells (flow_mod_cells m.now) }
{
    first_known(m);
    last_known(m);
}

/// A FLOW_MOD that a controller may send (OpenFlow 1.3.5, 7.3.4.1).
pub(crate) fn write_sound_flow_mod(
    alloc: Global,
    xid: u32,
    m: &FlowMod,
) -> Result<Bytes, AllocError>
    requires { is_sound (IsFlowMod m.now) ≡ true }
    ensures { IfOk result (IsWritten xid (IsFlowMod m.now)) }
{
    known(m);
    m.fields.known();
    let _instructions = m.instructions.as_slice();
    write_flow_mod(alloc, xid, m)
}
