//! The bytes of a FLOW_MOD, as a controller sends it.
ghost use Rattle.std.specs.Prelude.{◌≡◌, ◌++◌, ◌∷◌, [], OnOk, IfOk, replicate};
ghost use Rattle.byteorder.specs.Endian.{big_bytes};
ghost use Rattle.of_messages.specs.Written.{command_number, flow_mod_bytes, flow_mod_fixed_part};

use crate::message::{FlowMod, FlowModCommand};
use crate::writing::put_header;
use of_actions::write_instructions;
use of_formats::messages::FLOW_MOD;
use of_oxm::write_match;
use of_wire::{Bytes, put_u16, put_u32, put_u64};
use std::alloc::{AllocError, Global};

fn number_of(command: FlowModCommand) -> u8
    ensures { result ≡ command_number command }
{
    match command {
        FlowModCommand::Add => 0,
        FlowModCommand::Modify { strict } => 1 + u8::from(strict),
        FlowModCommand::Delete { strict } => 3 + u8::from(strict),
    }
}

// The first half: cookies, table, command and timeouts.
fn put_head(out: &mut Vec<u8>, m: &FlowMod) -> Result<(), AllocError>
    ensures { OnOk result (out.new.items ≡ out.old.items ++ (big_bytes 8 m.now.cookie ++
        (big_bytes 8 m.now.cookie_mask ++ ((m.now.table ∷ command_number m.now.command ∷ []) ++
        (big_bytes 2 m.now.idle_timeout ++ big_bytes 2 m.now.hard_timeout))))) }
{
    put_u64(out, m.cookie)?;
    put_u64(out, m.cookie_mask)?;
    out.extend_from_slice(&[m.table, number_of(m.command)])?;
    put_u16(out, m.idle_timeout)?;
    put_u16(out, m.hard_timeout)
}

// The second half: from the priority to the padding.
fn put_tail(out: &mut Vec<u8>, m: &FlowMod) -> Result<(), AllocError>
    ensures { OnOk result (out.new.items ≡ out.old.items ++ (big_bytes 2 m.now.priority ++
        (big_bytes 4 m.now.buffer ++ (big_bytes 4 m.now.out_port ++ (big_bytes 4 m.now.out_group ++ (big_bytes 2 m.now.flags ++ replicate 2 0)))))) }
{
    put_u16(out, m.priority)?;
    put_u32(out, m.buffer)?;
    put_u32(out, m.out_port)?;
    put_u32(out, m.out_group)?;
    put_u16(out, m.flags)?;
    put_u16(out, 0)
}

// The fields before the match, 40 bytes.
fn put_front(out: &mut Vec<u8>, m: &FlowMod) -> Result<(), AllocError>
    ensures { OnOk result (out.new.items ≡ out.old.items ++ flow_mod_fixed_part m.now) }
{
    put_head(out, m)?;
    put_tail(out, m)
}

/// A FLOW_MOD (OpenFlow 1.3.5, 7.3.4.1), its match and instructions in the one encoding that is written.
#[tactic(auto, using(crate::proofs::Appended::length_flow_mod))]
pub fn write_flow_mod(alloc: Global, xid: u32, m: &FlowMod) -> Result<Bytes, AllocError>
    ensures { IfOk result (λ bytes. bytes ≡ flow_mod_bytes xid m.now) }
{
    let fields = write_match(alloc, &m.fields)?;
    let instructions = write_instructions(alloc, &m.instructions)?;
    let mut out = Vec::new(alloc);
    put_header(
        &mut out,
        FLOW_MOD,
        48 + fields.len() + instructions.len(),
        xid,
    )?;
    put_front(&mut out, m)?;
    out.extend_from_slice(&fields)?;
    out.extend_from_slice(&instructions)?;
    Ok(Bytes::new(out))
}
