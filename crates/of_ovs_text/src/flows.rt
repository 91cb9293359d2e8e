//! Flows as lines that `ovs-ofctl add-flows` reads (ovs-ofctl(8)).
ghost use Rattle.std.specs.{Prelude.◌≡◌, Prelude.◌++◌, Prelude.OnOk, List.flat_map};
ghost use Rattle.of_text.specs.Views.{view, view_flows};
ghost use Rattle.of_ovs_text.specs.Flows.{cookie_part, flag_part, flags_part, flow_head_words, flow_line};

use crate::actions::push_instructions;
use crate::fields::push_match;
use crate::parts::{push_named, push_part, push_unless};
use of_text::{FlowHead, FlowText};
use of_values::push_hexadecimal;
use std::alloc::AllocError;

fn push_cookie(out: &mut Vec<u8>, cookie: u64) -> Result<(), AllocError>
    ensures { OnOk result (out.new.items ≡ out.old.items ++ cookie_part cookie) }
{
    if cookie == 0 {
        return Ok(());
    }
    out.extend_from_slice(b"cookie=")?;
    push_hexadecimal(out, 1, u128::from(cookie))?;
    out.extend_from_slice(b",")
}

fn push_flag(out: &mut Vec<u8>, name: &[u8], flags: u16, flag: u16) -> Result<(), AllocError>
    ensures { OnOk result (out.new.items ≡ out.old.items ++ flag_part name.now flags flag) }
{
    if flags & flag == 0 {
        Ok(())
    } else {
        out.extend_from_slice(name)
    }
}

#[tactic(auto, unfolding(crate::specs::Flows::flags_part))]
fn push_flags(out: &mut Vec<u8>, flags: u16) -> Result<(), AllocError>
    ensures { OnOk result (out.new.items ≡ out.old.items ++ flags_part flags) }
{
    push_flag(out, b"send_flow_rem,", flags, 1)?;
    push_flag(out, b"no_packet_counts,", flags, 8)?;
    push_flag(out, b"no_byte_counts,", flags, 16)
}

#[tactic(auto, unfolding(crate::specs::Flows::flow_head_words))]
fn push_head(out: &mut Vec<u8>, head: FlowHead) -> Result<(), AllocError>
    ensures { OnOk result (out.new.items ≡ out.old.items ++ flow_head_words head) }
{
    push_cookie(out, head.cookie)?;
    push_part(out, b"table=", u128::from(head.table))?;
    push_unless(out, b"idle_timeout=", 0, u32::from(head.idle))?;
    push_unless(out, b"hard_timeout=", 0, u32::from(head.hard))?;
    push_flags(out, head.flags)?;
    push_named(out, b"priority=", u128::from(head.priority))
}

// Appends the line of a flow.
#[tactic(auto, unfolding(crate::specs::Flows::flow_line))]
fn push_flow(out: &mut Vec<u8>, flow: &FlowText) -> Result<(), AllocError>
    ensures { OnOk result (out.new.items ≡ out.old.items ++ flow_line (view flow.now)) }
{
    push_head(out, flow.head)?;
    push_match(out, &flow.fields)?;
    out.extend_from_slice(b",actions=")?;
    push_instructions(out, &flow.instructions)?;
    out.extend_from_slice(b"\n")
}

/// Appends a line for each flow.
pub fn push_flow_lines(out: &mut Vec<u8>, flows: &[FlowText]) -> Result<(), AllocError>
    ensures { OnOk result (out.new.items ≡ out.old.items ++ flat_map flow_line (view_flows flows.now)) }
{
    for flow in flows {
        push_flow(out, flow)?;
    }
    Ok(())
}
