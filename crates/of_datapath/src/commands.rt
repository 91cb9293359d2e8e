//! FLOW_MOD commands in terms of the flow tables (OpenFlow 1.3.5, 6.4), and notices of removed entries (7.4.2).

ghost use Rattle.std.specs.{Prelude.◌≡◌, Prelude.OnOk, Prelude.IfOk, List.list_any};
ghost use Rattle.of_table.specs.Selecting.{notice_of, notices_of, has_action};
ghost use Rattle.of_datapath.specs.Commands.{flags_of, flow_of, has_flag as with_flag, is_strict as strict, notice_effect, notice_effects, out_of, removed_of, unless_any as none_for, selector_of, is_to_absent_group as to_absent_group, names_absent_group as naming_absent_group};

use crate::control::{AsyncConfig, lets_through};
use crate::effect::{Effect, Effects};
use of_actions::{Action, Instruction};
use of_groups::Groups;
use of_messages::{FlowMod, FlowModCommand, FlowRemoved, write_flow_removed};
use of_table::{Flow, FlowFlags, NANOS, Removed, Selector};
use of_wire::limits::{
    OFPFF_CHECK_OVERLAP, OFPFF_NO_BYT_COUNTS, OFPFF_NO_PKT_COUNTS, OFPFF_RESET_COUNTS,
    OFPFF_SEND_FLOW_REM, OFPP_ANY, OFPTT_ALL,
};
use std::alloc::{AllocError, Global};

/// Whether a FLOW_MOD's flags have this one (OpenFlow 1.3.5, 7.3.4.1).
pub fn has_flag(flags: u16, flag: u16) -> bool
    ensures { result ≡ with_flag flags flag }
{
    flags & flag != 0
}

fn flags_from(flags: u16) -> FlowFlags
    ensures { result ≡ flags_of flags }
{
    FlowFlags {
        send_removed: has_flag(flags, OFPFF_SEND_FLOW_REM),
        check_overlap: has_flag(flags, OFPFF_CHECK_OVERLAP),
        reset_counts: has_flag(flags, OFPFF_RESET_COUNTS),
        no_packet_counts: has_flag(flags, OFPFF_NO_PKT_COUNTS),
        no_byte_counts: has_flag(flags, OFPFF_NO_BYT_COUNTS),
    }
}

fn is_to_absent_group(action: Action, groups: &Groups) -> bool
    ensures { result ≡ to_absent_group groups.now action }
{
    match action {
        Action::Group(group) => groups.group(group).is_none(),
        _ => false,
    }
}

/// Whether some action sends the packet to a group that does not exist.
pub fn any_to_absent_group(actions: &[Action], groups: &Groups) -> bool
    ensures { result ≡ list_any (to_absent_group groups.now) actions.now }
{
    actions
        .iter()
        .any(|action| is_to_absent_group(*action, groups))
}

fn instruction_names_absent_group(instruction: &Instruction, groups: &Groups) -> bool
    ensures { result ≡ has_action (to_absent_group groups.now) instruction.now }
{
    match instruction {
        Instruction::Apply(actions) | Instruction::Write(actions) => {
            any_to_absent_group(actions.as_slice(), groups)
        }
        _ => false,
    }
}

/// Whether some action of the instructions sends the packet to a group that does not exist.
pub fn names_absent_group(instructions: &[Instruction], groups: &Groups) -> bool
    ensures { result ≡ naming_absent_group groups.now instructions.now }
{
    instructions.iter().any(|instruction| instruction_names_absent_group(instruction, groups))
}

/// The flow that a FLOW_MOD adds (OpenFlow 1.3.5, 6.4).
pub fn flow_from(flow_mod: FlowMod) -> Flow
    ensures { result ≡ flow_of flow_mod }
{
    Flow {
        fields: flow_mod.fields,
        priority: flow_mod.priority,
        cookie: flow_mod.cookie,
        idle_timeout: flow_mod.idle_timeout,
        hard_timeout: flow_mod.hard_timeout,
        flags: flags_from(flow_mod.flags),
        instructions: flow_mod.instructions,
    }
}

fn is_strict(command: FlowModCommand) -> bool
    ensures { result ≡ strict command }
{
    match command {
        FlowModCommand::Add => false,
        FlowModCommand::Modify { strict } | FlowModCommand::Delete { strict } => strict,
    }
}

fn out_from(command: FlowModCommand, number: u32) -> Option<u32>
    ensures { result ≡ out_of command number }
{
    if command.is_delete() && number != OFPP_ANY {
        Some(number)
    } else {
        None
    }
}

/// The entries that a MODIFY or DELETE command selects (OpenFlow 1.3.5, 6.4).
pub fn which_from(flow_mod: FlowMod) -> Selector
    ensures { result ≡ selector_of flow_mod }
{
    Selector {
        table: if flow_mod.table == OFPTT_ALL {
            None
        } else {
            Some(flow_mod.table)
        },
        priority: if is_strict(flow_mod.command) {
            Some(flow_mod.priority)
        } else {
            None
        },
        cookie: flow_mod.cookie,
        cookie_mask: flow_mod.cookie_mask,
        out_port: out_from(flow_mod.command, flow_mod.out_port),
        out_group: out_from(flow_mod.command, flow_mod.out_group),
        fields: flow_mod.fields,
    }
}

fn removed_from(removed: &Removed<'_>, now: u64) -> FlowRemoved
    ensures { result ≡ removed_of now (notice_of removed.now) }
{
    let entry = &removed.entry;
    let age = now.saturating_sub(entry.created);
    FlowRemoved {
        cookie: entry.flow.cookie,
        priority: entry.flow.priority,
        reason: removed.reason,
        table: removed.table,
        duration_sec: (age / NANOS % 0x1_0000_0000) as u32,
        duration_nsec: (age % NANOS) as u32,
        idle_timeout: entry.flow.idle_timeout,
        hard_timeout: entry.flow.hard_timeout,
        packets: entry.packets,
        bytes: entry.bytes,
    }
}

fn notice(alloc: Global, removed: &Removed<'_>, now: u64) -> Result<Effect, AllocError>
    ensures { IfOk result (λ effect. effect ≡ notice_effect now (notice_of removed.now)) }
{
    let told = removed_from(removed, now);
    Ok(Effect::Answer(write_flow_removed(alloc, 0, &told, &removed.entry.flow.fields)?))
}

/// The FLOW_REMOVED messages of removed entries, in their order: those that the controller's mask lets pass.
pub fn notices(
    alloc: Global,
    heard: AsyncConfig,
    removed: &[Removed<'_>],
    now: u64,
) -> Result<Effects, AllocError>
    ensures { IfOk result (λ effects. effects.items ≡ notice_effects heard now (notices_of removed.now)) }
{
    let mut effects = Effects::new(alloc);
    for one in removed {
        if lets_through(heard.flow_removed, one.reason.bit()) {
            effects.push(notice(alloc, one, now)?)?;
        }
    }
    Ok(effects)
}
