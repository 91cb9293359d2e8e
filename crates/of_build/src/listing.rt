//! The messages that build a configuration.
ghost use Rattle.std.specs.Prelude.{◌≡◌, ◌<◌, ◌≤◌, ◌+◌, ◌^◌, ◌++◌, true, IfOk, OnOk, length, map};
ghost use Rattle.std.specs.List.{AllByRecursion, list_all};
ghost use Rattle.of_groups.specs.{Buckets.are_fit, Chains.chain, Sound.is_fit_group};
ghost use Rattle.of_messages.specs.Written.{flow_mod_bytes};
ghost use Rattle.of_text.specs.{Configs.all_flows, Groups.buckets_of, Groups.group_rows, Groups.groups_at, Kept.IsEntry, Rows.Fits, Views.view, Views.view_flows, Views.view_group, Views.view_groups};
ghost use Rattle.of_build.specs.Listing.{add_of, flow_adds, group_adds, in_turn, messages_of, new_group_text, of_length, those};

use of_groups::{Group, chain_lengths};
use of_messages::{FlowMod, FlowModCommand, NewGroup, write_flow_mod, write_group_mod};
use of_text::{Config, FlowText, GroupText};
use of_wire::Bytes;
use of_wire::limits::{OFP_NO_BUFFER, OFPG_ANY, OFPP_ANY, TABLES};
use std::alloc::{AllocError, Global};

// The FLOW_MOD that adds a flow of that table.
fn flow_message(alloc: Global, xid: u32, table: u8, flow: &FlowText) -> Result<Bytes, AllocError>
    requires { IsEntry table (view flow.now) }
    ensures { IfOk result (λ bytes. bytes ≡ flow_mod_bytes xid (add_of (view flow.now))) }
{
    let _ = table;
    let flow_mod = FlowMod {
        cookie: flow.head.cookie,
        cookie_mask: 0,
        table: flow.head.table,
        command: FlowModCommand::Add,
        idle_timeout: flow.head.idle,
        hard_timeout: flow.head.hard,
        priority: flow.head.priority,
        buffer: OFP_NO_BUFFER,
        out_port: OFPP_ANY,
        out_group: OFPG_ANY,
        flags: flow.head.flags,
        fields: flow.to_match()?,
        instructions: flow.to_instructions()?,
    };
    write_flow_mod(alloc, xid, &flow_mod)
}

// Appends a message for each flow of a table, with transaction ids from this one on, and returns the next.
fn push_flows(
    alloc: Global,
    out: &mut Vec<Bytes>,
    xid: u32,
    table: u8,
    flows: &[FlowText],
) -> Result<u32, AllocError>
    requires entries { AllByRecursion (IsEntry table) (view_flows flows.now) }
    requires few { xid + length flows.now < 2 ^ 32 }
    ensures messages { OnOk result (out.new.items ≡ out.old.items ++ flow_adds xid (view_flows flows.now)) }
    ensures next { IfOk result (λ next. next ≡ xid + length flows.now) }
{
    let mut next = xid;
    for flow in flows {
        out.push(flow_message(alloc, next, table, flow)?)?;
        next += 1;
    }
    Ok(next)
}

// Appends the message that adds a group, if it is wanted, and returns the next transaction id.
fn push_group(
    alloc: Global,
    out: &mut Vec<Bytes>,
    xid: u32,
    wanted: bool,
    group: &GroupText,
) -> Result<u32, AllocError>
    requires fit { are_fit (buckets_of (view_group group.now)) ≡ true }
    requires few { xid + 1 < 2 ^ 32 }
    ensures messages { OnOk result (out.new.items ≡ out.old.items ++ group_adds xid (those wanted (view_group group.now))) }
    ensures next { IfOk result (λ next. next ≡ xid + length (those wanted (view_group group.now))) }
{
    if !wanted {
        return Ok(xid);
    }
    let new_group = NewGroup {
        id: group.head.id,
        kind: group.head.kind,
        buckets: group.to_buckets()?,
    };
    out.push(write_group_mod(alloc, xid, &new_group)?)?;
    Ok(xid + 1)
}

// Appends a message for each group that begins a chain of this length, with transaction ids from this one on, and returns the
// next.
fn push_groups(
    alloc: Global,
    out: &mut Vec<Bytes>,
    xid: u32,
    wanted: u8,
    groups: &[GroupText],
    lengths: &[u8],
) -> Result<u32, AllocError>
    requires fit { list_all is_fit_group (groups_at 0 (view_groups groups.now)) ≡ true }
    requires lengths { lengths.now ≡ map (λ g. chain (groups_at 0 (view_groups groups.now)) g.id) (groups_at 0 (view_groups groups.now)) }
    requires few { xid + length groups.now < 2 ^ 32 }
    ensures messages { OnOk result (out.new.items ≡ out.old.items ++ group_adds xid (of_length (view_groups groups.now) wanted (view_groups groups.now))) }
    ensures next { IfOk result (λ next. next ≡ xid + length (of_length (view_groups groups.now) wanted (view_groups groups.now))) }
    ensures most { IfOk result (λ next. next ≤ xid + length groups.now) }
{
    let mut next = xid;
    let mut place = 0;
    for group in groups {
        next = push_group(alloc, out, next, lengths[place] == wanted, group)?;
        place += 1;
    }
    Ok(next)
}

// Appends a message for each group, in turn, and returns the next transaction id.
fn push_all_groups(alloc: Global, out: &mut Vec<Bytes>, config: &Config) -> Result<u32, AllocError>
    ensures messages { OnOk result (out.new.items ≡ out.old.items ++ group_adds 1 (in_turn config.now.groups)) }
    ensures next { IfOk result (λ next. next ≡ 1 + length (in_turn config.now.groups)) }
    ensures most { IfOk result (λ next. next ≤ 769) }
{
    config.known();
    let made = config.to_groups(0)?;
    let lengths = chain_lengths(alloc, made.groups())?;
    let groups = config.groups();
    let second = push_groups(alloc, out, 1, 1, groups, &lengths)?;
    let third = push_groups(alloc, out, second, 2, groups, &lengths)?;
    let next = push_groups(alloc, out, third, 3, groups, &lengths)?;
    Ok(next)
}

// Appends a message for each flow, with transaction ids from this one on.
fn push_tables(
    alloc: Global,
    out: &mut Vec<Bytes>,
    first: u32,
    config: &Config,
) -> Result<(), AllocError>
    requires { first ≤ 769 }
    ensures { OnOk result (out.new.items ≡ out.old.items ++ flow_adds first (all_flows config.now.tables)) }
{
    config.known();
    let mut xid = first;
    for table in 0..TABLES {
        xid = push_flows(alloc, out, xid, table, config.flows(table))?;
    }
    Ok(())
}

/// The messages that build a configuration on a new switch: a GROUP_MOD for each group (OpenFlow 1.3.5, 7.3.4.2), those with
/// the shortest chains first, and then a FLOW_MOD for each flow (7.3.4.1), by table, and in a table the oldest first.
///
/// They are those of the file that `asm` writes, in its order, with its transaction ids, from 1 on.
#[tactic(auto, unfolding(crate::specs::Listing::messages_of))]
pub fn messages(alloc: Global, config: &Config) -> Result<Vec<Bytes>, AllocError>
    ensures { IfOk result (λ messages. messages.items ≡ messages_of config.now) }
{
    let mut out = Vec::new(alloc);
    let first = push_all_groups(alloc, &mut out, config)?;
    push_tables(alloc, &mut out, first, config)?;
    Ok(out)
}

/// The group that a GROUP_MOD says, as text has it.
pub fn group_text(alloc: Global, group: NewGroup) -> Result<GroupText, AllocError>
    ensures text { IfOk result (λ text. view_group text ≡ new_group_text group) }
    ensures fits { IfOk result (λ text. AllByRecursion Fits (group_rows (view_group text))) }
{
    let NewGroup { id, kind, buckets } = group;
    let group = Group {
        id,
        kind,
        buckets,
        packets: 0,
        bytes: 0,
        created: 0,
    };
    GroupText::of(alloc, &group)
}
