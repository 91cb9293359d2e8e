//! The remarks on a configuration.
ghost use Rattle.std.specs.Prelude.{◌≡◌, ◌++◌, ◌<◌, IfOk, OnOk, take};
ghost use Rattle.std.specs.List.{flat_map, list_any};
ghost use Rattle.of_text.specs.Views.{view, view_flows, view_group, view_groups, view_instruction};
ghost use Rattle.of_check.specs.Remarks.{end_remarks, flow_remarks, flows_remarks, goto_remarks, group_remarks, ingress_remarks, remarks_below, remarks_on as all_remarks, table_remarks, unseen_remarks, where_so};
ghost use Rattle.of_check.specs.{Actions.some_writes_sending, Tables.flows_at, Tables.reached_below};

use crate::actions::{is_used_later, is_written_before, required_port, silent, some_output_to};
use crate::groups::is_named;
use crate::remark::Remark;
use crate::tables::{flows_of, has_miss, is_among, reached_tables};
use of_oxm::MatchField;
use of_text::{Config, FlowText, GroupText, InstructionText};
use of_wire::limits::TABLES;
use std::alloc::{AllocError, Global};

// Appends a remark, where it applies.
fn push_where(out: &mut Vec<Remark>, applies: bool, remark: Remark) -> Result<(), AllocError>
    ensures { OnOk result (out.new.items ≡ out.old.items ++ where_so applies remark) }
{
    if applies {
        out.push(remark)?;
    }
    Ok(())
}

fn push_goto(
    out: &mut Vec<Remark>,
    config: &Config,
    table: u8,
    place: usize,
    instruction: &InstructionText,
) -> Result<(), AllocError>
    ensures { OnOk result (out.new.items ≡ out.old.items ++ goto_remarks config.now.tables table place (view_instruction instruction.now)) }
{
    match instruction {
        InstructionText::Goto(to) => {
            let empty = flows_of(config, *to).is_empty();
            push_where(
                out,
                empty,
                Remark::EmptyGoto {
                    table,
                    place,
                    to: *to,
                },
            )
        }
        InstructionText::Apply(_)
        | InstructionText::Clear
        | InstructionText::Write(_)
        | InstructionText::Metadata { .. } => Ok(()),
    }
}

fn push_gotos(
    out: &mut Vec<Remark>,
    config: &Config,
    table: u8,
    place: usize,
    flow: &FlowText,
) -> Result<(), AllocError>
    ensures { OnOk result (out.new.items ≡ out.old.items ++ flat_map (goto_remarks config.now.tables table place) (view flow.now).instructions) }
{
    for instruction in &flow.instructions {
        push_goto(out, config, table, place, instruction)?;
    }
    Ok(())
}

fn push_port(
    out: &mut Vec<Remark>,
    table: u8,
    place: usize,
    flow: &FlowText,
    e: &MatchField,
) -> Result<(), AllocError>
    ensures { OnOk result (out.new.items ≡ out.old.items ++ ingress_remarks table place (view flow.now).instructions e.now) }
{
    match required_port(e) {
        None => Ok(()),
        Some(port) => {
            let sends = some_output_to(flow, port);
            push_where(out, sends, Remark::IngressOutput { table, place, port })
        }
    }
}

fn push_ports(
    out: &mut Vec<Remark>,
    table: u8,
    place: usize,
    flow: &FlowText,
) -> Result<(), AllocError>
    ensures { OnOk result (out.new.items ≡ out.old.items ++ flat_map (ingress_remarks table place (view flow.now).instructions) (view flow.now).fields) }
{
    for e in &flow.fields {
        push_port(out, table, place, flow, e)?;
    }
    Ok(())
}

fn push_unseen(
    out: &mut Vec<Remark>,
    table: u8,
    place: usize,
    instruction: &InstructionText,
) -> Result<(), AllocError>
    ensures { OnOk result (out.new.items ≡ out.old.items ++ unseen_remarks table place (view_instruction instruction.now)) }
{
    match instruction {
        InstructionText::Apply(actions) => {
            let count = silent(actions);
            push_where(
                out,
                count != 0,
                Remark::UnseenActions {
                    table,
                    place,
                    count,
                },
            )
        }
        InstructionText::Clear
        | InstructionText::Write(_)
        | InstructionText::Metadata { .. }
        | InstructionText::Goto(_) => Ok(()),
    }
}

fn push_all_unseen(
    out: &mut Vec<Remark>,
    table: u8,
    place: usize,
    flow: &FlowText,
) -> Result<(), AllocError>
    ensures { OnOk result (out.new.items ≡ out.old.items ++ flat_map (unseen_remarks table place) (view flow.now).instructions) }
{
    for instruction in &flow.instructions {
        push_unseen(out, table, place, instruction)?;
    }
    Ok(())
}

fn push_end(
    out: &mut Vec<Remark>,
    config: &Config,
    table: u8,
    place: usize,
    flow: &FlowText,
    written: bool,
) -> Result<(), AllocError>
    requires { written ≡ list_any some_writes_sending (take table config.now.tables) }
    ensures { OnOk result (out.new.items ≡ out.old.items ++ end_remarks config.now.tables table place (view flow.now).instructions) }
{
    if is_used_later(flow, written) {
        return Ok(());
    }
    push_all_unseen(out, table, place, flow)
}

#[tactic(auto, unfolding(crate::specs::Remarks::flow_remarks))]
fn push_flow(
    out: &mut Vec<Remark>,
    config: &Config,
    table: u8,
    place: usize,
    flow: &FlowText,
    written: bool,
) -> Result<(), AllocError>
    requires { written ≡ list_any some_writes_sending (take table config.now.tables) }
    ensures { OnOk result (out.new.items ≡ out.old.items ++ flow_remarks config.now.tables table place (view flow.now)) }
{
    push_gotos(out, config, table, place, flow)?;
    push_ports(out, table, place, flow)?;
    push_end(out, config, table, place, flow, written)
}

fn push_flows(
    out: &mut Vec<Remark>,
    config: &Config,
    table: u8,
    flows: &[FlowText],
    written: bool,
) -> Result<(), AllocError>
    requires { written ≡ list_any some_writes_sending (take table config.now.tables) }
    ensures { OnOk result (out.new.items ≡ out.old.items ++ flows_remarks config.now.tables table 0 (view_flows flows.now)) }
{
    for (place, flow) in flows.iter().enumerate() {
        push_flow(out, config, table, place, flow, written)?;
    }
    Ok(())
}

#[tactic(auto, unfolding(crate::specs::Remarks::table_remarks))]
fn push_table(
    out: &mut Vec<Remark>,
    config: &Config,
    reached: &[u8],
    table: u8,
) -> Result<(), AllocError>
    requires { reached.now ≡ reached_below config.now.tables 16 }
    ensures { OnOk result (out.new.items ≡ out.old.items ++ table_remarks config.now.tables table) }
{
    let flows = flows_of(config, table);
    let some = !flows.is_empty();
    let unreachable = some && !is_among(reached, table);
    push_where(out, unreachable, Remark::Unreachable { table })?;
    push_where(out, some && !has_miss(flows), Remark::NoTableMiss { table })?;
    push_flows(out, config, table, flows, is_written_before(config, table))
}

#[tactic(auto, unfolding(crate::specs::Remarks::remarks_below))]
fn push_tables(alloc: Global, out: &mut Vec<Remark>, config: &Config) -> Result<(), AllocError>
    ensures { OnOk result (out.new.items ≡ out.old.items ++ remarks_below config.now.tables 16) }
{
    let reached = reached_tables(alloc, config)?;
    for table in 0..TABLES {
        push_table(out, config, &reached, table)?;
    }
    Ok(())
}

fn push_group(out: &mut Vec<Remark>, config: &Config, group: &GroupText) -> Result<(), AllocError>
    ensures { OnOk result (out.new.items ≡ out.old.items ++ group_remarks config.now (view_group group.now)) }
{
    let id = group.head.id;
    push_where(out, !is_named(config, id), Remark::UnusedGroup { id })?;
    push_where(out, group.buckets.is_empty(), Remark::NoBuckets { id })
}

fn push_groups(out: &mut Vec<Remark>, config: &Config) -> Result<(), AllocError>
    ensures { OnOk result (out.new.items ≡ out.old.items ++ flat_map (group_remarks config.now) config.now.groups) }
{
    for group in config.groups() {
        push_group(out, config, group)?;
    }
    Ok(())
}

/// The remarks on a configuration: by table, and in a table by age; then by group.
#[tactic(auto, unfolding(crate::specs::Remarks::remarks_on))]
pub fn remarks_on(alloc: Global, config: &Config) -> Result<Vec<Remark>, AllocError>
    ensures { IfOk result (λ found. found.items ≡ all_remarks config.now) }
{
    let mut out = Vec::new(alloc);
    push_tables(alloc, &mut out, config)?;
    push_groups(&mut out, config)?;
    Ok(out)
}
