//! New numbers of tables, groups and flows, as JSON.
ghost use Rattle.std.specs.Prelude.{◌≡◌, ◌++◌, OnOk};
ghost use Rattle.of_import_report.specs.Json.{flow_object, group_object, import_entry_members, item_members, marks_members, move_object};

use crate::refusals::push_line_member;
use of_import::{FlowLine, GroupLine, KeptLines};
use of_json::{
    push_array_member, push_counters_member, push_key, push_match_object, push_number_member,
    push_string, push_truth_member,
};
use of_ovs_lines::FlowMarks;
use of_values::push_decimal;
use std::alloc::AllocError;

/// Appends a table that has another number.
#[tactic(auto, unfolding(crate::specs::Json::move_object))]
pub fn push_move_object(out: &mut Vec<u8>, from: u8, to: u8) -> Result<(), AllocError>
    ensures { OnOk result (out.new.items ≡ out.old.items ++ move_object (from, to)) }
{
    out.push(b'{')?;
    push_key(out, b"from")?;
    push_decimal(out, u128::from(from))?;
    push_number_member(out, b"to", u128::from(to))?;
    out.push(b'}')?;
    Ok(())
}

#[tactic(auto, unfolding(crate::specs::Json::group_object))]
fn push_group_object(out: &mut Vec<u8>, it: &GroupLine) -> Result<(), AllocError>
    ensures { OnOk result (out.new.items ≡ out.old.items ++ group_object it.now) }
{
    out.push(b'{')?;
    push_line_member(out, it.line)?;
    push_number_member(out, b"group", u128::from(it.group.head.id))?;
    out.push(b'}')?;
    Ok(())
}

// Appends what a flow text does not have of a flow.
#[tactic(auto, unfolding(crate::specs::Json::marks_members))]
fn push_marks_members(out: &mut Vec<u8>, marks: &FlowMarks) -> Result<(), AllocError>
    ensures { OnOk result (out.new.items ≡ out.old.items ++ marks_members marks.now) }
{
    push_counters_member(out, &marks.counters)?;
    push_array_member(
        out,
        b"without",
        &marks.left,
        |out, word| push_string(out, word),
    )?;
    push_truth_member(out, b"resubmit", marks.resubmits)
}

// Appends what a flow entry is.
#[tactic(auto, unfolding(crate::specs::Json::import_entry_members))]
fn push_flow_members(out: &mut Vec<u8>, it: &FlowLine) -> Result<(), AllocError>
    ensures { OnOk result (out.new.items ≡ out.old.items ++ import_entry_members it.now) }
{
    push_line_member(out, it.line)?;
    push_number_member(out, b"table", u128::from(it.flow.head.table))?;
    push_number_member(out, b"priority", u128::from(it.flow.head.priority))?;
    out.push(b',')?;
    push_key(out, b"match")?;
    push_match_object(out, &it.flow.fields)
}

#[tactic(auto, unfolding(crate::specs::Json::flow_object))]
fn push_flow_object(out: &mut Vec<u8>, it: &FlowLine) -> Result<(), AllocError>
    ensures { OnOk result (out.new.items ≡ out.old.items ++ flow_object it.now) }
{
    out.push(b'{')?;
    push_flow_members(out, it)?;
    push_marks_members(out, &it.marks)?;
    out.push(b'}')?;
    Ok(())
}

/// Appends groups and flows.
#[tactic(auto, unfolding(crate::specs::Json::item_members))]
pub fn push_item_members(out: &mut Vec<u8>, kept: &KeptLines) -> Result<(), AllocError>
    ensures { OnOk result (out.new.items ≡ out.old.items ++ item_members kept.now) }
{
    push_array_member(out, b"groups", &kept.groups, push_group_object)?;
    push_array_member(out, b"flows", &kept.flows, push_flow_object)
}
