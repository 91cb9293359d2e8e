//! Flow entries as JSON.
ghost use Rattle.std.specs.Prelude.{◌≡◌, ◌++◌, ◌∷◌, Some, option_map, slice_get, OnOk};
ghost use Rattle.of_text.specs.Views.{view, view_flows};
ghost use Rattle.of_report.specs.Json.{counters_of, entry_members, entry_object, line_member, match_member_of, reported_flow_members, some_counters};
ghost use Rattle.of_values.specs.Origins.{view_origin, view_origins, view_words};

use crate::entries::{entries_of, origin_at};
use of_json::{push_counters_member, push_key, push_match_object, push_number_member};
use of_text::{Config, FlowText};
use of_values::{Origin, push_decimal};
use std::alloc::AllocError;

fn push_line(out: &mut Vec<u8>, origin: Option<&Origin>) -> Result<(), AllocError>
    ensures { OnOk result (out.new.items ≡ out.old.items ++ line_member (option_map (λ o. view_origin o.now) origin.entry)) }
{
    match origin {
        None => Ok(()),
        Some(origin) => push_number_member(out, b"line", origin.line as u128),
    }
}

fn push_some_counters(out: &mut Vec<u8>, words: &[Vec<u8>]) -> Result<(), AllocError>
    ensures { OnOk result (out.new.items ≡ out.old.items ++ some_counters (view_words words.now)) }
{
    match words {
        [] => Ok(()),
        _ => push_counters_member(out, words),
    }
}

fn push_counters(out: &mut Vec<u8>, origin: Option<&Origin>) -> Result<(), AllocError>
    ensures { OnOk result (out.new.items ≡ out.old.items ++ counters_of (option_map (λ o. view_origin o.now) origin.entry)) }
{
    match origin {
        None => Ok(()),
        Some(origin) => push_some_counters(out, &origin.counters),
    }
}

fn push_match(out: &mut Vec<u8>, flow: &FlowText) -> Result<(), AllocError>
    ensures { OnOk result (out.new.items ≡ out.old.items ++ match_member_of (view flow.now)) }
{
    out.push(b',')?;
    push_key(out, b"match")?;
    push_match_object(out, &flow.fields)
}

// Appends what an entry is.
#[tactic(auto, unfolding(crate::specs::Json::reported_flow_members))]
fn push_flow(out: &mut Vec<u8>, origin: Option<&Origin>, flow: &FlowText) -> Result<(), AllocError>
    ensures { OnOk result (out.new.items ≡ out.old.items ++
        reported_flow_members (option_map (λ o. view_origin o.now) origin.entry) (Some (view flow.now))) }
{
    push_line(out, origin)?;
    push_number_member(out, b"priority", u128::from(flow.head.priority))?;
    push_match(out, flow)?;
    push_counters(out, origin)
}

// Appends what the entry at a place is, if there is one.
#[tactic(auto, unfolding(crate::specs::Json::reported_flow_members))]
fn push_flow_at(
    out: &mut Vec<u8>,
    origin: Option<&Origin>,
    flows: &[FlowText],
    place: usize,
) -> Result<(), AllocError>
    ensures { OnOk result (out.new.items ≡ out.old.items ++
        reported_flow_members (option_map (λ o. view_origin o.now) origin.entry) (slice_get (view_flows flows.now) place)) }
{
    match flows.get(place) {
        None => Ok(()),
        Some(flow) => push_flow(out, origin, flow),
    }
}

/// Appends the members that name an entry.
#[tactic(auto, unfolding(crate::specs::Json::entry_members))]
pub fn push_entry_members(
    out: &mut Vec<u8>,
    config: &Config,
    origins: &[Vec<Origin>],
    table: u8,
    place: usize,
) -> Result<(), AllocError>
    ensures { OnOk result (out.new.items ≡ out.old.items ++ entry_members (view_origins origins.now) config.now.tables table place) }
{
    push_key(out, b"table")?;
    push_decimal(out, u128::from(table))?;
    push_number_member(out, b"entry", place as u128)?;
    push_flow_at(
        out,
        origin_at(origins, table, place),
        entries_of(config, table),
        place,
    )
}

/// Appends an entry of a table, as an object.
#[tactic(auto, unfolding(crate::specs::Json::entry_object))]
pub fn push_entry_object(
    out: &mut Vec<u8>,
    config: &Config,
    origins: &[Vec<Origin>],
    table: u8,
    place: usize,
) -> Result<(), AllocError>
    ensures { OnOk result (out.new.items ≡ out.old.items ++ entry_object (view_origins origins.now) config.now.tables table place) }
{
    out.push(b'{')?;
    push_entry_members(out, config, origins, table, place)?;
    out.push(b'}')?;
    Ok(())
}
