//! The tables to which no actions lead.
ghost use Rattle.std.specs.Prelude.{◌≡◌, ◌==◌, not, filter, find, IfOk, OnOk};
ghost use Rattle.std.specs.List.{list_any};
ghost use Rattle.of_shadowing.specs.Reached.{AreUnreachable, is_table_among as is_one_of, is_led_from_others as is_led_so, later_tables as later_tables_of, has_flow as has_flow_of, leaves_open as leaves_open_so, leads_from_others as leads_so, with_table_of};

use crate::listed_flow::ListedFlow;
use std::alloc::{AllocError, Global};

fn is_table_among(tables: &[u8], table: u8) -> bool
    ensures { result ≡ is_one_of tables.now table }
{
    tables.iter().any(|other| *other == table)
}

// Whether a flow of a table that is not among these leads to the table.
#[tactic(auto, unfolding(crate::specs::Reached::leads_from_others))]
fn leads_from_others(flow: &ListedFlow, tables: &[u8], to: u8) -> bool
    ensures { result ≡ leads_so tables.now to flow.now }
{
    !is_table_among(tables, flow.table) && is_table_among(&flow.leads.tables, to)
}

fn is_led_from_others(flows: &[ListedFlow], tables: &[u8], to: u8) -> bool
    ensures { result ≡ is_led_so flows.now tables.now to }
{
    flows.iter().any(|flow| leads_from_others(flow, tables, to))
}

// The first of these tables to which a flow of another table leads.
fn next_reached(flows: &[ListedFlow], tables: &[u8]) -> Option<u8>
    ensures { result ≡ find (is_led_so flows.now tables.now) tables.now }
{
    for table in tables {
        if is_led_from_others(flows, tables, *table) {
            return Some(*table);
        }
    }
    None
}

fn add_table(tables: &mut Vec<u8>, flow: &ListedFlow) -> Result<(), AllocError>
    ensures { OnOk result (tables.new.items ≡ with_table_of tables.old.items flow.now) }
{
    if flow.table != 0 && !is_table_among(tables, flow.table) {
        tables.push(flow.table)?;
    }
    Ok(())
}

// The tables of flows but table 0, each once.
fn later_tables(alloc: Global, flows: &[ListedFlow]) -> Result<Vec<u8>, AllocError>
    ensures { IfOk result (λ tables. tables.items ≡ later_tables_of flows.now) }
{
    let mut tables = Vec::new(alloc);
    for flow in flows {
        add_table(&mut tables, flow)?;
    }
    Ok(tables)
}

fn has_flow(flows: &[ListedFlow], table: u8) -> bool
    ensures { result ≡ has_flow_of flows.now table }
{
    flows.iter().any(|flow| flow.table == table)
}

fn leads_anywhere(flows: &[ListedFlow]) -> bool
    ensures { result ≡ list_any (λ f. f.leads.anywhere) flows.now }
{
    flows.iter().any(|flow| flow.leads.anywhere)
}

// Whether the flows do not say to which tables they lead, or are a part of the tables without table 0.
fn leaves_open(flows: &[ListedFlow]) -> bool
    ensures { result ≡ leaves_open_so flows.now }
{
    leads_anywhere(flows) || !has_flow(flows, 0)
}

fn remove(tables: &mut Vec<u8>, table: u8)
    ensures { tables.new.items ≡ filter (λ t. not (t == table)) tables.old.items }
{
    tables.retain(|other| *other != table);
}

/// The tables that have flows and to which no actions lead from table 0, in the order of their first flows; none if some actions may lead
/// anywhere, or if table 0 has no flows.
pub fn unreachable_tables(alloc: Global, flows: &[ListedFlow]) -> Result<Vec<u8>, AllocError>
    ensures { IfOk result (λ tables. AreUnreachable flows.now tables.items) }
{
    if leaves_open(flows) {
        return Ok(Vec::new(alloc));
    }
    let mut tables = later_tables(alloc, flows)?;
    while let Some(table) = next_reached(flows, &tables) {
        remove(&mut tables, table);
    }
    Ok(tables)
}
