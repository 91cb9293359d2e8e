//! Flow tables from configurations.
ghost use Rattle.std.specs.Prelude.{◌≡◌, ◌<◌, [], List, false, IsTrue, IfOk, OnOk, length};
ghost use Rattle.std.specs.List.{AllByRecursion, list_any};
ghost use Rattle.of_oxm.specs.NormalForm.{IsMatch};
ghost use Rattle.of_actions.specs.InstructionLists.{are_kept};
ghost use Rattle.of_table.specs.Tables.{added_to, no_tables, table_at, tables_of, with_table};
ghost use Rattle.of_table.specs.Table.{empty_table, is_same, kept_flags};
ghost use Rattle.of_text.specs.{Groups.TextGroup, Kept.AllStandBehind, Kept.IsEntry, Views.view, Views.view_flows};
ghost use Rattle.of_datapath.specs.{Commands.flags_of, Loading.loaded_flow, Loading.loaded_table, Loading.loaded_tables};

use crate::commands::has_flag;
use of_classifier::Lookup;
use of_table::{Cause, Flow, FlowFlags, FlowTables, TableFault};
use of_text::{Config, FlowText};
use of_wire::limits::TABLES;
use std::alloc::{AllocError, Global};

fn flags_from(flags: u16) -> FlowFlags
    ensures { result ≡ kept_flags (flags_of flags) }
{
    FlowFlags {
        send_removed: has_flag(flags, 1),
        check_overlap: false,
        reset_counts: false,
        no_packet_counts: has_flag(flags, 8),
        no_byte_counts: has_flag(flags, 16),
    }
}

fn flow_from(flow: &FlowText) -> Result<Flow, AllocError>
    requires fields { IsMatch (view flow.now).fields }
    requires kept { IsTrue (are_kept (view flow.now).instructions) }
    ensures { IfOk result (λ f. f ≡ loaded_flow (view flow.now)) }
{
    Ok(Flow {
        fields: flow.to_match()?,
        priority: flow.head.priority,
        cookie: flow.head.cookie,
        idle_timeout: flow.head.idle,
        hard_timeout: flow.head.hard,
        flags: flags_from(flow.head.flags),
        instructions: flow.to_instructions()?,
    })
}

// One more flow, of another match or priority than the entries that are there.
#[tactic(auto, using(crate::proofs::LoadLemmas::no_fault))]
fn load_flow<L: Lookup>(
    tables: &mut FlowTables<L>,
    table: u8,
    flow: &FlowText,
) -> Result<(), AllocError>
    requires table { table < 16 }
    requires entry { IsEntry table (view flow.now) }
    requires unlike { list_any (is_same (loaded_flow (view flow.now))) (table_at table (tables_of tables.old)).flows ≡ false }
    requires room { length (table_at table (tables_of tables.old)).flows < 4096 }
    ensures { OnOk result (tables_of tables.new ≡ added_to table (loaded_flow (view flow.now)) (tables_of tables.old)) }
{
    let flow = flow_from(flow)?;
    match tables.add(table, flow) {
        Ok(()) => Ok(()),
        Err(TableFault::NoMemory) => Err(AllocError),
        Err(TableFault::BadTable | TableFault::Overlap | TableFault::Full) => unreachable!(),
    }
}

// The flows of a table that has no entry and has counted nothing.
fn load_table<L: Lookup>(
    tables: &mut FlowTables<L>,
    table: u8,
    flows: &[FlowText],
) -> Result<(), AllocError>
    requires table { table < 16 }
    requires entries { AllByRecursion (IsEntry table) (view_flows flows.now) }
    requires stand { (groups : List TextGroup) × AllStandBehind groups [] (view_flows flows.now) }
    requires empty { table_at table (tables_of tables.old) ≡ empty_table }
    ensures { OnOk result (tables_of tables.new ≡ with_table table (loaded_table tables.old.latest (view_flows flows.now)) (tables_of tables.old)) }
{
    tables.known();
    for flow in flows {
        load_flow(tables, table, flow)?;
    }
    Ok(())
}

// Without entries, at this moment.
fn tables_at<L: Lookup>(alloc: Global, latest: u64, seed: u64) -> Result<FlowTables<L>, AllocError>
    ensures { IfOk result (λ t. tables_of t ≡ record (tables_of no_tables) { latest = latest }) }
{
    let mut tables = FlowTables::new(alloc, seed)?;
    tables.remove(&Cause::Moment(latest));
    Ok(tables)
}

/// The flow tables of a configuration, with entries that are added at this moment, in nanoseconds. It fails only if memory runs out.
///
/// Nothing that they do depends on the seed ([`Lookup::empty`]).
pub fn load_tables<L: Lookup>(
    alloc: Global,
    latest: u64,
    config: &Config,
    seed: u64,
) -> Result<FlowTables<L>, AllocError>
    ensures { IfOk result (λ t. tables_of t ≡ loaded_tables latest config.now.tables) }
{
    config.known();
    let mut tables = tables_at(alloc, latest, seed)?;
    for table in 0..TABLES {
        load_table(&mut tables, table, config.flows(table))?;
    }
    Ok(tables)
}
