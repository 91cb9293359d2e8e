//! Configurations from the tables and groups of a switch.
ghost use Rattle.std.specs.{Prelude.◌≡◌, Prelude.IfOk, Prelude.map, List.AllByRecursion};
ghost use Rattle.of_table.specs.{Entries.flows_of, Tables.tables_of};
ghost use Rattle.of_text.specs.{Configs.view_tables, Groups.group_text, Groups.rows_of_groups, Kept.IsKeptFlow, Rows.Fits, Views.view, Views.view_flows, Views.view_groups};
ghost use Rattle.of_datapath.specs.{Loading.configuration_of, Loading.entry_text, Loading.flow_kept, Loading.texts_from, Configuring.AreKeptFrom, Numbers.forwarding_of, Standing.GroupsExist};

use crate::datapath::Datapath;
use of_classifier::Lookup;
use of_groups::Group;
use of_table::{Entries, Flow, FlowTables};
use of_text::{Config, FlowHead, FlowText, GroupText};
use of_wire::limits::TABLES;
use std::alloc::{AllocError, Global};

fn flow_text(alloc: Global, table: u8, flow: &Flow) -> Result<FlowText, AllocError>
    ensures text { IfOk result (λ text. view text ≡ flow_kept table flow.now) }
    ensures kept { IfOk result (λ _. IsKeptFlow (flow_kept table flow.now)) }
{
    let head = FlowHead {
        table,
        priority: flow.priority,
        cookie: flow.cookie,
        idle: flow.idle_timeout,
        hard: flow.hard_timeout,
        flags: flow.flags.number(),
    };
    FlowText::of(alloc, head, &flow.fields, &flow.instructions)
}

// The flows of entries, in their order.
fn flows_text(alloc: Global, table: u8, entries: Entries<'_>) -> Result<Vec<FlowText>, AllocError>
    ensures text { IfOk result (λ flows. view_flows flows.items ≡ map (entry_text table) (flows_of entries.entry)) }
    ensures kept { IfOk result (λ _. AllByRecursion (λ e. IsKeptFlow (flow_kept table e.flow)) (flows_of entries.entry)) }
{
    let mut flows = Vec::new(alloc);
    for entry in entries {
        flows.push(flow_text(alloc, table, &entry.flow)?)?;
    }
    Ok(flows)
}

fn tables_text<L: Lookup>(
    alloc: Global,
    tables: &FlowTables<L>,
) -> Result<Vec<Vec<FlowText>>, AllocError>
    ensures text { IfOk result (λ made. view_tables made.items ≡ texts_from 0 (tables_of tables.now).tables) }
    ensures kept { IfOk result (λ _. AreKeptFrom 0 (tables_of tables.now).tables) }
{
    tables.known();
    let mut made = Vec::new(alloc);
    for table in 0..TABLES {
        made.push(flows_text(alloc, table, tables.entries(table))?)?;
    }
    Ok(made)
}

fn groups_text(alloc: Global, groups: &[Group]) -> Result<Vec<GroupText>, AllocError>
    ensures text { IfOk result (λ made. view_groups made.items ≡ map group_text groups.now) }
    ensures fits { IfOk result (λ made. AllByRecursion Fits (rows_of_groups (view_groups made.items))) }
{
    let mut made = Vec::new(alloc);
    for group in groups {
        made.push(GroupText::of(alloc, group)?)?;
    }
    Ok(made)
}

/// The configuration of the tables and groups, without counters and times; each group that an entry names has to exist. It fails only if memory runs out.
pub fn config_from<L: Lookup>(alloc: Global, datapath: &Datapath<L>) -> Result<Config, AllocError>
    requires { GroupsExist (forwarding_of datapath.now) }
    ensures { IfOk result (λ config. config ≡ configuration_of (forwarding_of datapath.now)) }
{
    datapath.tables.known();
    let flows = tables_text(alloc, &datapath.tables)?;
    let groups = groups_text(alloc, datapath.groups.groups())?;
    Ok(Config::of(groups, flows))
}
