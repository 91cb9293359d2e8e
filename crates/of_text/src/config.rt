//! Configurations.
ghost use Rattle.std.specs.Prelude.{◌≡◌, ◌<◌, ◌≤◌, ℕ, [], length, slice_index_or, IfOk, OnOk};
ghost use Rattle.std.specs.List.{AllByRecursion};
ghost use Rattle.of_text.specs.{Kept.AreKeptGroups, Kept.IsEntry, Kept.AllStandBehind, Configs.IsConfig, Configs.tables_of_flows, Configs.with_flow_in_table, Configs.view_tables};
ghost use Rattle.of_text.specs.Views.{view, view_flows, view_groups};

use crate::flow::FlowText;
use crate::group::GroupText;
use of_wire::limits::TABLES;
use std::alloc::{AllocError, Global};
use std::marker::Model;

/// Groups in ascending order of number, and the flows of sixteen tables, oldest first (OpenFlow 1.3.5, 5.1, 5.2 and 5.6).
///
/// They are groups and flows that some text encodes, and none of them is refused.
#[derive(Drop)]
pub struct Config {
    pub(crate) groups: Vec<GroupText>,
    pub(crate) tables: Vec<Vec<FlowText>>,
}

impl Model for Config {
    ghost use Rattle.of_text.specs.Configs.{Configuration, IsConfig, view_config};

    ghost Value = { Configuration };

    ghost view = { λ c. view_config c.groups c.tables };

    ghost invariant = { λ c. IsConfig (view_config c.groups c.tables) };
}

impl Config {
    /// The groups, in ascending order of number.
    pub fn groups(&self) -> &[GroupText]
        ensures { view_groups result.now ≡ self.now.groups }
    {
        self.groups.as_slice()
    }

    /// The flows of a table, oldest first.
    pub fn flows(&self, table: u8) -> &[FlowText]
        requires { table < 16 }
        ensures { view_flows result.now ≡ slice_index_or self.now.tables table [] }
    {
        self.tables[usize::from(table)].as_slice()
    }

    /// Its groups and flows are those of a text of which none is refused. A switch may have the groups: they are in
    /// ascending order of number, up to OFPG_MAX and at most 256, each names groups that exist, and no chain has more than
    /// three (OpenFlow 1.3.5, 5.6 and 6.5). Each flow is valid in its table: its match is one,
    /// and its instructions are those that an entry of the table may have (5.2, 5.9 and 7.2.3).
    /// In a table there are at most 4,096 of them, no two of the same priority and match.
    pub fn known(&self)
        ensures config { IsConfig self.now }
        ensures groups { AreKeptGroups self.now.groups }
        ensures entries { (table : ℕ) → table < 16 → AllByRecursion (IsEntry table) (slice_index_or self.now.tables table []) }
        ensures stand { (table : ℕ) → table < 16 → AllStandBehind self.now.groups [] (slice_index_or self.now.tables table []) }
        ensures few { (table : ℕ) → table < 16 → length (slice_index_or self.now.tables table []) ≤ 4096 }
        ensures sixteen { length self.now.tables ≡ 16 }
    {
        let _tables = &self.tables;
    }
}

/// Sixteen tables without flows.
pub fn empty_tables(alloc: Global) -> Result<Vec<Vec<FlowText>>, AllocError>
    ensures { IfOk result (λ tables. view_tables tables.items ≡ tables_of_flows []) }
{
    let mut tables = Vec::new(alloc);
    while tables.len() < TABLES as usize {
        tables.push(Vec::new(alloc))?;
    }
    Ok(tables)
}

/// Puts the flow after those of its table.
pub fn put_flow(tables: &mut Vec<Vec<FlowText>>, flow: FlowText) -> Result<(), AllocError>
    requires { flow.head.table < length tables.old.items }
    ensures { OnOk result (view_tables tables.new.items ≡ with_flow_in_table (view flow) (view_tables tables.old.items)) }
{
    let table = usize::from(flow.head.table);
    tables[table].push(flow)?;
    Ok(())
}
