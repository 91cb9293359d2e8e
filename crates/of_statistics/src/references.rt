//! How many refer to a group (OpenFlow 1.3.5, 7.3.5.9).
ghost use Rattle.std.specs.{Prelude.◌≡◌, Prelude.◌≤◌, Prelude.Some, List.count_by};
ghost use Rattle.of_table.specs.{Entries.flows_of, Selecting.names_group as naming, Tables.tables_of};
ghost use Rattle.of_statistics.specs.Groups.{all_entries, references as references_to};

use of_classifier::Lookup;
use of_groups::Groups;
use of_table::{Entries, FlowTables, names_group};
use of_wire::limits::TABLES;

// How many of these entries name the group.
fn named_by(entries: Entries<'_>, group: u32) -> usize
    ensures { result ≡ count_by (naming (Some group)) (flows_of entries.entry) }
{
    entries
        .filter(|entry| names_group(entry, Some(group)))
        .count()
}

// How many entries name the group.
fn named_in<L: Lookup>(tables: &FlowTables<L>, group: u32) -> usize
    ensures count { result ≡ count_by (naming (Some group)) (all_entries (tables_of tables.now)) }
    ensures few { result ≤ 65536 }
{
    tables.known();
    let mut count = 0;
    for table in 0..TABLES {
        count += named_by(tables.entries(table), group);
    }
    count
}

/// How many entries and how many groups have an action that sends to the group of that number.
pub(crate) fn references<L: Lookup>(tables: &FlowTables<L>, groups: &Groups, group: u32) -> u32
    ensures { result ≡ references_to group groups.now (tables_of tables.now) }
{
    // They are at most 256.
    let _groups = groups.groups();
    let count = named_in(tables, group) + groups.references(group);
    count as u32
}
