//! Copies of flow tables.

ghost use Rattle.std.specs.Prelude.{◌≡◌, [], IfOk};
ghost use Rattle.of_table.specs.Entries.{entry_of, numbered_entry, flows_of, rows_of};

use crate::entry::Entry;
use crate::flow::Flow;
use crate::flow_table::FlowTable;
use of_classifier::Lookup;
use std::alloc::{AllocError, Global};
use std::marker::Model;

/// A copy of one of the flow tables, which can change places with it.
#[derive(Drop)]
pub struct Copied<L: Lookup> {
    /// The number of the table.
    pub(crate) table: u8,
    pub(crate) copy: FlowTable<L>,
}

impl<L: Lookup> Model for Copied<L> {
    ghost use Rattle.std.specs.Prelude.{◌<◌};
    ghost use Rattle.of_table.specs.{Entries.table_of, Copied.NumberedCopy, Sound.AreSoundEntries};

    ghost Value = { NumberedCopy };

    ghost view = { λ c. record { table = c.table; copy = c.copy } };

    ghost invariant = { λ c. (c.table < 16) × AreSoundEntries c.table (table_of c.copy).flows };
}

/// Copies of the entries, oldest first, under the numbers that a classifier without entries gives them.
pub(crate) fn copy_entries<L: Lookup>(
    alloc: Global,
    entries: &[Entry],
    lookup: &mut L,
) -> Result<Vec<Entry>, AllocError>
    requires { L.content lookup.old ≡ [] }
    ensures entries { IfOk result (λ v. flows_of v.items ≡ flows_of entries.now) }
    ensures rows { IfOk result (λ v. L.content lookup.new ≡ rows_of v.items) }
{
    let mut copies = Vec::with_capacity(alloc, entries.len())?;
    for entry in entries {
        let fields = entry.flow.fields.copy()?;
        let number = lookup.add(fields, entry.flow.priority)?;
        copies.push(copy_entry(entry, number)?)?;
    }
    Ok(copies)
}

// A copy of the entry, under that number.
fn copy_entry(entry: &Entry, number: usize) -> Result<Entry, AllocError>
    ensures { IfOk result (λ e. e ≡ numbered_entry number (entry_of entry.now)) }
{
    Ok(Entry {
        number,
        flow: copy_flow(&entry.flow)?,
        packets: entry.packets,
        bytes: entry.bytes,
        created: entry.created,
        last: entry.last,
    })
}

fn copy_flow(flow: &Flow) -> Result<Flow, AllocError>
    ensures { IfOk result (λ copy. copy ≡ flow.now) }
{
    Ok(Flow {
        fields: flow.fields.copy()?,
        priority: flow.priority,
        cookie: flow.cookie,
        idle_timeout: flow.idle_timeout,
        hard_timeout: flow.hard_timeout,
        flags: flow.flags,
        instructions: flow.instructions.copy()?,
    })
}
