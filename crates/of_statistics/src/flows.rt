//! FLOW (OpenFlow 1.3.5, 7.3.5.2).
ghost use Rattle.std.specs.Prelude.{◌≡◌, ◌<◌, ◌≤◌, ◌++◌, [], length, map, OnOk, IfOk};
ghost use Rattle.of_table.specs.{Entries.entry_of, Entries.flows_of, Tables.table_at, Tables.tables_of};
ghost use Rattle.of_statistics.specs.Flows.{flow_bytes, flow_counts, flow_row as row_of, flow_times, listed_in, rows_of_entries, rows_of_one};
ghost use Rattle.of_statistics.specs.Replies.{with_rows};

use crate::replies::Replies;
use crate::writing::put_duration;
use of_actions::put_instructions;
use of_classifier::Lookup;
use of_messages::MessageBytes;
use of_oxm::put_match;
use of_table::{Entries, Entry, FlowTables, Selector, is_in, selects};
use of_wire::limits::TABLES;
use of_wire::{put_u16, put_u64, replace_u16};
use std::alloc::{AllocError, Global};

/// OFPMP_FLOW.
const FLOW: u16 = 1;

// How long the entry has existed, its priority, timeouts and flags, 20 bytes.
fn put_times(out: &mut Vec<u8>, now: u64, entry: &Entry) -> Result<(), AllocError>
    ensures { OnOk result (out.new.items ≡ out.old.items ++ flow_times now (entry_of entry.now)) }
{
    put_duration(out, now, entry.created)?;
    put_u16(out, entry.flow.priority)?;
    put_u16(out, entry.flow.idle_timeout)?;
    put_u16(out, entry.flow.hard_timeout)?;
    put_u16(out, entry.flow.flags.number())?;
    out.extend_from_slice(&[0; 4])
}

// Its cookie and counters, 24 bytes.
fn put_counts(out: &mut Vec<u8>, entry: &Entry) -> Result<(), AllocError>
    ensures { OnOk result (out.new.items ≡ out.old.items ++ flow_counts (entry_of entry.now)) }
{
    put_u64(out, entry.flow.cookie)?;
    put_u64(out, entry.packets)?;
    put_u64(out, entry.bytes)
}

// The row of an entry: 48 bytes, its match and its instructions.
fn put_row(row: &mut Vec<u8>, now: u64, table: u8, entry: &Entry) -> Result<(), AllocError>
    requires { row.old.items ≡ [] }
    ensures row { OnOk result (row.new.items ≡ row_of now (record { table = table; entry = entry_of entry.now })) }
    ensures short { OnOk result (length row.new.items ≤ 65519) }
{
    row.extend_from_slice(&[0, 0, table, 0])?;
    put_times(row, now, entry)?;
    put_counts(row, entry)?;
    put_match(row, &entry.flow.fields)?;
    put_instructions(row, &entry.flow.instructions)?;
    let size = row.len();
    replace_u16(row, 0, size as u16);
    Ok(())
}

// The row of an entry, if it is asked for; it is written into `row` first.
fn put_entry(
    out: &mut Replies,
    row: &mut Vec<u8>,
    now: u64,
    table: u8,
    entry: &Entry,
    which: &Selector,
) -> Result<(), AllocError>
    ensures { OnOk result (out.new ≡ with_rows out.old (rows_of_one now which.now table (entry_of entry.now))) }
{
    if selects(which, entry) {
        row.clear();
        put_row(row, now, table, entry)?;
        out.push(row)
    } else {
        Ok(())
    }
}

fn put_entries(
    out: &mut Replies,
    row: &mut Vec<u8>,
    now: u64,
    table: u8,
    entries: Entries<'_>,
    which: &Selector,
) -> Result<(), AllocError>
    ensures { OnOk result (out.new ≡ with_rows out.old (rows_of_entries now which.now table (flows_of entries.entry))) }
{
    for entry in entries {
        put_entry(out, row, now, table, entry, which)?;
    }
    Ok(())
}

// The rows of a table, if it is asked for.
fn put_table<L: Lookup>(
    out: &mut Replies,
    row: &mut Vec<u8>,
    tables: &FlowTables<L>,
    table: u8,
    which: &Selector,
) -> Result<(), AllocError>
    requires { table < 16 }
    ensures { OnOk result (out.new ≡ with_rows out.old (map (row_of tables.now.latest) (listed_in which.now table (table_at table (tables_of tables.now))))) }
{
    if is_in(which, table) {
        put_entries(
            out,
            row,
            tables.latest(),
            table,
            tables.entries(table),
            which,
        )
    } else {
        Ok(())
    }
}

/// The statistics of each entry that a DELETE of these would select, by table and then by age (OpenFlow 1.3.5, 7.3.5.2).
pub fn flow_replies<L: Lookup>(
    alloc: Global,
    xid: u32,
    tables: &FlowTables<L>,
    which: &Selector,
) -> Result<Vec<MessageBytes>, AllocError>
    ensures { IfOk result (λ r. r.items ≡ flow_bytes xid which.now (tables_of tables.now)) }
{
    tables.known();
    let mut out = Replies::new(alloc, xid, FLOW)?;
    let mut row = Vec::new(alloc);
    for table in 0..TABLES {
        put_table(&mut out, &mut row, tables, table, which)?;
    }
    out.close()
}
