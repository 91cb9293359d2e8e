//! TABLE (OpenFlow 1.3.5, 7.3.5.4).
ghost use Rattle.std.specs.Prelude.{◌≡◌, ◌<◌, ◌++◌, length, OnOk, IfOk};
ghost use Rattle.of_table.specs.Tables.{table_at, tables_of};
ghost use Rattle.of_statistics.specs.Flows.{table_bytes, table_row};

use crate::replies::{begun, sealed};
use of_classifier::Lookup;
use of_messages::MessageBytes;
use of_table::{Entries, FlowTables};
use of_wire::limits::TABLES;
use of_wire::{put_u32, put_u64};
use std::alloc::{AllocError, Global};

/// OFPMP_TABLE.
const TABLE: u16 = 3;

// How many entries a table has.
fn count_of(entries: Entries<'_>) -> usize
    ensures { result ≡ length entries.entry }
{
    entries.count()
}

// How many entries a table has, and its counters, 24 bytes.
fn put_table<L: Lookup>(
    out: &mut Vec<u8>,
    tables: &FlowTables<L>,
    table: u8,
) -> Result<(), AllocError>
    requires { table < 16 }
    ensures { OnOk result (out.new.items ≡ out.old.items ++ table_row table (table_at table (tables_of tables.now))) }
{
    tables.known();
    out.extend_from_slice(&[table, 0, 0, 0])?;
    put_u32(out, count_of(tables.entries(table)) as u32)?;
    put_u64(out, tables.lookups(table))?;
    put_u64(out, tables.matched(table))
}

/// How many entries each table has, and its counters (OpenFlow 1.3.5, 7.3.5.4).
pub fn table_reply<L: Lookup>(
    alloc: Global,
    xid: u32,
    tables: &FlowTables<L>,
) -> Result<MessageBytes, AllocError>
    ensures { IfOk result (λ r. r ≡ table_bytes xid (tables_of tables.now)) }
{
    tables.known();
    let mut out = begun(alloc)?;
    for table in 0..TABLES {
        put_table(&mut out, tables, table)?;
    }
    Ok(sealed(out, xid, TABLE, 0))
}
