//! AGGREGATE (OpenFlow 1.3.5, 7.3.5.3).
ghost use Rattle.std.specs.Prelude.{◌≡◌, ◌<◌, ◌≤◌, ◌+◌, ◌++◌, length, filter, OnOk, IfOk};
ghost use Rattle.of_table.specs.{Entries.entry_of, Entries.flows_of, Tables.table_at, Tables.tables_of, Selecting.selects as selected};
ghost use Rattle.of_statistics.specs.{Flows.aggregate, Flows.aggregate_bytes, Flows.asked, Flows.totals as totals_of, Adding.asked_of, Adding.plus_all, Adding.plus_asked};

use crate::replies::{begun, sealed};
use of_classifier::Lookup;
use of_messages::MessageBytes;
use of_table::{Entries, Entry, FlowTables, Selector, is_in, selects};
use of_wire::limits::TABLES;
use of_wire::{put_u32, put_u64};
use std::alloc::{AllocError, Global};

/// OFPMP_AGGREGATE.
const AGGREGATE: u16 = 2;

/// The sums of the counters of entries. The sums wrap.
#[derive(Clone, Copy)]
pub(crate) struct Totals {
    packets: u64,
    bytes: u64,
    flows: u32,
}

// Adds what an entry has counted, if it is asked for.
fn add_entry(totals: &mut Totals, entry: &Entry, which: &Selector)
    requires { totals.old.flows < 65536 }
    ensures totals { totals.new ≡ plus_asked which.now totals.old (entry_of entry.now) }
    ensures few { totals.new.flows ≤ totals.old.flows + 1 }
{
    if selects(which, entry) {
        totals.packets = totals.packets.wrapping_add(entry.packets);
        totals.bytes = totals.bytes.wrapping_add(entry.bytes);
        totals.flows += 1;
    }
}

fn add_entries(totals: &mut Totals, entries: Entries<'_>, which: &Selector)
    requires { totals.old.flows + length entries ≤ 65536 }
    ensures totals { totals.new ≡ plus_all totals.old (filter (selected which.now) (flows_of entries.entry)) }
    ensures few { totals.new.flows ≤ totals.old.flows + length entries.entry }
{
    for entry in entries {
        add_entry(totals, entry, which);
    }
}

// Adds those of a table, if it is asked for.
fn add_table<L: Lookup>(totals: &mut Totals, tables: &FlowTables<L>, table: u8, which: &Selector)
    requires table { table < 16 }
    requires few { totals.old.flows ≤ 61440 }
    ensures totals { totals.new ≡ plus_all totals.old (asked_of which.now table (table_at table (tables_of tables.now))) }
    ensures few { totals.new.flows ≤ totals.old.flows + 4096 }
{
    tables.known();
    if is_in(which, table) {
        add_entries(totals, tables.entries(table), which);
    }
}

fn totals_in<L: Lookup>(tables: &FlowTables<L>, which: &Selector) -> Totals
    ensures { result ≡ totals_of (asked which.now (tables_of tables.now)) }
{
    tables.known();
    let mut totals = Totals {
        packets: 0,
        bytes: 0,
        flows: 0,
    };
    for table in 0..TABLES {
        add_table(&mut totals, tables, table, which);
    }
    totals
}

fn put_totals(out: &mut Vec<u8>, totals: Totals) -> Result<(), AllocError>
    ensures { OnOk result (out.new.items ≡ out.old.items ++ aggregate totals) }
{
    put_u64(out, totals.packets)?;
    put_u64(out, totals.bytes)?;
    put_u32(out, totals.flows)?;
    out.extend_from_slice(&[0; 4])
}

/// How many entries a DELETE of these would select, and their packets and bytes in all (OpenFlow 1.3.5, 7.3.5.3). The sums
/// wrap.
pub fn aggregate_reply<L: Lookup>(
    alloc: Global,
    xid: u32,
    tables: &FlowTables<L>,
    which: &Selector,
) -> Result<MessageBytes, AllocError>
    ensures { IfOk result (λ r. r ≡ aggregate_bytes xid which.now (tables_of tables.now)) }
{
    let mut out = begun(alloc)?;
    put_totals(&mut out, totals_in(tables, which))?;
    Ok(sealed(out, xid, AGGREGATE, 0))
}
