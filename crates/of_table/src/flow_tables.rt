//! The flow tables of a switch.

ghost use Rattle.std.specs.Prelude.{◌≡◌, ◌<◌, ℕ, true, Some, IsTrue, length, slice_index_or, IfOk, IfSome, OnOk, OnErr};
ghost use Rattle.std.specs.Option.{option_map, option_copied};
ghost use Rattle.of_headers.specs.FieldMap.{value};
ghost use Rattle.of_wire.specs.Numbered.{is_distinct};
ghost use Rattle.of_table.specs.Entries.{no_entries, table_of, flows_of, rows_of, place_of, is_entry_there, find_number, entry_number};
ghost use Rattle.of_table.specs.Tables.{no_tables, AddsFlow, numbered_at, table_at, with_table, tables_of, all_numbers, tables_fault, added_to, modified_in, left_in, notices_in, looked_in, matched_in, all_modified, all_kept, each_from, kept_table, numbered_notices_from, told_in};
ghost use Rattle.of_table.specs.{Table.winner_place, Table.flow_at, Selecting.notices_of, Selecting.all_told, Copied.swapped_in, Copied.swapped_out, Faults.flow_fault_in};
ghost use Rattle.of_table.specs.Sound.{AreForAll, AreSoundEntries};
ghost use Rattle.of_actions.specs.{FlowCheck.all_go_with, InstructionLists.are_for};

use crate::copied::Copied;
use crate::copies::Copies;
use crate::each_table::{copies_for_all, list_all, modify_tables, remove_all};
use crate::entry::Entry;
use crate::flow::Flow;
use crate::flow_table::FlowTable;
use crate::selection::{Cause, Removed, Selector};
use crate::table_fault::TableFault;
use crate::walk::Entries;
use of_actions::InstructionList;
use of_classifier::Lookup;
use of_headers::FieldKey;
use of_wire::limits::TABLES;
use std::alloc::{AllocError, Global};
use std::marker::Model;
use std::mem;

/// Sixteen flow tables, numbered from 0, and the latest moment that they know of (OpenFlow 1.3.5, 5.1).
#[derive(Drop)]
pub struct FlowTables<L: Lookup> {
    tables: Vec<FlowTable<L>>,
    latest: u64,
}

impl<L: Lookup> Model for FlowTables<L> {
    ghost use Rattle.std.specs.Prelude.{◌≡◌, length, map};
    ghost use Rattle.of_table.specs.{Entries.table_of, Tables.NumberedTables, Sound.AllSound};

    ghost Value = { NumberedTables };

    ghost view = { λ t. record { tables = t.tables.items; latest = t.latest } };

    ghost invariant = { λ t. (length t.tables.items ≡ 16) × AllSound 0 (map table_of t.tables.items) };
}

impl<L: Lookup> FlowTables<L> {
    /// Without entries, with counters of 0, at the moment 0. No answer depends on the seed ([`Lookup::empty`]).
    pub fn new(alloc: Global, seed: u64) -> Result<Self, AllocError>
        ensures { IfOk result (λ t. t ≡ no_tables) }
    {
        Ok(FlowTables {
            tables: empty_tables(alloc, seed)?,
            latest: 0,
        })
    }

    /// The latest moment, in nanoseconds.
    pub fn latest(&self) -> u64
        ensures { result ≡ self.now.latest }
    {
        self.latest
    }

    /// Adds a flow to a table, at the latest moment (OpenFlow 1.3.5, 6.4).
    ///
    /// It is refused, in this order, where there is no such table, where it asks to be checked and an
    /// entry of its priority overlaps it, and where the table has 4,096 entries and none of its match
    /// and priority. An entry of its match and priority gets it, keeps its number, and its counters
    /// unless they are to be reset, and becomes the youngest. A call that fails changes nothing.
    pub fn add(&mut self, table: u8, flow: Flow) -> Result<(), TableFault>
        requires fit { table < 16 → are_for table flow.instructions ≡ true }
        requires checked { table < 16 → all_go_with flow.fields flow.instructions ≡ true }
        ensures fault { flow_fault_in result ≡ tables_fault table flow (tables_of self.old) }
        ensures tables { OnOk result (tables_of self.new ≡ added_to table flow (tables_of self.old)) }
        ensures ok { OnOk result (AddsFlow table flow self.old self.new) }
        ensures err { OnErr result (self.new ≡ self.old) }
    {
        if table >= TABLES {
            return Err(TableFault::BadTable);
        }
        let now = self.latest;
        let _ = flow.instructions.as_slice();
        self.tables[table as usize].add(flow, now)
    }

    /// Gives the instructions to each entry that a MODIFY command selects, and counters of 0 where they are to be reset (OpenFlow 1.3.5, 6.4).
    ///
    /// The command selects by match, priority and cookie, not by port or group. All else of an entry
    /// stays, and none is added. A call that fails changes nothing.
    pub fn modify(
        &mut self,
        which: &Selector,
        instructions: &InstructionList,
        reset: bool,
    ) -> Result<(), AllocError>
        requires fit { AreForAll which.now instructions.now }
        requires checked { all_go_with which.now.fields instructions.now ≡ true }
        ensures tables { OnOk result (tables_of self.new ≡ modified_in which.now instructions.now reset (tables_of self.old)) }
        ensures ok { OnOk result (self.new ≡ all_modified which.now instructions.now reset self.old) }
        ensures err { OnErr result (self.new ≡ self.old) }
    {
        let _ = instructions.as_slice();
        let mut copies = Copies {
            instructions,
            made: Vec::new(*self.tables.allocator()),
        };
        copies_for_all(&self.tables, which, &mut copies)?;
        modify_tables(&mut self.tables, which, &mut copies, reset);
        Ok(())
    }

    /// The entries that `remove` would remove and whose flags ask for a notice, by table, then by age (OpenFlow 1.3.5, 5.5, 6.4 and 6.5).
    pub fn listed(&self, cause: &Cause) -> Result<Vec<Removed<'_>>, AllocError>
        ensures notices { IfOk result (λ v. notices_of v.items ≡ notices_in cause.now (tables_of self.now)) }
        ensures numbers { IfOk result (λ v. all_told v.items ≡ told_in cause.now self.now) }
    {
        match cause {
            Cause::Moment(moment) => {
                let now = Cause::Moment(self.latest.max(*moment));
                list_all(*self.tables.allocator(), &self.tables, &now)
            }
            Cause::Delete(_) | Cause::Group(_) => {
                list_all(*self.tables.allocator(), &self.tables, cause)
            }
        }
    }

    /// Removes the entries that a command deletes, whose group is deleted or that expired; a later moment becomes the latest one (OpenFlow 1.3.5, 5.5, 6.4 and 6.5).
    ///
    /// It takes no memory. The entries that stay keep their numbers and their order.
    pub fn remove(&mut self, cause: &Cause)
        ensures tables { tables_of self.new ≡ left_in cause.now (tables_of self.old) }
        ensures numbers { self.new ≡ all_kept cause.now self.old }
    {
        match cause {
            Cause::Moment(moment) => {
                let now = self.latest.max(*moment);
                self.remove_at(now, &Cause::Moment(now));
            }
            Cause::Delete(_) | Cause::Group(_) => {
                let latest = self.latest;
                self.remove_at(latest, cause);
            }
        }
    }

    // Removes the entries to which the cause applies; the moment becomes the latest one.
    fn remove_at(&mut self, latest: u64, cause: &Cause)
        ensures { self.new ≡ record { tables = each_from (kept_table cause.now) 0 self.old.tables; latest = latest } }
    {
        remove_all(&mut self.tables, cause);
        self.latest = latest;
    }

    /// A copy of a table: its counters, and its entries in their order by age, each with its flow, its counters and its times.
    ///
    /// The classifier of the copy gives them numbers of its own.
    pub fn copy_of(&self, table: u8) -> Result<Copied<L>, AllocError>
        requires { table < 16 }
        ensures table { IfOk result (λ copied. copied.table ≡ table) }
        ensures copy { IfOk result (λ copied. table_of copied.copy ≡ table_at table (tables_of self.now)) }
    {
        let copy = self.tables[table as usize].copy()?;
        Ok(Copied { table, copy })
    }

    /// The copy of a table and that table change places.
    ///
    /// It takes no memory. The other tables stay, and so does the latest moment.
    pub fn swap(&mut self, copied: &mut Copied<L>)
        ensures tables { tables_of self.new ≡ with_table copied.old.table (table_of copied.old.copy) (tables_of self.old) }
        ensures numbers { self.new ≡ swapped_in copied.old self.old }
        ensures copied { copied.new ≡ swapped_out copied.old self.old }
    {
        mem::swap(&mut self.tables[copied.table as usize], &mut copied.copy);
    }

    /// The number of the entry of a table that a packet of this key hits, or `None` where it misses (OpenFlow 1.3.5, 5.3).
    ///
    /// No counter changes.
    pub fn lookup(&mut self, table: u8, key: &FieldKey) -> Option<usize>
        requires { table < 16 }
        ensures place { winner_place (value key.now) (flows_of (numbered_at table self.old).entries) ≡
            option_map (λ number. place_of number (numbered_at table self.old).entries) result }
        ensures there { IfSome result (λ number. IsTrue (is_entry_there number (numbered_at table self.old).entries)) }
        ensures kept { self.new ≡ self.old }
    {
        self.tables[table as usize].lookup(key)
    }

    /// As `lookup`, for tables that are only borrowed.
    pub fn peek(&self, table: u8, key: &FieldKey) -> Option<usize>
        requires { table < 16 }
        ensures place { winner_place (value key.now) (flows_of (numbered_at table self.now).entries) ≡
            option_map (λ number. place_of number (numbered_at table self.now).entries) result }
        ensures there { IfSome result (λ number. IsTrue (is_entry_there number (numbered_at table self.now).entries)) }
    {
        self.tables[table as usize].peek(key)
    }

    /// A packet was looked up in a table.
    pub fn looked(&mut self, table: u8)
        requires { table < 16 }
        ensures tables { tables_of self.new ≡ looked_in table (tables_of self.old) }
        ensures numbers { all_numbers self.new ≡ all_numbers self.old }
    {
        self.tables[table as usize].looked();
    }

    /// A packet of this many bytes hit the entry of that number of a table, at the latest moment; where there is none, the table alone counts it.
    pub fn count(&mut self, table: u8, number: usize, bytes: usize)
        requires { table < 16 }
        ensures tables { tables_of self.new ≡ matched_in table (place_of number (numbered_at table self.old).entries) bytes (tables_of self.old) }
        ensures numbers { all_numbers self.new ≡ all_numbers self.old }
    {
        let now = self.latest;
        self.tables[table as usize].count(number, bytes, now);
    }

    /// The classifier of a table, whose rows are its entries, oldest first.
    pub fn part(&self, table: u8) -> &L
        requires { table < 16 }
        ensures { L.content result.now ≡ rows_of (numbered_at table self.now).entries }
    {
        self.tables[table as usize].part()
    }

    /// The flow of the entry of that number of a table.
    pub fn flow(&self, table: u8, number: usize) -> &Flow
        requires table { table < 16 }
        requires number { IsTrue (is_entry_there number (numbered_at table self.now).entries) }
        ensures { flow_at (place_of number (numbered_at table self.now).entries) (flows_of (numbered_at table self.now).entries) ≡ Some result.now }
    {
        match self.tables[table as usize].entry(number) {
            Some(entry) => &entry.flow,
            None => unreachable!(),
        }
    }

    /// The entry of that number of a table, if it exists.
    pub fn entry(&self, table: u8, number: usize) -> Option<&Entry>
        requires { table < 16 }
        ensures { option_copied result ≡ find_number number (numbered_at table self.now).entries }
    {
        self.tables[table as usize].entry(number)
    }

    /// The place by age of the entry of that number of a table, from 0; how many there are where none has it.
    pub fn place(&self, table: u8, number: usize) -> usize
        requires { table < 16 }
        ensures { result ≡ place_of number (numbered_at table self.now).entries }
    {
        self.tables[table as usize].place_or_end(number)
    }

    /// The entries of a table, oldest first.
    pub fn entries(&self, table: u8) -> Entries<'_>
        requires { table < 16 }
        ensures { result ≡ (numbered_at table self.now).entries }
    {
        Entries {
            left: self.tables[table as usize].entries(),
        }
    }

    /// How many packets were looked up in a table. It wraps.
    pub fn lookups(&self, table: u8) -> u64
        requires { table < 16 }
        ensures { result ≡ (numbered_at table self.now).lookups }
    {
        self.tables[table as usize].counters().0
    }

    /// How many packets hit an entry of a table. It wraps.
    pub fn matched(&self, table: u8) -> u64
        requires { table < 16 }
        ensures { result ≡ (numbered_at table self.now).matched }
    {
        self.tables[table as usize].counters().1
    }

    /// There are sixteen tables; in each there are at most 4,096 entries, no two of the same number or of the same priority and match, and the instructions of each are valid in it.
    pub fn known(&self)
        ensures sixteen { length self.now.tables ≡ 16 }
        ensures sound { (k : ℕ) → AreSoundEntries k (table_at k (tables_of self.now)).flows }
        ensures distinct { (k : ℕ) → IsTrue (is_distinct entry_number (numbered_at k self.now).entries) }
    {
        known_tables(&self.tables);
    }
}

fn empty_tables<L: Lookup>(alloc: Global, seed: u64) -> Result<Vec<FlowTable<L>>, AllocError>
    ensures { IfOk result (λ v. v.items ≡ no_tables.tables) }
{
    let mut tables = Vec::new(alloc);
    while tables.len() < TABLES as usize {
        tables.push(FlowTable::new(alloc, seed)?)?;
    }
    Ok(tables)
}

fn known_tables<L: Lookup>(tables: &[FlowTable<L>])
    ensures { (k : ℕ) → IsTrue (is_distinct entry_number (slice_index_or tables.now k no_entries).entries) }
{
    for table in tables {
        table.known();
    }
}
