ghost use Rattle.std.specs.Prelude.{◌≡◌, ℕ, true, IfOk};
ghost use Rattle.of_actions.specs.InstructionLists.{are_for};

mod scripts;

use crate::checks::same;
use crate::lists::{action_list, list_of};
use of_actions::{Action, Instruction, InstructionList, check_flow};
use of_cache::Cached;
use of_classifier::{Lookup, Scan};
use of_headers::{FieldKey, read};
use of_mask_groups::MaskGroups;
use of_oxm::Match;
use of_table::{Cause, Copied, Entry, Flow, FlowTables, Removed, Selector, TableFault};
use scripts::{
    COPIED, Change, EntryRow, FlowRow, GROUPS, Gone, MODIFIED, NOT_ADDED, Notice, Sight, Step,
    TIMEOUTS, TWO_FLOWS,
};
use std::alloc::Global;
use std::process::Abort;
use std::test::Fail;

/// How the running switch looks entries up.
type Lookups = Cached<MaskGroups>;

/// What is done to tables, and its name.
type Script = (&'static str, &'static [Step]);

fn key_of_port(in_port: u32) -> Result<FieldKey, Fail> {
    Ok(read(&[0; 14], in_port, 0).ok().ok_or("a frame")?.key())
}

fn instructions_of(alloc: Global, flow: &FlowRow) -> Result<InstructionList, Fail> {
    match flow.group {
        None => Ok(InstructionList::none(alloc)),
        Some(group) => {
            let actions = action_list(alloc, &[Action::Group(group)])?;
            list_of(alloc, Instruction::Write(actions))
        }
    }
}

fn flow_of(alloc: Global, row: &FlowRow) -> Result<Flow, Fail> {
    let instructions = instructions_of(alloc, row)?;
    Ok(Flow {
        fields: Match::of_in_port(alloc, row.in_port)?,
        priority: row.priority,
        cookie: row.cookie,
        idle_timeout: row.idle_timeout,
        hard_timeout: row.hard_timeout,
        flags: row.flags,
        instructions,
    })
}

// Adds a flow whose instructions are fit and go with its match.
fn add<L: Lookup>(
    rt: &impl Abort,
    place: &str,
    tables: &mut FlowTables<L>,
    (table, flow): (u8, Flow),
    wanted: &Result<(), TableFault>,
) -> Result<(), Fail> {
    if !flow.instructions.are_for(table) {
        return Err("GOTO_TABLE leads back".into());
    }
    if check_flow(&flow.fields, flow.instructions.as_slice()).is_err() {
        return Err("a field that is set may be absent".into());
    }
    same(rt, place, &tables.add(table, flow), wanted);
    Ok(())
}

// All entries of port 1 in table 2 that send to a port.
fn which_of_port_one(alloc: Global, out_port: Option<u32>) -> Result<Selector, Fail> {
    Ok(Selector {
        table: Some(2),
        fields: Match::of_in_port(alloc, 1)?,
        priority: None,
        cookie: 0,
        cookie_mask: 0,
        out_port,
        out_group: None,
    })
}

fn cause_of(alloc: Global, gone: &Gone) -> Result<Cause, Fail> {
    match gone {
        Gone::Delete { out_port } => Ok(Cause::Delete(which_of_port_one(alloc, Some(*out_port))?)),
        Gone::Group(group) => Ok(Cause::Group(*group)),
        Gone::Moment(moment) => Ok(Cause::Moment(*moment)),
    }
}

fn output_to(alloc: Global, port: u32) -> Result<InstructionList, Fail>
    ensures { IfOk result (λ list. (k : ℕ) → are_for k list ≡ true) }
{
    let actions = action_list(alloc, &[Action::Output { port, max_len: 0 }])?;
    list_of(alloc, Instruction::Apply(actions))
}

fn modify_to<L: Lookup>(
    alloc: Global,
    tables: &mut FlowTables<L>,
    outputs: &InstructionList,
) -> Result<(), Fail>
    requires { (k : ℕ) → are_for k outputs.now ≡ true }
{
    let which = which_of_port_one(alloc, None)?;
    if check_flow(&which.fields, outputs.as_slice()).is_err() {
        return Err("an OUTPUT sets no field".into());
    }
    Ok(tables.modify(&which, outputs, true)?)
}

fn modify<L: Lookup>(alloc: Global, tables: &mut FlowTables<L>, output: u32) -> Result<(), Fail> {
    let outputs = output_to(alloc, output)?;
    modify_to(alloc, tables, &outputs)
}

fn looked<L: Lookup>(rt: &impl Abort, tables: &mut FlowTables<L>, table: u8) {
    assert!(rt; table < 16);
    tables.looked(table);
}

// The cookie of the entry that a packet hits, which then counts so many bytes.
fn hit<L: Lookup>(
    rt: &impl Abort,
    tables: &mut FlowTables<L>,
    table: u8,
    in_port: u32,
    bytes: usize,
) -> Result<Option<u64>, Fail> {
    assert!(rt; table < 16);
    let key = key_of_port(in_port)?;
    let Some(number) = tables.lookup(table, &key) else {
        return Ok(None);
    };
    let cookie = tables.flow(table, number).cookie;
    tables.count(table, number, bytes);
    Ok(Some(cookie))
}

fn peeked<L: Lookup>(
    rt: &impl Abort,
    tables: &FlowTables<L>,
    table: u8,
    in_port: u32,
) -> Result<Option<u64>, Fail> {
    assert!(rt; table < 16);
    let key = key_of_port(in_port)?;
    let Some(number) = tables.peek(table, &key) else {
        return Ok(None);
    };
    Ok(Some(tables.flow(table, number).cookie))
}

// How many packets were looked up in a table, and how many hit an entry.
fn counters<L: Lookup>(rt: &impl Abort, tables: &FlowTables<L>, table: u8) -> (u64, u64) {
    assert!(rt; table < 16);
    (tables.lookups(table), tables.matched(table))
}

fn entry_count<L: Lookup>(rt: &impl Abort, tables: &FlowTables<L>, table: u8) -> usize {
    assert!(rt; table < 16);
    tables.entries(table).count()
}

fn is_entry(rt: &impl Abort, place: &str, entry: &Entry, wanted: &EntryRow) {
    let counts = (entry.packets, entry.bytes, entry.created, entry.last);
    same(
        rt,
        place,
        &counts,
        &(wanted.packets, wanted.bytes, wanted.created, wanted.last),
    );
    let flow = (entry.flow.cookie, entry.flow.instructions.len());
    same(rt, place, &flow, &(wanted.cookie, wanted.instructions));
}

fn are_entries<L: Lookup>(
    rt: &impl Abort,
    place: &str,
    tables: &FlowTables<L>,
    table: u8,
    wanted: &[EntryRow],
) {
    assert!(rt; table < 16);
    let mut entries = tables.entries(table);
    for row in wanted {
        match entries.next() {
            Some(entry) => is_entry(rt, place, entry, row),
            None => same(rt, place, &"too few entries", &""),
        }
    }
    same(rt, place, &entries.next().is_none(), &true);
}

fn is_notice(rt: &impl Abort, place: &str, removed: &Removed<'_>, wanted: &Notice) {
    let found = (removed.table, removed.reason, removed.entry.flow.cookie);
    let wanted = (wanted.table, wanted.reason, wanted.cookie);
    same(rt, place, &found, &wanted);
}

fn are_listed<L: Lookup>(
    rt: &impl Abort,
    place: &str,
    tables: &FlowTables<L>,
    cause: &Cause,
    wanted: &[Notice],
) -> Result<(), Fail> {
    let removed = tables.listed(cause)?;
    same(rt, place, &removed.len(), &wanted.len());
    for (notice, row) in removed.iter().zip(wanted) {
        is_notice(rt, place, notice, row);
    }
    Ok(())
}

fn change<L: Lookup>(
    rt: &impl Abort,
    alloc: Global,
    place: &str,
    tables: &mut FlowTables<L>,
    change: &Change,
) -> Result<(), Fail> {
    match change {
        Change::Add { table, flow, given } => {
            return add(rt, place, tables, (*table, flow_of(alloc, flow)?), given);
        }
        Change::Modify { output } => return modify(alloc, tables, *output),
        Change::Remove(gone) => tables.remove(&cause_of(alloc, gone)?),
        Change::Looked(table) => looked(rt, tables, *table),
        Change::Hit {
            table,
            in_port,
            cookie,
            bytes,
        } => same(
            rt,
            place,
            &hit(rt, tables, *table, *in_port, *bytes)?,
            cookie,
        ),
    }
    Ok(())
}

fn see<L: Lookup>(
    rt: &impl Abort,
    alloc: Global,
    place: &str,
    tables: &FlowTables<L>,
    sight: &Sight,
) -> Result<(), Fail> {
    match sight {
        Sight::Peek {
            table,
            in_port,
            cookie,
        } => same(rt, place, &peeked(rt, tables, *table, *in_port)?, cookie),
        Sight::Counters {
            table,
            lookups,
            matched,
        } => {
            let found = counters(rt, tables, *table);
            same(rt, place, &found, &(*lookups, *matched));
        }
        Sight::Entries { table, entries } => are_entries(rt, place, tables, *table, entries),
        Sight::EntryCount { table, count } => {
            same(rt, place, &entry_count(rt, tables, *table), count);
        }
        Sight::Listed { cause, notices } => {
            are_listed(rt, place, tables, &cause_of(alloc, cause)?, notices)?;
        }
        Sight::Latest(moment) => same(rt, place, &tables.latest(), moment),
    }
    Ok(())
}

// A copy of a table, which is asked for again where there was no memory.
fn copy<L: Lookup>(rt: &impl Abort, tables: &FlowTables<L>, table: u8) -> Result<Copied<L>, Fail> {
    assert!(rt; table < 16);
    match tables.copy_of(table) {
        Ok(copied) => Ok(copied),
        Err(_) => Ok(tables.copy_of(table)?),
    }
}

fn swap<L: Lookup>(tables: &mut FlowTables<L>, copied: &mut Option<Copied<L>>) {
    if let Some(copied) = copied {
        tables.swap(copied);
    }
}

fn play_one<L: Lookup>(
    rt: &impl Abort,
    alloc: Global,
    place: &str,
    tables: &mut FlowTables<L>,
    copied: &mut Option<Copied<L>>,
    step: &Step,
) -> Result<(), Fail> {
    match step {
        Step::Do(it) => change(rt, alloc, place, tables, it)?,
        Step::See(it) => see(rt, alloc, place, tables, it)?,
        Step::Copy(table) => *copied = Some(copy(rt, tables, *table)?),
        Step::Swap => swap(tables, copied),
    }
    Ok(())
}

fn play_on<L: Lookup>(
    rt: &impl Abort,
    alloc: Global,
    tables: &mut FlowTables<L>,
    (name, steps): &Script,
) -> Result<(), Fail> {
    let mut copied = None;
    for (number, step) in steps.iter().enumerate() {
        let place = format!(in alloc; "step {number} of {name}")?;
        play_one(rt, alloc, place.as_str(), tables, &mut copied, step)?;
    }
    Ok(())
}

fn play<L: Lookup>(rt: &impl Abort, alloc: Global, script: &Script) -> Result<(), Fail> {
    let mut tables = FlowTables::<L>::new(alloc, 0)?;
    tables.known();
    play_on(rt, alloc, &mut tables, script)
}

const SCRIPTS: &[Script] = &[
    ("a scan of two flows", TWO_FLOWS),
    ("why a flow is not added", NOT_ADDED),
    ("modified and deleted", MODIFIED),
    ("flows of a group", GROUPS),
    ("hard before idle", TIMEOUTS),
    ("copied and put back", COPIED),
];

#[test]
fn tables_over_a_list(rt: HostRuntime) -> Result<(), Fail> {
    for script in SCRIPTS {
        play::<Scan>(&rt, rt.alloc(), script)?;
    }
    Ok(())
}

#[test]
fn copied_by_the_running_switch(rt: HostRuntime) -> Result<(), Fail> {
    play::<Lookups>(&rt, rt.alloc(), &("copied and put back", COPIED))
}
