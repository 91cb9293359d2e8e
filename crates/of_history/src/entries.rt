//! Selected flow entries.
ghost use Rattle.std.specs.Prelude.{◌≡◌, ◌<◌, ◌++◌, IfOk, IsTrue, None, OnOk, Some, false};
ghost use Rattle.std.specs.List.{flat_map, list_all};
ghost use Rattle.of_actions.specs.{InstructionLists.is_served_body, Supported.is_supported};
ghost use Rattle.of_table.specs.{Entries.entry_of, Entries.flows_of, Tables.table_at};
ghost use Rattle.of_machine.specs.declared.data.Step.TheVariants.{Act};
ghost use Rattle.of_text.specs.Lines.{ended};
ghost use Rattle.of_tracing.specs.Encoded.{is_encoded};
ghost use Rattle.of_history.specs.Selected.{entry_selected, further_step, instruction_words, is_selected as selected, lasting_words, selected_entries, selected_line, table_selected};

use crate::expiring::push_expiry;
use crate::fate::push_winner_words;
use crate::sight::Sight;
use crate::view::View;
use of_actions::{Action, Instruction};
use of_classifier::Lookup;
use of_machine::Step;
use of_oxm::{Match, covers};
use of_switch::Switch;
use of_table::{Entries, Entry};
use of_trace::push_words_line;
use of_values::Part::{Hex, Number};
use of_values::put;
use of_wire::limits::TABLES;
use std::alloc::{AllocError, Global};

pub const TABLE: [u8; 7] = *b"table %";

pub const LASTING: [u8; 47] = *b", cookie %, idle %, hard %, flags %, added at %";

/// Which flow entries are selected, besides their match.
#[derive(Clone, Copy)]
pub struct EntryFilter {
    /// The number of a table; `None` for all.
    pub table: Option<u8>,
    /// `None` for all.
    pub priority: Option<u16>,
    pub cookie: u64,
    /// The bits of the cookie that are to agree.
    pub cookie_mask: u64,
}

fn is_selected(filter: EntryFilter, fields: &Match, entry: &Entry) -> bool
    ensures { result ≡ selected filter fields.now (entry_of entry.now) }
{
    let has_priority = match filter.priority {
        None => true,
        Some(priority) => entry.flow.priority == priority,
    };
    covers(fields, &entry.flow.fields)
        && has_priority
        && entry.flow.cookie & filter.cookie_mask == filter.cookie & filter.cookie_mask
}

// Appends a step.
#[tactic(auto, unfolding(crate::specs::Selected::further_step))]
fn push_step<L: Lookup>(out: &mut Vec<u8>, switch: &Switch<L>, step: Step) -> Result<(), AllocError>
    requires { IsTrue (is_encoded step) }
    ensures { OnOk result (out.new.items ≡ out.old.items ++ further_step switch.now.core.forwarding step) }
{
    out.extend_from_slice(b", ")?;
    push_words_line(out, switch, step)
}

fn push_actions<L: Lookup>(
    out: &mut Vec<u8>,
    switch: &Switch<L>,
    actions: &[Action],
) -> Result<(), AllocError>
    requires { IsTrue (list_all (is_supported false) actions.now) }
    ensures { OnOk result (out.new.items ≡ out.old.items ++ flat_map (λ a. further_step switch.now.core.forwarding (Act a)) actions.now) }
{
    for action in actions {
        push_step(out, switch, Step::Act(*action))?;
    }
    Ok(())
}

fn push_instruction<L: Lookup>(
    out: &mut Vec<u8>,
    switch: &Switch<L>,
    instruction: &Instruction,
) -> Result<(), AllocError>
    requires { IsTrue (is_served_body instruction.now) }
    ensures { OnOk result (out.new.items ≡ out.old.items ++ instruction_words switch.now.core.forwarding instruction.now) }
{
    match instruction {
        Instruction::Apply(actions) => {
            push_step(out, switch, Step::Apply)?;
            push_actions(out, switch, actions.as_slice())
        }
        Instruction::Clear => push_step(out, switch, Step::Clear),
        Instruction::Write(actions) => {
            push_step(out, switch, Step::Write)?;
            push_actions(out, switch, actions.as_slice())
        }
        Instruction::Metadata { value, mask } => push_step(
            out,
            switch,
            Step::Metadata {
                value: *value,
                mask: *mask,
            },
        ),
        Instruction::Goto(table) => push_step(out, switch, Step::Goto(*table)),
    }
}

fn push_instructions<L: Lookup>(
    out: &mut Vec<u8>,
    switch: &Switch<L>,
    instructions: &[Instruction],
) -> Result<(), AllocError>
    requires { IsTrue (list_all is_served_body instructions.now) }
    ensures { OnOk result (out.new.items ≡ out.old.items ++ flat_map (instruction_words switch.now.core.forwarding) instructions.now) }
{
    for instruction in instructions {
        push_instruction(out, switch, instruction)?;
    }
    Ok(())
}

// Appends since when an entry is there, and for how long.
#[tactic(auto, unfolding(crate::specs::Selected::lasting_words))]
fn push_lasting(out: &mut Vec<u8>, entry: &Entry) -> Result<(), AllocError>
    ensures { OnOk result (out.new.items ≡ out.old.items ++ lasting_words (entry_of entry.now)) }
{
    let flow = &entry.flow;
    put(
        out,
        &LASTING,
        &[
            Hex(u128::from(flow.cookie)),
            Number(u128::from(flow.idle_timeout)),
            Number(u128::from(flow.hard_timeout)),
            Number(u128::from(flow.flags.number())),
            Number(u128::from(entry.created)),
        ],
    )
}

// Appends the line of an entry.
#[tactic(auto, unfolding(crate::specs::Selected::selected_line))]
fn push_line<L: Lookup>(
    out: &mut Vec<u8>,
    switch: &Switch<L>,
    table: u8,
    entry: &Entry,
) -> Result<(), AllocError>
    ensures { OnOk result (out.new.items ≡ out.old.items ++ ended (selected_line switch.now.core.forwarding table (entry_of entry.now))) }
{
    put(out, &TABLE, &[Number(u128::from(table))])?;
    push_winner_words(out, &entry.flow)?;
    push_lasting(out, entry)?;
    push_instructions(out, switch, entry.flow.instructions.as_slice())?;
    out.push(b'\n')?;
    Ok(())
}

/// Watches the flow entries of a switch that are selected, by table and then by age: each in a line, with all of it except its counters.
///
/// Selected are those whose match is at least as specific as the fields (OpenFlow 1.3.5, 6.4).
#[derive(Drop)]
pub struct EntriesView {
    pub filter: EntryFilter,
    pub fields: Match,
}

impl EntriesView {
    // Appends an entry, if it is selected; for a moment, whether it expires then.
    fn push_entry<L: Lookup>(
        &self,
        out: &mut Vec<u8>,
        switch: &Switch<L>,
        moment: Option<u64>,
        table: u8,
        entry: &Entry,
    ) -> Result<(), AllocError>
        ensures { OnOk result (out.new.items ≡ out.old.items
            ++ entry_selected self.now.filter self.now.fields switch.now.core.forwarding moment table (entry_of entry.now)) }
    {
        if !is_selected(self.filter, &self.fields, entry) {
            return Ok(());
        }
        match moment {
            None => push_line(out, switch, table, entry),
            Some(moment) => push_expiry(out, moment, table, entry),
        }
    }

    fn push_entries<L: Lookup>(
        &self,
        out: &mut Vec<u8>,
        switch: &Switch<L>,
        moment: Option<u64>,
        table: u8,
        entries: Entries<'_>,
    ) -> Result<(), AllocError>
        ensures { OnOk result (out.new.items ≡ out.old.items
            ++ flat_map (entry_selected self.now.filter self.now.fields switch.now.core.forwarding moment table) (flows_of entries.entry)) }
    {
        for entry in entries {
            self.push_entry(out, switch, moment, table, entry)?;
        }
        Ok(())
    }

    // Appends the selected entries of a table.
    fn push_table<L: Lookup>(
        &self,
        out: &mut Vec<u8>,
        switch: &Switch<L>,
        moment: Option<u64>,
        table: u8,
    ) -> Result<(), AllocError>
        requires { table < 16 }
        ensures { OnOk result (out.new.items ≡ out.old.items ++ table_selected self.now.filter self.now.fields switch.now.core.forwarding moment table
            (table_at table switch.now.core.forwarding.tables)) }
    {
        match self.filter.table {
            Some(only) if only != table => Ok(()),
            _ => { self.push_entries(out, switch, moment, table, switch.datapath().entries(table)) }
        }
    }

    // The selected entries.
    #[tactic(auto, unfolding(crate::specs::Selected::selected_entries))]
    fn listed<L: Lookup>(
        &self,
        alloc: Global,
        switch: &Switch<L>,
        moment: Option<u64>,
    ) -> Result<Vec<u8>, AllocError>
        ensures { IfOk result (λ text. text.items ≡ selected_entries self.now.filter self.now.fields moment switch.now.core.forwarding) }
    {
        switch.datapath().tables.known();
        let mut out = Vec::new(alloc);
        for table in 0..TABLES {
            self.push_table(&mut out, switch, moment, table)?;
        }
        Ok(out)
    }
}

impl<L: Lookup> View<L> for EntriesView {
    ghost seen = { λ v. selected_entries v.filter v.fields None };

    ghost expiring = { λ v moment. selected_entries v.filter v.fields (Some moment) };

    fn look(
        &self,
        alloc: Global,
        switch: &Switch<L>,
        _last: &Sight,
    ) -> Result<Option<Sight>, AllocError> {
        Ok(Some(Sight::Plain(self.listed(alloc, switch, None)?)))
    }

    fn look_ahead(
        &self,
        alloc: Global,
        switch: &Switch<L>,
        moment: u64,
    ) -> Result<Vec<u8>, AllocError> {
        self.listed(alloc, switch, Some(moment))
    }
}
