//! What is done to each flow table of a switch.

ghost use Rattle.std.specs.Prelude.{◌≡◌, ◌≤◌, ◌+◌, ◌-◌, ℕ, true, map, length, OnOk, IfOk};
ghost use Rattle.of_table.specs.Tables.{is_in as is_within, each_from, modified_numbered, kept_table, numbered_notices_from};
ghost use Rattle.of_table.specs.{Selecting.all_told, Entries.table_of, Copies.Supply, Copies.wanted_in, Copies.wanted_from, Sound.AreSoundEntries, Sound.AllSound, Sound.are_instructions_fit};
ghost use Rattle.of_actions.specs.FlowCheck.{all_go_with};

use crate::copies::Copies;
use crate::flow_table::FlowTable;
use crate::selection::{Cause, Removed, Selector};
use of_classifier::Lookup;
use std::alloc::{AllocError, Global};

/// Makes a copy for each entry of the tables that a MODIFY command selects.
pub(crate) fn copies_for_all<L: Lookup>(
    tables: &[FlowTable<L>],
    which: &Selector,
    copies: &mut Copies<'_>,
) -> Result<(), AllocError>
    requires { length tables.now ≤ 16 }
    ensures { OnOk result (copies.new ≡ record copies.old { count = copies.old.count + wanted_from which.now 0 tables.now }) }
{
    for (number, table) in tables.iter().enumerate() {
        table.copy_for(number as u8, which, copies)?;
    }
    Ok(())
}

/// Changes the entries of each table by a MODIFY command.
pub(crate) fn modify_tables<L: Lookup>(
    tables: &mut [FlowTable<L>],
    which: &Selector,
    copies: &mut Copies<'_>,
    reset: bool,
)
    requires few { length tables.old ≤ 16 }
    requires copies { wanted_from which.now 0 tables.old ≤ copies.old.count }
    ensures tables { tables.new ≡ each_from (modified_numbered which.now copies.old.instructions reset) 0 tables.old }
    ensures length { length tables.new ≡ length tables.old }
    ensures sound { ((k : ℕ) → is_within which.now.table k ≡ true → are_instructions_fit k copies.old.instructions ≡ true) →
        all_go_with which.now.fields copies.old.instructions ≡ true → AllSound 0 (map table_of tables.old) → AllSound 0 (map table_of tables.new) }
{
    for (number, table) in tables.iter_mut().enumerate() {
        table.modify(number as u8, which, copies, reset);
    }
}

/// Notices of the entries of each table to which the cause applies.
pub(crate) fn list_all<'a, L: Lookup>(
    alloc: Global,
    tables: &'a [FlowTable<L>],
    cause: &Cause,
) -> Result<Vec<Removed<'a>>, AllocError>
    requires { length tables.now ≤ 16 }
    ensures { IfOk result (λ v. all_told v.items ≡ numbered_notices_from cause.now 0 tables.now) }
{
    let mut removed = Vec::new(alloc);
    for (number, table) in tables.iter().enumerate() {
        table.list(number as u8, cause, &mut removed)?;
    }
    Ok(removed)
}

/// Removes the entries of each table to which the cause applies.
pub(crate) fn remove_all<L: Lookup>(tables: &mut [FlowTable<L>], cause: &Cause)
    requires { length tables.old ≤ 16 }
    ensures tables { tables.new ≡ each_from (kept_table cause.now) 0 tables.old }
    ensures length { length tables.new ≡ length tables.old }
    ensures sound { AllSound 0 (map table_of tables.old) → AllSound 0 (map table_of tables.new) }
{
    for (number, table) in tables.iter_mut().enumerate() {
        table.remove(number as u8, cause);
    }
}
