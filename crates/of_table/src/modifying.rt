//! Entries changed by a MODIFY command.

ghost use Rattle.std.specs.Prelude.{◌≡◌, ◌≤◌, ◌+◌, ◌-◌, ℕ, true, OnOk, if◌then◌else◌};
ghost use Rattle.of_table.specs.Entries.{entry_of, flows_of, classifier_row, rows_of, on_entry};
ghost use Rattle.of_table.specs.{Selecting.is_meant, Selecting.modified_by, Selecting.modified_entries, Spans.Outside, Copies.Supply, Copies.is_modified, Copies.wanted};
ghost use Rattle.of_table.specs.Sound.{AreSoundEntries, are_instructions_fit, is_entry_fit, is_checked};
ghost use Rattle.of_actions.specs.FlowCheck.{all_go_with};

use crate::copies::Copies;
use crate::entry::Entry;
use crate::selection::{Selector, modifies};
use crate::span::Span;
use std::alloc::AllocError;

/// Makes a copy for each entry that the command selects.
pub(crate) fn make_copies(
    entries: &[Entry],
    which: &Selector,
    copies: &mut Copies<'_>,
) -> Result<(), AllocError>
    ensures { OnOk result (copies.new ≡ record copies.old { count = copies.old.count + wanted which.now entries.now }) }
{
    for entry in entries {
        if modifies(which, entry) {
            copies.make()?;
        }
    }
    Ok(())
}

// The entry gets the instructions, if the command selects it.
fn modify_entry(entry: &mut Entry, which: &Selector, copies: &mut Copies<'_>, reset: bool)
    requires { (if is_modified which.now entry.old then 1 else 0) ≤ copies.old.count }
    ensures row { classifier_row entry.new ≡ classifier_row entry.old }
    ensures checked { all_go_with which.now.fields copies.old.instructions ≡ true → is_checked (entry_of entry.old) ≡ true →
        is_checked (entry_of entry.new) ≡ true }
    ensures fit { (k : ℕ) → are_instructions_fit k copies.old.instructions ≡ true → is_entry_fit k (entry_of entry.old) ≡ true →
        is_entry_fit k (entry_of entry.new) ≡ true }
    ensures entry { entry.new ≡ on_entry (modified_by which.now copies.old.instructions reset) entry.old }
    ensures copies { copies.new ≡ record copies.old { count = copies.old.count - (if is_modified which.now entry.old then 1 else 0) } }
{
    if modifies(which, entry) {
        which.fields.known();
        entry.flow.fields.known();
        entry.flow.instructions = copies.take();
        if reset {
            entry.packets = 0;
            entry.bytes = 0;
        }
    }
}

/// Each entry that the command selects gets a copy, and counters of 0 where they are to be reset.
///
/// It selects none outside the span.
pub(crate) fn modify_all(
    entries: &mut [Entry],
    span: Span,
    which: &Selector,
    copies: &mut Copies<'_>,
    reset: bool,
)
    requires copies { wanted which.now entries.old ≤ copies.old.count }
    requires span { Outside (λ e. is_meant which.now (entry_of e)) entries.old span.first span.end }
    ensures sound { (k : ℕ) → are_instructions_fit k copies.old.instructions ≡ true → all_go_with which.now.fields copies.old.instructions ≡ true →
        AreSoundEntries k (flows_of entries.old) → AreSoundEntries k (flows_of entries.new) }
    ensures rows { rows_of entries.new ≡ rows_of entries.old }
    ensures entries { entries.new ≡ modified_entries which.now copies.old.instructions reset entries.old }
    ensures copies { copies.new ≡ record copies.old { count = copies.old.count - wanted which.now entries.old } }
{
    for place in span.first..span.end {
        modify_entry(&mut entries[place], which, copies, reset);
    }
}
