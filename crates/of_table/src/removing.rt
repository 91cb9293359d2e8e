//! Removed entries, and the notices of them.

ghost use Rattle.std.specs.Prelude.{IsTrue, if◌then◌else◌, ◌≡◌, ◌++◌, OnOk};
ghost use Rattle.std.specs.Option.{option_map};
ghost use Rattle.of_wire.specs.Numbered.{is_used, without};
ghost use Rattle.of_classifier.specs.Rows.{row_number};
ghost use Rattle.of_table.specs.Selecting.{stays, reason_of, told_by, numbered_notices, numbered_notice_of, all_told, kept_of};
ghost use Rattle.of_table.specs.Entries.{entry_of, rows_of};

use crate::entry::Entry;
use crate::selection::{Cause, Removed, reason};
use of_classifier::Lookup;
use std::alloc::AllocError;

/// Removes each entry to which the cause applies from the classifier.
pub(crate) fn take_gone<L: Lookup>(lookup: &mut L, entries: &[Entry], cause: &Cause)
    requires { L.content lookup.old ≡ rows_of entries.now }
    ensures { L.content lookup.new ≡ rows_of (kept_of cause.now entries.now) }
{
    for entry in entries {
        lookup.known();
        if reason(cause, entry).is_some() {
            lookup.take(entry.number);
        }
    }
}

/// Appends notices of the entries to which the cause applies.
pub(crate) fn list_gone<'a>(
    entries: &'a [Entry],
    table: u8,
    cause: &Cause,
    removed: &mut Vec<Removed<'a>>,
) -> Result<(), AllocError>
    ensures { OnOk result (all_told removed.new.items ≡ all_told removed.old.items ++ numbered_notices cause.now table entries.now) }
{
    for entry in entries {
        match reason(cause, entry) {
            Some(reason) if entry.flow.flags.send_removed => {
                removed.push(Removed {
                    table,
                    reason,
                    entry,
                })?;
            }
            _ => {}
        }
    }
    Ok(())
}
