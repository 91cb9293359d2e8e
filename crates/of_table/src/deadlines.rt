//! Before which moment no entry expires.

ghost use Rattle.std.specs.Prelude.{◌≡◌, ◌<◌, ℕ, Option, true, false};
ghost use Rattle.of_table.specs.{Table.FlowEntry, Table.with_flow, Entries.entry_of, Selecting.is_over as over, Selecting.stays, Deadlines.NoneOver};

use crate::entry::Entry;
use crate::flow::Flow;
use crate::selection::{Cause, NANOS};

// Before this moment a timeout of this many seconds is not over.
fn deadline(since: u64, seconds: u16) -> u64
    ensures { (now : ℕ) → now < result → over now since seconds ≡ false }
{
    if seconds == 0 {
        u64::MAX
    } else {
        since.saturating_add(NANOS * u64::from(seconds))
    }
}

/// Before this moment the entry does not expire.
pub(crate) fn entry_deadline(entry: &Entry) -> u64
    ensures { (now : ℕ) → now < result → stays (Cause.Moment now) (entry_of entry.now) ≡ true }
{
    let hard = deadline(entry.created, entry.flow.hard_timeout);
    let idle = deadline(entry.last.unwrap_or(entry.created), entry.flow.idle_timeout);
    hard.min(idle)
}

/// The same of the entry of a flow that is added now.
pub(crate) fn flow_deadline(flow: &Flow, now: u64) -> u64
    ensures { (at : ℕ) (old : Option FlowEntry) → at < result → stays (Cause.Moment at) (with_flow now flow.now old) ≡ true }
{
    let hard = deadline(now, flow.hard_timeout);
    let idle = deadline(now, flow.idle_timeout);
    hard.min(idle)
}

/// The same of all entries.
pub(crate) fn earliest(entries: &[Entry]) -> u64
    ensures { NoneOver result entries.now }
{
    let mut due = u64::MAX;
    for entry in entries {
        due = due.min(entry_deadline(entry));
    }
    due
}
