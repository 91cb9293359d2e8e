//! Which entries a command selects, or are removed at a moment or with a group.

ghost use Rattle.std.specs.{Prelude.◌≡◌, List.list_any};
ghost use Rattle.of_table.specs.Selecting.{leads_to as leading_to, passes_port as passing_port, has_action as with_action, names_group as naming, passes_group as passing_group, modifies as modified_by_it, selects as selected, is_over as over, reason_of};
ghost use Rattle.of_table.specs.{Entries.entry_of, Tables.is_in as is_within, Tables.concerns as concerning};

use crate::entry::Entry;
use of_actions::{Action, Instruction};
use of_oxm::{Match, covers};
use of_wire::FlowRemovedReason;

/// The entries that a MODIFY or DELETE command selects (OpenFlow 1.3.5, 6.4).
#[derive(Drop)]
pub struct Selector {
    /// The number of a table; `None` for all.
    pub table: Option<u8>,
    pub fields: Match,
    /// That of a strict command, which selects the entry of this match and priority; `None` for all that the match covers.
    pub priority: Option<u16>,
    pub cookie: u64,
    /// The bits of the cookie that are to agree.
    pub cookie_mask: u64,
    /// Of a DELETE: a port to which an action of the entry has to send.
    pub out_port: Option<u32>,
    /// Of a DELETE: a group to which an action of the entry has to send.
    pub out_group: Option<u32>,
}

/// Why entries are removed (OpenFlow 1.3.5, 5.5, 6.4 and 6.5).
#[derive(Drop)]
pub enum Cause {
    /// A DELETE command.
    Delete(Selector),
    /// This group was deleted; `None` for all groups.
    Group(Option<u32>),
    /// The time is this many nanoseconds, or the latest moment if that is later.
    Moment(u64),
}

/// An entry that is to be removed, and why.
#[derive(Drop)]
pub struct Removed<'a> {
    pub table: u8,
    pub reason: FlowRemovedReason,
    pub entry: &'a Entry,
}

// What an action may send to.
#[derive(Clone, Copy)]
enum Target {
    Port(u32),
    /// A group; `None` for any.
    Group(Option<u32>),
}

fn leads_to(action: &Action, target: Target) -> bool
    ensures { result ≡ leading_to target action.now }
{
    match (action, target) {
        (Action::Output { port: to, .. }, Target::Port(port)) => *to == port,
        (Action::Group(_), Target::Group(None)) => true,
        (Action::Group(to), Target::Group(Some(group))) => *to == group,
        _ => false,
    }
}

fn any_leads_to(actions: &[Action], target: Target) -> bool
    ensures { result ≡ list_any (leading_to target) actions.now }
{
    actions.iter().any(|action| leads_to(action, target))
}

fn sends_to(instruction: &Instruction, target: Target) -> bool
    ensures { result ≡ with_action (leading_to target) instruction.now }
{
    match instruction {
        Instruction::Apply(actions) | Instruction::Write(actions) => {
            any_leads_to(actions.as_slice(), target)
        }
        _ => false,
    }
}

fn any_sends_to(instructions: &[Instruction], target: Target) -> bool
    ensures { result ≡ list_any (with_action (leading_to target)) instructions.now }
{
    instructions
        .iter()
        .any(|instruction| sends_to(instruction, target))
}

fn passes_port(which: &Selector, entry: &Entry) -> bool
    ensures { result ≡ passing_port which.now (entry_of entry.now) }
{
    match which.out_port {
        None => true,
        Some(port) => any_sends_to(entry.flow.instructions.as_slice(), Target::Port(port)),
    }
}

/// Whether some action of the entry sends to this group; for `None`, to any group (OpenFlow 1.3.5, 6.5).
pub fn names_group(entry: &Entry, group: Option<u32>) -> bool
    ensures { result ≡ naming group (entry_of entry.now) }
{
    any_sends_to(entry.flow.instructions.as_slice(), Target::Group(group))
}

fn passes_group(which: &Selector, entry: &Entry) -> bool
    ensures { result ≡ passing_group which.now (entry_of entry.now) }
{
    match which.out_group {
        None => true,
        Some(group) => names_group(entry, Some(group)),
    }
}

/// Whether a MODIFY selects the entry: it filters by no port and no group.
pub(crate) fn modifies(which: &Selector, entry: &Entry) -> bool
    ensures { result ≡ modified_by_it which.now (entry_of entry.now) }
{
    let meant = match which.priority {
        None => covers(&which.fields, &entry.flow.fields),
        Some(priority) => {
            entry.flow.priority == priority && entry.flow.fields.equals(&which.fields)
        }
    };
    meant && entry.flow.cookie & which.cookie_mask == which.cookie & which.cookie_mask
}

/// Whether a DELETE, or a request for statistics, selects the entry: by its match, or match and priority of a strict one, its cookie, and what its actions send to (OpenFlow 1.3.5, 6.4).
///
/// It does not check the number of the table.
pub fn selects(which: &Selector, entry: &Entry) -> bool
    ensures { result ≡ selected which.now (entry_of entry.now) }
{
    modifies(which, entry) && passes_port(which, entry) && passes_group(which, entry)
}

/// Nanoseconds in a second.
pub const NANOS: u64 = 1_000_000_000;

// Whether a timeout of this many seconds is over; 0 is none.
fn is_over(now: u64, since: u64, seconds: u16) -> bool
    ensures { result ≡ over now since seconds }
{
    seconds != 0 && NANOS * u64::from(seconds) <= now.saturating_sub(since)
}

/// Why the entry is removed; None where it stays.
pub(crate) fn reason(cause: &Cause, entry: &Entry) -> Option<FlowRemovedReason>
    ensures { result ≡ reason_of cause.now (entry_of entry.now) }
{
    match cause {
        Cause::Delete(which) if selects(which, entry) => Some(FlowRemovedReason::Delete),
        Cause::Group(group) if names_group(entry, *group) => Some(FlowRemovedReason::GroupDelete),
        Cause::Moment(now) if is_over(*now, entry.created, entry.flow.hard_timeout) => {
            Some(FlowRemovedReason::HardTimeout)
        }
        Cause::Moment(now)
            if is_over(
                *now,
                entry.last.unwrap_or(entry.created),
                entry.flow.idle_timeout,
            ) => { Some(FlowRemovedReason::IdleTimeout) }
        _ => None,
    }
}

/// Whether the command concerns the table of that number.
pub fn is_in(which: &Selector, table: u8) -> bool
    ensures { result ≡ is_within which.now.table table }
{
    match which.table {
        None => true,
        Some(number) => number == table,
    }
}

/// Whether the cause concerns the table of that number.
pub(crate) fn concerns(cause: &Cause, table: u8) -> bool
    ensures { result ≡ concerning cause.now table }
{
    match cause {
        Cause::Delete(which) => is_in(which, table),
        Cause::Group(_) | Cause::Moment(_) => true,
    }
}
