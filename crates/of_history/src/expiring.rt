//! Flow entries that expire.
ghost use Rattle.std.specs.Prelude.{◌≡◌, ◌++◌, OnOk};
ghost use Rattle.of_table.specs.{Entries.entry_of, Selecting.is_over as over, Selecting.timeout_reason};
ghost use Rattle.of_history.specs.Expiring.{expiry_line, expiry_words, step_expiry, timeout_words};

use crate::fate::push_winner_words;
use of_classifier::Lookup;
use of_machine::Step;
use of_switch::Switch;
use of_table::{Entry, FlowRemovedReason, NANOS};
use of_text::{begin_note, end_note};
use of_values::Part::Number;
use of_values::put;
use of_wire::limits::TABLES;
use std::alloc::AllocError;

pub const EXPIRED: [u8; 16] = *b"expired: table %";

pub const HARD: [u8; 26] = *b": hard timeout, added at %";

pub const IDLE: [u8; 29] = *b": idle timeout, last hit at %";

pub const NEVER_HIT: [u8; 25] = *b": idle timeout, never hit";

// Whether a timeout of this many seconds is over; 0 is none.
fn is_over(moment: u64, since: u64, seconds: u16) -> bool
    ensures { result ≡ over moment since seconds }
{
    seconds != 0 && NANOS * u64::from(seconds) <= moment.saturating_sub(since)
}

// The timeout of an entry that is over at a moment.
fn timeout(moment: u64, entry: &Entry) -> Option<FlowRemovedReason>
    ensures { result ≡ timeout_reason moment (entry_of entry.now) }
{
    if is_over(moment, entry.created, entry.flow.hard_timeout) {
        return Some(FlowRemovedReason::HardTimeout);
    }
    let since = entry.last.unwrap_or(entry.created);
    if is_over(moment, since, entry.flow.idle_timeout) {
        return Some(FlowRemovedReason::IdleTimeout);
    }
    None
}

// Appends a timeout, and since when it counts.
fn push_timeout(
    out: &mut Vec<u8>,
    entry: &Entry,
    reason: FlowRemovedReason,
) -> Result<(), AllocError>
    ensures { OnOk result (out.new.items ≡ out.old.items ++ timeout_words (entry_of entry.now) reason) }
{
    match (reason, entry.last) {
        (FlowRemovedReason::HardTimeout, _) => {
            put(out, &HARD, &[Number(u128::from(entry.created))])
        }
        (_, Some(last)) => put(out, &IDLE, &[Number(u128::from(last))]),
        (_, None) => out.extend_from_slice(&NEVER_HIT),
    }
}

// Appends an entry that expires, and why.
#[tactic(auto, unfolding(crate::specs::Expiring::expiry_words))]
fn push_expiry_words(
    out: &mut Vec<u8>,
    table: u8,
    entry: &Entry,
    reason: FlowRemovedReason,
) -> Result<(), AllocError>
    ensures { OnOk result (out.new.items ≡ out.old.items ++ expiry_words table (entry_of entry.now) reason) }
{
    put(out, &EXPIRED, &[Number(u128::from(table))])?;
    push_winner_words(out, &entry.flow)?;
    push_timeout(out, entry, reason)
}

/// Appends a line about an entry whose timeout is over at a moment; nothing about another one.
#[tactic(auto, unfolding(crate::specs::Expiring::expiry_line))]
pub fn push_expiry(
    out: &mut Vec<u8>,
    moment: u64,
    table: u8,
    entry: &Entry,
) -> Result<(), AllocError>
    ensures { OnOk result (out.new.items ≡ out.old.items ++ expiry_line moment table (entry_of entry.now)) }
{
    let Some(reason) = timeout(moment, entry) else {
        return Ok(());
    };
    begin_note(out)?;
    push_expiry_words(out, table, entry, reason)?;
    end_note(out)
}

/// Appends a line about the entry of a step, if its timeout is over at a moment.
pub fn push_step_expiry<L: Lookup>(
    out: &mut Vec<u8>,
    switch: &Switch<L>,
    moment: u64,
    step: Step,
) -> Result<(), AllocError>
    ensures { OnOk result (out.new.items ≡ out.old.items ++ step_expiry switch.now.core.forwarding moment step) }
{
    let Step::Entry { table, number } = step else {
        return Ok(());
    };
    if table >= TABLES {
        return Ok(());
    }
    match switch.datapath().entry(table, number) {
        None => Ok(()),
        Some(entry) => push_expiry(out, moment, table, entry),
    }
}
