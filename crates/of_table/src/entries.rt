//! Lists of entries.

ghost use Rattle.std.specs.Prelude.{◌≡◌, ◌==◌, ◌&&◌, ◌<◌, ◌≤◌, ◌+◌, ◌++◌, ◌∷◌, [], ℕ, drop, Some, None, true, IsTrue, map, position, length, vec_len, vec_capacity};
ghost use Rattle.std.specs.List.{list_any};
ghost use Rattle.of_wire.specs.Numbered.{is_used, is_distinct, moved_to_end};
ghost use Rattle.of_classifier.specs.Rows.{row_number};
ghost use Rattle.of_oxm.specs.Relations.{overlaps_match};
ghost use Rattle.of_table.specs.Table.{is_same, is_overlapped as overlapped, with_flow, incremented as with_more, counted_at};
ghost use Rattle.of_table.specs.Entries.{entry_of, flows_of, rows_of, entry_numbers, place_of, is_entry_there, IsNumberFor, added_entries};
ghost use Rattle.of_table.specs.{Sound.entry_key, Sound.are_unlike, Deadlines.all_stay};

use crate::deadlines::entry_deadline;
use crate::entry::Entry;
use crate::flow::{Flow, FlowFlags};
use crate::selection::Cause;
use of_actions::InstructionList;
use of_oxm::{Match, overlaps};

/// Up to this many replaced entries are kept in any case.
const FEW: usize = 16;

/// Whether the flow asks to be checked, and an entry of its priority overlaps it.
pub(crate) fn is_overlapped(entries: &[Entry], flow: &Flow) -> bool
    ensures { result ≡ overlapped flow.now (flows_of entries.now) }
{
    flow.flags.check_overlap && has_rival(entries, flow)
}

// Whether an entry of the flow's priority overlaps it.
fn has_rival(entries: &[Entry], flow: &Flow) -> bool
    ensures { result ≡ list_any (λ e. e.flow.priority == flow.now.priority && overlaps_match e.flow.fields flow.now.fields) entries.now }
{
    entries.iter().any(|entry| {
        entry.flow.priority == flow.priority && overlaps(&entry.flow.fields, &flow.fields)
    })
}

/// The entry of a flow that is added now. It does not keep the flags that concern its adding alone.
pub(crate) fn new_entry(number: usize, flow: Flow, now: u64) -> Entry
    ensures number { result.number ≡ number }
    ensures entry { entry_of result ≡ with_flow now flow None }
{
    let flags = FlowFlags {
        check_overlap: false,
        reset_counts: false,
        ..flow.flags
    };
    Entry {
        number,
        flow: Flow { flags, ..flow },
        packets: 0,
        bytes: 0,
        created: now,
        last: None,
    }
}

// The entry with another flow of its match and priority, which is added now.
fn replaced_entry(entry: &Entry, flow: Flow, now: u64) -> Entry
    ensures number { result.number ≡ entry.now.number }
    ensures entry { entry_of result ≡ with_flow now flow (Some (entry_of entry.now)) }
{
    let reset = flow.flags.reset_counts;
    let (packets, bytes) = if reset {
        (0, 0)
    } else {
        (entry.packets, entry.bytes)
    };
    Entry {
        packets,
        bytes,
        ..new_entry(entry.number, flow, now)
    }
}

/// The entry at that place gets the flow and moves to the end. Its number.
///
/// The first `replaced` entries were replaced, and the others follow. The oldest entry becomes one of them, so
/// that no other is moved; where another gets the flow, those after it move up.
pub(crate) fn put_last(
    entries: &mut Vec<Entry>,
    replaced: &mut usize,
    place: usize,
    flow: Flow,
    now: u64,
) -> usize
    requires within { replaced.old ≤ length entries.old.items }
    requires same { position (λ e. is_same flow (entry_of e)) (drop replaced.old entries.old.items) ≡ Some place }
    requires unlike { are_unlike (map entry_key (flows_of (drop replaced.old entries.old.items))) ≡ true }
    requires distinct { IsTrue (is_distinct row_number (rows_of (drop replaced.old entries.old.items))) }
    ensures used { IsTrue (is_used row_number result (rows_of (drop replaced.old entries.old.items))) }
    ensures rows { rows_of (drop replaced.new entries.new.items) ≡ moved_to_end row_number result (rows_of (drop replaced.old entries.old.items)) }
    ensures named { IsNumberFor flow (drop replaced.old entries.old.items) result }
    ensures entries { drop replaced.new entries.new.items ≡ added_entries result now flow (drop replaced.old entries.old.items) }
    ensures within { replaced.new ≤ length entries.new.items }
{
    if *replaced > FEW && *replaced > entries.len() / 2 {
        settle(entries, replaced);
    } else {
        let _ = entries.reserve(1);
    }
    if place == 0 && entries.len() < entries.capacity() {
        let number = push_again(entries, *replaced, flow, now);
        hollow_out(entries, *replaced);
        *replaced += 1;
        number
    } else {
        settle(entries, replaced);
        move_last(entries, place, flow, now)
    }
}

/// Drops the replaced entries.
pub(crate) fn settle(entries: &mut Vec<Entry>, replaced: &mut usize)
    requires { replaced.old ≤ length entries.old.items }
    ensures entries { entries.new.items ≡ drop replaced.old entries.old.items }
    ensures replaced { replaced.new ≡ 0 }
{
    if *replaced > 0 {
        let left = entries.len() - *replaced;
        entries.rotate_left(*replaced);
        entries.truncate(left);
        *replaced = 0;
    }
}

// The oldest of the others gets the flow and moves to the end, where there is capacity. Its number.
fn push_again(entries: &mut Vec<Entry>, replaced: usize, flow: Flow, now: u64) -> usize
    requires within { replaced < length entries.old.items }
    requires room { vec_len entries.old < vec_capacity entries.old }
    requires same { position (λ e. is_same flow (entry_of e)) (drop replaced entries.old.items) ≡ Some 0 }
    requires unlike { are_unlike (map entry_key (flows_of (drop replaced entries.old.items))) ≡ true }
    requires distinct { IsTrue (is_distinct row_number (rows_of (drop replaced entries.old.items))) }
    ensures used { IsTrue (is_used row_number result (rows_of (drop replaced entries.old.items))) }
    ensures rows { rows_of (drop (replaced + 1) entries.new.items) ≡ moved_to_end row_number result (rows_of (drop replaced entries.old.items)) }
    ensures named { IsNumberFor flow (drop replaced entries.old.items) result }
    ensures entries { drop (replaced + 1) entries.new.items ≡ added_entries result now flow (drop replaced entries.old.items) }
    ensures within { replaced + 1 ≤ length entries.new.items }
{
    let again = replaced_entry(&entries[replaced], flow, now);
    let number = again.number;
    push_reserved(entries, again);
    number
}

// The entry at that place, which was replaced, gives up the memory of its match and of its instructions.
fn hollow_out(entries: &mut Vec<Entry>, place: usize)
    requires { place < length entries.old.items }
    ensures others { drop (place + 1) entries.new.items ≡ drop (place + 1) entries.old.items }
    ensures length { length entries.new.items ≡ length entries.old.items }
{
    let alloc = *entries.allocator();
    let flow = &mut entries[place].flow;
    flow.fields = Match::of_all(alloc);
    flow.instructions = InstructionList::none(alloc);
}

// The entry at that place gets the flow and moves to the end; those after it move up. Its number.
fn move_last(entries: &mut Vec<Entry>, place: usize, flow: Flow, now: u64) -> usize
    requires same { position (λ e. is_same flow (entry_of e)) entries.old.items ≡ Some place }
    requires unlike { are_unlike (map entry_key (flows_of entries.old.items)) ≡ true }
    requires distinct { IsTrue (is_distinct row_number (rows_of entries.old.items)) }
    ensures used { IsTrue (is_used row_number result (rows_of entries.old.items)) }
    ensures rows { rows_of entries.new.items ≡ moved_to_end row_number result (rows_of entries.old.items) }
    ensures named { IsNumberFor flow entries.old.items result }
    ensures entries { entries.new.items ≡ added_entries result now flow entries.old.items }
{
    let old = entries.remove(place);
    let entry = replaced_entry(&old, flow, now);
    let number = entry.number;
    push_reserved(entries, entry);
    number
}

/// Appends an entry, where there is capacity.
pub(crate) fn push_reserved(entries: &mut Vec<Entry>, entry: Entry)
    requires { vec_len entries.old < vec_capacity entries.old }
    ensures items { entries.new.items ≡ entries.old.items ++ entry ∷ [] }
    ensures len { vec_len entries.new ≡ vec_len entries.old + 1 }
    ensures capacity { vec_capacity entries.old ≤ vec_capacity entries.new }
{
    match entries.push(entry) {
        Ok(()) => {}
        Err(_) => unreachable!(),
    }
}

/// The entry at that place after the replaced ones counts a packet of this many bytes, now.
///
/// Before the moment that is returned it does not expire.
pub(crate) fn count_at(
    entries: &mut Vec<Entry>,
    replaced: usize,
    place: usize,
    bytes: usize,
    now: u64,
) -> u64
    requires { replaced + place < length entries.old.items }
    ensures due { (at : ℕ) → at < result → all_stay (Cause.Moment at) (drop replaced entries.old.items) ≡ true →
        all_stay (Cause.Moment at) (drop replaced entries.new.items) ≡ true }
    ensures flows { flows_of (drop replaced entries.new.items) ≡ counted_at now place bytes (flows_of (drop replaced entries.old.items)) }
    ensures numbers { entry_numbers (drop replaced entries.new.items) ≡ entry_numbers (drop replaced entries.old.items) }
    ensures rows { rows_of (drop replaced entries.new.items) ≡ rows_of (drop replaced entries.old.items) }
    ensures length { length entries.new.items ≡ length entries.old.items }
{
    let entry = &mut entries[replaced + place];
    let flags = entry.flow.flags;
    entry.packets = incremented(flags.no_packet_counts, entry.packets, 1);
    entry.bytes = incremented(flags.no_byte_counts, entry.bytes, bytes as u64);
    entry.last = Some(now);
    entry_deadline(entry)
}

// A counter plus `more`, where this is counted.
fn incremented(uncounted: bool, counter: u64, more: u64) -> u64
    ensures { result ≡ with_more uncounted counter more }
{
    if uncounted {
        counter
    } else {
        counter.wrapping_add(more)
    }
}
