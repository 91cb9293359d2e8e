//! Flow tables.

ghost use Rattle.std.specs.Prelude.{◌≡◌, ◌==◌, ◌++◌, ◌+◌, ◌-◌, ◌≤◌, ℕ, Some, false, true, IsTrue, IfOk, IfSome, OnOk, OnErr, not, map, position};
ghost use Rattle.std.specs.{List.list_any, Option.option_map, Option.option_copied};
ghost use Rattle.of_headers.specs.FieldMap.{value};
ghost use Rattle.of_wire.specs.Numbered.{is_distinct};
ghost use Rattle.of_classifier.specs.Rows.{is_same_row};
ghost use Rattle.of_table.specs.Table.{is_same, add_flow_fault, winner_place, looked as one_looked_up, matched_at};
ghost use Rattle.of_table.specs.Entries.{Numbered, AddsEntry, no_entries, table_of, entry_of, flows_of, entry_numbers, classifier_row, rows_of, entry_number, place_of, is_entry_there, find_number};
ghost use Rattle.of_table.specs.Selecting.{is_meant, stays, modified_entries, kept_of, all_told};
ghost use Rattle.of_table.specs.{Tables.is_in as is_within, Tables.modified_numbered, Tables.kept_table, Tables.told_table, Copies.Supply, Copies.wanted, Copies.wanted_in, Spans.Outside};
ghost use Rattle.of_table.specs.{Faults.flow_fault_in, Sound.AreSoundEntries, Sound.are_instructions_fit, Sound.entry_key, Sound.are_unlike};
ghost use Rattle.of_actions.specs.FlowCheck.{all_go_with};

use crate::copied::copy_entries;
use crate::copies::Copies;
use crate::deadlines::{earliest, flow_deadline};
use crate::entries::{count_at, is_overlapped, new_entry, push_reserved, put_last, settle};
use crate::entry::Entry;
use crate::flow::Flow;
use crate::modifying::{make_copies, modify_all};
use crate::places::note_places;
use crate::removing::{list_gone, take_gone};
use crate::selection::{Cause, Removed, Selector, concerns, is_in, reason};
use crate::span::Span;
use crate::table_fault::TableFault;
use of_classifier::Lookup;
use of_headers::FieldKey;
use of_oxm::Match;
use of_wire::limits::MOST_ENTRIES;
use std::alloc::{AllocError, Global};
use std::marker::Model;

/// A flow table: its entries, oldest first, and its counters (OpenFlow 1.3.5, 5.2 and 5.8).
///
/// The classifier finds the entry that a packet hits.
#[derive(Drop)]
pub struct FlowTable<L: Lookup> {
    lookup: L,
    /// That of the classifier, for copies.
    seed: u64,
    /// Its entries, after some that were replaced.
    entries: Vec<Entry>,
    replaced: usize,
    /// By the numbers of the entries, their places when these were noted last, the replaced ones counted.
    places: Vec<usize>,
    /// Before this moment no entry expires.
    due: u64,
    lookups: u64,
    matched: u64,
}

impl<L: Lookup> Model for FlowTable<L> {
    ghost use Rattle.std.specs.Prelude.{◌≡◌, ◌≤◌, true, map, drop, length};
    ghost use Rattle.of_table.specs.{Entries.Numbered, Entries.flows_of, Entries.rows_of, Deadlines.NoneOver, Sound.entry_key, Sound.are_unlike};

    ghost Value = { Numbered };

    ghost view = { λ t. record { lookups = t.lookups; matched = t.matched; entries = drop t.replaced t.entries.items } };

    ghost invariant = { λ t. (L.content t.lookup ≡ rows_of (drop t.replaced t.entries.items)) × NoneOver t.due (drop t.replaced t.entries.items) × (t.replaced ≤ length t.entries.items) × (are_unlike (map entry_key (flows_of (drop t.replaced t.entries.items))) ≡ true) };
}

impl<L: Lookup> FlowTable<L> {
    /// Without entries, and with counters of 0. No answer depends on the seed ([`Lookup::empty`]).
    pub fn new(alloc: Global, seed: u64) -> Result<Self, AllocError>
        ensures { IfOk result (λ t. t ≡ no_entries) }
    {
        Ok(FlowTable {
            lookup: L::empty(alloc, seed)?,
            seed,
            entries: Vec::new(alloc),
            replaced: 0,
            places: Vec::new(alloc),
            due: u64::MAX,
            lookups: 0,
            matched: 0,
        })
    }

    /// A copy: its counters, and its entries, oldest first, each with its flow, its counters and its times.
    ///
    /// The classifier of the copy gives them numbers of its own.
    pub fn copy(&self) -> Result<Self, AllocError>
        ensures { IfOk result (λ copy. table_of copy ≡ table_of self.now) }
    {
        let alloc = *self.entries.allocator();
        let mut lookup = L::empty(alloc, self.seed)?;
        let entries = copy_entries(alloc, self.entries(), &mut lookup)?;
        let mut places = Vec::new(alloc);
        note_places(&mut places, &entries, 0);
        Ok(FlowTable {
            lookup,
            seed: self.seed,
            entries,
            replaced: 0,
            places,
            due: self.due,
            lookups: self.lookups,
            matched: self.matched,
        })
    }

    /// Adds a flow, now (OpenFlow 1.3.5, 6.4).
    ///
    /// An entry of its match and priority gets it, keeps its number, and its counters unless they
    /// are to be reset, and becomes the youngest; that needs no memory. Else there is a new entry,
    /// with counters of 0.
    pub fn add(&mut self, flow: Flow, now: u64) -> Result<(), TableFault>
        ensures fault { flow_fault_in result ≡ add_flow_fault flow (flows_of self.old.entries) }
        ensures ok { OnOk result (AddsEntry now flow self.old self.new) }
        ensures err { OnErr result (self.new ≡ self.old) }
    {
        if is_overlapped(self.entries(), &flow) {
            return Err(TableFault::Overlap);
        }
        match self.same_place(&flow.fields, flow.priority) {
            Some(place) => {
                self.replace(place, flow, now);
                return Ok(());
            }
            None => {}
        }
        if self.entries().len() >= MOST_ENTRIES {
            return Err(TableFault::Full);
        }
        match self.append(flow, now) {
            Ok(()) => Ok(()),
            Err(_) => Err(TableFault::NoMemory),
        }
    }

    // The entry at that place gets the flow and becomes the youngest.
    fn replace(&mut self, place: usize, flow: Flow, now: u64)
        requires { position (λ e. is_same flow (entry_of e)) self.old.entries ≡ Some place }
        ensures { AddsEntry now flow self.old self.new }
    {
        self.lookup.known();
        let due = self.due.min(flow_deadline(&flow, now));
        let before = self.replaced;
        let number = put_last(&mut self.entries, &mut self.replaced, place, flow, now);
        self.lookup.renew(number);
        let from = if self.replaced > before {
            self.entries.len().saturating_sub(1)
        } else if before == 0 {
            place
        } else {
            0
        };
        note_places(&mut self.places, &self.entries, from);
        self.due = due;
    }

    // The place of the entry of that match and priority.
    fn same_place(&self, fields: &Match, priority: u16) -> Option<usize>
        ensures { result ≡ position (λ e. is_same_row fields.now priority (classifier_row e)) self.now.entries }
    {
        self.known();
        match self.lookup.same(fields, priority) {
            Some(number) => self.place(number),
            None => None,
        }
    }

    // The place of the entry of that number, if it exists.
    //
    // An entry that moved since its place was noted is searched for.
    fn place(&self, number: usize) -> Option<usize>
        ensures { result ≡ position (λ e. e.number == number) self.now.entries }
    {
        self.known();
        let entries = self.entries();
        if number < self.places.len() {
            let place = self.places[number].wrapping_sub(self.replaced);
            if place < entries.len() && entries[place].number == number {
                return Some(place);
            }
        }
        entries.iter().position(|entry| entry.number == number)
    }

    // A new entry.
    fn append(&mut self, flow: Flow, now: u64) -> Result<(), AllocError>
        requires { list_any (is_same flow) (flows_of self.old.entries) ≡ false }
        ensures ok { OnOk result (AddsEntry now flow self.old self.new) }
        ensures err { OnErr result (self.new ≡ self.old) }
    {
        self.entries.reserve(1)?;
        let fields = flow.fields.copy()?;
        let due = self.due.min(flow_deadline(&flow, now));
        let number = self.lookup.add(fields, flow.priority)?;
        let place = self.entries.len();
        push_reserved(&mut self.entries, new_entry(number, flow, now));
        note_places(&mut self.places, &self.entries, place);
        self.due = due;
        Ok(())
    }

    // The span of the entries that the command may select: for a strict one, that of its match and priority.
    fn span_of(&self, which: &Selector) -> Span
        ensures { Outside (λ e. is_meant which.now (entry_of e)) self.now.entries result.first result.end }
    {
        self.known();
        let count = self.entries().len();
        match which.priority {
            None => Span {
                first: 0,
                end: count,
            },
            Some(priority) => match self.same_place(&which.fields, priority) {
                Some(place) => Span {
                    first: place,
                    end: place + 1,
                },
                None => Span { first: 0, end: 0 },
            },
        }
    }

    // The span of the entries to which the cause may apply.
    fn span_going(&self, cause: &Cause) -> Span
        ensures { Outside (λ e. not (stays cause.now (entry_of e))) self.now.entries result.first result.end }
    {
        match cause {
            Cause::Delete(which) => self.span_of(which),
            Cause::Moment(now) if *now < self.due => Span { first: 0, end: 0 },
            Cause::Moment(_) | Cause::Group(_) => Span {
                first: 0,
                end: self.entries().len(),
            },
        }
    }

    /// Makes a copy for each entry that a MODIFY command selects.
    ///
    /// `table` is the number of this table.
    pub fn copy_for(
        &self,
        table: u8,
        which: &Selector,
        copies: &mut Copies<'_>,
    ) -> Result<(), AllocError>
        ensures { OnOk result (copies.new ≡ record copies.old { count = copies.old.count + wanted_in which.now table self.now }) }
    {
        if is_in(which, table) {
            let span = self.span_of(which);
            make_copies(&self.entries()[span.first..span.end], which, copies)
        } else {
            Ok(())
        }
    }

    /// Gives each entry that a MODIFY command selects such a copy, and counters of 0 where they are to be reset (OpenFlow 1.3.5, 6.4).
    ///
    /// All else of an entry stays, and none is added. `table` is the number of this table.
    pub fn modify(&mut self, table: u8, which: &Selector, copies: &mut Copies<'_>, reset: bool)
        requires { wanted_in which.now table self.old ≤ copies.old.count }
        ensures table { self.new ≡ modified_numbered which.now copies.old.instructions reset table self.old }
        ensures copies { copies.new ≡ record copies.old { count = copies.old.count - wanted_in which.now table self.old } }
        ensures sound { (is_within which.now.table table ≡ true → are_instructions_fit table copies.old.instructions ≡ true) →
            all_go_with which.now.fields copies.old.instructions ≡ true → AreSoundEntries table (table_of self.old).flows →
            AreSoundEntries table (table_of self.new).flows }
    {
        if is_in(which, table) {
            let span = self.span_of(which);
            let entries = &mut self.entries[self.replaced..];
            modify_all(entries, span, which, copies, reset);
        }
    }

    /// Appends notices of the entries to which the cause applies, of those whose flags ask for one (OpenFlow 1.3.5, 5.5, 6.4 and 6.5).
    ///
    /// `table` is the number of this table.
    pub fn list<'a>(
        &'a self,
        table: u8,
        cause: &Cause,
        removed: &mut Vec<Removed<'a>>,
    ) -> Result<(), AllocError>
        ensures { OnOk result (all_told removed.new.items ≡ all_told removed.old.items ++ told_table cause.now table self.now) }
    {
        if concerns(cause, table) {
            let span = self.span_going(cause);
            let entries = &self.entries()[span.first..span.end];
            list_gone(entries, table, cause, removed)
        } else {
            Ok(())
        }
    }

    /// Removes the entries to which the cause applies (OpenFlow 1.3.5, 5.5, 6.4 and 6.5).
    ///
    /// `table` is the number of this table.
    pub fn remove(&mut self, table: u8, cause: &Cause)
        ensures { self.new ≡ kept_table cause.now table self.old }
    {
        if !concerns(cause, table) {
            return;
        }
        let span = self.span_going(cause);
        if span.first == span.end {
            return;
        }
        if span.first + 1 == span.end {
            self.remove_one(span.first, cause);
        } else {
            self.remove_all(cause);
        }
    }

    // Removes the entry at that place, if the cause applies to it; the others stay.
    fn remove_one(&mut self, place: usize, cause: &Cause)
        requires { Outside (λ e. not (stays cause.now (entry_of e))) self.old.entries place (place + 1) }
        ensures { self.new ≡ record self.old { entries = kept_of cause.now self.old.entries } }
    {
        self.lookup.known();
        let at = self.replaced + place;
        if reason(cause, &self.entries[at]).is_some() {
            let entry = self.entries.remove(at);
            self.lookup.take(entry.number);
            note_places(&mut self.places, &self.entries, at);
        }
    }

    // Looks at each entry, and removes those to which the cause applies.
    fn remove_all(&mut self, cause: &Cause)
        ensures { self.new ≡ record self.old { entries = kept_of cause.now self.old.entries } }
    {
        settle(&mut self.entries, &mut self.replaced);
        take_gone(&mut self.lookup, &self.entries, cause);
        self.entries.retain(|entry| reason(cause, entry).is_none());
        note_places(&mut self.places, &self.entries, 0);
        self.due = earliest(&self.entries);
    }

    /// The number of the entry that a packet of this key hits, or `None` where it misses (OpenFlow 1.3.5, 5.3).
    ///
    /// No counter changes.
    pub fn lookup(&mut self, key: &FieldKey) -> Option<usize>
        ensures place { winner_place (value key.now) (flows_of self.old.entries) ≡ option_map (λ number. place_of number self.old.entries) result }
        ensures there { IfSome result (λ number. IsTrue (is_entry_there number self.old.entries)) }
        ensures kept { self.new ≡ self.old }
    {
        self.lookup.known();
        self.lookup.winner(key)
    }

    /// As `lookup`, for a table that is only borrowed.
    pub fn peek(&self, key: &FieldKey) -> Option<usize>
        ensures place { winner_place (value key.now) (flows_of self.now.entries) ≡ option_map (λ number. place_of number self.now.entries) result }
        ensures there { IfSome result (λ number. IsTrue (is_entry_there number self.now.entries)) }
    {
        self.lookup.known();
        self.lookup.peek(key)
    }

    /// A packet was looked up.
    pub fn looked(&mut self)
        ensures table { table_of self.new ≡ one_looked_up (table_of self.old) }
        ensures entries { self.new.entries ≡ self.old.entries }
    {
        self.lookups = self.lookups.wrapping_add(1);
    }

    /// A packet of this many bytes hit the entry of that number, now; where there is none, the table alone counts it.
    pub fn count(&mut self, number: usize, bytes: usize, now: u64)
        ensures table { table_of self.new ≡ matched_at now (place_of number self.old.entries) bytes (table_of self.old) }
        ensures numbers { entry_numbers self.new.entries ≡ entry_numbers self.old.entries }
    {
        let place = self.place(number);
        self.matched = self.matched.wrapping_add(1);
        match place {
            Some(place) => {
                let due = count_at(&mut self.entries, self.replaced, place, bytes, now);
                self.due = self.due.min(due);
            }
            None => return,
        }
    }

    /// The entry of that number, if it exists.
    pub fn entry(&self, number: usize) -> Option<&Entry>
        ensures { option_copied result ≡ find_number number self.now.entries }
    {
        match self.place(number) {
            Some(place) => Some(&self.entries()[place]),
            None => None,
        }
    }

    /// The place of the entry of that number, from 0; how many there are where none has it.
    pub fn place_or_end(&self, number: usize) -> usize
        ensures { result ≡ place_of number self.now.entries }
    {
        match self.place(number) {
            Some(place) => place,
            None => self.entries().len(),
        }
    }

    /// The entries, oldest first.
    pub fn entries(&self) -> &[Entry]
        ensures { result.now ≡ self.now.entries }
    {
        &self.entries[self.replaced..]
    }

    /// The classifier of the entries.
    pub fn part(&self) -> &L
        ensures { L.content result.now ≡ rows_of self.now.entries }
    {
        &self.lookup
    }

    /// How many packets were looked up, and how many hit an entry. They wrap.
    pub fn counters(&self) -> (u64, u64)
        ensures { result ≡ (self.now.lookups, self.now.matched) }
    {
        (self.lookups, self.matched)
    }

    /// No two entries have the same number, and no two the same priority and match.
    pub fn known(&self)
        ensures distinct { IsTrue (is_distinct entry_number self.now.entries) }
        ensures unlike { are_unlike (map entry_key (flows_of self.now.entries)) ≡ true }
    {
        self.lookup.known();
    }
}
