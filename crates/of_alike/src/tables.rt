//! Which entries of two flow tables have no counterpart in the other.
ghost use Rattle.std.specs.Prelude.{◌≡◌, ◌↔◌, ◌⊎◌, [], ◌++◌, IfNone, IfOk, IfSome, IsTrue, OnOk, map};
ghost use Rattle.std.specs.List.{Contains};
ghost use Rattle.of_table.specs.Entries.{entry_of, flows_of};
ghost use Rattle.of_alike.specs.SameTables.{AreChanged, IsMove, SameTables, first_marks, says_of, second_marks};
ghost use Rattle.of_alike.specs.declared.tables.Move.TheVariants.{First, Second};

use of_actions::{Action, Instruction};
use of_symbolic_run::listed_entries;
use of_table::{Entries, Entry};
use std::alloc::{AllocError, Global};

/// Whether two lists have the same actions.
pub fn are_same_actions(xs: &[Action], ys: &[Action]) -> bool
    ensures { IsTrue result ↔ (xs.now ≡ ys.now) }
{
    xs == ys
}

/// Whether two instructions are the same.
pub fn is_same_instruction(a: &Instruction, b: &Instruction) -> bool
    ensures { IsTrue result ↔ (a.now ≡ b.now) }
{
    match (a, b) {
        (Instruction::Apply(xs), Instruction::Apply(ys))
        | (Instruction::Write(xs), Instruction::Write(ys)) => {
            are_same_actions(xs.as_slice(), ys.as_slice())
        }
        (Instruction::Clear, Instruction::Clear) => true,
        (
            Instruction::Metadata { value, mask },
            Instruction::Metadata {
                value: other,
                mask: bits,
            },
        ) => value == other && mask == bits,
        (Instruction::Goto(x), Instruction::Goto(y)) => x == y,
        _ => false,
    }
}

fn are_same_instructions(xs: &[Instruction], ys: &[Instruction]) -> bool
    ensures { IsTrue result ↔ (xs.now ≡ ys.now) }
{
    let mut others = ys.iter();
    for x in xs {
        match others.next() {
            Some(y) if is_same_instruction(x, y) => {}
            _ => return false,
        }
    }
    others.next().is_none()
}

// Whether two entries say the same: they have the same priority, match, cookie and instructions (OpenFlow 1.3.5, 5.2).
fn are_same_entries(a: &Entry, b: &Entry) -> bool
    ensures { IsTrue result ↔ (says_of (entry_of a.now) ≡ says_of (entry_of b.now)) }
{
    a.flow.priority == b.flow.priority
        && a.flow.cookie == b.flow.cookie
        && a.flow.fields.equals(&b.flow.fields)
        && are_same_instructions(
            a.flow.instructions.as_slice(),
            b.flow.instructions.as_slice(),
        )
}

/// Whether an entry of a table says the same as this one: it has the same priority, match, cookie and instructions (OpenFlow 1.3.5, 5.2).
pub fn has_such_entry(entries: Entries<'_>, entry: &Entry) -> bool
    ensures { IsTrue result ↔ Contains (map says_of (flows_of entries.entry)) (says_of (entry_of entry.now)) }
{
    for other in entries {
        if are_same_entries(other, entry) {
            return true;
        }
    }
    false
}

/// Whether the entries of two tables say the same, in the same order by age.
pub fn have_same_entries(a: Entries<'_>, b: Entries<'_>) -> bool
    ensures { IsTrue result ↔ SameTables (flows_of a.entry) (flows_of b.entry) }
{
    let mut others = b;
    for entry in a {
        match others.next() {
            Some(other) if are_same_entries(entry, other) => {}
            _ => return false,
        }
    }
    others.next().is_none()
}

/// Which entries of two tables have no counterpart in the other: one mark for each entry, by age.
#[derive(Drop)]
pub struct Changed {
    pub a: Vec<bool>,
    pub b: Vec<bool>,
}

// How to go on in two lists of entries.
#[derive(Clone, Copy, PartialEq, Eq)]
enum Move {
    // The first entries say the same.
    Both,
    // The first entry of the first list has no counterpart.
    First,
    // That of the second list has none.
    Second,
}

/// How many changed entries of a table are looked at one by one.
const MOST_CHANGED: usize = 64;

impl Changed {
    /// No entries, and so no marks.
    pub fn none(alloc: Global) -> Changed
        ensures { (result.a.items ≡ []) × (result.b.items ≡ []) }
    {
        Changed {
            a: Vec::new(alloc),
            b: Vec::new(alloc),
        }
    }

    /// Whether so few entries are marked that it pays to divide the frames by these alone.
    pub fn are_few(&self) -> bool {
        self.a.iter().filter(|mark| **mark).count() <= MOST_CHANGED
            && self.b.iter().filter(|mark| **mark).count() <= MOST_CHANGED
    }

    // Marks the entries that are passed.
    fn mark(&mut self, next: Move) -> Result<(), AllocError>
        ensures a { OnOk result (self.new.a.items ≡ self.old.a.items ++ first_marks next) }
        ensures b { OnOk result (self.new.b.items ≡ self.old.b.items ++ second_marks next) }
    {
        match next {
            Move::Both => {
                self.a.push(false)?;
                self.b.push(false)?;
            }
            Move::First => self.a.push(true)?,
            Move::Second => self.b.push(true)?,
        }
        Ok(())
    }
}

// The place of the first entry that says the same.
fn place_among(entry: &Entry, others: &[&Entry]) -> Option<usize> {
    others
        .iter()
        .position(|other| are_same_entries(entry, other))
}

// Which of two entries that say different things is passed: that which the other list does not have, or else that whose counterpart is farther on.
fn passed_one(entry: &Entry, entries: &[&Entry], other: &Entry, others: &[&Entry]) -> Move
    ensures { result ≡ First ⊎ (result ≡ Second) }
{
    match (place_among(entry, others), place_among(other, entries)) {
        (None, _) => Move::First,
        (Some(_), None) => Move::Second,
        (Some(near), Some(far)) => {
            if near <= far {
                Move::Second
            } else {
                Move::First
            }
        }
    }
}

// How to go on. None at the end of both lists.
fn next_move(a: &[&Entry], b: &[&Entry]) -> Option<Move>
    ensures some { IfSome result (λ next. IsMove next (map (λ x. x.now) a.now) (map (λ x. x.now) b.now)) }
    ensures none { IfNone result ((a.now ≡ []) × (b.now ≡ [])) }
{
    match (a, b) {
        ([], []) => None,
        ([_, ..], []) => Some(Move::First),
        ([], [_, ..]) => Some(Move::Second),
        ([entry, ..], [other, ..]) => {
            if are_same_entries(entry, other) {
                Some(Move::Both)
            } else {
                Some(passed_one(entry, a, other, b))
            }
        }
    }
}

// Which entries of two lists have no counterpart in the other.
fn changed_among(alloc: Global, a: &[&Entry], b: &[&Entry]) -> Result<Changed, AllocError>
    ensures { IfOk result (AreChanged (flows_of (map (λ x. x.now) a.now)) (flows_of (map (λ x. x.now) b.now))) }
{
    let mut changed = Changed::none(alloc);
    while let Some(next) = next_move(&a[changed.a.len()..], &b[changed.b.len()..]) {
        changed.mark(next)?;
    }
    Ok(changed)
}

/// Which entries of two tables have no counterpart in the other. Those that have one say the same in the same order by age (OpenFlow 1.3.5, 5.3).
///
/// It takes time that is linear in the entries for each entry without a counterpart, and at most as many marks as there are entries.
pub fn changed_entries(alloc: Global, a: Entries<'_>, b: Entries<'_>) -> Result<Changed, AllocError>
    ensures { IfOk result (AreChanged (flows_of a.entry) (flows_of b.entry)) }
{
    let first = listed_entries(alloc, a)?;
    let second = listed_entries(alloc, b)?;
    changed_among(alloc, &first, &second)
}
