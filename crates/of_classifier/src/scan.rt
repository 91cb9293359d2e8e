//! A classifier that walks a list.
ghost use Rattle.std.specs.Prelude.{◌≡◌, ◌<◌, ℕ, Option, IsTrue, false, IfSome, IfNone, length, slice_index_or};
ghost use Rattle.of_layers.specs.declared.field.Field.{Field};
ghost use Rattle.of_headers.specs.FieldMap.{value};
ghost use Rattle.of_oxm.specs.Masks.{mask_at, Agree};
ghost use Rattle.of_wire.specs.Numbered.{is_used, is_distinct, without, moved_to_end};
ghost use Rattle.of_classifier.specs.{declared.Row.Row, Rows.row_number, Rows.is_same_row, Winner.matching, Winner.winner_of, Winner.winner_number, Scanning.better_of, Looking.looked_by};

use crate::{Lookup, Row};
use of_headers::FieldKey;
use of_oxm::{FieldMask, Match, mask_of, matches};
use slab::Slab;
use std::alloc::{AllocError, Global};
use std::marker::Model;

/// The entries in a list. A slab assigns their numbers.
#[derive(Drop)]
pub struct Scan {
    rows: Vec<Row>,
    numbers: Slab<()>,
}

impl Model for Scan {
    ghost use Rattle.std.specs.Prelude.{List, IsTrue};
    ghost use Rattle.of_wire.specs.Numbered.{is_distinct};
    ghost use Rattle.of_classifier.specs.{declared.Row.Row, Rows.row_number, Scanning.are_given};

    ghost Value = { List Row };

    ghost view = { λ s. s.rows.items };

    ghost invariant = { λ s. IsTrue (is_distinct row_number s.rows.items) × IsTrue (are_given s.numbers s.rows.items) };
}

impl Lookup for Scan {
    ghost content = { λ s. s };

    ghost looked = { λ rows key. looked_by rows };

    fn empty(alloc: Global, _seed: u64) -> Result<Self, AllocError> {
        Ok(Scan {
            rows: Vec::new(alloc),
            numbers: Slab::new(alloc),
        })
    }

    fn winner(&mut self, key: &FieldKey) -> Option<usize> {
        best_of(&self.rows, key)
    }

    fn peek(&self, key: &FieldKey) -> Option<usize> {
        best_of(&self.rows, key)
    }

    fn region(&self, key: &FieldKey) -> (Option<usize>, FieldMask) {
        (best_of(&self.rows, key), mask_of_all(&self.rows))
    }

    fn priority(&self, number: usize) -> Option<u16> {
        self.rows
            .iter()
            .find(|row| row.number == number)
            .map(|row| row.priority)
    }

    fn add(&mut self, fields: Match, priority: u16) -> Result<usize, AllocError> {
        self.rows.reserve(1)?;
        let number = self.numbers.insert(())?;
        self.rows.push(Row {
            number,
            priority,
            fields,
        })?;
        Ok(number)
    }

    fn take(&mut self, number: usize) {
        remove_row(&mut self.rows, number);
        self.numbers.try_remove(number);
    }

    fn same(&self, fields: &Match, priority: u16) -> Option<usize> {
        self.rows
            .iter()
            .find(|row| is_same(row, fields, priority))
            .map(|row| row.number)
    }

    fn renew(&mut self, number: usize) {
        renew_row(&mut self.rows, number);
    }

    fn known(&self) {
        let _rows = &self.rows;
    }
}

// The number of the winner.
fn best_of(rows: &[Row], key: &FieldKey) -> Option<usize>
    ensures { result ≡ winner_number (winner_of rows.now (value key.now)) }
{
    let mut best: Option<(usize, u16)> = None;
    for row in rows {
        if matches(&row.fields, key) {
            best = better(best, row);
        }
    }
    match best {
        Some((number, _)) => Some(number),
        None => None,
    }
}

/// The bits that the rows look at: the same ones match field maps that agree in them.
pub fn mask_of_all(rows: &[Row]) -> FieldMask
    ensures mask { (f : Field) → mask_at result f ≡ looked_by rows.now f }
    ensures alike { (map key : Field → Option ℕ) → Agree (mask_at result) map key → matching rows.now map ≡ matching rows.now key }
{
    let mut mask = FieldMask::empty();
    for row in rows {
        row.fields.known();
        mask = mask.or(&mask_of(&row.fields));
    }
    mask
}

// The best so far after one more row.
fn better(best: Option<(usize, u16)>, row: &Row) -> Option<(usize, u16)>
    ensures { result ≡ better_of best row.now }
{
    match best {
        Some((number, priority)) if row.priority <= priority => Some((number, priority)),
        _ => Some((row.number, row.priority)),
    }
}

/// Whether an entry is of that match and priority.
pub fn is_same(row: &Row, fields: &Match, priority: u16) -> bool
    ensures { result ≡ is_same_row fields.now priority row.now }
{
    row.priority == priority && row.fields.equals(fields)
}

fn remove_row(rows: &mut Vec<Row>, number: usize)
    ensures { rows.new.items ≡ without row_number number rows.old.items }
{
    rows.retain(|row| row.number != number);
}

fn renew_row(rows: &mut Vec<Row>, number: usize)
    requires { IsTrue (is_distinct row_number rows.old.items) }
    ensures { rows.new.items ≡ moved_to_end row_number number rows.old.items }
{
    match place_of(rows, number) {
        Some(place) => {
            let row = rows.remove(place);
            match rows.push(row) {
                Ok(()) => {}
                Err(_) => unreachable!(),
            }
        }
        None => {}
    }
}

// The place of the entry with that number.
fn place_of(rows: &[Row], number: usize) -> Option<usize>
    ensures within { IfSome result (λ k. k < length rows.now) }
    ensures found { IfSome result (λ k. (d : Row) → (slice_index_or rows.now k d).number ≡ number) }
    ensures none { IfNone result (is_used row_number number rows.now ≡ false) }
{
    for (i, row) in rows.iter().enumerate() {
        if row.number == number {
            return Some(i);
        }
    }
    None
}
