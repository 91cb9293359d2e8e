//! A classifier that keeps what it found, by region.
ghost use Rattle.std.specs.Prelude.{◌≡◌, ◌<◌, ◌⊎◌, ℕ, List, [], Option, IfOk, OnOk, OnErr, IsTrue, false, option_map, ◌++◌, ◌∷◌, map};
ghost use Rattle.of_layers.specs.declared.field.Field.{Field};
ghost use Rattle.of_headers.specs.FieldMap.{value};
ghost use Rattle.of_oxm.specs.Masks.{mask_at, Agree};
ghost use Rattle.of_wire.specs.Numbered.{is_used, is_distinct, without, moved_to_end};
ghost use Rattle.of_classifier.specs.{declared.Row.Row as AnEntry, Rows.made_row, Rows.row_number, Rows.same_of, Rows.priority_of, Winner.winner_of, Winner.winner_number, Scanning.pair_of};
ghost use Rattle.of_cache.specs.{Held.HeldRows, Held.held_rows, Held.shown_row, Kept.AreSoundRegions, Kept.not_answering, Kept.not_beaten, Finding.AreFound, Listed.AreMasks};

use crate::beaten::drop_beaten;
use crate::cause::Cause;
use crate::dropping::{Answer, Rows, drop_rows};
use crate::hashing::SecretHasher;
use crate::keeping::{drop_masks, find, store};
use crate::region::{Region, Row};
use lru::LruCache;
use of_classifier::Lookup;
use of_headers::FieldKey;
use of_oxm::{FieldMask, Match, key_of, mask_of};
use std::alloc::{AllocError, Global};
use std::marker::Model;
use std::num::NonZeroUsize;

/// How many rows `empty` allows.
const ROWS: usize = 1024;

/// A classifier, and rows of what it answered.
#[derive(Drop)]
pub struct Cached<L: Lookup> {
    inner: L,
    rows: Rows,
    /// The masks of the rows' regions, each once.
    masks: Vec<FieldMask>,
}

impl<L: Lookup> Model for Cached<L> {
    ghost use Rattle.of_cache.specs.{Held.HeldRows, Held.held_rows, Kept.AreSoundRegions, Listed.AreMasks};

    ghost Value = { HeldRows };

    ghost view = { λ c. held_rows (L.content c.inner) c.rows.entries c.rows.cap };

    ghost invariant = { λ c. AreSoundRegions (L.content c.inner) c.rows.entries × AreMasks c.masks.items c.rows.entries };
}

impl<L: Lookup> Cached<L> {
    /// The classifier, without rows, of which it keeps this many at most. It fails only if memory runs out.
    ///
    /// No answer depends on the seed, but who knows it may pick frames whose rows are found late.
    pub fn with_rows(
        alloc: Global,
        inner: L,
        capacity: usize,
        seed: u64,
    ) -> Result<Self, AllocError>
        requires { 0 < capacity }
        ensures { IfOk result (λ c. c ≡ held_rows (L.content inner) [] capacity) }
    {
        let capacity = match NonZeroUsize::new(capacity) {
            Some(capacity) => capacity,
            None => NonZeroUsize::MIN,
        };
        let mut rows = LruCache::unbounded_with_hasher(alloc, SecretHasher::new(seed))?;
        rows.resize(capacity);
        Ok(Cached {
            inner,
            rows,
            masks: Vec::new(alloc),
        })
    }

    /// The rows, the most recently used first. It fails only if memory runs out.
    pub fn rows(&self, alloc: Global) -> Result<Vec<Row>, AllocError>
        ensures { IfOk result (λ rows. rows.items ≡ map shown_row self.now.rows) }
    {
        rows_of(&self.rows, alloc)
    }

    /// Its rows are right, also at field maps that no frame has.
    pub fn rows_are_right(&self)
        ensures { AreSoundRegions self.now.content self.now.rows }
    {
        let _rows = &self.rows;
    }
}

impl<L: Lookup> Lookup for Cached<L> {
    ghost content = { λ c. c.content };

    ghost looked = { L.looked };

    fn empty(alloc: Global, seed: u64) -> Result<Self, AllocError>
        ensures content { IfOk result (λ c. c.content ≡ []) }
        ensures rows { IfOk result (λ c. (c.rows ≡ []) × (c.capacity ≡ 1024)) }
    {
        Cached::with_rows(alloc, L::empty(alloc, seed)?, ROWS, seed)
    }

    fn winner(&mut self, key: &FieldKey) -> Option<usize>
        ensures answer { result ≡ winner_number (winner_of self.old.content (value key.now)) }
        ensures kept { self.new.content ≡ self.old.content }
        ensures rows { AreFound self.old.rows self.new.rows self.old.capacity (L.looked self.old.content (value key.now)) (value key.now) }
        ensures capacity { self.new.capacity ≡ self.old.capacity }
    {
        match find(&mut self.rows, &self.masks, key) {
            Some(answer) => number_in(answer),
            None => {
                let (number, mask) = self.inner.region(key);
                let region = Region {
                    key: mask.masked(key),
                    mask,
                };
                let answer = answer_of(&self.inner, number);
                store(&mut self.rows, &mut self.masks, region, answer);
                number
            }
        }
    }

    fn peek(&self, key: &FieldKey) -> Option<usize> {
        self.inner.peek(key)
    }

    fn region(&self, key: &FieldKey) -> (Option<usize>, FieldMask) {
        self.inner.region(key)
    }

    fn priority(&self, number: usize) -> Option<u16> {
        self.inner.priority(number)
    }

    fn add(&mut self, fields: Match, priority: u16) -> Result<usize, AllocError>
        ensures ok { IfOk result (λ number. self.new.content ≡ self.old.content ++ made_row number priority fields ∷ []) }
        ensures unused { IfOk result (λ number. is_used row_number number self.old.content ≡ false) }
        ensures rows { OnOk result (self.new.rows ≡ not_beaten fields priority self.old.rows) }
        ensures err { OnErr result (self.new ≡ self.old) }
        ensures capacity { self.new.capacity ≡ self.old.capacity }
    {
        fields.known();
        if self.masks.is_empty() {
            return self.inner.add(fields, priority);
        }
        let mask = mask_of(&fields);
        let key = key_of(&fields);
        let number = self.inner.add(fields, priority)?;
        drop_beaten(&mut self.rows, &self.masks, &mask, &key, priority);
        drop_masks(&self.rows, &mut self.masks);
        Ok(number)
    }

    fn take(&mut self, number: usize)
        requires { IsTrue (is_used row_number number self.old.content) }
        ensures content { self.new.content ≡ without row_number number self.old.content }
        ensures rows { self.new.rows ≡ not_answering number self.old.rows }
        ensures capacity { self.new.capacity ≡ self.old.capacity }
    {
        self.inner.take(number);
        drop_answers(&mut self.rows, &mut self.masks, number);
    }

    fn same(&self, fields: &Match, priority: u16) -> Option<usize> {
        self.inner.same(fields, priority)
    }

    fn renew(&mut self, number: usize)
        requires { IsTrue (is_used row_number number self.old.content) }
        ensures content { self.new.content ≡ moved_to_end row_number number self.old.content }
        ensures rows { self.new.rows ≡ not_answering number self.old.rows }
        ensures capacity { self.new.capacity ≡ self.old.capacity }
    {
        self.inner.renew(number);
        drop_answers(&mut self.rows, &mut self.masks, number);
    }

    fn known(&self) {
        self.inner.known();
    }
}

// Drops the rows that answer the entry of that number.
fn drop_answers(rows: &mut Rows, masks: &mut Vec<FieldMask>, number: usize)
    requires { AreMasks masks.old.items rows.old.entries }
    ensures entries { rows.new.entries ≡ not_answering number rows.old.entries }
    ensures capacity { rows.new.cap ≡ rows.old.cap }
    ensures masks { AreMasks masks.new.items rows.new.entries }
{
    drop_rows(rows, &Cause::Answers(number));
    drop_masks(rows, masks);
}

fn rows_of(rows: &Rows, alloc: Global) -> Result<Vec<Row>, AllocError>
    ensures { IfOk result (λ list. list.items ≡ map shown_row rows.now.entries) }
{
    let mut list = Vec::new(alloc);
    for (region, answer) in rows.iter() {
        list.push(Row {
            region: *region,
            answer: number_in(*answer),
        })?;
    }
    Ok(list)
}

// The number in an answer.
fn number_in(answer: Answer) -> Option<usize>
    ensures { result ≡ option_map (λ a. a.0) answer }
{
    match answer {
        Some((number, _)) => Some(number),
        None => None,
    }
}

// The number of a winner, with its priority.
fn answer_of<L: Lookup>(lookup: &L, number: Option<usize>) -> Answer
    ensures { (map : Field → Option ℕ) → number ≡ winner_number (winner_of (L.content lookup.now) map) →
        result ≡ pair_of (winner_of (L.content lookup.now) map) }
{
    lookup.known();
    match number {
        Some(number) => match lookup.priority(number) {
            Some(priority) => Some((number, priority)),
            None => None,
        },
        None => None,
    }
}
