//! The classifier by groups of masks.
ghost use Rattle.std.specs.Prelude.{◌≡◌, ◌<◌, ◌≤◌, IsTrue, Some, None, IfOk, OnErr, length, slice_index_or};
ghost use Rattle.of_layers.specs.declared.field.Field.{Field};
ghost use Rattle.of_oxm.specs.{Masks.looked_at, Masks.mask_at, NormalForm.IsMatch};
ghost use Rattle.of_mask_groups.specs.{declared.group.Group.Group as AGroup, Covering.number_of_found, Aged.by_age, Aged.AreAged, Grouping.AreGrouped, Grouping.HaveRoom, Grouping.LooksLike};
ghost use Rattle.of_mask_groups.specs.Probing.{probes_of, reached};
ghost use Rattle.slab.specs.Slab.{get, Updates, HasRoomFor};
ghost use Rattle.of_headers.specs.FieldMap.{value};
ghost use Rattle.of_classifier.specs.{Winner.winner_of, Winner.winner_number as number_of_row, Looking.looked_by};

use crate::entry::Entry;
use crate::found::Found;
use crate::groups::{Groups, place_of, put_back, take_group};
use crate::probing::{mask_of_groups, probe_groups};
use crate::rank::Rank;
use crate::renumbering::{next_age, set_age};
use crate::same::same_in;
use of_classifier::Lookup;
use of_headers::{FieldKey, Mixer};
use of_oxm::{FieldMask, Match, key_of, mask_of};
use slab::Slab;
use std::alloc::{AllocError, Global};
use std::marker::Model;

/// The entries in a slab, and their numbers in a group for each distinct mask, in descending order of best priority.
#[derive(Drop)]
pub struct MaskGroups {
    entries: Slab<Entry>,
    groups: Groups,
    /// The age that was assigned last.
    last: u64,
    alloc: Global,
}

impl Model for MaskGroups {
    ghost use Rattle.std.specs.Prelude.{List, ◌+◌};
    ghost use Rattle.of_classifier.specs.declared.Row.{Row};
    ghost use Rattle.of_mask_groups.specs.{Aged.by_age, Aged.AreAged, Grouping.AreGrouped};

    ghost Value = { List Row };

    ghost view = { λ s. by_age (s.last + 1) s.entries.slots };

    ghost invariant = { λ s. AreAged s.entries (s.last + 1) × AreGrouped s.entries s.groups.list.items };
}

impl MaskGroups {
    /// The winner, and how many masks were asked for it: those that have an entry of at least its
    /// priority, and all where no entry wins.
    pub fn find(&self, key: &FieldKey) -> (Option<usize>, usize)
        ensures winner { result.0 ≡ number_of_row (winner_of self.now (value key.now)) }
        ensures probes { result.1 ≡ probes_of self.now (value key.now) }
    {
        let (best, probes) = probe_groups(&self.entries, &self.groups.list, key);
        (number_of(best), probes)
    }
}

impl Lookup for MaskGroups {
    ghost content = { λ s. s };

    ghost looked = { λ rows key. looked_by (reached (winner_of rows key) rows) };

    fn empty(alloc: Global, seed: u64) -> Result<Self, AllocError> {
        Ok(MaskGroups {
            entries: Slab::new(alloc),
            groups: Groups::empty(alloc, Mixer::new(seed)),
            last: 0,
            alloc,
        })
    }

    fn winner(&mut self, key: &FieldKey) -> Option<usize> {
        self.find(key).0
    }

    fn peek(&self, key: &FieldKey) -> Option<usize> {
        self.find(key).0
    }

    fn region(&self, key: &FieldKey) -> (Option<usize>, FieldMask) {
        let (best, probes) = probe_groups(&self.entries, &self.groups.list, key);
        (number_of(best), mask_of_groups(&self.groups.list[..probes]))
    }

    fn priority(&self, number: usize) -> Option<u16> {
        match self.entries.get(number) {
            Some(entry) => Some(entry.priority),
            None => None,
        }
    }

    fn add(&mut self, fields: Match, priority: u16) -> Result<usize, AllocError> {
        let age = next_age(&mut self.entries, self.last);
        self.last = age;
        let entry = Entry {
            priority,
            age,
            fields,
        };
        add_entry(&mut self.entries, &mut self.groups, self.alloc, entry)
    }

    fn take(&mut self, number: usize) {
        take_entry(&mut self.entries, &mut self.groups, self.alloc, number);
    }

    fn same(&self, fields: &Match, priority: u16) -> Option<usize> {
        same_in(&self.entries, &self.groups, fields, priority)
    }

    fn renew(&mut self, number: usize) {
        let age = next_age(&mut self.entries, self.last);
        self.last = age;
        set_age(&mut self.entries, number, age);
    }

    fn known(&self) {
        let _entries = &self.entries;
    }
}

// Inserts an entry, and returns its number. Where memory runs out the entries stay as they were.
fn add_entry(
    entries: &mut Slab<Entry>,
    groups: &mut Groups,
    alloc: Global,
    entry: Entry,
) -> Result<usize, AllocError>
    requires grouped { AreGrouped entries.old groups.old.list.items }
    ensures vacant { IfOk result (λ number. get entries.old number ≡ None) }
    ensures updates { IfOk result (λ number. Updates entries.old entries.new number (Some entry)) }
    ensures err { OnErr result (entries.new.slots ≡ entries.old.slots) }
    ensures grouped { AreGrouped entries.new groups.new.list.items }
{
    entries.reserve(1)?;
    groups.reserve()?;
    insert_entry(entries, groups, alloc, entry)
}

// The same where there is capacity in both lists.
fn insert_entry(
    entries: &mut Slab<Entry>,
    groups: &mut Groups,
    alloc: Global,
    entry: Entry,
) -> Result<usize, AllocError>
    requires grouped { AreGrouped entries.old groups.old.list.items }
    requires room { HasRoomFor entries.old 1 }
    requires group_room { HaveRoom groups.old.list groups.old.digests }
    ensures vacant { IfOk result (λ number. get entries.old number ≡ None) }
    ensures updates { IfOk result (λ number. Updates entries.old entries.new number (Some entry)) }
    ensures err { OnErr result (entries.new ≡ entries.old) }
    ensures grouped { AreGrouped entries.new groups.new.list.items }
{
    entry.fields.known();
    let mask = mask_of(&entry.fields);
    match place_of(groups, &mask) {
        Some(place) if entry.priority <= groups.list[place].best => {
            insert_in_place(entries, groups, alloc, entry, place)
        }
        _ => insert_apart(entries, groups, alloc, entry, &mask),
    }
}

// The same into the group at a place, which is of the entry's mask, and has an entry of at least its priority: so it stays there.
fn insert_in_place(
    entries: &mut Slab<Entry>,
    groups: &mut Groups,
    alloc: Global,
    entry: Entry,
    place: usize,
) -> Result<usize, AllocError>
    requires grouped { AreGrouped entries.old groups.old.list.items }
    requires room { HasRoomFor entries.old 1 }
    requires normal { IsMatch entry.fields }
    requires within { place < length groups.old.list.items }
    requires looks { (g : AGroup) → slice_index_or groups.old.list.items place g ≡ g → LooksLike g entry }
    requires low { (g : AGroup) → slice_index_or groups.old.list.items place g ≡ g → entry.priority ≤ g.best }
    ensures vacant { IfOk result (λ number. get entries.old number ≡ None) }
    ensures updates { IfOk result (λ number. Updates entries.old entries.new number (Some entry)) }
    ensures err { OnErr result (entries.new ≡ entries.old) }
    ensures grouped { AreGrouped entries.new groups.new.list.items }
{
    let number = entries.vacant_key();
    let rank = Rank {
        priority: entry.priority,
        number,
    };
    groups.list[place].insert(alloc, &key_of(&entry.fields), rank)?;
    entries.insert_reserved(entry);
    Ok(number)
}

// The same where the group of the entry's mask is new, or moves forward: it is taken out, and put back.
fn insert_apart(
    entries: &mut Slab<Entry>,
    groups: &mut Groups,
    alloc: Global,
    entry: Entry,
    mask: &FieldMask,
) -> Result<usize, AllocError>
    requires grouped { AreGrouped entries.old groups.old.list.items }
    requires room { HasRoomFor entries.old 1 }
    requires group_room { HaveRoom groups.old.list groups.old.digests }
    requires normal { IsMatch entry.fields }
    requires mask { (f : Field) → mask_at mask.now f ≡ looked_at entry.fields f }
    ensures vacant { IfOk result (λ number. get entries.old number ≡ None) }
    ensures updates { IfOk result (λ number. Updates entries.old entries.new number (Some entry)) }
    ensures err { OnErr result (entries.new ≡ entries.old) }
    ensures grouped { AreGrouped entries.new groups.new.list.items }
{
    let key = key_of(&entry.fields);
    let number = entries.vacant_key();
    let rank = Rank {
        priority: entry.priority,
        number,
    };
    let mut group = take_group(groups, alloc, mask);
    match group.insert(alloc, &key, rank) {
        Ok(()) => {
            entries.insert_reserved(entry);
            put_back(groups, group);
            Ok(number)
        }
        Err(error) => {
            if !group.is_empty() {
                put_back(groups, group);
            }
            Err(error)
        }
    }
}

// Removes the entry of a number, if there is one.
fn take_entry(entries: &mut Slab<Entry>, groups: &mut Groups, alloc: Global, number: usize)
    requires grouped { AreGrouped entries.old groups.old.list.items }
    ensures updates { Updates entries.old entries.new number None }
    ensures grouped { AreGrouped entries.new groups.new.list.items }
{
    if let Some(entry) = entries.try_remove(number) {
        let key = key_of(&entry.fields);
        let rank = Rank {
            priority: entry.priority,
            number,
        };
        let mut group = take_group(groups, alloc, &mask_of(&entry.fields));
        group.remove(&key, rank);
        if !group.is_empty() {
            put_back(groups, group);
        }
    }
}

fn number_of(best: Option<Found>) -> Option<usize>
    ensures { result ≡ number_of_found best }
{
    match best {
        Some(found) => Some(found.number),
        None => None,
    }
}
