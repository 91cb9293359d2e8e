//! Walks over the entries of a table.

ghost use Rattle.std.specs.{Prelude.◌≡◌, Prelude.slice_get, Option.option_copied, Iterator.YieldsFirstRef, Iterator.item_count};

use crate::entry::Entry;
use std::marker::Model;

/// The entries of a table, oldest first.
#[derive(Drop)]
pub struct Entries<'a> {
    pub(crate) left: &'a [Entry],
}

impl<'a> Model for Entries<'a> {
    ghost use Rattle.std.specs.Prelude.{List};
    ghost use Rattle.of_table.specs.declared.entry.Entry.{Entry as AnEntry};

    ghost Value = { List AnEntry };

    ghost view = { λ walk. walk.left.now };
}

impl<'a> Entries<'a> {
    /// The entry at a place, from 0.
    pub fn at(&self, place: usize) -> Option<&'a Entry>
        ensures { option_copied result ≡ slice_get self.now place }
    {
        self.left.get(place)
    }
}

impl<'a> Iterator for Entries<'a> {
    type Item = &'a Entry;

    ghost next_gives = { YieldsFirstRef (λ walk. walk) };

    ghost remaining = { item_count (λ walk. walk) };

    fn next(&mut self) -> Option<&'a Entry> {
        let (first, others) = self.left.split_first()?;
        self.left = others;
        Some(first)
    }
}
