//! A classifier that counts what it is asked.
ghost use Rattle.std.specs.Prelude.{◌≡◌};

use of_classifier::Lookup;
use of_headers::FieldKey;
use of_oxm::{FieldMask, Match};
use std::alloc::{AllocError, Global};
use std::cell::Cell;

/// A classifier, and how often it was asked which entry wins.
#[derive(Drop)]
pub struct Counting<'a, L: Lookup> {
    pub inner: L,
    pub asked: Option<&'a Cell<u64>>,
}

impl<L: Lookup> Counting<'_, L> {
    fn count(&self) {
        if let Some(asked) = self.asked {
            asked.set(asked.get().wrapping_add(1));
        }
    }
}

impl<L: Lookup> Lookup for Counting<'_, L> {
    ghost content = { λ c. L.content c.inner };

    ghost looked = { L.looked };

    fn empty(alloc: Global, seed: u64) -> Result<Self, AllocError> {
        Ok(Counting {
            inner: L::empty(alloc, seed)?,
            asked: None,
        })
    }

    fn winner(&mut self, key: &FieldKey) -> Option<usize> {
        self.count();
        self.inner.winner(key)
    }

    fn peek(&self, key: &FieldKey) -> Option<usize> {
        self.count();
        self.inner.peek(key)
    }

    fn region(&self, key: &FieldKey) -> (Option<usize>, FieldMask) {
        self.count();
        self.inner.region(key)
    }

    fn priority(&self, number: usize) -> Option<u16> {
        self.inner.priority(number)
    }

    fn add(&mut self, fields: Match, priority: u16) -> Result<usize, AllocError> {
        self.inner.add(fields, priority)
    }

    fn take(&mut self, number: usize) {
        self.inner.take(number);
    }

    fn same(&self, fields: &Match, priority: u16) -> Option<usize> {
        self.inner.same(fields, priority)
    }

    fn renew(&mut self, number: usize) {
        self.inner.renew(number);
    }

    fn known(&self) {
        self.inner.known();
    }
}
