//! The entries of one mask.
ghost use Rattle.std.specs.Prelude.{◌≡◌, ℕ, ◌+◌, ◌<◌, ◌^◌, IsTrue, ◌↔◌, [], OnOk, OnErr};
ghost use Rattle.of_mask_groups.specs.{Cells.cell_at, Cells.key_digest, Cells.AreOccupied, Grouping.HasMore, Grouping.HasLess, Grouping.IsSame, Ranks.IsHighest};

use crate::cells::{Cells, drop_number, drop_vacant, make_room, push_number};
use crate::rank::Rank;
use of_headers::{FieldKey, Mixer};
use of_oxm::FieldMask;
use std::alloc::{AllocError, Global};
use std::collections::{BTreeSet, HashMap};

/// The entries whose matches look at the bits of one mask.
#[derive(Drop)]
pub(crate) struct Group {
    pub(crate) mask: FieldMask,
    /// On which the digests of its keys depend.
    secret: Mixer,
    /// The highest priority of its entries.
    pub(crate) best: u16,
    /// Its entries by priority.
    ranks: BTreeSet<Rank>,
    /// The numbers of its entries, by the digest of the key that their matches ask for.
    cells: Cells,
}

impl Group {
    /// A group without entries.
    pub(crate) fn empty(alloc: Global, mask: FieldMask, secret: Mixer) -> Group
        ensures mask { result.mask ≡ mask }
        ensures ranks { result.ranks.keys ≡ [] }
        ensures cells { (d : ℕ) → cell_at result.cells d ≡ [] }
        ensures occupied { AreOccupied result.cells }
    {
        Group {
            mask,
            secret,
            best: 0,
            ranks: BTreeSet::new(alloc),
            cells: HashMap::new(alloc),
        }
    }

    pub(crate) fn is_empty(&self) -> bool
        ensures yes { IsTrue result → self.now.ranks.keys ≡ [] }
        ensures no { self.now.ranks.keys ≡ [] → IsTrue result }
    {
        self.ranks.is_empty()
    }

    /// The numbers of the entries that ask for a key of the digest of this one. It counts as one probe.
    pub(crate) fn probe<'a>(&'a self, key: &FieldKey, probes: &mut usize) -> &'a [usize]
        requires { probes.old + 1 < 2 ^ 64 }
        ensures numbers { result.now ≡ cell_at self.now.cells (key_digest self.now.secret key.now) }
        ensures counted { probes.new ≡ probes.old + 1 }
    {
        *probes += 1;
        match self.cells.get(&key.digest(self.secret)) {
            Some(cell) => cell.as_slice(),
            None => &[],
        }
    }

    /// Inserts an entry that asks for this key. Where memory runs out the group stays.
    pub(crate) fn insert(
        &mut self,
        alloc: Global,
        key: &FieldKey,
        rank: Rank,
    ) -> Result<(), AllocError>
        ensures mask { self.new.mask ≡ self.old.mask }
        ensures ok { OnOk result (HasMore self.old self.new (key_digest self.old.secret key.now) rank.priority rank.number) }
        ensures err { OnErr result (IsSame self.old self.new) }
    {
        let digest = key.digest(self.secret);
        make_room(&mut self.cells, alloc, digest)?;
        if let Err(error) = self.ranks.insert(rank) {
            drop_vacant(&mut self.cells, digest);
            return Err(error.into());
        }
        push_number(&mut self.cells, digest, rank.number);
        self.best = highest(&self.ranks);
        Ok(())
    }

    /// Removes an entry that asks for this key.
    pub(crate) fn remove(&mut self, key: &FieldKey, rank: Rank)
        ensures { HasLess self.old self.new (key_digest self.old.secret key.now) rank.priority rank.number }
    {
        self.ranks.remove(&rank);
        drop_number(&mut self.cells, key.digest(self.secret), rank.number);
        self.best = highest(&self.ranks);
    }
}

// The highest priority, or 0 where there is none.
fn highest(ranks: &BTreeSet<Rank>) -> u16
    ensures { IsHighest ranks.now result }
{
    match ranks.last() {
        Some(rank) => rank.priority,
        None => 0,
    }
}
