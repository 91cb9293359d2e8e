//! The numbers of the entries of a group, by the digest of the key that their matches ask for.
ghost use Rattle.std.specs.Prelude.{◌≡◌, ℕ, [], false, IsTrue, OnOk, OnErr};
ghost use Rattle.of_mask_groups.specs.Cells.{cell_at, other_numbers, AreOccupied, AreOccupiedBut, HasCell, HasRoomAt, CellMore, CellLess};

use smallvec::SmallVec;
use std::alloc::{AllocError, Global};
use std::collections::HashMap;

/// Numbers under one digest. Most often it is one number: entries with the same key differ in their priority.
type Cell = SmallVec<usize, 1>;

pub(crate) type Cells = HashMap<u64, Cell>;

// Inserts an empty list under a digest that has none.
fn insert_cell(cells: &mut Cells, alloc: Global, digest: u64) -> Result<(), AllocError>
    requires { HasCell cells.old digest → ⊥ }
    ensures same { (d : ℕ) → cell_at cells.new d ≡ cell_at cells.old d }
    ensures room { OnOk result (HasRoomAt cells.new digest) }
    ensures occupied { OnOk result (AreOccupied cells.old → AreOccupiedBut digest cells.new) }
    ensures err { OnErr result (AreOccupied cells.old → AreOccupied cells.new) }
{
    cells.insert(digest, SmallVec::new(alloc))?;
    Ok(())
}

/// Reserves capacity for one more number under a digest, whose list may be empty until the number is there.
pub(crate) fn make_room(cells: &mut Cells, alloc: Global, digest: u64) -> Result<(), AllocError>
    ensures same { (d : ℕ) → cell_at cells.new d ≡ cell_at cells.old d }
    ensures room { OnOk result (HasRoomAt cells.new digest) }
    ensures occupied { OnOk result (AreOccupied cells.old → AreOccupiedBut digest cells.new) }
    ensures err { OnErr result (AreOccupied cells.old → AreOccupied cells.new) }
{
    match cells.get_mut(&digest) {
        Some(cell) => cell.reserve(1),
        None => insert_cell(cells, alloc, digest),
    }
}

/// Puts a number under a digest.
pub(crate) fn push_number(cells: &mut Cells, digest: u64, number: usize)
    requires { HasRoomAt cells.old digest }
    ensures more { CellMore cells.old cells.new digest number }
    ensures occupied { AreOccupiedBut digest cells.old → AreOccupied cells.new }
{
    match cells.get_mut(&digest) {
        Some(cell) => cell.push_reserved(number),
        None => unreachable!(),
    }
}

fn keep_others(cell: &mut Cell, number: usize)
    ensures { cell.new.items ≡ other_numbers number cell.old.items }
{
    cell.retain(|n| *n != number);
}

fn remove_number(cells: &mut Cells, digest: u64, number: usize)
    ensures less { CellLess cells.old cells.new digest number }
    ensures occupied { AreOccupied cells.old → AreOccupiedBut digest cells.new }
{
    if let Some(cell) = cells.get_mut(&digest) {
        keep_others(cell, number);
    }
}

fn is_vacant(cells: &Cells, digest: u64) -> bool
    ensures empty { IsTrue result → cell_at cells.now digest ≡ [] }
    ensures occupied { result ≡ false → HasCell cells.now digest → cell_at cells.now digest ≡ [] → ⊥ }
{
    match cells.get(&digest) {
        Some(cell) => cell.is_empty(),
        None => false,
    }
}

/// Drops the list under a digest, if it is empty.
pub(crate) fn drop_vacant(cells: &mut Cells, digest: u64)
    ensures same { (d : ℕ) → cell_at cells.new d ≡ cell_at cells.old d }
    ensures occupied { AreOccupiedBut digest cells.old → AreOccupied cells.new }
{
    if is_vacant(cells, digest) {
        cells.remove(&digest);
    }
}

/// Removes a number from under a digest.
pub(crate) fn drop_number(cells: &mut Cells, digest: u64, number: usize)
    ensures less { CellLess cells.old cells.new digest number }
    ensures occupied { AreOccupied cells.old → AreOccupied cells.new }
{
    remove_number(cells, digest, number);
    drop_vacant(cells, digest);
}
