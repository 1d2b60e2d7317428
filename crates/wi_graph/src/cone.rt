//! The cells that read one of a list, at any remove.

ghost use Rattle.std.specs.Prelude.{◌≡◌, ◌∷◌, ℕ, [], true, false, IsTrue, IfOk, OnOk};
ghost use Rattle.std.specs.List.Sorted.{IsStrictlyIncreasing};
ghost use Rattle.wi_ranges.specs.Bag.{IsReader, IsRead};
ghost use Rattle.wi_values.specs.Address.{is_one_of};
ghost use Rattle.wi_graph.specs.Inner.Search.{IsConeOf, AreEnqueued};

use crate::beyond::cone_beyond;
use crate::watch::Unwatched;
use std::alloc::{AllocError, Global};
use wi_ranges::{RangeIndex, RisingSet};
use wi_values::{Address, rise};

/// The cells that read one of these, at any remove, with themselves: each once, in row-major order. Cells in that order
/// which nothing reads are their own cone, and cost no more than the search for their readers.
pub(crate) fn listed_cone(
    alloc: Global,
    readers: &RangeIndex,
    cells: &[Address],
) -> Result<Vec<Address>, AllocError>
    ensures { IfOk result (λ list. IsConeOf readers.now cells.now list.items) }
{
    if are_alone(readers, cells) {
        return Vec::from_slice(alloc, cells);
    }
    let found = cone_beyond(alloc, readers, cells, &Unwatched)?;
    found.into_list()
}

/// Whether cells stand in row-major order, each once, and nothing reads one of them: they are their own cone then.
pub(crate) fn are_alone(readers: &RangeIndex, cells: &[Address]) -> bool
    ensures order { IsTrue result → IsStrictlyIncreasing cells.now }
    ensures unread { IsTrue result
        → (a r : ℕ) → is_one_of cells.now a ≡ true → IsReader readers.now a r → ⊥ }
{
    if !rise(cells) {
        return false;
    }
    !any_is_read(readers, cells)
}

/// Whether some cell reads one of the cells.
pub(crate) fn any_is_read(readers: &RangeIndex, cells: &[Address]) -> bool
    ensures read { IsTrue result → (a : ℕ) × (is_one_of cells.now a ≡ true) × IsRead readers.now a }
    ensures unread { result ≡ false
        → (a r : ℕ) → is_one_of cells.now a ≡ true → IsReader readers.now a r → ⊥ }
{
    for cell in cells {
        if readers.has_readers(*cell) {
            return true;
        }
    }
    false
}

/// Puts cells into a set, and those that are new there at the end of a list.
pub(crate) fn enqueue(
    cells: &[Address],
    found: &mut RisingSet,
    work: &mut Vec<Address>,
) -> Result<(), AllocError>
    ensures { OnOk result
        (AreEnqueued cells.now found.old found.new work.old.items work.new.items) }
{
    for cell in cells {
        enqueue_one(*cell, found, work)?;
    }
    Ok(())
}

/// Puts a cell into a set, and at the end of a list if it is new there.
pub(crate) fn enqueue_one(
    cell: Address,
    found: &mut RisingSet,
    work: &mut Vec<Address>,
) -> Result<(), AllocError>
    ensures { OnOk result (AreEnqueued
        (cell ∷ []) found.old found.new work.old.items work.new.items) }
{
    if found.insert(cell)? {
        work.push(cell)?;
    }
    Ok(())
}
