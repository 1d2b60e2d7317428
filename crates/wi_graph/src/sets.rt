//! Sets of cells.

ghost use Rattle.std.specs.Prelude.{◌≡◌, ◌||◌, ℕ, true, IfOk, OnOk};
ghost use Rattle.std.specs.Ordering.{nat_cmp};
ghost use Rattle.std.specs.BTreeSet.{contains, difference, IsOrdered};
ghost use Rattle.wi_values.specs.Address.{is_one_of};
ghost use Rattle.wi_graph.specs.Inner.Rooms.{less_these};

use crate::cell_set::CellSet;
use std::alloc::{AllocError, Global};
use std::collections::BTreeSet;
use wi_values::Address;

/// The cells of a set as a list.
pub(crate) fn listed(alloc: Global, cells: &BTreeSet<Address>) -> Result<Vec<Address>, AllocError>
    ensures items { IfOk result (λ list. list.items ≡ cells.now.keys) }
    ensures order { IsOrdered nat_cmp cells.now }
{
    cells.iter().copied().collect(alloc)
}

/// The cells of a set that another has not.
pub(crate) fn without(
    alloc: Global,
    cells: &CellSet,
    others: &CellSet,
) -> Result<Vec<Address>, AllocError>
    ensures { IfOk result (λ list. list.items ≡ difference nat_cmp cells.now others.now) }
{
    cells.set().difference(others.set()).copied().collect(alloc)
}

/// Cells as a set.
pub(crate) fn set_of(alloc: Global, cells: &[Address]) -> Result<CellSet, AllocError>
    ensures { IfOk result (λ set. (c : ℕ) → contains nat_cmp set c ≡ is_one_of cells.now c) }
{
    let mut set = CellSet::new(alloc);
    insert_all(&mut set, cells)?;
    Ok(set)
}

/// Puts cells into a set. If memory runs out, some of them may be in.
#[inline(always)]
pub(crate) fn insert_all(set: &mut CellSet, cells: &[Address]) -> Result<(), AllocError>
    ensures all { OnOk result ((c : ℕ) → contains nat_cmp set.new c
        ≡ (contains nat_cmp set.old c || is_one_of cells.now c)) }
    ensures stay { (c : ℕ) → contains nat_cmp set.old c ≡ true → contains nat_cmp set.new c ≡ true }
    ensures only { (c : ℕ) → contains nat_cmp set.new c ≡ true
        → (contains nat_cmp set.old c || is_one_of cells.now c) ≡ true }
{
    for cell in cells {
        set.insert(*cell)?;
    }
    Ok(())
}

/// Takes cells out of a set.
pub(crate) fn take_away(set: &mut CellSet, cells: &[Address])
    ensures { (c : ℕ) → contains nat_cmp set.new c ≡ less_these set.old cells.now c }
{
    for cell in cells {
        set.remove(cell);
    }
}
