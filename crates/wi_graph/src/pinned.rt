//! Which cells of a cone read a circular cell outside it.

ghost use Rattle.std.specs.Prelude.{◌≡◌, ℕ, filter, IfOk};
ghost use Rattle.std.specs.Ordering.{nat_cmp};
ghost use Rattle.std.specs.BTreeSet.{contains};
ghost use Rattle.wi_values.specs.Address.{is_one_of};
ghost use Rattle.wi_graph.specs.Inner.Turning.{has_cyclic_outside, reads_outside};

use crate::cell_set::CellSet;
use crate::sets::set_of;
use crate::stripping::ReadsByCell;
use crate::within::{next_after, next_within};
use std::alloc::{AllocError, Global};
use wi_values::{Address, Rect};

/// The cells of a cone that read a circular cell outside it. For each rectangle that a cell of the cone reads it takes
/// at most a search among the circular cells for each that the cone and the rectangle have, and one more.
pub(crate) fn pinned_set(
    alloc: Global,
    reads: &ReadsByCell,
    cyclic: &CellSet,
    cells: &CellSet,
) -> Result<CellSet, AllocError>
    ensures { IfOk result (λ pinned. (c : ℕ) → contains nat_cmp pinned c
        ≡ is_one_of (filter (reads_outside reads.now cyclic.now cells.now) cells.now.keys) c) }
{
    let pinned = pinned_cells(alloc, reads, cyclic, cells)?;
    set_of(alloc, &pinned)
}

/// The cells of a cone that read a circular cell outside it, listed in row-major order.
fn pinned_cells(
    alloc: Global,
    reads: &ReadsByCell,
    cyclic: &CellSet,
    cells: &CellSet,
) -> Result<Vec<Address>, AllocError>
    ensures { IfOk result (λ v. v.items
        ≡ filter (reads_outside reads.now cyclic.now cells.now) cells.now.keys) }
{
    cells
        .set()
        .iter()
        .filter(|cell| is_pinned(reads, **cell, cyclic, cells))
        .copied()
        .collect(alloc)
}

/// Whether a cell reads a circular cell outside the cone.
fn is_pinned(reads: &ReadsByCell, cell: Address, cyclic: &CellSet, cells: &CellSet) -> bool
    ensures { result ≡ reads_outside reads.now cyclic.now cells.now cell }
{
    match reads.get(&cell) {
        Some(areas) => areas
            .iter()
            .any(|area| has_cyclic_outside(*area, cyclic, cells)),
        None => false,
    }
}

/// Whether a rectangle has a circular cell outside the cone. It takes at most a search among the circular cells for
/// each that the cone and the rectangle have, and one more.
fn has_cyclic_outside(area: Rect, cyclic: &CellSet, cells: &CellSet) -> bool
    ensures { result ≡ has_cyclic_outside cyclic.now cells.now area }
{
    let mut ahead = next_within(cyclic, area, area.first());
    while let Some(cyclic_cell) = ahead {
        if !cells.contains(&cyclic_cell) {
            return true;
        }
        ahead = next_after(cyclic, area, cyclic_cell);
    }
    false
}
