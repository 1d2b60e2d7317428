//! The cells of a set, or of a list, in a rectangle, one after another.

ghost use Rattle.std.specs.Prelude.{⊤, ◌≡◌, ◌≤◌, ◌+◌, ◌&&◌, ℕ, true, false, nat_lt, nat_le, length, IfSome};
ghost use Rattle.std.specs.List.Sorted.{IsStrictlyIncreasing, IsPartitionPoint};
ghost use Rattle.std.specs.BTreeSet.{BTreeSet, contains};
ghost use Rattle.wi_values.specs.Address.{row_of, is_within};
ghost use Rattle.wi_values.specs.Inner.Cells.{IsAtOrBefore};
ghost use Rattle.wi_ranges.specs.Inner.Rising.{as_set};
ghost use Rattle.wi_graph.specs.Inner.Bounds.{AreWithin};
ghost use Rattle.wi_graph.specs.Inner.Within.{IsAhead, IsBetween};

use crate::bounds::intersection;
use crate::cell_set::CellSet;
use std::collections::BTreeSet;
use std::ops::Bound;
use wi_values::{Address, Rect};

/// The first cell of a set in a rectangle, at a cell or after it, in row-major order. The work grows with the logarithm
/// of the count of the set, once and for each row of the rectangle where a cell of the set beside it comes before the
/// one found; where the rectangle around the set doesn't meet it, it is constant.
pub(crate) fn next_within(cells: &CellSet, area: Rect, from: Address) -> Option<Address>
    ensures found { IfSome result (IsAhead cells.now area from) }
    ensures first { (c : ℕ) → IsAhead cells.now area from c → IsAtOrBefore result c }
{
    let part = intersection(area, cells.around())?;
    next_in_part(cells.set(), part, from)
}

/// The first cell of a set or a list in a rectangle, at a cell or after it, in row-major order. The rectangle may lie
/// anywhere. It takes a search, and one more for each row of the rectangle where a cell beside it comes before the one
/// found.
fn next_in_part<C: FindsFirst>(cells: &C, area: Rect, from: Address) -> Option<Address>
    requires { C.is_in_order cells.now }
    ensures found { IfSome result (IsAhead (C.cells cells.now) area from) }
    ensures first { (c : ℕ) → IsAhead (C.cells cells.now) area from c → IsAtOrBefore result c }
{
    let mut ahead = Some(from);
    while let Some(start) = ahead {
        let cell = cells.first_between(start, area.last())?;
        if area.contains(cell) {
            return Some(cell);
        }
        ahead = area.cell_after(cell);
    }
    None
}

/// The first cell of a set in a rectangle after one of the rectangle, at the cost of `next_within`.
pub(crate) fn next_after(cells: &CellSet, area: Rect, cell: Address) -> Option<Address>
    requires { cell ≤ area.last }
    ensures found { IfSome result (IsAhead cells.now area (cell + 1)) }
    ensures first { (c : ℕ) → IsAhead cells.now area (cell + 1) c → IsAtOrBefore result c }
{
    let from = area.cell_after(cell)?;
    next_within(cells, area, from)
}

/// The first cell of a list, which is in row-major order and within bounds, in a rectangle, at the cost of
/// `next_within`.
pub(crate) fn first_listed(cells: &[Address], bounds: Rect, area: Rect) -> Option<Address>
    requires order { IsStrictlyIncreasing cells.now }
    requires within { AreWithin bounds (as_set cells.now) }
    ensures found { IfSome result (IsAhead (as_set cells.now) area area.first) }
    ensures first { (c : ℕ) → IsAhead (as_set cells.now) area area.first c → IsAtOrBefore result c }
{
    let part = intersection(area, bounds)?;
    next_in_part(&cells, part, area.first())
}

/// The rows of a rectangle from the row of one of its cells on.
pub(crate) fn rows_from(area: Rect, cell: Address) -> Rect
    requires { is_within area cell ≡ true }
    ensures { (a : ℕ) → is_within result a ≡ (is_within area a && nat_le (row_of cell) (row_of a)) }
{
    Rect::new(Address::at(cell.row(), area.first().column()), area.last())
}

/// Cells of which the first from one to another can be found.
trait FindsFirst {
    /// The set of them.
    ghost cells: { Self → BTreeSet ℕ };

    /// They stand in row-major order, where their type doesn't see to that.
    ghost is_in_order: { Self → Type 0 };

    /// The first of them from one cell to another.
    fn first_between(&self, from: Address, to: Address) -> Option<Address>
        requires { is_in_order self.now }
        ensures found { IfSome result (IsBetween (cells self.now) from to) }
        ensures first { (c : ℕ) → IsBetween (cells self.now) from to c → IsAtOrBefore result c };
}

impl FindsFirst for BTreeSet<Address> {
    ghost cells = { λ set. set };

    ghost is_in_order = { λ set. ⊤ };

    fn first_between(&self, from: Address, to: Address) -> Option<Address> {
        if to < from {
            return None;
        }
        match self
            .range((Bound::Included(from), Bound::Included(to)))
            .next()
        {
            Some(cell) => Some(*cell),
            None => None,
        }
    }
}

impl FindsFirst for &[Address] {
    ghost cells = { λ list. as_set list.now };

    ghost is_in_order = { λ list. IsStrictlyIncreasing list.now };

    fn first_between(&self, from: Address, to: Address) -> Option<Address> {
        let cells = *self;
        let before = count_before(cells, from);
        if before == cells.len() {
            return None;
        }
        let cell = cells[before];
        if to < cell {
            return None;
        }
        Some(cell)
    }
}

/// How many cells of a list come before a cell.
fn count_before(cells: &[Address], from: Address) -> usize
    requires { IsStrictlyIncreasing cells.now }
    ensures within { result ≤ length cells.now }
    ensures point { IsPartitionPoint
        (λ c. nat_lt c from ≡ true) (λ c. nat_lt c from ≡ false) cells.now result }
{
    cells.partition_point(|cell| *cell < from)
}
