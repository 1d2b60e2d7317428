//! The rectangle around some cells, and what another has in common with it.

ghost use Rattle.std.specs.Prelude.{◌≡◌, ◌&&◌, ℕ, true};
ghost use Rattle.wi_values.specs.Address.{is_within};
ghost use Rattle.wi_ranges.specs.Inner.Rising.{as_set};
ghost use Rattle.wi_graph.specs.Inner.Bounds.{AreWithin, is_in_part};

use wi_values::{Address, Rect};

/// The least rectangle that has each of some cells; of none, any. The work grows with their count.
pub(crate) fn around(cells: &[Address]) -> Rect
    ensures { AreWithin result (as_set cells.now) }
{
    let mut bounds = around_first(cells);
    for cell in cells {
        bounds = with_cell(bounds, *cell);
    }
    bounds
}

/// The rectangle of the first of some cells alone; of none, that of A1.
fn around_first(cells: &[Address]) -> Rect {
    match cells.first() {
        Some(cell) => around_cell(*cell),
        None => around_cell(Address::at(0, 0)),
    }
}

/// The rectangle of a cell alone.
pub(crate) fn around_cell(cell: Address) -> Rect
    ensures { is_within result cell ≡ true }
{
    Rect::of(cell)
}

/// The least rectangle that has each cell of one, and another cell.
pub(crate) fn with_cell(area: Rect, cell: Address) -> Rect
    ensures cell { is_within result cell ≡ true }
    ensures others { (c : ℕ) → is_within area c ≡ true → is_within result c ≡ true }
{
    area.around(around_cell(cell))
}

/// What two rectangles have in common, if they meet.
pub(crate) fn intersection(a: Rect, b: Rect) -> Option<Rect>
    ensures { (c : ℕ) → is_in_part result c ≡ (is_within a c && is_within b c) }
{
    let top = a.first().row().max(b.first().row());
    let left = a.first().column().max(b.first().column());
    let bottom = a.last().row().min(b.last().row());
    let right = a.last().column().min(b.last().column());
    if top <= bottom && left <= right {
        Some(Rect::new(Address::at(top, left), Address::at(bottom, right)))
    } else {
        None
    }
}
