//! The rectangle around some others.

ghost use Rattle.std.specs.Prelude.{◌≡◌, ℕ, true};
ghost use Rattle.wi_values.specs.Address.{is_within};
ghost use Rattle.wi_ranges.specs.Inner.Around.{has_cell};

use wi_values::{Address, Rect};

/// The least rectangle that has each cell of both, or of the second where there is no first.
pub(crate) fn with_area(around: &Option<Rect>, area: Rect) -> Rect
    ensures area { (a : ℕ) → is_within area a ≡ true → is_within result a ≡ true }
    ensures others { (a : ℕ) → has_cell around.now a ≡ true → is_within result a ≡ true }
{
    match around {
        Some(first) => first.around(area),
        None => area,
    }
}

/// Whether there is a rectangle, and it has the cell.
pub(crate) fn has_cell(around: &Option<Rect>, at: Address) -> bool
    ensures { result ≡ has_cell around.now at }
{
    match around {
        Some(around) => around.contains(at),
        None => false,
    }
}
