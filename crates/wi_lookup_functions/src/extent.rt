//! Rectangles of one size, and the cells at the same places.

ghost use Rattle.std.specs.Prelude.{◌≡◌, true};
ghost use Rattle.wi_values.specs.Address.{is_within};
ghost use Rattle.wi_lookup_functions.specs.Inner.Sums.{place_there, same_extent, same_place};

use wi_values::{Address, Rect};

/// Whether two rectangles have as many rows and columns.
pub(crate) fn same_extent(one: Rect, other: Rect) -> bool
    ensures { result ≡ same_extent one other }
{
    one.height() == other.height() && one.width() == other.width()
}

/// The cell of another rectangle at the place that a cell has in one.
#[tactic(auto, using(crate::proofs::Extents::within_other))]
pub(crate) fn same_place(at: Address, one: Rect, other: Rect) -> Address
    requires within { is_within one at ≡ true }
    requires size { same_extent one other ≡ true }
    ensures { result ≡ same_place one other at }
{
    Address::at(
        other.first().row() + (at.row() - one.first().row()),
        other.first().column() + (at.column() - one.first().column()),
    )
}

/// As `same_place`, of any cell, if the place lies in the sheet.
#[inline(always)]
pub(crate) fn place_there(at: Address, one: Rect, other: Rect) -> Option<Address>
    ensures { result ≡ place_there one other at }
{
    if one.first() == other.first() {
        return Some(at);
    }
    Address::new(
        other.first().row() + at.row().saturating_sub(one.first().row()),
        other.first().column() + at.column().saturating_sub(one.first().column()),
    )
}
