//! The first cell of a rectangle.

ghost use Rattle.std.specs.Prelude.{Some};
ghost use Rattle.wi_values.specs.Address.{is_within};
ghost use Rattle.wi_edit_log.specs.Inner.First.{IsFirst};

use wi_values::{Address, Rect};

/// The first cell of a rectangle.
pub(crate) fn first_cell(area: Rect) -> Address
    ensures { IsFirst (is_within area) (Some result) }
{
    // Both are above 0, so the cell lies in the rectangle.
    let _ = area.height();
    let _ = area.width();
    area.first()
}
