//! How large an area may be, and that operands are of the sheet.

ghost use Rattle.std.specs.Prelude.{◌≡◌, nat_lt, IfSome};
ghost use Rattle.wi_values.specs.Address.{size_of};
ghost use Rattle.wi_scenarios.specs.State.{max_area};
ghost use Rattle.wi_scenarios.specs.Inner.Calls.{IsPlaced, IsSpanned, IsTablePlaced};

use wi_values::{Address, Rect};

/// How many cells, or entries of a table, may be asked for at once, or filled.
pub const MAX_AREA: u64 = 65_536;

/// Whether a rectangle has more cells.
pub(crate) fn is_too_large(area: Rect) -> bool
    ensures { result ≡ nat_lt max_area (size_of area) }
{
    area.size() > MAX_AREA
}

/// An address is that of a cell of the sheet. This does nothing.
#[inline(always)]
pub(crate) fn is_placed(at: Address)
    ensures { IsPlaced at }
{
    let _ = at.row();
}

/// A rectangle is one of the sheet. This does nothing.
#[inline(always)]
pub(crate) fn is_spanned(area: Rect)
    ensures { IsSpanned area }
{
    let _ = area.first().row();
    let _ = area.last().row();
    let _ = area.height();
    let _ = area.width();
}

/// The operands of a table are of the sheet. This does nothing.
#[inline(always)]
pub(crate) fn is_table_placed(
    formula_cell: Address,
    input: Address,
    column: Rect,
    second: &Option<(Address, Rect)>,
)
    ensures { IsTablePlaced formula_cell input column second.now }
{
    is_placed(formula_cell);
    is_placed(input);
    is_spanned(column);
    is_second_placed(second);
}

/// A second input and its row are of the sheet, where there are some. This does nothing.
#[inline(always)]
fn is_second_placed(second: &Option<(Address, Rect)>)
    ensures { IfSome second.now (λ o. IsPlaced o.0 × IsSpanned o.1) }
{
    match second {
        None => {}
        Some(second) => {
            is_placed(second.0);
            is_spanned(second.1);
        }
    }
}
