//! The operands of commands.

ghost use Rattle.std.specs.Prelude.{◌≡◌, if◌then◌else◌};
ghost use Rattle.wi_values.specs.Address.{is_column, is_row};
ghost use Rattle.wi_cli.specs.Inner.Operands.{line_fault, worse};

use wi_values::{AddressFault, Rect};

/// Why a rectangle that is to be one column, if it is to stand upright, or else one row, is refused, if it is.
pub(crate) fn line_fault(area: Result<Rect, AddressFault>, upright: bool) -> Option<AddressFault>
    ensures { result ≡ line_fault (if upright then is_column else is_row) area }
{
    match (area, upright) {
        (Ok(area), true) if area.is_column() => None,
        (Ok(area), false) if area.is_row() => None,
        (Ok(_), _) => Some(AddressFault::Shape),
        (Err(fault), _) => Some(fault),
    }
}

/// Of what is wrong with two operands, the wrong shape of either comes before a cell outside the sheet.
pub(crate) fn worse(one: Option<AddressFault>, other: Option<AddressFault>) -> Option<AddressFault>
    ensures { result ≡ worse one other }
{
    match (one, other) {
        (None, other) => other,
        (Some(AddressFault::Shape), _) => Some(AddressFault::Shape),
        (Some(AddressFault::Outside), None) => Some(AddressFault::Outside),
        (Some(AddressFault::Outside), Some(fault)) => Some(fault),
    }
}
