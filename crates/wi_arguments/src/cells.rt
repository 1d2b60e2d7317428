//! Cells one after another.

ghost use Rattle.std.specs.Prelude.{◌≡◌, ◌≤◌, ◌+◌, IfSome, IfNone};

use wi_values::{Address, COLUMNS};

/// The address after another in row-major order, unless that is the last one or comes later.
pub fn successor(cell: Address, last: Address) -> Option<Address>
    ensures some { IfSome result (λ next. (next ≡ cell + 1) × (next ≤ last)) }
    ensures none { IfNone result (last ≤ cell) }
{
    if last <= cell {
        return None;
    }
    if cell.column() + 1 < COLUMNS {
        Some(Address::at(cell.row(), cell.column() + 1))
    } else {
        Some(Address::at(cell.row() + 1, 0))
    }
}
