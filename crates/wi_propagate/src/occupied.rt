//! The occupied cells of a rectangle.

ghost use Rattle.std.specs.Prelude.{◌≡◌, filter, IfOk};
ghost use Rattle.std.specs.Map.{keys_of};
ghost use Rattle.wi_values.specs.Address.{is_within};

use crate::calculator::Calculator;
use std::alloc::{AllocError, Global};
use wi_arguments::successor;
use wi_values::{Address, Rect};

/// The occupied cells of a rectangle, in row-major order. One `next_occupied`, a search in the sheet, for each of them,
/// and at most one more.
pub fn occupied_in<C: Calculator>(
    alloc: Global,
    calculator: &C,
    area: Rect,
) -> Result<Vec<Address>, AllocError>
    ensures { IfOk result (λ found.
        found.items ≡ filter (is_within area) (keys_of (C.stored calculator.now).sheet)) }
{
    let mut found = Vec::new(alloc);
    let mut ahead = Some(area.first());
    while let Some(from) = ahead {
        let Some(cell) = calculator.next_occupied(area, from) else {
            return Ok(found);
        };
        found.push(cell)?;
        ahead = successor(cell, area.last());
    }
    Ok(found)
}
