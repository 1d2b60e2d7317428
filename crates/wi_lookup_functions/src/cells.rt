//! Cells, as far as they are known.

ghost use Rattle.std.specs.Prelude.{◌≡◌, None, Some, IfOk, IfErr};
ghost use Rattle.wi_arguments.specs.Walk.{IsNextAfter};

use wi_arguments::{LookedUp, Lookup, successor};
use wi_values::{Address, Rect, Value};

/// The value of a cell, or the cell where that is missing.
pub(crate) fn value_of<L: Lookup>(at: Address, lookup: &L) -> Result<&Value, Address>
    ensures known { IfOk result (λ v. Some v.now ≡ L.known_cell lookup.now at) }
    ensures itself { IfErr result (λ c. c ≡ at) }
    ensures missing { IfErr result (λ c. L.known_cell lookup.now c ≡ None) }
{
    match lookup.cell(at) {
        LookedUp::Known(value) => Ok(value),
        LookedUp::Missing => Err(at),
    }
}

/// The next filled cell of a rectangle after one.
pub(crate) fn next_after<L: Lookup>(area: Rect, at: Address, lookup: &L) -> Option<Address>
    ensures { IsNextAfter (L.known_cell lookup.now) area at result }
{
    let next = successor(at, area.last())?;
    lookup.next_filled(area, next)
}
