//! INDEX (OpenFormula, "Lookup Functions").

ghost use Rattle.std.specs.Prelude.{IfOk, IfErr};
ghost use Rattle.wi_standard_functions.specs.Lookup.{index_value, nth_cell};
ghost use Rattle.wi_standard_functions.specs.Inner.Named.{index_along, index_by_both, nth_cell_along};
ghost use Rattle.wi_arguments.specs.Arguments.{IsMissing, IsOfArguments};
ghost use Rattle.wi_value_functions.specs.NoValues.{IfMissing};
ghost use Rattle.wi_lookup_functions.specs.Inner.Finding.{Finds, IsPlacedIn};

use crate::arguments::{area_at, whole_at};
use crate::outcome::value_found;
use crate::region::{cell_at, place_among};
use std::alloc::Global;
use wi_arguments::{Argument, Lookup};
use wi_value_functions::{NoValue, Stop};
use wi_values::{Address, ErrorKind, Rect, Value};

/// The value of a cell by its row and its column in a rectangle, or by its place along a row or a column. One cell is
/// looked up, and those that the other arguments refer to.
pub(crate) fn index_value<L: Lookup>(
    alloc: Global,
    arguments: &[Argument],
    lookup: &L,
) -> Result<Value, Stop<Address>>
    ensures done { IfOk result (IsOfArguments (L.known_cell lookup.now) index_value arguments.now) }
    ensures missing { IfErr result
        (λ s. IfMissing s (IsMissing (L.known_cell lookup.now) arguments.now)) }
{
    value_found(alloc, index(arguments, lookup), lookup)
}

fn index<L: Lookup>(arguments: &[Argument], lookup: &L) -> Result<Address, NoValue<Address>>
    ensures { Finds (L.known_cell lookup.now) arguments.now index_value result }
{
    if arguments.len() <= 2 {
        index_along(arguments, lookup)
    } else {
        index_by_both(arguments, lookup)
    }
}

fn index_along<L: Lookup>(arguments: &[Argument], lookup: &L) -> Result<Address, NoValue<Address>>
    ensures { Finds (L.known_cell lookup.now) arguments.now index_along result }
{
    let area = area_at(arguments, 0)?;
    let k = whole_at(arguments, 1, lookup)?;
    Ok(nth_cell_along(area, k)?)
}

fn index_by_both<L: Lookup>(arguments: &[Argument], lookup: &L) -> Result<Address, NoValue<Address>>
    ensures { Finds (L.known_cell lookup.now) arguments.now index_by_both result }
{
    let area = area_at(arguments, 0)?;
    let j = whole_at(arguments, 1, lookup)?;
    let k = whole_at(arguments, 2, lookup)?;
    Ok(nth_cell(area, j, k)?)
}

/// The k-th cell along a rectangle of one column or one row.
fn nth_cell_along(area: Rect, k: i128) -> Result<Address, ErrorKind>
    ensures { IsPlacedIn area (λ r. nth_cell_along r k) result }
{
    if area.width() == 1 {
        nth_cell(area, k, 1)
    } else if area.height() == 1 {
        nth_cell(area, 1, k)
    } else {
        Err(ErrorKind::BadValue)
    }
}

/// The k-th cell of the j-th row, both counted from 1.
fn nth_cell(area: Rect, j: i128, k: i128) -> Result<Address, ErrorKind>
    ensures { IsPlacedIn area (λ r. nth_cell r j k) result }
{
    if j < 1 || k < 1 {
        return Err(ErrorKind::BadValue);
    }
    let row = place_among(area.height(), j)?;
    let column = place_among(area.width(), k)?;
    Ok(cell_at(area, row, column))
}
