//! VLOOKUP and HLOOKUP (OpenFormula, "Lookup Functions").

ghost use Rattle.std.specs.Prelude.{IfOk, IfErr};
ghost use Rattle.wi_standard_functions.specs.Inner.Named.{h_lookup_value, v_lookup_value};
ghost use Rattle.wi_arguments.specs.Arguments.{IsMissing, IsOfArguments};
ghost use Rattle.wi_value_functions.specs.NoValues.{IfMissing};
ghost use Rattle.wi_lookup_functions.specs.Inner.Axis.{look_up_by};
ghost use Rattle.wi_lookup_functions.specs.Inner.Finding.{Finds};

use crate::arguments::{area_at, logical_or, sought_at, whole_at};
use crate::axis::Axis;
use crate::outcome::value_found;
use crate::region::place_among;
use crate::rule::Rule;
use crate::search::place_along;
use std::alloc::Global;
use wi_arguments::{Argument, Lookup};
use wi_value_functions::{NoValue, Stop, zero};
use wi_values::{Address, Value};

/// The value in a column of a rectangle, in the row whose first cell is found. The filled cells of the first column are
/// looked up one after another: where they aren't told to be in order up to the first that is equal, else all; and then
/// one cell.
pub(crate) fn v_lookup_value<L: Lookup>(
    alloc: Global,
    arguments: &[Argument],
    lookup: &L,
) -> Result<Value, Stop<Address>>
    ensures done { IfOk result
        (IsOfArguments (L.known_cell lookup.now) v_lookup_value arguments.now) }
    ensures missing { IfErr result
        (λ s. IfMissing s (IsMissing (L.known_cell lookup.now) arguments.now)) }
{
    value_found(alloc, look_up(Axis::Rows, arguments, lookup), lookup)
}

/// The value in a row of a rectangle, in the column whose first cell is found: as `v_lookup_value`, along the
/// first row.
pub(crate) fn h_lookup_value<L: Lookup>(
    alloc: Global,
    arguments: &[Argument],
    lookup: &L,
) -> Result<Value, Stop<Address>>
    ensures done { IfOk result
        (IsOfArguments (L.known_cell lookup.now) h_lookup_value arguments.now) }
    ensures missing { IfErr result
        (λ s. IfMissing s (IsMissing (L.known_cell lookup.now) arguments.now)) }
{
    value_found(alloc, look_up(Axis::Columns, arguments, lookup), lookup)
}

/// The cell at a place in the line whose first cell is found.
fn look_up<L: Lookup>(
    axis: Axis,
    arguments: &[Argument],
    lookup: &L,
) -> Result<Address, NoValue<Address>>
    ensures { Finds (L.known_cell lookup.now) arguments.now (look_up_by axis) result }
{
    let zero = Value::Number(zero());
    let sought = sought_at(&zero, arguments, 0, lookup)?;
    let area = area_at(arguments, 1)?;
    let k = whole_at(arguments, 2, lookup)?;
    let in_order = logical_or(true, arguments, 3, lookup)?;
    let place = place_among(axis.width(area), k)?;
    let firsts = axis.first_cells(area);
    let line = place_along(Rule::in_order(in_order), sought, firsts, lookup)?;
    Ok(axis.cell_at(area, line, place))
}
