//! MATCH (OpenFormula, "Lookup Functions").

ghost use Rattle.std.specs.Prelude.{IfOk, IfErr};
ghost use Rattle.wi_standard_functions.specs.Lookup.{match_value};
ghost use Rattle.wi_arguments.specs.Arguments.{IsMissing, IsOfArguments};
ghost use Rattle.wi_lookup_functions.specs.Inner.Finding.{Places};

use crate::arguments::{area_at, number_or, sought_at};
use crate::outcome::value_placed;
use crate::region::is_line;
use crate::rule::Rule;
use crate::search::place_along;
use wi_arguments::{Argument, Lookup};
use wi_value_functions::{NoValue, one, zero};
use wi_values::{Address, ErrorKind, Value};

/// The place, counted from 1, of a value in one row or one column. The filled cells of it are looked up one after
/// another: for a match type of 0 up to the first that is equal, else all. If a cell's value isn't known, that cell is
/// given.
pub(crate) fn match_value<L: Lookup>(arguments: &[Argument], lookup: &L) -> Result<Value, Address>
    ensures done { IfOk result (IsOfArguments (L.known_cell lookup.now) match_value arguments.now) }
    ensures missing { IfErr result (IsMissing (L.known_cell lookup.now) arguments.now) }
{
    value_placed(match_place(arguments, lookup))
}

/// The place, counted from 0.
fn match_place<L: Lookup>(arguments: &[Argument], lookup: &L) -> Result<u32, NoValue<Address>>
    ensures { Places (L.known_cell lookup.now) arguments.now match_value result }
{
    let zero = Value::Number(zero());
    let sought = sought_at(&zero, arguments, 0, lookup)?;
    let area = area_at(arguments, 1)?;
    let match_type = number_or(one(), arguments, 2, lookup)?;
    if !is_line(area) {
        return Err(NoValue::Error(ErrorKind::BadValue));
    }
    place_along(Rule::of_match_type(match_type), sought, area, lookup)
}
