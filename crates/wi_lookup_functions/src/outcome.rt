//! From what was found to the value of a function.

ghost use Rattle.std.specs.Prelude.{◌≡◌, ℕ, ◌+◌, List, Option, IfOk, IfErr};
ghost use Rattle.wi_values.specs.declared.value.Value.{Value as Values};
ghost use Rattle.wi_standard_functions.specs.Arguments.{Argument};
ghost use Rattle.wi_standard_functions.specs.Arithmetic.{whole_value};
ghost use Rattle.wi_arguments.specs.Arguments.{IsMissing, IsOfArguments};
ghost use Rattle.wi_value_functions.specs.NoValues.{IfMissing};
ghost use Rattle.wi_arguments.specs.declared.argument.Argument as given;
ghost use Rattle.wi_lookup_functions.specs.Inner.Finding.{Finds, Places};

use std::alloc::Global;
use wi_arguments::{LookedUp, Lookup};
use wi_value_functions::{NoValue, Stop, whole_value};
use wi_values::{Address, Value};

/// The value of the cell that was found, or the error. A text is copied.
pub(crate) fn value_found<L: Lookup>(
    alloc: Global,
    found: Result<Address, NoValue<Address>>,
    lookup: &L,
) -> Result<Value, Stop<Address>>
    ensures done { (args : List given.Argument) → (f : List Argument → Values)
        → Finds (L.known_cell lookup.now) args f found
        → IfOk result (IsOfArguments (L.known_cell lookup.now) f args) }
    ensures missing { (args : List given.Argument) → (f : List Argument → Values)
        → Finds (L.known_cell lookup.now) args f found
        → IfErr result (λ s. IfMissing s (IsMissing (L.known_cell lookup.now) args)) }
{
    match found {
        Ok(cell) => match lookup.cell(cell) {
            LookedUp::Known(value) => Ok(value.copy(alloc)?),
            LookedUp::Missing => Err(Stop::Missing(cell)),
        },
        Err(no_value) => match no_value {
            NoValue::Error(e) => Ok(Value::Fault(e)),
            NoValue::Stopped(cell) => Err(Stop::Missing(cell)),
        },
    }
}

/// The place that was found, counted from 1, or the error.
pub(crate) fn value_placed(found: Result<u32, NoValue<Address>>) -> Result<Value, Address>
    ensures done { (known : ℕ → Option Values) → (args : List given.Argument)
        → (f : List Argument → Values) → Places known args f found
        → IfOk result (IsOfArguments known f args) }
    ensures missing { (known : ℕ → Option Values) → (args : List given.Argument)
        → (f : List Argument → Values) → Places known args f found
        → IfErr result (IsMissing known args) }
{
    match found {
        Ok(place) => Ok(counted_from_one(place)),
        Err(no_value) => match no_value {
            NoValue::Error(e) => Ok(Value::Fault(e)),
            NoValue::Stopped(cell) => Err(cell),
        },
    }
}

/// A place from 0, as a value counted from 1.
fn counted_from_one(place: u32) -> Value
    ensures { result ≡ whole_value (place + 1) }
{
    whole_value(u128::from(place) + 1)
}
