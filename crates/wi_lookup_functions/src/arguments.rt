//! The arguments of a call, by their places.

ghost use Rattle.std.specs.Prelude.{◌≡◌, Ok};
ghost use Rattle.wi_values.specs.declared.value.Value.TheVariants.{Number, Logical};
ghost use Rattle.wi_standard_functions.specs.Arguments.{value_at, value_or};
ghost use Rattle.wi_standard_functions.specs.Convert.{to_logical, to_number, to_whole, zero_number};
ghost use Rattle.wi_standard_functions.specs.FirstError.{no_error};
ghost use Rattle.wi_standard_functions.specs.Matching.{sought_for};
ghost use Rattle.wi_standard_functions.specs.Steps.{and_then};
ghost use Rattle.wi_arguments.specs.Arguments.{area_at, arguments_in, IsMissing};
ghost use Rattle.wi_lookup_functions.specs.Inner.Finding.{Agrees};

use wi_arguments::{Argument, Lookup};
use wi_fraction::Fraction;
use wi_value_functions::{NoValue, to_logical, to_number, to_whole};
use wi_values::{Address, ErrorKind, Rect, Value};

/// The rectangle that the argument at a place refers to, counted from 0.
pub(crate) fn area_at(arguments: &[Argument], place: usize) -> Result<Rect, ErrorKind>
    ensures { result ≡ area_at arguments.now place }
{
    match arguments.get(place) {
        Some(argument) => argument.area(),
        None => Err(ErrorKind::BadValue),
    }
}

/// The value of an argument, or the default where it isn't given. An error that stands there ends the function.
fn value_or<'a, L: Lookup>(
    default: &'a Value,
    arguments: &'a [Argument],
    place: usize,
    lookup: &'a L,
) -> Result<&'a Value, NoValue<Address>>
    ensures { Agrees (L.known_cell lookup.now) (IsMissing (L.known_cell lookup.now) arguments.now)
        (λ v. v.now)
        (λ cells. no_error (value_or default.now (arguments_in cells arguments.now) place))
        result }
{
    let given = match arguments.get(place) {
        Some(argument) => argument.value(lookup)??,
        None => default,
    };
    match given {
        Value::Fault(e) => Err(NoValue::Error(*e)),
        _ => Ok(given),
    }
}

/// The value that is sought: an Empty one is 0.
pub(crate) fn sought_at<'a, L: Lookup>(
    zero: &'a Value,
    arguments: &'a [Argument],
    place: usize,
    lookup: &'a L,
) -> Result<&'a Value, NoValue<Address>>
    requires { zero.now ≡ Number zero_number }
    ensures { Agrees (L.known_cell lookup.now) (IsMissing (L.known_cell lookup.now) arguments.now)
        (λ v. v.now)
        (λ cells. and_then (λ v. Ok (sought_for v))
        (no_error (value_at (arguments_in cells arguments.now) place)))
        result }
{
    match value_or(zero, arguments, place, lookup)? {
        Value::Empty => Ok(zero),
        value => Ok(value),
    }
}

/// An argument that is taken for a whole number.
pub(crate) fn whole_at<L: Lookup>(
    arguments: &[Argument],
    place: usize,
    lookup: &L,
) -> Result<i128, NoValue<Address>>
    ensures { Agrees (L.known_cell lookup.now) (IsMissing (L.known_cell lookup.now) arguments.now)
        (λ k. k)
        (λ cells. to_whole (value_at (arguments_in cells arguments.now) place))
        result }
{
    let default = Value::Empty;
    let value = value_or(&default, arguments, place, lookup)?;
    Ok(to_whole(value)?)
}

/// An argument that is taken for a number, or the default where it isn't given.
pub(crate) fn number_or<L: Lookup>(
    default: Fraction,
    arguments: &[Argument],
    place: usize,
    lookup: &L,
) -> Result<Fraction, NoValue<Address>>
    ensures { Agrees (L.known_cell lookup.now) (IsMissing (L.known_cell lookup.now) arguments.now)
        (λ x. x)
        (λ cells. to_number (value_or (Number default) (arguments_in cells arguments.now) place))
        result }
{
    let default = Value::Number(default);
    let value = value_or(&default, arguments, place, lookup)?;
    Ok(to_number(value)?)
}

/// An argument that is taken for a truth value, or the default where it isn't given.
pub(crate) fn logical_or<L: Lookup>(
    default: bool,
    arguments: &[Argument],
    place: usize,
    lookup: &L,
) -> Result<bool, NoValue<Address>>
    ensures { Agrees (L.known_cell lookup.now) (IsMissing (L.known_cell lookup.now) arguments.now)
        (λ b. b)
        (λ cells. to_logical (value_or (Logical default) (arguments_in cells arguments.now) place))
        result }
{
    let default = Value::Logical(default);
    let value = value_or(&default, arguments, place, lookup)?;
    Ok(to_logical(value)?)
}
