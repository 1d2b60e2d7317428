//! What COUNTIF and SUMIF take of their arguments.

ghost use Rattle.std.specs.Prelude.{◌≡◌, ◌∷◌, [], ℕ, IfOk, slice_get};
ghost use Rattle.std.specs.Option.{option_copied};
ghost use Rattle.wi_values.specs.declared.value.Value.{Value as Values};
ghost use Rattle.wi_standard_functions.specs.Arguments.{value_at};
ghost use Rattle.wi_standard_functions.specs.Inner.Named.{region_or};
ghost use Rattle.wi_arguments.specs.Arguments.{argument_in, arguments_in, region_in, IsMissing, IsReferred};
ghost use Rattle.wi_lookup_functions.specs.Inner.Meeting.{criterion_held};
ghost use Rattle.wi_lookup_functions.specs.Inner.Giving.{criterion_argument, Agrees, IsCriterionOf};

use crate::criterion::Criterion;
use std::alloc::Global;
use wi_arguments::{Argument, Lookup};
use wi_value_functions::{NoValue, Stop, no_error};
use wi_values::{Address, ErrorKind, Rect, Value};

/// The rectangle that the argument at a place refers to, counted from 0, or the default where there is no such
/// argument.
pub(crate) fn area_or(
    default: Rect,
    arguments: &[Argument],
    place: usize,
) -> Result<Rect, ErrorKind>
    requires { IsReferred arguments.now default }
    ensures region { (cells : ℕ → Values)
        → region_or (region_in cells (Ok default)) (arguments_in cells arguments.now) place
        ≡ region_in cells result }
    ensures referred { IfOk result (IsReferred arguments.now) }
{
    match argument_at(arguments, place) {
        Some(argument) => argument.area(),
        None => Ok(default),
    }
}

/// The criterion that the argument at a place is, counted from 0.
pub(crate) fn criterion_at<L: Lookup>(
    alloc: Global,
    arguments: &[Argument],
    place: usize,
    lookup: &L,
) -> Result<Criterion, NoValue<Stop<Address>>>
    ensures { Agrees (L.known_cell lookup.now) (IsMissing (L.known_cell lookup.now) arguments.now)
        criterion_held
        (λ cells. criterion_argument (value_at (arguments_in cells arguments.now) place))
        result }
{
    match argument_at(arguments, place) {
        Some(argument) => criterion_in(alloc, argument, lookup),
        None => criterion_of(alloc, &Value::Empty),
    }
}

/// The criterion that an argument is.
fn criterion_in<L: Lookup>(
    alloc: Global,
    argument: &Argument,
    lookup: &L,
) -> Result<Criterion, NoValue<Stop<Address>>>
    ensures { Agrees (L.known_cell lookup.now)
        (IsMissing (L.known_cell lookup.now) (argument.now ∷ []))
        criterion_held
        (λ cells. criterion_argument (argument_in cells argument.now).value)
        result }
{
    let lent = argument.value(lookup)?;
    let value = lent?;
    criterion_of(alloc, value)
}

/// The criterion that a value is, unless that is an error.
fn criterion_of(alloc: Global, value: &Value) -> Result<Criterion, NoValue<Stop<Address>>>
    ensures { IsCriterionOf value.now result }
{
    no_error(value)?;
    let criterion = Criterion::of(alloc, value)?;
    Ok(criterion)
}

/// The argument at a place, where there is one.
fn argument_at(arguments: &[Argument], place: usize) -> Option<&Argument>
    ensures { option_copied result ≡ slice_get arguments.now place }
{
    arguments.get(place)
}
