//! MIN, MAX and AVERAGE (OpenFormula, "Statistical Functions").

ghost use Rattle.std.specs.Prelude.{◌≡◌, IfOk, IfErr, refl};
ghost use Rattle.wi_standard_functions.specs.Statistical.{average_value};
ghost use Rattle.wi_standard_functions.specs.Inner.Named.{greater_number, max_value, min_value, smaller_number};
ghost use Rattle.wi_arguments.specs.Arguments.{IsMissing, IsOfArguments};
ghost use Rattle.wi_fold_functions.specs.Inner.Made.{least_with, greatest_with, mean_with, mean_of, mean_value, number_chosen};

use crate::fold::Fold;
use crate::folding::fold_arguments;
use crate::item::Item;
use std::cmp::Ordering;
use wi_arguments::{Argument, Lookup};
use wi_fraction::{Fraction, Total};
use wi_value_functions::{add_to, counted, divide, number_value, whole_number, zero};
use wi_values::{Address, ErrorKind, Value};

/// MIN: the smallest number, and of none 0, or the first error met. `Err` has a cell whose value isn't known.
pub(crate) fn min_value<L: Lookup>(arguments: &[Argument], lookup: &L) -> Result<Value, Address>
    ensures done { IfOk result (IsOfArguments (L.known_cell lookup.now) min_value arguments.now) }
    ensures missing { IfErr result (IsMissing (L.known_cell lookup.now) arguments.now) }
{
    fold_arguments(arguments, lookup, Least { least: None })
}

/// MAX: the greatest number, and of none 0, or the first error met. `Err` has a cell whose value isn't known.
pub(crate) fn max_value<L: Lookup>(arguments: &[Argument], lookup: &L) -> Result<Value, Address>
    ensures done { IfOk result (IsOfArguments (L.known_cell lookup.now) max_value arguments.now) }
    ensures missing { IfErr result (IsMissing (L.known_cell lookup.now) arguments.now) }
{
    fold_arguments(arguments, lookup, Greatest { greatest: None })
}

/// AVERAGE: the sum of the numbers divided by their count, or the first error met; `DivisionByZero` where there is
/// none, `BadNumber` where a step doesn't fit. `Err` has a cell whose value isn't known.
pub(crate) fn average_value<L: Lookup>(arguments: &[Argument], lookup: &L) -> Result<Value, Address>
    ensures done { IfOk result
        (IsOfArguments (L.known_cell lookup.now) average_value arguments.now) }
    ensures missing { IfErr result (IsMissing (L.known_cell lookup.now) arguments.now) }
{
    let none = Average {
        total: Total::of(zero()),
        count: 0,
    };
    fold_arguments(arguments, lookup, none)
}

/// The smallest number so far.
#[derive(Drop)]
struct Least {
    least: Option<Fraction>,
}

impl Fold for Least {
    ghost step = { least_with };

    ghost value = { λ s. number_chosen s.least };

    fn step(&mut self, item: Item<'_>) -> Result<(), ErrorKind> {
        self.least = match (self.least, item.number()?) {
            (before, None) => before,
            (None, Some(x)) => Some(x),
            (Some(before), Some(x)) => Some(smaller(before, x)),
        };
        Ok(())
    }

    fn value(self) -> Value {
        chosen_value(self.least)
    }

    ghost passes_empty = { λ _. refl };
}

/// The greatest number so far.
#[derive(Drop)]
struct Greatest {
    greatest: Option<Fraction>,
}

impl Fold for Greatest {
    ghost step = { greatest_with };

    ghost value = { λ s. number_chosen s.greatest };

    fn step(&mut self, item: Item<'_>) -> Result<(), ErrorKind> {
        self.greatest = match (self.greatest, item.number()?) {
            (before, None) => before,
            (None, Some(x)) => Some(x),
            (Some(before), Some(x)) => Some(greater(before, x)),
        };
        Ok(())
    }

    fn value(self) -> Value {
        chosen_value(self.greatest)
    }

    ghost passes_empty = { λ _. refl };
}

/// The sum of the numbers so far and how many they are.
#[derive(Drop)]
struct Average {
    total: Total,
    count: u128,
}

impl Fold for Average {
    ghost step = { mean_with };

    ghost value = { mean_value };

    fn step(&mut self, item: Item<'_>) -> Result<(), ErrorKind> {
        if let Some(x) = item.number()? {
            add_to(&mut self.total, &x)?;
            self.count = counted(self.count, true);
        }
        Ok(())
    }

    fn value(self) -> Value {
        number_value(mean(self.total.number(), self.count))
    }

    ghost passes_empty = { λ _. refl };
}

/// The smaller of two numbers.
fn smaller(x: Fraction, y: Fraction) -> Fraction
    ensures { result ≡ smaller_number x y }
{
    match y.cmp(&x) {
        Ordering::Less => y,
        _ => x,
    }
}

/// The greater of two numbers.
fn greater(x: Fraction, y: Fraction) -> Fraction
    ensures { result ≡ greater_number x y }
{
    match y.cmp(&x) {
        Ordering::Greater => y,
        _ => x,
    }
}

/// The number that was chosen, and of none 0.
fn chosen_value(chosen: Option<Fraction>) -> Value
    ensures { result ≡ number_chosen chosen }
{
    Value::Number(chosen.unwrap_or(zero()))
}

/// A total divided by a count.
fn mean(total: Fraction, count: u128) -> Result<Fraction, ErrorKind>
    ensures { result ≡ mean_of total count }
{
    divide(total, whole_number(count)?)
}
