//! COUNT and COUNTA (OpenFormula, "Information Functions").

ghost use Rattle.std.specs.Prelude.{IfOk, IfErr, refl};
ghost use Rattle.wi_standard_functions.specs.Arithmetic.{whole_value};
ghost use Rattle.wi_arguments.specs.Arguments.{IsMissing, IsOfArguments};
ghost use Rattle.wi_fold_functions.specs.Inner.Made.{numbers_with, filled_with};
ghost use Rattle.wi_standard_functions.specs.Inner.Named.{count_value, count_a_value};

use crate::fold::Fold;
use crate::folding::fold_arguments;
use crate::item::Item;
use wi_arguments::{Argument, Lookup};
use wi_value_functions::{counted, is_empty_value, is_number_value, whole_value};
use wi_values::{Address, ErrorKind, Value};

/// COUNT: how many items are Numbers. No error passes through. `Err` has a cell whose value isn't known.
pub(crate) fn count_value<L: Lookup>(arguments: &[Argument], lookup: &L) -> Result<Value, Address>
    ensures done { IfOk result (IsOfArguments (L.known_cell lookup.now) count_value arguments.now) }
    ensures missing { IfErr result (IsMissing (L.known_cell lookup.now) arguments.now) }
{
    fold_arguments(arguments, lookup, NumberCount { numbers: 0 })
}

/// COUNTA: how many items aren't Empty; errors and empty texts count. `Err` has a cell whose value isn't known.
pub(crate) fn count_a_value<L: Lookup>(arguments: &[Argument], lookup: &L) -> Result<Value, Address>
    ensures done { IfOk result
        (IsOfArguments (L.known_cell lookup.now) count_a_value arguments.now) }
    ensures missing { IfErr result (IsMissing (L.known_cell lookup.now) arguments.now) }
{
    fold_arguments(arguments, lookup, FilledCount { filled: 0 })
}

/// How many Numbers there are so far.
#[derive(Drop)]
struct NumberCount {
    numbers: u128,
}

impl Fold for NumberCount {
    ghost step = { numbers_with };

    ghost value = { λ s. whole_value s.numbers };

    fn step(&mut self, item: Item<'_>) -> Result<(), ErrorKind> {
        self.numbers = counted(self.numbers, is_number_value(item.value()));
        Ok(())
    }

    fn value(self) -> Value {
        whole_value(self.numbers)
    }

    ghost passes_empty = { λ _. refl };
}

/// How many items there are so far that aren't Empty.
#[derive(Drop)]
struct FilledCount {
    filled: u128,
}

impl Fold for FilledCount {
    ghost step = { filled_with };

    ghost value = { λ s. whole_value s.filled };

    fn step(&mut self, item: Item<'_>) -> Result<(), ErrorKind> {
        self.filled = counted(self.filled, !is_empty_value(item.value()));
        Ok(())
    }

    fn value(self) -> Value {
        whole_value(self.filled)
    }

    ghost passes_empty = { λ _. refl };
}
