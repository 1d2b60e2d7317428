//! AND and OR (OpenFormula, "Logical Functions").

ghost use Rattle.std.specs.Prelude.{◌≡◌, IfOk, IfErr, refl};
ghost use Rattle.wi_arguments.specs.Arguments.{IsMissing, IsOfArguments};
ghost use Rattle.wi_fold_functions.specs.Inner.Made.{all_with, any_with, logical_chosen};
ghost use Rattle.wi_standard_functions.specs.Inner.Named.{and_value, or_value};

use crate::fold::Fold;
use crate::folding::fold_arguments;
use crate::item::Item;
use wi_arguments::{Argument, Lookup};
use wi_values::{Address, ErrorKind, Value};

/// AND: whether all truth values that count are TRUE, or the first error met; `BadValue` where none counts. `Err` has a
/// cell whose value isn't known.
pub(crate) fn and_value<L: Lookup>(arguments: &[Argument], lookup: &L) -> Result<Value, Address>
    ensures done { IfOk result (IsOfArguments (L.known_cell lookup.now) and_value arguments.now) }
    ensures missing { IfErr result (IsMissing (L.known_cell lookup.now) arguments.now) }
{
    fold_arguments(arguments, lookup, AllTrue { all: None })
}

/// OR: whether one of the truth values that count is TRUE, or the first error met; `BadValue` where none counts. `Err`
/// has a cell whose value isn't known.
pub(crate) fn or_value<L: Lookup>(arguments: &[Argument], lookup: &L) -> Result<Value, Address>
    ensures done { IfOk result (IsOfArguments (L.known_cell lookup.now) or_value arguments.now) }
    ensures missing { IfErr result (IsMissing (L.known_cell lookup.now) arguments.now) }
{
    fold_arguments(arguments, lookup, AnyTrue { any: None })
}

/// Whether all truth values so far are TRUE, where there is one.
#[derive(Drop)]
struct AllTrue {
    all: Option<bool>,
}

impl Fold for AllTrue {
    ghost step = { all_with };

    ghost value = { λ s. logical_chosen s.all };

    fn step(&mut self, item: Item<'_>) -> Result<(), ErrorKind> {
        self.all = match (self.all, item.logical()?) {
            (before, None) => before,
            (None, Some(b)) => Some(b),
            (Some(before), Some(b)) => Some(before && b),
        };
        Ok(())
    }

    fn value(self) -> Value {
        chosen_value(self.all)
    }

    ghost passes_empty = { λ _. refl };
}

/// Whether one of the truth values so far is TRUE, where there is one.
#[derive(Drop)]
struct AnyTrue {
    any: Option<bool>,
}

impl Fold for AnyTrue {
    ghost step = { any_with };

    ghost value = { λ s. logical_chosen s.any };

    fn step(&mut self, item: Item<'_>) -> Result<(), ErrorKind> {
        self.any = match (self.any, item.logical()?) {
            (before, None) => before,
            (None, Some(b)) => Some(b),
            (Some(before), Some(b)) => Some(before || b),
        };
        Ok(())
    }

    fn value(self) -> Value {
        chosen_value(self.any)
    }

    ghost passes_empty = { λ _. refl };
}

/// The truth value that was chosen: of none there is no result.
fn chosen_value(chosen: Option<bool>) -> Value
    ensures { result ≡ logical_chosen chosen }
{
    match chosen {
        Some(b) => Value::Logical(b),
        None => Value::Fault(ErrorKind::BadValue),
    }
}
