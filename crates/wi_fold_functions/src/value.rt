//! The value of a function that folds the items of its arguments.

ghost use Rattle.std.specs.Prelude.{IfOk, IfErr};
ghost use Rattle.wi_value_functions.specs.Applied.{applied_to_arguments};
ghost use Rattle.wi_value_functions.specs.declared.function.Function.TheVariants.{References};
ghost use Rattle.wi_value_functions.specs.declared.function.ReferenceFunction.TheVariants.{Fold};
ghost use Rattle.wi_arguments.specs.Arguments.{IsMissing, IsOfArguments};

use crate::information::{count_a_value, count_value};
use crate::logical::{and_value, or_value};
use crate::mathematical::{product_value, sum_value};
use crate::statistical::{average_value, max_value, min_value};
use wi_arguments::{Argument, Lookup};
use wi_value_functions::FoldFunction;
use wi_values::{Address, Value};

/// The value of the function for these arguments. `Err` has a cell whose value isn't known. The work is a walk through
/// the filled cells that the arguments refer to, which ends at the first error that is the value.
pub fn value_of_fold<L: Lookup>(
    function: FoldFunction,
    arguments: &[Argument],
    lookup: &L,
) -> Result<Value, Address>
    ensures done { IfOk result (IsOfArguments (L.known_cell lookup.now)
        (applied_to_arguments (References (Fold function))) arguments.now) }
    ensures missing { IfErr result (IsMissing (L.known_cell lookup.now) arguments.now) }
{
    match function {
        FoldFunction::And => and_value(arguments, lookup),
        FoldFunction::Average => average_value(arguments, lookup),
        FoldFunction::Count => count_value(arguments, lookup),
        FoldFunction::CountA => count_a_value(arguments, lookup),
        FoldFunction::Max => max_value(arguments, lookup),
        FoldFunction::Min => min_value(arguments, lookup),
        FoldFunction::Or => or_value(arguments, lookup),
        FoldFunction::Product => product_value(arguments, lookup),
        FoldFunction::Sum => sum_value(arguments, lookup),
    }
}
