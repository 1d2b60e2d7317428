//! The value of a function that looks cells up.

ghost use Rattle.std.specs.Prelude.{IfOk, IfErr};
ghost use Rattle.wi_value_functions.specs.Applied.{applied_to_arguments};
ghost use Rattle.wi_value_functions.specs.NoValues.{IfMissing};
ghost use Rattle.wi_value_functions.specs.declared.function.Function.TheVariants.{References};
ghost use Rattle.wi_value_functions.specs.declared.function.ReferenceFunction.TheVariants.{Lookup as ByLookup};
ghost use Rattle.wi_arguments.specs.Arguments.{IsMissing, IsOfArguments};

use crate::counting::count_if_value;
use crate::index::index_value;
use crate::match_place::match_value;
use crate::products::sum_product_value;
use crate::summing::sum_if_value;
use crate::tables::{h_lookup_value, v_lookup_value};
use std::alloc::Global;
use wi_arguments::{Argument, Lookup};
use wi_value_functions::{LookupFunction, Stop};
use wi_values::{Address, Value};

/// The value of the function for these arguments, or a cell whose value isn't known. Takes as long as the function.
pub fn value_of_lookup<L: Lookup>(
    alloc: Global,
    function: LookupFunction,
    arguments: &[Argument],
    lookup: &L,
) -> Result<Value, Stop<Address>>
    ensures done { IfOk result (IsOfArguments (L.known_cell lookup.now)
        (applied_to_arguments (References (ByLookup function))) arguments.now) }
    ensures missing { IfErr result
        (λ s. IfMissing s (IsMissing (L.known_cell lookup.now) arguments.now)) }
{
    match function {
        LookupFunction::CountIf => count_if_value(alloc, arguments, lookup),
        LookupFunction::HLookup => h_lookup_value(alloc, arguments, lookup),
        LookupFunction::Index => index_value(alloc, arguments, lookup),
        LookupFunction::Match => match match_value(arguments, lookup) {
            Ok(value) => Ok(value),
            Err(at) => Err(Stop::Missing(at)),
        },
        LookupFunction::SumIf => sum_if_value(alloc, arguments, lookup),
        LookupFunction::SumProduct => sum_product_value(alloc, arguments, lookup),
        LookupFunction::VLookup => v_lookup_value(alloc, arguments, lookup),
    }
}
