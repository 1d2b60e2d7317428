//! Functions that take references.

ghost use Rattle.std.specs.Prelude.{◌≡◌, IfOk, IfErr};
ghost use Rattle.wi_parser.specs.View.{tree_of};
ghost use Rattle.wi_value_functions.specs.Applied.{applied_to_arguments};
ghost use Rattle.wi_value_functions.specs.declared.function.Function.TheVariants.{References};
ghost use Rattle.wi_arguments.specs.Arguments.{IsOfArguments, IsMissing};
ghost use Rattle.wi_value_functions.specs.NoValues.{IfMissing};
ghost use Rattle.wi_functions.specs.Meaning as formulas;

use std::alloc::Global;
use wi_arguments::{Argument, Lookup};
use wi_fold_functions::value_of_fold;
use wi_lookup_functions::value_of_lookup;
use wi_parser::Expr;
use wi_value_functions::{ReferenceFunction, Stop};
use wi_values::{Address, Rect, Value};

/// The rectangle that a parameter refers to, where it is a reference, also in parentheses.
pub(crate) fn referred(expr: &Expr) -> Option<Rect>
    ensures { result ≡ formulas.referred (tree_of expr.now) }
{
    match expr {
        Expr::Cell(reference) => Some(Rect::of(reference.at)),
        Expr::Rectangle(corners) => Some(corners.area()),
        Expr::Parenthesized(inner) => referred(inner),
        _ => None,
    }
}

/// What a function gives for its arguments.
#[inline(never)]
pub(crate) fn value_of_references<L: Lookup>(
    alloc: Global,
    function: ReferenceFunction,
    arguments: &[Argument],
    lookup: &L,
) -> Result<Value, Stop<Address>>
    ensures done { IfOk result (IsOfArguments
        (L.known_cell lookup.now) (applied_to_arguments (References function)) arguments.now) }
    ensures missing { IfErr result
        (λ s. IfMissing s (IsMissing (L.known_cell lookup.now) arguments.now)) }
{
    match function {
        ReferenceFunction::Fold(function) => match value_of_fold(function, arguments, lookup) {
            Ok(value) => Ok(value),
            Err(at) => Err(Stop::Missing(at)),
        },
        ReferenceFunction::Lookup(function) => value_of_lookup(alloc, function, arguments, lookup),
    }
}
