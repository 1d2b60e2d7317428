//! The value of a function of values.

ghost use Rattle.std.specs.Prelude.{◌≡◌, IfOk};
ghost use Rattle.wi_standard_functions.specs.Arguments.{value_or};
ghost use Rattle.wi_value_functions.specs.Applied.{applied_to_values, arguments_of, passes};

use crate::convert::{one, zero};
use crate::function::{Test, TextFunction, ValueFunction};
use crate::information::{
    is_empty_value, is_error_value, is_logical_value, is_no_text, is_not_available,
    is_number_value, is_other_error, is_text_value, na_value, value_value,
};
use crate::logical::{false_value, not_value, true_value};
use crate::mathematical::{abs_value, mod_value, power_value, quotient_value, sign_value};
use crate::rounding::{int_value, round_value};
use crate::text::{
    concatenate_value, exact_value, find_value, left_value, len_value, mid_value, rept_value,
    right_value,
};
use std::alloc::{AllocError, Global};
use wi_values::Value;

/// The value of a function for the values of its parameters. In the place of one that is missing stands the function's
/// default, or else Empty. Takes as long as the function.
pub fn value_of_values(
    alloc: Global,
    function: ValueFunction,
    values: &[Value],
) -> Result<Value, AllocError>
    ensures { IfOk result (λ v. v ≡ applied_to_values function values.now) }
{
    let empty = Value::Empty;
    let first = value_or(&empty, values, 0);
    let second = value_or(&empty, values, 1);
    let value = match function {
        ValueFunction::Abs => Ok(abs_value(first)),
        ValueFunction::False => Ok(false_value()),
        ValueFunction::Int => Ok(int_value(first)),
        ValueFunction::Is(test) => Ok(Value::Logical(passes(test, first))),
        ValueFunction::Mod => Ok(mod_value(first, second)),
        ValueFunction::Na => Ok(na_value()),
        ValueFunction::Not => Ok(not_value(first)),
        ValueFunction::Power => Ok(power_value(first, second)),
        ValueFunction::Quotient => Ok(quotient_value(first, second)),
        ValueFunction::Round(mode) => {
            let zero = Value::Number(zero());
            Ok(round_value(mode, first, value_or(&zero, values, 1)))
        }
        ValueFunction::Sign => Ok(sign_value(first)),
        ValueFunction::Text(function) => text_value(alloc, function, values),
        ValueFunction::True => Ok(true_value()),
        ValueFunction::Value => Ok(value_value(first)),
    };
    // here once, and not at the end of each arm, which proves sooner
    drop(empty);
    value
}

fn text_value(alloc: Global, function: TextFunction, values: &[Value]) -> Result<Value, AllocError>
    ensures { IfOk result (λ v. v ≡ applied_to_values (ValueFunction.Text function) values.now) }
{
    let empty = Value::Empty;
    let one = Value::Number(one());
    let first = value_or(&empty, values, 0);
    let second = value_or(&empty, values, 1);
    let value = match function {
        TextFunction::Concatenate => concatenate_value(alloc, values),
        TextFunction::Exact => exact_value(alloc, first, second),
        TextFunction::Find => find_value(alloc, first, second, value_or(&one, values, 2)),
        TextFunction::Left => left_value(alloc, first, value_or(&one, values, 1)),
        TextFunction::Len => len_value(alloc, first),
        TextFunction::Mid => mid_value(alloc, first, second, value_or(&empty, values, 2)),
        TextFunction::Rept => rept_value(alloc, first, second),
        TextFunction::Right => right_value(alloc, first, value_or(&one, values, 1)),
    };
    // here once, as above
    drop(empty);
    drop(one);
    value
}

fn passes(test: Test, value: &Value) -> bool
    ensures { result ≡ passes test value.now }
{
    match test {
        Test::Blank => is_empty_value(value),
        Test::Err => is_other_error(value),
        Test::Error => is_error_value(value),
        Test::Logical => is_logical_value(value),
        Test::Na => is_not_available(value),
        Test::NonText => is_no_text(value),
        Test::Number => is_number_value(value),
        Test::Text => is_text_value(value),
    }
}

/// The value at a place, counted from 0, or else the default.
#[tactic(auto, using(crate::proofs::Given::given_or))]
fn value_or<'a>(default: &'a Value, values: &'a [Value], place: usize) -> &'a Value
    ensures { result.now ≡ value_or default.now (arguments_of values.now) place }
{
    values.get(place).unwrap_or(default)
}
