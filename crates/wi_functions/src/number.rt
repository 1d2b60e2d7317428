//! The value of a placed formula where it is a number that other numbers give: it is reckoned without a value for each
//! part.

ghost use Rattle.std.specs.Prelude.{◌≡◌, IfSome, if◌then◌else◌};
ghost use Rattle.std.specs.Bool.{OnTrue};
ghost use Rattle.wi_values.specs.declared.value.Value.{Value as Values};
ghost use Rattle.wi_standard_functions.specs.Arguments.{value_or};
ghost use Rattle.wi_value_functions.specs.Applied.{applied_to_arguments, arguments_of};
ghost use Rattle.wi_value_functions.specs.Inner.Outcome.{number_value};
ghost use Rattle.wi_value_functions.specs.declared.function.Function.TheVariants.{Lazy};
ghost use Rattle.wi_functions.specs.Operators as operators;
ghost use Rattle.wi_functions.specs.Placed.{placed_value, placed_values};

use crate::placed::{Placed, lent};
use wi_fraction::Fraction;
use wi_parser::{Operator, Sign};
use wi_value_functions::{LazyFunction, add, divide, multiply, subtract, zero};
use wi_values::{ErrorKind, Value};

/// Takes the number that a placed expression gives, where it and all that it rests on are numbers, and IF's conditions
/// comparisons of them. Any other is left, as one whose number doesn't fit, and then the number is of no use. Operators
/// between what is there take no call.
#[cycle(numbers)]
#[inline(always)]
pub(crate) fn take_number(placed: &Placed, values: &[Value], number: &mut Fraction) -> bool
    ensures { OnTrue result (placed_value placed.now values.now ≡ Values.Number number.new) }
{
    match placed {
        Placed::Binary(operator, operands) => {
            take_binary(*operator, &operands.0, &operands.1, values, number)
        }
        Placed::Lazy(LazyFunction::If, parameters) => take_chosen(parameters, values, number),
        _ => take_other(placed, values, number),
    }
}

/// The number of a placed expression that is an operator between constants or places, if it gives one: without a call
/// where it is the sum, the difference or a short product of two whole numbers.
#[inline(always)]
pub(crate) fn number_at_hand(placed: &Placed, values: &[Value]) -> Option<Fraction>
    ensures { IfSome result (λ x. placed_value placed.now values.now ≡ Values.Number x) }
{
    match placed {
        Placed::Binary(operator, operands) => {
            operated_at_hand(*operator, &operands.0, &operands.1, values)
        }
        _ => None,
    }
}

/// The number of an operator between two placed expressions, if they are constants or places and it gives one.
#[inline(always)]
fn operated_at_hand(
    operator: Operator,
    left: &Placed,
    right: &Placed,
    values: &[Value],
) -> Option<Fraction>
    ensures { IfSome result (λ x. operators.operate operator
        (placed_value left.now values.now) (placed_value right.now values.now)
        ≡ Values.Number x) }
{
    let x = lent_number(left, values)?;
    let y = lent_number(right, values)?;
    match whole_result(operator, x, y) {
        Some(whole) => Some(whole),
        None => called_number(operator, x, y),
    }
}

/// As `take_number`, in a function of its own.
#[cycle(numbers)]
#[inline(never)]
fn take_apart(placed: &Placed, values: &[Value], number: &mut Fraction) -> bool
    ensures { OnTrue result (placed_value placed.now values.now ≡ Values.Number number.new) }
{
    take_number(placed, values, number)
}

/// As `take_number`, where it is no operator between two expressions.
#[cycle(numbers)]
#[inline(never)]
fn take_other(placed: &Placed, values: &[Value], number: &mut Fraction) -> bool
    ensures { OnTrue result (placed_value placed.now values.now ≡ Values.Number number.new) }
{
    match placed {
        Placed::Signed(Sign::Minus, inner) => take_minus(inner, values, number),
        _ => take_lent(placed, values, number),
    }
}

/// Takes the number of an operator between two placed expressions.
#[cycle(numbers)]
#[inline(always)]
fn take_binary(
    operator: Operator,
    left: &Placed,
    right: &Placed,
    values: &[Value],
    number: &mut Fraction,
) -> bool
    ensures { OnTrue result (operators.operate operator
        (placed_value left.now values.now) (placed_value right.now values.now)
        ≡ Values.Number number.new) }
{
    match lent_number(left, values) {
        Some(x) => take_right(operator, x, right, values, number),
        None => take_left(operator, left, right, values, number),
    }
}

/// As `take_binary`, where the left expression has parts itself.
#[cycle(numbers)]
#[inline(never)]
fn take_left(
    operator: Operator,
    left: &Placed,
    right: &Placed,
    values: &[Value],
    number: &mut Fraction,
) -> bool
    ensures { OnTrue result (operators.operate operator
        (placed_value left.now values.now) (placed_value right.now values.now)
        ≡ Values.Number number.new) }
{
    if !take_apart(left, values, number) {
        return false;
    }
    let x = *number;
    take_right(operator, &x, right, values, number)
}

/// Takes the number of an operator between a number and a placed expression.
#[cycle(numbers)]
#[inline(always)]
fn take_right(
    operator: Operator,
    x: &Fraction,
    right: &Placed,
    values: &[Value],
    number: &mut Fraction,
) -> bool
    ensures { OnTrue result (operators.operate operator
        (Values.Number x.now) (placed_value right.now values.now) ≡ Values.Number number.new) }
{
    match lent_number(right, values) {
        Some(y) => take_operated(operator, x, y, number),
        None => take_right_parts(operator, x, right, values, number),
    }
}

/// As `take_right`, where the expression has parts itself.
#[cycle(numbers)]
#[inline(never)]
fn take_right_parts(
    operator: Operator,
    x: &Fraction,
    right: &Placed,
    values: &[Value],
    number: &mut Fraction,
) -> bool
    ensures { OnTrue result (operators.operate operator
        (Values.Number x.now) (placed_value right.now values.now) ≡ Values.Number number.new) }
{
    if !take_number(right, values, number) {
        return false;
    }
    match whole_result(operator, x, number) {
        Some(whole) => {
            *number = whole;
            true
        }
        None => take_over(operator, x, number),
    }
}

/// Takes the number with the other sign.
#[cycle(numbers)]
#[inline(never)]
fn take_minus(inner: &Placed, values: &[Value], number: &mut Fraction) -> bool
    ensures { OnTrue result (operators.with_sign Sign.Minus (placed_value inner.now values.now)
        ≡ Values.Number number.new) }
{
    if !take_apart(inner, values, number) {
        return false;
    }
    *number = number.neg();
    true
}

/// Takes the number of the parameter that IF chooses by a comparison.
#[cycle(numbers)]
#[inline(never)]
fn take_chosen(parameters: &[Placed], values: &[Value], number: &mut Fraction) -> bool
    ensures { OnTrue result (applied_to_arguments (Lazy LazyFunction.If)
        (arguments_of (placed_values parameters.now values.now)) ≡ Values.Number number.new) }
{
    match condition(parameters, values) {
        Some(holds) => take_parameter(parameters, place_for(holds), values, number),
        None => false,
    }
}

/// The place of the parameter that IF chooses.
#[inline(always)]
fn place_for(holds: bool) -> usize
    ensures { result ≡ (if holds then 1 else 2) }
{
    if holds { 1 } else { 2 }
}

/// Takes the number of the parameter at a place, counted from 0, if there is one.
#[cycle(numbers)]
#[inline(always)]
fn take_parameter(
    parameters: &[Placed],
    place: usize,
    values: &[Value],
    number: &mut Fraction,
) -> bool
    ensures { OnTrue result ((default : Values) → value_or default
        (arguments_of (placed_values parameters.now values.now)) place ≡ Values.Number number.new) }
{
    match parameters.get(place) {
        Some(parameter) => take_number(parameter, values, number),
        None => false,
    }
}

/// Whether the first parameter is TRUE, if it compares two numbers.
#[cycle(numbers)]
#[inline(always)]
fn condition(parameters: &[Placed], values: &[Value]) -> Option<bool>
    ensures { IfSome result (λ b. value_or Values.Empty
        (arguments_of (placed_values parameters.now values.now)) 0 ≡ Values.Logical b) }
{
    match parameters.get(0) {
        Some(Placed::Binary(operator, operands)) => {
            compared(*operator, &operands.0, &operands.1, values)
        }
        _ => None,
    }
}

/// Whether a comparison of two placed expressions holds, if they are numbers and the operator compares.
#[cycle(numbers)]
#[inline(always)]
fn compared(operator: Operator, left: &Placed, right: &Placed, values: &[Value]) -> Option<bool>
    ensures { IfSome result (λ b. operators.operate operator
        (placed_value left.now values.now) (placed_value right.now values.now)
        ≡ Values.Logical b) }
{
    if let Some(x) = lent_number(left, values) {
        if let Some(y) = lent_number(right, values) {
            return holds(operator, x, y);
        }
    }
    compared_deep(operator, left, right, values)
}

/// As `compared`, where one of the expressions has parts itself.
#[cycle(numbers)]
#[inline(never)]
fn compared_deep(
    operator: Operator,
    left: &Placed,
    right: &Placed,
    values: &[Value],
) -> Option<bool>
    ensures { IfSome result (λ b. operators.operate operator
        (placed_value left.now values.now) (placed_value right.now values.now)
        ≡ Values.Logical b) }
{
    let mut x = zero();
    if !take_apart(left, values, &mut x) {
        return None;
    }
    let mut y = zero();
    if !take_apart(right, values, &mut y) {
        return None;
    }
    holds(operator, &x, &y)
}

/// Whether a comparison of two numbers holds, if the operator compares.
#[inline(always)]
fn holds(operator: Operator, x: &Fraction, y: &Fraction) -> Option<bool>
    ensures { IfSome result (λ b. operators.operate operator
        (Values.Number x.now) (Values.Number y.now) ≡ Values.Logical b) }
{
    match operator {
        Operator::Equal => Some(x.cmp(y).is_eq()),
        Operator::NotEqual => Some(x.cmp(y).is_ne()),
        Operator::Less => Some(x.cmp(y).is_lt()),
        Operator::LessOrEqual => Some(x.cmp(y).is_le()),
        Operator::Greater => Some(x.cmp(y).is_gt()),
        Operator::GreaterOrEqual => Some(x.cmp(y).is_ge()),
        _ => None,
    }
}

/// Takes the number of an operator between two numbers, if it gives one. That of two whole numbers takes no call, if it
/// adds them or subtracts one.
#[inline(always)]
fn take_operated(operator: Operator, x: &Fraction, y: &Fraction, number: &mut Fraction) -> bool
    ensures { OnTrue result (operators.operate operator
        (Values.Number x.now) (Values.Number y.now) ≡ Values.Number number.new) }
{
    match whole_result(operator, x, y) {
        Some(whole) => {
            *number = whole;
            true
        }
        None => take_called(operator, x, y, number),
    }
}

/// Takes the number of an operator between a number and the one that is there already, if it gives one.
#[inline(never)]
fn take_over(operator: Operator, x: &Fraction, number: &mut Fraction) -> bool
    ensures { OnTrue result (operators.operate operator
        (Values.Number x.now) (Values.Number number.old) ≡ Values.Number number.new) }
{
    let y = *number;
    take_called(operator, x, &y, number)
}

/// The sum, the difference or the product of two whole numbers, if the operator gives it, it fits, and those that are
/// multiplied are short.
#[inline(always)]
fn whole_result(operator: Operator, x: &Fraction, y: &Fraction) -> Option<Fraction>
    ensures { IfSome result (λ z. operators.operate operator
        (Values.Number x.now) (Values.Number y.now) ≡ Values.Number z) }
{
    match operator {
        Operator::Add => {
            if !are_whole(x, y) {
                return None;
            }
            given_number(add(*x, *y))
        }
        Operator::Subtract => {
            if !are_whole(x, y) {
                return None;
            }
            given_number(subtract(*x, *y))
        }
        Operator::Multiply => {
            if !are_whole(x, y) || !is_short(x) || !is_short(y) {
                return None;
            }
            given_number(multiply(*x, *y))
        }
        _ => None,
    }
}

/// Whether both numbers are whole.
#[inline(always)]
fn are_whole(x: &Fraction, y: &Fraction) -> bool {
    x.denominator() == 1 && y.denominator() == 1
}

/// Whether a numerator fits 64 bits, so that its product with another such one is found with no test.
#[inline(always)]
fn is_short(x: &Fraction) -> bool {
    i64::try_from(x.numerator()).is_ok()
}

/// As `take_operated`, by a call.
#[inline(always)]
fn take_called(operator: Operator, x: &Fraction, y: &Fraction, number: &mut Fraction) -> bool
    ensures { OnTrue result (operators.operate operator
        (Values.Number x.now) (Values.Number y.now) ≡ Values.Number number.new) }
{
    match operator {
        Operator::Multiply => take_product(x, y, number),
        _ => take_sum_or_quotient(operator, x, y, number),
    }
}

/// The number of an operator between two numbers, if it gives one. It takes a call.
#[inline(always)]
fn called_number(operator: Operator, x: &Fraction, y: &Fraction) -> Option<Fraction>
    ensures { IfSome result (λ z. operators.operate operator
        (Values.Number x.now) (Values.Number y.now) ≡ Values.Number z) }
{
    let mut number = zero();
    if take_called(operator, x, y, &mut number) {
        Some(number)
    } else {
        None
    }
}

/// Takes the product of two numbers, if it fits.
#[inline(never)]
fn take_product(x: &Fraction, y: &Fraction, number: &mut Fraction) -> bool
    ensures { OnTrue result (operators.operate Operator.Multiply
        (Values.Number x.now) (Values.Number y.now) ≡ Values.Number number.new) }
{
    take_outcome(multiply(*x, *y), number)
}

/// As `take_operated`, where the operator doesn't multiply.
#[inline(never)]
fn take_sum_or_quotient(
    operator: Operator,
    x: &Fraction,
    y: &Fraction,
    number: &mut Fraction,
) -> bool
    ensures { OnTrue result (operators.operate operator
        (Values.Number x.now) (Values.Number y.now) ≡ Values.Number number.new) }
{
    match operator {
        Operator::Add => take_outcome(add(*x, *y), number),
        Operator::Subtract => take_outcome(subtract(*x, *y), number),
        Operator::Divide => take_outcome(divide(*x, *y), number),
        _ => false,
    }
}

/// The number of what was reckoned, if it has one.
#[inline(always)]
fn given_number(outcome: Result<Fraction, ErrorKind>) -> Option<Fraction>
    ensures { IfSome result (λ x. number_value outcome ≡ Values.Number x) }
{
    match outcome {
        Ok(x) => Some(x),
        Err(_) => None,
    }
}

/// Takes the number of what was reckoned, if it has one.
#[inline(always)]
fn take_outcome(outcome: Result<Fraction, ErrorKind>, number: &mut Fraction) -> bool
    ensures { OnTrue result (number_value outcome ≡ Values.Number number.new) }
{
    match outcome {
        Ok(x) => {
            *number = x;
            true
        }
        Err(_) => false,
    }
}

/// Takes the number of a placed expression that is a constant or a place, if there is one.
#[inline(always)]
fn take_lent(placed: &Placed, values: &[Value], number: &mut Fraction) -> bool
    ensures { OnTrue result (placed_value placed.now values.now ≡ Values.Number number.new) }
{
    match lent_number(placed, values) {
        Some(x) => {
            *number = *x;
            true
        }
        None => false,
    }
}

/// The number of a placed expression that is a constant or a place, if there is one.
#[inline(always)]
fn lent_number<'a>(placed: &'a Placed, values: &'a [Value]) -> Option<&'a Fraction>
    ensures { IfSome result (λ x. placed_value placed.now values.now ≡ Values.Number x.now) }
{
    match lent(placed, values) {
        Some(Value::Number(x)) => Some(x),
        _ => None,
    }
}
