//! The operators (OpenFormula, "Standard Operators").

ghost use Rattle.std.specs.Prelude.{◌≡◌, ◌++◌, Bool, IfOk, MatchResult};
ghost use Rattle.std.specs.declared.cmp.Ordering.{Ordering};
ghost use Rattle.wi_values.specs.Value.{shown_text};
ghost use Rattle.wi_standard_functions.specs.Arithmetic.{addition, subtraction, multiplication};
ghost use Rattle.wi_standard_functions.specs.Arithmetic.{division, calculated, limited_text};
ghost use Rattle.wi_standard_functions.specs.Comparison.{beside, value_order, compared};
ghost use Rattle.wi_standard_functions.specs.Convert.{hundred_number};
ghost use Rattle.wi_value_functions.specs.Inner.Outcome.{number_value};
ghost use Rattle.wi_functions.specs.Operators.{operate, with_sign};
ghost use Rattle.wi_functions.specs.Inner.Named.{hundredth};

use crate::evaluation::Want;
use std::alloc::{AllocError, Global};
use wi_fraction::Fraction;
use wi_lookup_functions::compare;
use wi_parser::{Operator, Sign};
use wi_value_functions::{
    Stop, add, both, divide, limited_text, multiply, no_error, number_value, power_value, subtract,
    to_number,
};
use wi_values::{ErrorKind, Value};

/// What an operator gives for two values. Only a join needs memory. It ends as an evaluation does, so that its result
/// is handed on as it stands.
#[inline(never)]
pub(crate) fn operate(
    alloc: Global,
    operator: Operator,
    left: &Value,
    right: &Value,
) -> Result<Value, Stop<Want>>
    ensures { MatchResult result (λ v. v ≡ operate operator left.now right.now)
        (λ s. s ≡ Stop.Memory) }
{
    match (left, right) {
        (Value::Number(x), Value::Number(y)) => operate_on_numbers(alloc, operator, x, y),
        _ => operate_on_any(alloc, operator, left, right),
    }
}

/// What an operator gives for two numbers, which most operators take without a conversion.
#[inline(always)]
fn operate_on_numbers(
    alloc: Global,
    operator: Operator,
    x: &Fraction,
    y: &Fraction,
) -> Result<Value, Stop<Want>>
    ensures { MatchResult result
        (λ v. v ≡ operate operator (Value.Number x.now) (Value.Number y.now))
        (λ s. s ≡ Stop.Memory) }
{
    match operator {
        Operator::Add => Ok(number_value(add(*x, *y))),
        Operator::Subtract => Ok(number_value(subtract(*x, *y))),
        Operator::Multiply => Ok(number_value(multiply(*x, *y))),
        Operator::Divide => Ok(number_value(divide(*x, *y))),
        Operator::Equal => Ok(Value::Logical(x.cmp(y).is_eq())),
        Operator::NotEqual => Ok(Value::Logical(x.cmp(y).is_ne())),
        Operator::Less => Ok(Value::Logical(x.cmp(y).is_lt())),
        Operator::LessOrEqual => Ok(Value::Logical(x.cmp(y).is_le())),
        Operator::Greater => Ok(Value::Logical(x.cmp(y).is_gt())),
        Operator::GreaterOrEqual => Ok(Value::Logical(x.cmp(y).is_ge())),
        _ => operate_on_any(alloc, operator, &Value::Number(*x), &Value::Number(*y)),
    }
}

/// What an operator gives for values of any kinds, with conversions.
#[inline(never)]
fn operate_on_any(
    alloc: Global,
    operator: Operator,
    left: &Value,
    right: &Value,
) -> Result<Value, Stop<Want>>
    ensures { MatchResult result (λ v. v ≡ operate operator left.now right.now)
        (λ s. s ≡ Stop.Memory) }
{
    match operator {
        Operator::Add => Ok(number_value(sum(left, right))),
        Operator::Subtract => Ok(number_value(difference(left, right))),
        Operator::Multiply => Ok(number_value(product(left, right))),
        Operator::Divide => Ok(number_value(quotient(left, right))),
        Operator::Power => Ok(power_value(left, right)),
        Operator::Join => Ok(join(alloc, left, right)?),
        Operator::Equal => Ok(truth(left, right, compare(alloc, left, right).is_eq())),
        Operator::NotEqual => Ok(truth(left, right, compare(alloc, left, right).is_ne())),
        Operator::Less => Ok(truth(left, right, compare(alloc, left, right).is_lt())),
        Operator::LessOrEqual => Ok(truth(left, right, compare(alloc, left, right).is_le())),
        Operator::Greater => Ok(truth(left, right, compare(alloc, left, right).is_gt())),
        Operator::GreaterOrEqual => Ok(truth(left, right, compare(alloc, left, right).is_ge())),
    }
}

/// What a sign gives for a value. A plus changes nothing.
pub(crate) fn with_sign(sign: Sign, value: Value) -> Value
    ensures { result ≡ with_sign sign value }
{
    match sign {
        Sign::Plus => value,
        Sign::Minus => minus(&value),
    }
}

/// A value divided by 100.
pub(crate) fn hundredth(value: &Value) -> Value
    ensures { result ≡ hundredth value.now }
{
    number_value(quotient(value, &Value::Number(hundred())))
}

/// The number 100.
#[tactic(auto, using(wi_fraction::specs::Number::Laws::same_number))]
fn hundred() -> Fraction
    ensures { result ≡ hundred_number }
{
    Fraction::small(100)
}

#[inline(always)]
fn sum(left: &Value, right: &Value) -> Result<Fraction, ErrorKind>
    ensures { number_value result ≡ calculated addition left.now right.now }
{
    let (x, y) = both(to_number(left), to_number(right))?;
    add(x, y)
}

#[inline(always)]
fn difference(left: &Value, right: &Value) -> Result<Fraction, ErrorKind>
    ensures { number_value result ≡ calculated subtraction left.now right.now }
{
    let (x, y) = both(to_number(left), to_number(right))?;
    subtract(x, y)
}

#[inline(always)]
fn product(left: &Value, right: &Value) -> Result<Fraction, ErrorKind>
    ensures { number_value result ≡ calculated multiplication left.now right.now }
{
    let (x, y) = both(to_number(left), to_number(right))?;
    multiply(x, y)
}

fn quotient(left: &Value, right: &Value) -> Result<Fraction, ErrorKind>
    ensures { number_value result ≡ calculated division left.now right.now }
{
    let (dividend, divisor) = both(to_number(left), to_number(right))?;
    divide(dividend, divisor)
}

/// The number with the other sign.
fn minus(value: &Value) -> Value
    ensures { result ≡ with_sign Sign.Minus value.now }
{
    match to_number(value) {
        Ok(x) => Value::Number(x.neg()),
        Err(e) => Value::Fault(e),
    }
}

/// Two values joined as texts.
fn join(alloc: Global, left: &Value, right: &Value) -> Result<Value, AllocError>
    ensures { IfOk result (λ v. v ≡ operate Operator.Join left.now right.now) }
{
    match both(no_error(left), no_error(right)) {
        Ok(_) => join_shown(alloc, left, right),
        Err(e) => Ok(Value::Fault(e)),
    }
}

/// The shown texts of two values, one after the other.
fn join_shown(alloc: Global, left: &Value, right: &Value) -> Result<Value, AllocError>
    ensures { IfOk result (λ v. v ≡ limited_text (shown_text left.now ++ shown_text right.now)) }
{
    let mut text = String::new(alloc);
    left.push_shown(&mut text)?;
    right.push_shown(&mut text)?;
    limited_text(text)
}

/// Whether the order of two values passes a test, unless one is an error.
fn truth(left: &Value, right: &Value, holds: bool) -> Value
    ensures { (test : Ordering → Bool)
        → holds ≡ test (value_order (beside right.now left.now) (beside left.now right.now))
        → result ≡ compared test left.now right.now }
{
    match both(no_error(left), no_error(right)) {
        Ok(_) => Value::Logical(holds),
        Err(e) => Value::Fault(e),
    }
}
