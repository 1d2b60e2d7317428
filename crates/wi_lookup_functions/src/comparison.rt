//! How values compare (OpenFormula, "Infix Operator Ordered Comparison").

ghost use Rattle.std.specs.Prelude.{◌≡◌};
ghost use Rattle.wi_values.specs.declared.value.Value.{Value as Values};
ghost use Rattle.wi_standard_functions.specs.Comparison.{empty_beside, beside, rank, value_order};

use std::alloc::Global;
use std::cmp::Ordering;
use wi_value_functions::zero;
use wi_values::{Text, Value};

/// The order of two values, in which Empty counts as 0, the empty text or FALSE, as the other is. Linear in the shorter
/// of two texts.
pub fn compare(_alloc: Global, left: &Value, right: &Value) -> Ordering
    ensures { result ≡ value_order (beside right.now left.now) (beside left.now right.now) }
{
    match (left, right) {
        (Value::Number(x), Value::Number(y)) => x.cmp(y),
        _ => compare_any(left, right),
    }
}

/// The order of two values of any kinds, in which Empty counts as 0, the empty text or FALSE, as the other is. It
/// stands apart, so that numbers are compared at once.
#[inline(never)]
fn compare_any(left: &Value, right: &Value) -> Ordering
    ensures { result ≡ value_order (beside right.now left.now) (beside left.now right.now) }
{
    let left_empty = empty_beside(right);
    let right_empty = empty_beside(left);
    order(or_empty(left, &left_empty), or_empty(right, &right_empty))
}

/// What Empty counts as beside a value.
fn empty_beside(other: &Value) -> Value
    ensures { result ≡ empty_beside other.now }
{
    match other {
        Value::Empty => Value::Number(zero()),
        Value::Number(_) => Value::Number(zero()),
        Value::Text(_) => Value::Text(Text::empty()),
        Value::Logical(_) => Value::Logical(false),
        Value::Fault(_) => Value::Number(zero()),
    }
}

/// A value, with another in place of Empty.
fn or_empty<'a>(value: &'a Value, empty: &'a Value) -> &'a Value
    ensures { (other : Values) → empty.now ≡ empty_beside other
        → result.now ≡ beside other value.now }
{
    match value {
        Value::Empty => empty,
        Value::Number(_) => value,
        Value::Text(_) => value,
        Value::Logical(_) => value,
        Value::Fault(_) => value,
    }
}

/// The order of two values, neither of them Empty.
pub(crate) fn order(left: &Value, right: &Value) -> Ordering
    ensures { result ≡ value_order left.now right.now }
{
    match (left, right) {
        (Value::Number(x), Value::Number(y)) => x.cmp(y),
        (Value::Text(s), Value::Text(t)) => s.as_str().cmp(t.as_str()),
        (Value::Logical(a), Value::Logical(b)) => a.cmp(b),
        _ => rank(left).cmp(&rank(right)),
    }
}

/// Numbers come first, then Texts, then Logicals.
pub(crate) fn rank(value: &Value) -> u8
    ensures { result ≡ rank value.now }
{
    match value {
        Value::Empty => 0,
        Value::Number(_) => 0,
        Value::Text(_) => 1,
        Value::Logical(_) => 2,
        Value::Fault(_) => 0,
    }
}
