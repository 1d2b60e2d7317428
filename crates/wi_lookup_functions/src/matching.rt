//! Which values can be found, and how they stand to the one sought.

ghost use Rattle.std.specs.Prelude.{◌≡◌, Some, None, if◌then◌else◌};
ghost use Rattle.wi_standard_functions.specs.Comparison.{value_order};
ghost use Rattle.wi_standard_functions.specs.Matching.{can_be_found, same_kind};

use crate::comparison::{order, rank};
use std::cmp::Ordering;
use wi_values::Value;

/// The order of a value to the one sought, or `None` where they aren't of one kind: Empty and errors are of none.
/// Linear in the shorter of two texts.
pub(crate) fn match_order(value: &Value, sought: &Value) -> Option<Ordering>
    ensures { result ≡ if same_kind value.now sought.now
        then Some (value_order value.now sought.now) else None }
{
    if same_kind(value, sought) {
        Some(order(value, sought))
    } else {
        None
    }
}

/// Whether both can be found, and are of one kind.
fn same_kind(value: &Value, sought: &Value) -> bool
    ensures { result ≡ same_kind value.now sought.now }
{
    can_be_found(value) && can_be_found(sought) && rank(value) == rank(sought)
}

/// Whether a value can be found: Empty and errors match nothing.
pub(crate) fn can_be_found(value: &Value) -> bool
    ensures { result ≡ can_be_found value.now }
{
    match value {
        Value::Empty => false,
        Value::Number(_) => true,
        Value::Text(_) => true,
        Value::Logical(_) => true,
        Value::Fault(_) => false,
    }
}
