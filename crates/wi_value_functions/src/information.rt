//! OpenFormula, "Information Functions". No error passes through a test.

ghost use Rattle.std.specs.Prelude.{◌≡◌};
ghost use Rattle.wi_standard_functions.specs.Information.{is_empty_value, is_number_value, is_text_value, is_logical_value, is_error_value, is_not_available, value_value};
ghost use Rattle.wi_standard_functions.specs.Inner.Named.{is_no_text, is_other_error, na_value};

use wi_fraction::Fraction;
use wi_values::{ErrorKind, Value};

/// ISBLANK.
pub fn is_empty_value(value: &Value) -> bool
    ensures { result ≡ is_empty_value value.now }
{
    match value {
        Value::Empty => true,
        _ => false,
    }
}

/// ISNUMBER.
pub fn is_number_value(value: &Value) -> bool
    ensures { result ≡ is_number_value value.now }
{
    match value {
        Value::Number(_) => true,
        _ => false,
    }
}

/// ISTEXT.
pub(crate) fn is_text_value(value: &Value) -> bool
    ensures { result ≡ is_text_value value.now }
{
    match value {
        Value::Text(_) => true,
        _ => false,
    }
}

/// ISNONTEXT, which an error is too.
pub(crate) fn is_no_text(value: &Value) -> bool
    ensures { result ≡ is_no_text value.now }
{
    !is_text_value(value)
}

/// ISLOGICAL.
pub(crate) fn is_logical_value(value: &Value) -> bool
    ensures { result ≡ is_logical_value value.now }
{
    match value {
        Value::Logical(_) => true,
        _ => false,
    }
}

/// ISERROR.
pub(crate) fn is_error_value(value: &Value) -> bool
    ensures { result ≡ is_error_value value.now }
{
    match value {
        Value::Fault(_) => true,
        _ => false,
    }
}

/// ISNA.
pub(crate) fn is_not_available(value: &Value) -> bool
    ensures { result ≡ is_not_available value.now }
{
    match value {
        Value::Fault(kind) => *kind == ErrorKind::NotAvailable,
        _ => false,
    }
}

/// ISERR: an error other than `#N/A`.
pub(crate) fn is_other_error(value: &Value) -> bool
    ensures { result ≡ is_other_error value.now }
{
    is_error_value(value) && !is_not_available(value)
}

/// NA.
pub(crate) fn na_value() -> Value
    ensures { result ≡ na_value }
{
    Value::Fault(ErrorKind::NotAvailable)
}

/// VALUE: a Number itself, a Text that spells a number that Number, an error itself; anything else is `BadValue`. Takes
/// time in proportion to the text.
pub(crate) fn value_value(value: &Value) -> Value
    ensures { result ≡ value_value value.now }
{
    match value {
        Value::Number(x) => Value::Number(*x),
        Value::Text(text) => spelled(text.as_str().as_bytes()),
        Value::Fault(e) => Value::Fault(*e),
        _ => Value::Fault(ErrorKind::BadValue),
    }
}

/// The number that a text spells.
fn spelled(text: &[u8]) -> Value
    ensures { result ≡ value_value (Value.Text text.now) }
{
    match Fraction::read(text) {
        Some(x) => Value::Number(x),
        None => Value::Fault(ErrorKind::BadValue),
    }
}
