//! OpenFormula, "Logical Functions".

ghost use Rattle.std.specs.Prelude.{◌≡◌};
ghost use Rattle.wi_standard_functions.specs.Logical.{not_value};
ghost use Rattle.wi_standard_functions.specs.Inner.Named.{true_value, false_value};

use crate::convert::to_logical;
use wi_values::Value;

/// TRUE.
pub(crate) fn true_value() -> Value
    ensures { result ≡ true_value }
{
    Value::Logical(true)
}

/// FALSE.
pub(crate) fn false_value() -> Value
    ensures { result ≡ false_value }
{
    Value::Logical(false)
}

/// NOT: the negation.
pub(crate) fn not_value(l: &Value) -> Value
    ensures { result ≡ not_value l.now }
{
    match to_logical(l) {
        Ok(b) => Value::Logical(!b),
        Err(e) => Value::Fault(e),
    }
}
