//! Of two operands the first error from the left.

ghost use Rattle.std.specs.Prelude.{◌≡◌, Ok, Err, MatchResult};
ghost use Rattle.wi_standard_functions.specs.FirstError.{no_error};
ghost use Rattle.wi_value_functions.specs.Inner.Both.{both};

use wi_values::{ErrorKind, Value};

/// The error, where the value is one.
pub fn no_error(value: &Value) -> Result<(), ErrorKind>
    ensures { MatchResult result (λ _. no_error value.now ≡ Ok value.now)
        (λ e. no_error value.now ≡ Err e) }
{
    match value {
        Value::Empty => Ok(()),
        Value::Number(_) => Ok(()),
        Value::Text(_) => Ok(()),
        Value::Logical(_) => Ok(()),
        Value::Fault(e) => Err(*e),
    }
}

/// Both operands, or the first error from the left.
#[inline(always)]
pub fn both<T: Copy>(
    left: Result<T, ErrorKind>,
    right: Result<T, ErrorKind>,
) -> Result<(T, T), ErrorKind>
    ensures { result ≡ both left right }
{
    let x = left?;
    let y = right?;
    Ok((x, y))
}
