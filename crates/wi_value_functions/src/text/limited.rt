//! Copies of texts as values, where they are not too long.

ghost use Rattle.wi_standard_functions.specs.Arithmetic.{limited_text};
ghost use Rattle.wi_value_functions.specs.NoValues.{Gives};

use crate::no_value::NoValue;
use std::alloc::{AllocError, Global};
use wi_values::{ErrorKind, MAX_TEXT, Text, Value};

/// A copy of a text as a value, where it is not too long.
pub(crate) fn limited_copy(alloc: Global, text: &str) -> Result<Value, NoValue<AllocError>>
    ensures { Gives result (limited_text text.now) }
{
    if text.len() > MAX_TEXT {
        return Err(NoValue::Error(ErrorKind::BadValue));
    }
    Ok(Value::Text(Text::from_str(alloc, text)?))
}
