//! REPT and CONCATENATE (OpenFormula, "Text Functions").

ghost use Rattle.std.specs.Prelude.{◌≡◌, ◌++◌, IfOk, OnOk, string_bytes};
ghost use Rattle.std.specs.List.{repeat};
ghost use Rattle.wi_values.specs.Value.{shown_text};
ghost use Rattle.wi_standard_functions.specs.Arithmetic.{limited_text};
ghost use Rattle.wi_standard_functions.specs.Convert.{to_text};
ghost use Rattle.wi_standard_functions.specs.Inner.Named.{concatenated};
ghost use Rattle.wi_standard_functions.specs.Text.{rept_value};
ghost use Rattle.wi_value_functions.specs.NoValues.{Gives};
ghost use Rattle.wi_value_functions.specs.Inner.Gives.{Agrees};

use crate::no_value::{NoValue, as_value};
use crate::text::convert::{at_least, to_text, to_whole};
use crate::text::limited_text;
use std::alloc::{AllocError, Global};
use wi_values::{ErrorKind, MAX_TEXT, Text, Value};

/// The values as texts, one after the other. Linear in all of them together.
pub(crate) fn concatenate_value(alloc: Global, values: &[Value]) -> Result<Value, AllocError>
    ensures { IfOk result (λ v. v ≡ concatenated values.now) }
{
    as_value(concatenate(alloc, values))
}

/// A text so many times. What would be too long is refused before anything of it is made; else linear in the result.
pub(crate) fn rept_value(alloc: Global, text: &Value, number: &Value) -> Result<Value, AllocError>
    ensures { IfOk result (λ v. v ≡ rept_value text.now number.now) }
{
    as_value(rept(alloc, text, number))
}

fn concatenate(alloc: Global, values: &[Value]) -> Result<Value, NoValue<AllocError>>
    ensures { Gives result (concatenated values.now) }
{
    let mut joined = String::new(alloc);
    for value in values {
        push_text(value, &mut joined)?;
    }
    Ok(limited_text(joined)?)
}

/// Appends what a value is as a text.
fn push_text(value: &Value, text: &mut String) -> Result<(), NoValue<AllocError>>
    ensures taken { Agrees (λ _. shown_text value.now) result (to_text value.now) }
    ensures done { OnOk result
        (string_bytes text.new ≡ string_bytes text.old ++ shown_text value.now) }
{
    match value {
        Value::Fault(e) => Err(NoValue::Error(*e)),
        _ => Ok(value.push_shown(text)?),
    }
}

fn rept(alloc: Global, text: &Value, number: &Value) -> Result<Value, NoValue<AllocError>>
    ensures { Gives result (rept_value text.now number.now) }
{
    let shown = to_text(alloc, text)?;
    let number = at_least(0, to_whole(number)?)?;
    repeated(alloc, shown.as_str(), number)
}

/// A text so many times, where that is not too long. More times than the longest text has bytes are too many of any
/// text but the empty one, and of that they change nothing.
fn repeated(alloc: Global, text: &str, number: u128) -> Result<Value, NoValue<AllocError>>
    ensures { Gives result (limited_text (repeat number text.now)) }
{
    let times = number.min(MAX_TEXT as u128 + 1) as usize;
    if times.saturating_mul(text.len()) > MAX_TEXT {
        return Err(NoValue::Error(ErrorKind::BadValue));
    }
    let all = text.repeat(alloc, times)?;
    let text = Text::new(all)?;
    Ok(Value::Text(text))
}
