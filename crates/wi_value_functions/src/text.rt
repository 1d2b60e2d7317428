//! Texts as values, and the text functions of OpenFormula. Characters are Unicode scalar values. A function fails only
//! where memory for a text that it makes is wanting.

ghost use Rattle.std.specs.Prelude.{◌≡◌, IfOk, string_bytes};
ghost use Rattle.wi_standard_functions.specs.Arithmetic.{limited_text};

mod characters;
mod convert;
mod joined;
mod limited;
mod parts;
mod place;

pub(crate) use joined::{concatenate_value, rept_value};
pub(crate) use parts::{left_value, len_value, mid_value, right_value};
pub(crate) use place::{exact_value, find_value};
use std::alloc::AllocError;
use wi_values::{ErrorKind, MAX_TEXT, Text, Value};

/// A text as a value, or `BadValue` where it is too long.
pub fn limited_text(text: String) -> Result<Value, AllocError>
    ensures { IfOk result (λ v. v ≡ limited_text (string_bytes text)) }
{
    if text.len() > MAX_TEXT {
        return Ok(Value::Fault(ErrorKind::BadValue));
    }
    Ok(Value::Text(Text::new(text)?))
}
