//! Values taken for texts and whole numbers (OpenFormula, "Implicit Conversion Operators").

ghost use Rattle.std.specs.Prelude.{◌≡◌};
ghost use Rattle.wi_standard_functions.specs.Convert.{to_text, to_whole};
ghost use Rattle.wi_standard_functions.specs.Text.{at_least};
ghost use Rattle.wi_value_functions.specs.Inner.Gives.{Agrees, shown_bytes};

use crate::no_value::NoValue;
use std::alloc::{AllocError, Global};
use wi_values::{ErrorKind, Value};

/// The text that a value is taken for: that of a Text is lent, any other is written.
#[derive(Drop)]
pub(crate) enum Shown<'a> {
    Lent(&'a str),
    Written(String),
}

impl<'a> Shown<'a> {
    pub(crate) fn as_str(&self) -> &str
        ensures { result.now ≡ shown_bytes self.now }
    {
        match self {
            Shown::Lent(text) => text,
            Shown::Written(text) => text.as_str(),
        }
    }
}

/// A value taken for a text.
pub(crate) fn to_text<'a>(alloc: Global, value: &'a Value) -> Result<Shown<'a>, NoValue<AllocError>>
    ensures { Agrees shown_bytes result (to_text value.now) }
{
    match value {
        Value::Fault(e) => Err(NoValue::Error(*e)),
        Value::Text(text) => Ok(Shown::Lent(text.as_str())),
        _ => Ok(Shown::Written(value.shown(alloc)?)),
    }
}

/// A value taken for a whole number: its number cut toward zero.
pub(crate) fn to_whole(value: &Value) -> Result<i128, NoValue<AllocError>>
    ensures { Agrees (λ k. k) result (to_whole value.now) }
{
    Ok(crate::convert::to_whole(value)?)
}

/// A whole number that is at least the bound.
pub(crate) fn at_least(bound: u8, k: i128) -> Result<u128, NoValue<AllocError>>
    ensures { Agrees (λ n. n) result (at_least bound k) }
{
    if k < i128::from(bound) {
        return Err(NoValue::Error(ErrorKind::BadValue));
    }
    Ok(k.unsigned_abs())
}
