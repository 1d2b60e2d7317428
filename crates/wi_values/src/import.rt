//! What a text that comes from outside a formula is taken for.

ghost use Rattle.std.specs.Prelude.{◌≡◌, ◌↔◌, Some, None, IfOk, IsErrOf};
ghost use Rattle.wi_values.specs.Inner.Import.{words_value, imported, field_value};
ghost use Rattle.wi_values.specs.declared.import.FieldFault.TheVariants.{Memory};

use crate::text::{MAX_TEXT, Text};
use crate::value::Value;
use std::alloc::{AllocError, Global};
use thiserror::Error;
use wi_fraction::Fraction;

/// Why a text gives no value.
#[derive(Clone, Copy, PartialEq, Eq, Debug, Error)]
pub enum FieldFault {
    #[error("the text is longer than 32767 bytes")]
    TooLong,
    #[error("out of memory")]
    Memory,
}

impl From<AllocError> for FieldFault {
    ghost from_gives = { λ _ e. e ≡ Memory };

    fn from(_: AllocError) -> FieldFault {
        FieldFault::Memory
    }
}

/// The value of a field: of an empty one Empty, of any other that of its text.
#[tactic(auto, using(crate::proofs::Fields::field_of_text))]
pub fn field_value(alloc: Global, text: &str) -> Result<Value, FieldFault>
    ensures value { IfOk result (λ v. field_value text.now ≡ Some v) }
    ensures too_long { IsErrOf result FieldFault.TooLong ↔ (field_value text.now ≡ None) }
{
    if text.is_empty() {
        return Ok(Value::Empty);
    }
    imported_value(alloc, text)
}

/// The value of a text: a number or a truth value where it spells one, and else a text.
#[tactic(auto, unfolding(crate::specs::Inner::Import::imported))]
pub fn imported_value(alloc: Global, text: &str) -> Result<Value, FieldFault>
    ensures value { IfOk result (λ v. imported text.now ≡ Some v) }
    ensures too_long { IsErrOf result FieldFault.TooLong ↔ (imported text.now ≡ None) }
{
    match Fraction::read(text.as_bytes()) {
        Some(number) => Ok(Value::Number(number)),
        None => words_value(alloc, text),
    }
}

/// The value of a text that is no number.
fn words_value(alloc: Global, text: &str) -> Result<Value, FieldFault>
    ensures value { IfOk result (λ v. words_value text.now ≡ Some v) }
    ensures too_long { IsErrOf result FieldFault.TooLong ↔ (words_value text.now ≡ None) }
{
    if text == "TRUE" {
        return Ok(Value::Logical(true));
    }
    if text == "FALSE" {
        return Ok(Value::Logical(false));
    }
    if text.len() > MAX_TEXT {
        return Err(FieldFault::TooLong);
    }
    Ok(Value::Text(Text::from_str(alloc, text)?))
}
