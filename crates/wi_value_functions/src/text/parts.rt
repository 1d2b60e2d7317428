//! LEN, LEFT, RIGHT and MID (OpenFormula, "Text Functions").

ghost use Rattle.std.specs.Prelude.{◌≡◌, IfOk};
ghost use Rattle.wi_standard_functions.specs.Text.{len_value, left_value, right_value};
ghost use Rattle.wi_standard_functions.specs.Inner.Named.{mid_of};
ghost use Rattle.wi_value_functions.specs.NoValues.{Gives};

use crate::count::whole_value;
use crate::no_value::{NoValue, as_value};
use crate::text::characters::{after, before, count};
use crate::text::convert::{at_least, to_text, to_whole};
use crate::text::limited::limited_copy;
use std::alloc::{AllocError, Global};
use wi_values::Value;

/// How many characters a text has. Linear in the text.
pub(crate) fn len_value(alloc: Global, text: &Value) -> Result<Value, AllocError>
    ensures { IfOk result (λ v. v ≡ len_value text.now) }
{
    as_value(len(alloc, text))
}

/// The first characters of a text, or all where it has no more. Linear in the text.
pub(crate) fn left_value(alloc: Global, text: &Value, number: &Value) -> Result<Value, AllocError>
    ensures { IfOk result (λ v. v ≡ left_value text.now number.now) }
{
    as_value(left(alloc, text, number))
}

/// The last characters of a text, or all where it has no more. Linear in the text.
pub(crate) fn right_value(alloc: Global, text: &Value, number: &Value) -> Result<Value, AllocError>
    ensures { IfOk result (λ v. v ≡ right_value text.now number.now) }
{
    as_value(right(alloc, text, number))
}

/// So many characters of a text from a place on, counted from 1, or those that are there. Linear in the text.
pub(crate) fn mid_value(
    alloc: Global,
    text: &Value,
    start: &Value,
    number: &Value,
) -> Result<Value, AllocError>
    ensures { IfOk result (λ v. v ≡ mid_of text.now start.now number.now) }
{
    as_value(mid(alloc, text, start, number))
}

fn len(alloc: Global, text: &Value) -> Result<Value, NoValue<AllocError>>
    ensures { Gives result (len_value text.now) }
{
    let shown = to_text(alloc, text)?;
    Ok(whole_value(count(shown.as_str()) as u128))
}

fn left(alloc: Global, text: &Value, number: &Value) -> Result<Value, NoValue<AllocError>>
    ensures { Gives result (left_value text.now number.now) }
{
    let shown = to_text(alloc, text)?;
    let number = at_least(0, to_whole(number)?)?;
    limited_copy(alloc, before(shown.as_str(), number))
}

fn right(alloc: Global, text: &Value, number: &Value) -> Result<Value, NoValue<AllocError>>
    ensures { Gives result (right_value text.now number.now) }
{
    let shown = to_text(alloc, text)?;
    let number = at_least(0, to_whole(number)?)?;
    let others = (count(shown.as_str()) as u128).saturating_sub(number);
    limited_copy(alloc, after(shown.as_str(), others))
}

fn mid(
    alloc: Global,
    text: &Value,
    start: &Value,
    number: &Value,
) -> Result<Value, NoValue<AllocError>>
    ensures { Gives result (mid_of text.now start.now number.now) }
{
    let shown = to_text(alloc, text)?;
    let start = to_whole(start)?;
    let number = to_whole(number)?;
    let start = at_least(1, start)?;
    let number = at_least(0, number)?;
    limited_copy(alloc, before(after(shown.as_str(), start - 1), number))
}
