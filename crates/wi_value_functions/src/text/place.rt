//! EXACT and FIND (OpenFormula, "Text Functions").

ghost use Rattle.std.specs.Prelude.{◌≡◌, ◌≤◌, IfOk, IfSome, length, chars};
ghost use Rattle.wi_standard_functions.specs.Text.{exact_value};
ghost use Rattle.wi_standard_functions.specs.Inner.Named.{find_of, first_position, position_from};
ghost use Rattle.wi_value_functions.specs.NoValues.{Gives};

use crate::count::whole_value;
use crate::no_value::{NoValue, as_value};
use crate::text::characters::{after, count};
use crate::text::convert::{at_least, to_text, to_whole};
use std::alloc::{AllocError, Global};
use wi_values::{ErrorKind, Value};

/// Whether two texts are equal byte for byte. Linear in the shorter.
pub(crate) fn exact_value(alloc: Global, left: &Value, right: &Value) -> Result<Value, AllocError>
    ensures { IfOk result (λ v. v ≡ exact_value left.now right.now) }
{
    as_value(exact(alloc, left, right))
}

fn exact(alloc: Global, left: &Value, right: &Value) -> Result<Value, NoValue<AllocError>>
    ensures { Gives result (exact_value left.now right.now) }
{
    let left = to_text(alloc, left)?;
    let right = to_text(alloc, right)?;
    Ok(Value::Logical(left.as_str() == right.as_str()))
}

/// The first place, counted from 1 and not before the one given, where one text stands in another. Linear in both.
pub(crate) fn find_value(
    alloc: Global,
    sought: &Value,
    text: &Value,
    start: &Value,
) -> Result<Value, AllocError>
    ensures { IfOk result (λ v. v ≡ find_of sought.now text.now start.now) }
{
    as_value(find(alloc, sought, text, start))
}

fn find(
    alloc: Global,
    sought: &Value,
    text: &Value,
    start: &Value,
) -> Result<Value, NoValue<AllocError>>
    ensures { Gives result (find_of sought.now text.now start.now) }
{
    let sought = to_text(alloc, sought)?;
    let text = to_text(alloc, text)?;
    let start = at_least(1, to_whole(start)?)?;
    match place_from(start - 1, sought.as_str(), text.as_str()) {
        Some(place) => Ok(whole_value(place as u128 + 1)),
        None => Err(NoValue::Error(ErrorKind::BadValue)),
    }
}

/// The first place from a place on, both counted from 0, where one text stands in another.
fn place_from(from: u128, sought: &str, text: &str) -> Option<usize>
    ensures place { result ≡ position_from from (chars sought.now) (chars text.now) }
    ensures within { IfSome result (λ i. i ≤ length text.now) }
{
    if from > count(text) as u128 {
        return None;
    }
    let place = first_place(sought, after(text, from))?;
    Some(from as usize + place)
}

/// The first place, counted from 0, where one text stands in another.
fn first_place(sought: &str, text: &str) -> Option<usize>
    ensures place { result ≡ first_position (chars sought.now) (chars text.now) }
    ensures within { IfSome result (λ i. i ≤ length (chars text.now)) }
{
    let start = text.find(sought)?;
    let (before, _) = text.split_at(start);
    Some(count(before))
}
