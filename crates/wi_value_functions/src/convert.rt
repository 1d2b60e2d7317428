//! Values taken for numbers and truth values (OpenFormula, "Implicit Conversion Operators").

ghost use Rattle.std.specs.Prelude.{◌≡◌};
ghost use Rattle.wi_fraction.specs.Rounding.{rounded};
ghost use Rattle.wi_fraction.specs.declared.rounding.Mode.TheVariants.{Toward};
ghost use Rattle.wi_standard_functions.specs.Convert.{to_number, to_whole, to_logical, zero_number, one_number};

use wi_fraction::{Fraction, Mode};
use wi_values::{ErrorKind, Value};

/// The number 0.
#[tactic(auto, using(wi_fraction::specs::Number::Laws::same_number))]
pub fn zero() -> Fraction
    ensures { result ≡ zero_number }
{
    Fraction::small(0)
}

/// The number 1.
#[tactic(auto, using(wi_fraction::specs::Number::Laws::same_number))]
pub fn one() -> Fraction
    ensures { result ≡ one_number }
{
    Fraction::small(1)
}

/// A value taken for a number.
#[inline(always)]
pub fn to_number(value: &Value) -> Result<Fraction, ErrorKind>
    ensures { result ≡ to_number value.now }
{
    match value {
        Value::Empty => Ok(zero()),
        Value::Number(x) => Ok(*x),
        Value::Text(_) => Err(ErrorKind::BadValue),
        Value::Logical(true) => Ok(one()),
        Value::Logical(false) => Ok(zero()),
        Value::Fault(e) => Err(*e),
    }
}

/// A value taken for a whole number: its number cut toward zero.
pub fn to_whole(value: &Value) -> Result<i128, ErrorKind>
    ensures { result ≡ to_whole value.now }
{
    let x = to_number(value)?;
    Ok(cut(x).numerator())
}

/// A value taken for a truth value.
pub fn to_logical(value: &Value) -> Result<bool, ErrorKind>
    ensures { result ≡ to_logical value.now }
{
    match value {
        Value::Empty => Ok(false),
        Value::Number(x) => Ok(x.numerator() != 0),
        Value::Text(_) => Err(ErrorKind::BadValue),
        Value::Logical(b) => Ok(*b),
        Value::Fault(e) => Err(*e),
    }
}

/// The number cut toward zero.
pub(crate) fn cut(x: Fraction) -> Fraction
    ensures { result ≡ rounded Toward x }
{
    match x.round_to(0, Mode::Toward) {
        Ok(whole) => whole,
        Err(_) => unreachable!(),
    }
}
