//! OpenFormula, "Rounding Functions".

ghost use Rattle.std.specs.Prelude.{◌≡◌};
ghost use Rattle.wi_fraction.specs.Rounding.{round_to};
ghost use Rattle.wi_standard_functions.specs.Arithmetic.{fitting};
ghost use Rattle.wi_standard_functions.specs.Rounding.{int_value, round_value};
ghost use Rattle.wi_value_functions.specs.Inner.Outcome.{number_value};

use crate::arithmetic::{number_or_error, number_value};
use crate::convert::{to_number, to_whole};
use wi_fraction::{Fraction, Mode};
use wi_values::{ErrorKind, Value};

/// INT: the greatest whole number that is not above.
pub(crate) fn int_value(n: &Value) -> Value
    ensures { result ≡ int_value n.now }
{
    match to_number(n) {
        Ok(x) => Value::Number(x.floor()),
        Err(e) => Value::Fault(e),
    }
}

/// ROUND, ROUNDUP, ROUNDDOWN and TRUNC, by the mode of each: the number rounded at so many places. With more than 38
/// places before or after the point it is `BadNumber`, as where a step doesn't fit.
pub(crate) fn round_value(mode: Mode, n: &Value, places: &Value) -> Value
    ensures { result ≡ round_value mode n.now places.now }
{
    number_value(rounded(mode, n, places))
}

fn rounded(mode: Mode, n: &Value, places: &Value) -> Result<Fraction, ErrorKind>
    ensures { number_value result ≡ round_value mode n.now places.now }
{
    let x = to_number(n)?;
    let k = to_whole(places)?;
    rounded_at(mode, x, k)
}

/// The number rounded at so many places.
#[tactic(auto, using(crate::proofs::Places::none_beyond))]
fn rounded_at(mode: Mode, x: Fraction, places: i128) -> Result<Fraction, ErrorKind>
    ensures { result ≡ fitting (round_to x places mode) }
{
    if places.unsigned_abs() > 38 {
        return Err(ErrorKind::BadNumber);
    }
    number_or_error(x.round_to(places as i32, mode))
}
