//! Counts, and counts as numbers.

ghost use Rattle.std.specs.Prelude.{◌≡◌};
ghost use Rattle.wi_standard_functions.specs.Arithmetic.{whole_number, whole_value};
ghost use Rattle.wi_value_functions.specs.Inner.Counts.{counted};

use wi_fraction::Fraction;
use wi_values::{ErrorKind, Value};

/// A count with one more, where it counts. It goes no higher than it fits: no number is so great.
pub fn counted(count: u128, counts: bool) -> u128
    ensures { result ≡ counted counts count }
{
    if counts {
        count.saturating_add(1)
    } else {
        count
    }
}

/// A count, or a place, as a value, or `BadNumber` where it doesn't fit.
pub fn whole_value(count: u128) -> Value
    ensures { result ≡ whole_value count }
{
    match whole_number(count) {
        Ok(x) => Value::Number(x),
        Err(e) => Value::Fault(e),
    }
}

/// A count as a number, or `BadNumber` where it doesn't fit.
#[tactic(auto, using(crate::proofs::Counts::too_many))]
pub fn whole_number(count: u128) -> Result<Fraction, ErrorKind>
    ensures { result ≡ whole_number count }
{
    let Ok(whole) = i128::try_from(count) else {
        return Err(ErrorKind::BadNumber);
    };
    match Fraction::new(whole, 1) {
        Ok(x) => Ok(x),
        Err(_) => Err(ErrorKind::BadNumber),
    }
}
