//! What is calculated with numbers (OpenFormula, "Standard Operators").

ghost use Rattle.std.specs.Prelude.{◌≡◌, Ok, Err, IfErr, OnOk, OnErr};
ghost use Rattle.wi_standard_functions.specs.Arithmetic.{addition, subtraction, multiplication, division, exponentiation};
ghost use Rattle.wi_value_functions.specs.Inner.Fractions.{number_or_error};
ghost use Rattle.wi_value_functions.specs.Inner.Outcome.{number_value};

use wi_fraction::{Fraction, FractionError, Total};
use wi_values::{ErrorKind, Value};

/// The sum, or `BadNumber` where it doesn't fit.
#[inline(always)]
pub fn add(x: Fraction, y: Fraction) -> Result<Fraction, ErrorKind>
    ensures { result ≡ addition x y }
{
    number_or_error(x.checked_add(y))
}

/// Adds a number to a total. `BadNumber` where the sum doesn't fit: then the total is as before.
#[inline(always)]
pub fn add_to(total: &mut Total, x: &Fraction) -> Result<(), ErrorKind>
    ensures ok { OnOk result (addition total.old x.now ≡ Ok total.new) }
    ensures err { IfErr result (λ e. addition total.old x.now ≡ Err e) }
    ensures same { OnErr result (total.new ≡ total.old) }
{
    match total.add(x) {
        Ok(()) => Ok(()),
        Err(_) => Err(ErrorKind::BadNumber),
    }
}

/// The difference, or `BadNumber` where it doesn't fit.
#[inline(always)]
pub fn subtract(x: Fraction, y: Fraction) -> Result<Fraction, ErrorKind>
    ensures { result ≡ subtraction x y }
{
    number_or_error(x.checked_sub(y))
}

/// The product, or `BadNumber` where it doesn't fit.
#[inline(always)]
pub fn multiply(x: Fraction, y: Fraction) -> Result<Fraction, ErrorKind>
    ensures { result ≡ multiplication x y }
{
    number_or_error(x.checked_mul(y))
}

/// The quotient; `DivisionByZero` where the divisor is 0, `BadNumber` where it doesn't fit.
pub fn divide(dividend: Fraction, divisor: Fraction) -> Result<Fraction, ErrorKind>
    ensures { result ≡ division dividend divisor }
{
    number_or_error(dividend.checked_div(divisor))
}

/// The power; `BadNumber` where the exponent isn't whole or the power doesn't fit, `DivisionByZero` for a negative
/// power of 0.
pub(crate) fn raise(base: Fraction, exponent: Fraction) -> Result<Fraction, ErrorKind>
    ensures { result ≡ exponentiation base exponent }
{
    if exponent.denominator() == 1 {
        number_or_error(base.checked_pow(exponent.numerator()))
    } else {
        Err(ErrorKind::BadNumber)
    }
}

/// The number as a value, or the error.
#[inline(always)]
pub fn number_value(outcome: Result<Fraction, ErrorKind>) -> Value
    ensures { result ≡ number_value outcome }
{
    match outcome {
        Ok(x) => Value::Number(x),
        Err(e) => Value::Fault(e),
    }
}

/// What an operation on fractions gave.
#[inline(always)]
pub(crate) fn number_or_error(
    outcome: Result<Fraction, FractionError>,
) -> Result<Fraction, ErrorKind>
    ensures { result ≡ number_or_error outcome }
{
    match outcome {
        Ok(x) => Ok(x),
        Err(FractionError::ZeroDenominator) => Err(ErrorKind::DivisionByZero),
        Err(FractionError::Overflow) => Err(ErrorKind::BadNumber),
    }
}
