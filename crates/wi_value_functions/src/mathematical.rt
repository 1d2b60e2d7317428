//! OpenFormula, "Mathematical Functions".

ghost use Rattle.std.specs.Prelude.{◌≡◌};
ghost use Rattle.wi_standard_functions.specs.Mathematical.{abs_value, sign_value, quotient_value, mod_value};
ghost use Rattle.wi_standard_functions.specs.Inner.Named.{power_value};
ghost use Rattle.wi_value_functions.specs.Inner.Outcome.{number_value};

use crate::arithmetic::{divide, multiply, number_value, raise, subtract};
use crate::convert::{cut, one, to_number, zero};
use crate::first_error::both;
use wi_fraction::Fraction;
use wi_values::{ErrorKind, Value};

/// ABS: the size.
pub(crate) fn abs_value(n: &Value) -> Value
    ensures { result ≡ abs_value n.now }
{
    match to_number(n) {
        Ok(x) if x.numerator() < 0 => Value::Number(x.neg()),
        Ok(x) => Value::Number(x),
        Err(e) => Value::Fault(e),
    }
}

/// SIGN: -1, 0 or 1.
pub(crate) fn sign_value(n: &Value) -> Value
    ensures { result ≡ sign_value n.now }
{
    match to_number(n) {
        Ok(x) if x.numerator() < 0 => Value::Number(one().neg()),
        Ok(x) if x.numerator() == 0 => Value::Number(zero()),
        Ok(_) => Value::Number(one()),
        Err(e) => Value::Fault(e),
    }
}

/// QUOTIENT: the quotient cut toward zero, `BadNumber` where the quotient doesn't fit.
pub(crate) fn quotient_value(n: &Value, m: &Value) -> Value
    ensures { result ≡ quotient_value n.now m.now }
{
    number_value(quotient(n, m))
}

/// MOD: `a - b * INT(a / b)`, step by step, `BadNumber` where a step doesn't fit.
pub(crate) fn mod_value(a: &Value, b: &Value) -> Value
    ensures { result ≡ mod_value a.now b.now }
{
    number_value(modulus(a, b))
}

/// POWER, and the operator `^`.
pub fn power_value(a: &Value, b: &Value) -> Value
    ensures { result ≡ power_value a.now b.now }
{
    number_value(power(a, b))
}

fn quotient(n: &Value, m: &Value) -> Result<Fraction, ErrorKind>
    ensures { number_value result ≡ quotient_value n.now m.now }
{
    let (x, y) = both(to_number(n), to_number(m))?;
    let q = divide(x, y)?;
    Ok(cut(q))
}

fn modulus(a: &Value, b: &Value) -> Result<Fraction, ErrorKind>
    ensures { number_value result ≡ mod_value a.now b.now }
{
    let (x, y) = both(to_number(a), to_number(b))?;
    let q = divide(x, y)?;
    let p = multiply(y, q.floor())?;
    subtract(x, p)
}

fn power(a: &Value, b: &Value) -> Result<Fraction, ErrorKind>
    ensures { number_value result ≡ power_value a.now b.now }
{
    let (base, exponent) = both(to_number(a), to_number(b))?;
    raise(base, exponent)
}
