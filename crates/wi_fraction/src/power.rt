// Powers.

ghost use Rattle.std.specs.Prelude.{◌≡◌, ◌^◌, ◌%◌, ◌<◌, ◌==◌, ◌&&◌, int_lt, pos, ok_or, if◌then◌else◌};
ghost use Rattle.std.specs.Ordering.{int_eq};
ghost use Rattle.wi_fraction.specs.Gcd.{gcd};
ghost use Rattle.wi_fraction.specs.Number.{number_of, with_minus};
ghost use Rattle.wi_fraction.specs.Arithmetic.{power_of};
ghost use Rattle.wi_fraction.specs.Inner.Bounds.{bounded};

use crate::lowest_terms::number_at;
use crate::words::Parts;
use crate::{Fraction, FractionError, MAX};

impl Fraction {
    /// The power, which overflows where it does not fit in lowest terms. Zero to the power zero is one.
    pub fn checked_pow(self, exponent: i128) -> Result<Fraction, FractionError>
        ensures { result ≡ (if int_eq self.num (pos 0) && int_lt exponent (pos 0)
            then Err FractionError.ZeroDenominator
            else ok_or (power_of self exponent) FractionError.Overflow) }
    {
        let Parts {
            numerator: a,
            denominator: b,
        } = self.parts();
        let count = exponent.unsigned_abs();
        let negative = is_odd_negative(a, count);
        if exponent >= 0 {
            return power(negative, a.unsigned_abs(), b, count).ok_or(FractionError::Overflow);
        }
        if a == 0 {
            return Err(FractionError::ZeroDenominator);
        }
        power(negative, b, a.unsigned_abs(), count).ok_or(FractionError::Overflow)
    }
}

/// Whether the power is below zero.
fn is_odd_negative(n: i128, count: u128) -> bool
    ensures { result ≡ (int_lt n (pos 0) && (count % 2 == 1)) }
{
    n < 0 && count % 2 == 1
}

/// That power of a fraction in lowest terms, with that sign.
fn power(negative: bool, size: u128, denominator: u128, count: u128) -> Option<Fraction>
    requires above_zero { 0 < denominator }
    requires lowest { gcd size denominator ≡ 1 }
    ensures { result ≡ number_of (with_minus negative (size ^ count)) (denominator ^ count) }
{
    let above = size_power(size, count)?;
    let below = size_power(denominator, count)?;
    number_at(negative, above, below)
}

/// The power, where it is small enough. From two on, each further factor takes a bit at least.
#[tactic(auto, using(crate::proofs::Powers::pow_none, crate::proofs::Powers::pow_small, crate::proofs::Powers::pow_too_large))]
fn size_power(base: u128, count: u128) -> Option<u128>
    ensures { result ≡ bounded (base ^ count) }
{
    if count == 0 {
        return Some(1);
    }
    if base <= 1 {
        return Some(base);
    }
    if count >= 127 {
        return None;
    }
    let power = base.checked_pow(count as u32)?;
    if power <= MAX { Some(power) } else { None }
}
