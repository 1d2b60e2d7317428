// Numbers made from a sign, a size and a denominator.

ghost use Rattle.std.specs.Prelude.{◌≡◌, ◌<◌, ◌≤◌, unsigned_abs};
ghost use Rattle.wi_fraction.specs.Gcd.{gcd};
ghost use Rattle.wi_fraction.specs.Number.{max_size, number_at, number_of, with_minus};

use crate::division::{divide, gcd};
use crate::words::Parts;
use crate::{Fraction, MAX};

impl Fraction {
    /// The numerator without its sign.
    pub(crate) fn size(&self) -> u128
        ensures { result ≡ unsigned_abs self.now.num }
    {
        self.parts().numerator.unsigned_abs()
    }
}

/// The number of that sign, size and denominator, in lowest terms.
pub(crate) fn reduced(negative: bool, size: u128, denominator: u128) -> Option<Fraction>
    requires { 0 < denominator }
    ensures { result ≡ number_of (with_minus negative size) denominator }
{
    let common = gcd(size, denominator);
    number_at(negative, divide(size, common), divide(denominator, common))
}

/// The number of that sign, size and denominator, which have no common divisor.
pub(crate) fn number_at(negative: bool, size: u128, denominator: u128) -> Option<Fraction>
    requires above_zero { 0 < denominator }
    requires lowest { gcd size denominator ≡ 1 }
    ensures { result ≡ number_at (with_minus negative size) denominator }
{
    if size > MAX || denominator > MAX {
        return None;
    }
    let parts = Parts {
        numerator: with_minus(negative, size),
        denominator,
    };
    Some(Fraction::of(parts))
}

/// The whole number as a fraction.
#[inline(always)]
pub(crate) fn integer(n: i128) -> Fraction
    requires { unsigned_abs n ≤ max_size }
    ensures numerator { result.num ≡ n }
    ensures denominator { result.den ≡ 1 }
{
    let parts = Parts {
        numerator: n,
        denominator: 1,
    };
    Fraction::of(parts)
}

/// The whole number of that sign and size.
pub(crate) fn with_minus(negative: bool, size: u128) -> i128
    requires { size ≤ max_size }
    ensures { result ≡ with_minus negative size }
{
    let magnitude = size as i128;
    if negative { -magnitude } else { magnitude }
}
