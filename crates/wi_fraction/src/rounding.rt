// Whole numbers near a number, and rounding to decimal places.

ghost use Rattle.std.specs.Prelude.{◌≡◌, ◌+◌, ◌*◌, ◌/◌, ◌<◌, ◌≤◌, ok_or};
ghost use Rattle.wi_fraction.specs.Number.{max_size, with_minus};
ghost use Rattle.wi_fraction.specs.Arithmetic.{times_ten_to};
ghost use Rattle.wi_fraction.specs.Rounding.{floored, rounded, rounded_size, round_to};

use crate::arithmetic::multiplied;
use crate::division::{divide, remainder};
use crate::lowest_terms::{integer, with_minus};
use crate::words::Parts;
use crate::{Fraction, FractionError};

/// Which whole number a number is rounded to.
#[derive(Clone, Copy)]
pub enum Mode {
    /// The nearest, a half away from zero.
    HalfAway,
    /// The next away from zero, if it is not whole.
    Away,
    /// The next toward zero, if it is not whole.
    Toward,
}

impl Fraction {
    /// The greatest whole number that is not above this one.
    pub fn floor(self) -> Fraction
        ensures { result ≡ floored self }
    {
        let Parts {
            numerator: n,
            denominator: d,
        } = self.parts();
        let size = n.unsigned_abs();
        if n >= 0 {
            return whole(false, divide(size, d));
        }
        whole(true, divide(size - 1, d) + 1)
    }

    /// The number rounded at so many places after the point, or before it where they are negative. It overflows where
    /// there are more than 38, or where the number times that power of ten, or the rounded one divided by it, does not
    /// fit.
    pub fn round_to(self, places: i32, mode: Mode) -> Result<Fraction, FractionError>
        ensures { result ≡ ok_or (round_to self places mode) FractionError.Overflow }
    {
        self.rounded_at(places, mode).ok_or(FractionError::Overflow)
    }

    #[tactic(auto, unfolding(crate::specs::Rounding::round_to))]
    fn rounded_at(self, places: i32, mode: Mode) -> Option<Fraction>
        ensures { result ≡ round_to self places mode }
    {
        let count = places.unsigned_abs();
        if count > 38 {
            return None;
        }
        let scaled = self.shifted(places < 0, count)?;
        scaled.rounded(mode).shifted(places >= 0, count)
    }

    /// The number times that power of ten, or divided by it.
    fn shifted(self, down: bool, power: u32) -> Option<Fraction>
        requires { power ≤ 38 }
        ensures { result ≡ times_ten_to (with_minus down power) self.num self.den }
    {
        let Parts {
            numerator: n,
            denominator: d,
        } = self.parts();
        let ten = 10u128.pow(power);
        if down {
            return multiplied(n < 0, n.unsigned_abs(), d, 1, ten);
        }
        multiplied(n < 0, n.unsigned_abs(), d, ten, 1)
    }

    fn rounded(self, mode: Mode) -> Fraction
        ensures { result ≡ rounded mode self }
    {
        let Parts {
            numerator: n,
            denominator: d,
        } = self.parts();
        whole(n < 0, rounded_size(mode, n.unsigned_abs(), d))
    }
}

/// The whole number of that sign and size.
fn whole(negative: bool, size: u128) -> Fraction
    requires { size ≤ max_size }
    ensures numerator { result.num ≡ with_minus negative size }
    ensures denominator { result.den ≡ 1 }
{
    integer(with_minus(negative, size))
}

/// The whole number for the size n/d.
fn rounded_size(mode: Mode, n: u128, d: u128) -> u128
    requires above_zero { 0 < d }
    requires size { n ≤ max_size }
    requires denominator { d ≤ max_size }
    ensures value { result ≡ rounded_size mode n d }
    ensures small { result ≤ n }
{
    match mode {
        Mode::HalfAway => nearest(n, d),
        Mode::Away => divide(n + (d - 1), d),
        Mode::Toward => divide(n, d),
    }
}

/// The whole number nearest to n/d, the higher one of two that are as near.
fn nearest(n: u128, d: u128) -> u128
    requires above_zero { 0 < d }
    requires size { n ≤ max_size }
    requires denominator { d ≤ max_size }
    ensures { result ≡ (2 * n + d) / (2 * d) }
{
    let rest = remainder(n, d);
    if rest < d - rest {
        return divide(n, d);
    }
    divide(n, d) + 1
}
