// Sums, products, quotients and the other sign.

ghost use Rattle.std.specs.Prelude.{◌≡◌, ◌≢◌, ◌*◌, ◌<◌, ◌≤◌, ◌^◌, pos, ◌+ℤ◌, ◌-ℤ◌, ◌*ℤ◌, unsigned_abs, ok_or, if◌then◌else◌, IsTrue, Some, IfSome, IfOk};
ghost use Rattle.std.specs.Ordering.{int_eq};
ghost use Rattle.wi_fraction.specs.Gcd.{gcd};
ghost use Rattle.wi_fraction.specs.Number.{max_size, number_of, with_minus};
ghost use Rattle.wi_fraction.specs.Arithmetic.{sum_of, product_of, quotient_of, negated, IsValue};
ghost use Rattle.wi_fraction.specs.Inner.Bounds.{bounded, int_bounded};

use crate::division::{divide, gcd};
use crate::lowest_terms::{integer, number_at, reduced};
use crate::words::Parts;
use crate::{Fraction, FractionError, MAX, SMALL};

impl Fraction {
    /// The sum, which overflows where the least common multiple of the denominators, a numerator scaled to it, or
    /// the sum of the two is too large.
    #[tactic(auto, using(crate::proofs::Values::sum_value))]
    #[inline(always)]
    pub fn checked_add(self, other: Fraction) -> Result<Fraction, FractionError>
        ensures value { result ≡ ok_or (sum_of self other) FractionError.Overflow }
        ensures exact { IfOk result
            (IsValue (self.num *ℤ pos other.den +ℤ other.num *ℤ pos self.den)
            (self.den * other.den)) }
    {
        if self.denominator() == 1 && other.denominator() == 1 {
            return self.whole_sum(other).ok_or(FractionError::Overflow);
        }
        self.sum(other).ok_or(FractionError::Overflow)
    }

    /// The difference, which overflows where the sum with the second negated does.
    #[tactic(auto, using(crate::proofs::Values::difference_value))]
    #[inline(always)]
    pub fn checked_sub(self, other: Fraction) -> Result<Fraction, FractionError>
        ensures value { result ≡ ok_or (sum_of self (negated other)) FractionError.Overflow }
        ensures exact { IfOk result
            (IsValue (self.num *ℤ pos other.den -ℤ other.num *ℤ pos self.den)
            (self.den * other.den)) }
    {
        self.checked_add(other.neg())
    }

    /// The product, which overflows where it does not fit in lowest terms.
    #[tactic(auto, using(crate::proofs::Values::product_value))]
    #[inline(always)]
    pub fn checked_mul(self, other: Fraction) -> Result<Fraction, FractionError>
        ensures value { result ≡ ok_or (product_of self other) FractionError.Overflow }
        ensures exact { IfOk result (IsValue (self.num *ℤ other.num) (self.den * other.den)) }
    {
        let Parts {
            numerator: a,
            denominator: b,
        } = self.parts();
        let Parts {
            numerator: c,
            denominator: d,
        } = other.parts();
        if b == 1 && d == 1 {
            return self.product_of_wholes(other).ok_or(FractionError::Overflow);
        }
        multiplied((a < 0) != (c < 0), a.unsigned_abs(), b, c.unsigned_abs(), d).ok_or(
            FractionError::Overflow,
        )
    }

    /// The quotient, which overflows where it does not fit in lowest terms.
    #[tactic(auto, using(crate::proofs::Values::quotient_value))]
    pub fn checked_div(self, other: Fraction) -> Result<Fraction, FractionError>
        ensures value { result ≡ (if int_eq other.num (pos 0) then Err FractionError.ZeroDenominator
            else ok_or (quotient_of self other) FractionError.Overflow) }
        ensures exact { IfOk result
            (λ z. (self.num *ℤ pos other.den) *ℤ pos z.den ≡ z.num *ℤ (pos self.den *ℤ other.num)) }
    {
        if other.parts().numerator == 0 {
            return Err(FractionError::ZeroDenominator);
        }
        self.quotient(other).ok_or(FractionError::Overflow)
    }

    /// The number with the other sign.
    #[inline(always)]
    pub fn neg(self) -> Fraction
        ensures { result ≡ negated self }
    {
        let Parts {
            numerator,
            denominator,
        } = self.parts();
        let parts = Parts {
            numerator: -numerator,
            denominator,
        };
        Fraction::of(parts)
    }

    /// The sum of two whole numbers.
    #[inline(always)]
    fn whole_sum(self, other: Fraction) -> Option<Fraction>
        requires first { self.den ≡ 1 }
        requires second { other.den ≡ 1 }
        ensures { result ≡ sum_of self other }
    {
        let total = total(self.parts().numerator, other.parts().numerator)?;
        Some(integer(total))
    }

    /// The product of two whole numbers.
    #[inline(always)]
    fn product_of_wholes(self, other: Fraction) -> Option<Fraction>
        requires first { self.den ≡ 1 }
        requires second { other.den ≡ 1 }
        ensures { result ≡ product_of self other }
    {
        let a = self.parts().numerator;
        let b = other.parts().numerator;
        match short_product(a, b) {
            Some(product) => Some(integer(product)),
            None => whole_product((a < 0) != (b < 0), a.unsigned_abs(), b.unsigned_abs()),
        }
    }

    #[inline(always)]
    fn sum(self, other: Fraction) -> Option<Fraction>
        ensures { result ≡ sum_of self other }
    {
        if self.parts().denominator == other.parts().denominator {
            self.like_sum(other)
        } else {
            self.unlike_sum(other)
        }
    }

    /// The sum of two numbers with one denominator.
    fn like_sum(self, other: Fraction) -> Option<Fraction>
        requires { self.den ≡ other.den }
        ensures { result ≡ sum_of self other }
    {
        let Parts {
            numerator: a,
            denominator: b,
        } = self.parts();
        let total = total(a, other.parts().numerator)?;
        reduced(total < 0, total.unsigned_abs(), b)
    }

    /// The sum over the least common multiple of the denominators.
    #[inline(never)]
    fn unlike_sum(self, other: Fraction) -> Option<Fraction>
        ensures { result ≡ sum_of self other }
    {
        let Parts {
            numerator: a,
            denominator: b,
        } = self.parts();
        let Parts {
            numerator: c,
            denominator: d,
        } = other.parts();
        let multiple = product(divide(b, gcd(b, d)), d)?;
        let first = scaled(a, divide(multiple, b))?;
        let second = scaled(c, divide(multiple, d))?;
        let total = total(first, second)?;
        reduced(total < 0, total.unsigned_abs(), multiple)
    }

    fn quotient(self, other: Fraction) -> Option<Fraction>
        requires { other.num ≢ pos 0 }
        ensures { result ≡ quotient_of self other }
    {
        let Parts {
            numerator: a,
            denominator: b,
        } = self.parts();
        let Parts {
            numerator: c,
            denominator: d,
        } = other.parts();
        multiplied((a < 0) != (c < 0), a.unsigned_abs(), b, d, c.unsigned_abs())
    }
}

/// The product of a/b and c/d, which are in lowest terms, with that sign.
#[inline(never)]
pub(crate) fn multiplied(negative: bool, a: u128, b: u128, c: u128, d: u128) -> Option<Fraction>
    requires first_above_zero { 0 < b }
    requires second_above_zero { 0 < d }
    requires first_lowest { gcd a b ≡ 1 }
    requires second_lowest { gcd c d ≡ 1 }
    ensures { result ≡ number_of (with_minus negative (a * c)) (b * d) }
{
    if b == 1 && d == 1 {
        return whole_product(negative, a, c);
    }
    if b == 1 && c == 1 {
        return reduced(negative, a, d);
    }
    cancelled_product(negative, a, b, c, d)
}

/// The product of two whole numbers, where both fit 64 bits.
#[inline(always)]
pub(crate) fn short_product(a: i128, b: i128) -> Option<i128>
    ensures { IfSome result (λ c. (c ≡ a *ℤ b) × (unsigned_abs c ≤ 2 ^ 126)) }
{
    match (i64::try_from(a), i64::try_from(b)) {
        (Ok(a), Ok(b)) => Some(i128::from(a) * i128::from(b)),
        _ => None,
    }
}

/// The product of two whole numbers with that sign.
#[inline(never)]
fn whole_product(negative: bool, a: u128, b: u128) -> Option<Fraction>
    ensures { result ≡ number_of (with_minus negative (a * b)) 1 }
{
    number_at(negative, product(a, b)?, 1)
}

/// The product of a/b and c/d, which are in lowest terms, with that sign. Each numerator is divided by what it has in
/// common with the other denominator before they are multiplied.
fn cancelled_product(negative: bool, a: u128, b: u128, c: u128, d: u128) -> Option<Fraction>
    requires first_above_zero { 0 < b }
    requires second_above_zero { 0 < d }
    requires first_lowest { gcd a b ≡ 1 }
    requires second_lowest { gcd c d ≡ 1 }
    ensures { result ≡ number_of (with_minus negative (a * c)) (b * d) }
{
    let outer = gcd(a, d);
    let inner = gcd(c, b);
    let size = product(divide(a, outer), divide(c, inner))?;
    let denominator = product(divide(b, inner), divide(d, outer))?;
    number_at(negative, size, denominator)
}

/// The product, where it is small enough.
#[inline(always)]
fn product(a: u128, b: u128) -> Option<u128>
    ensures { result ≡ bounded (a * b) }
{
    let product = a.checked_mul(b)?;
    if product <= MAX { Some(product) } else { None }
}

/// The multiple of a numerator, where it is small enough.
pub(crate) fn scaled(n: i128, by: u128) -> Option<i128>
    requires { by ≤ max_size }
    ensures { result ≡ int_bounded (n *ℤ pos by) }
{
    bounded(n.checked_mul(by as i128)?)
}

/// The sum of two numerators, where it is small enough.
#[inline(always)]
pub(crate) fn total(a: i128, b: i128) -> Option<i128>
    ensures { result ≡ int_bounded (a +ℤ b) }
{
    bounded(a.checked_add(b)?)
}

/// The sum of two numerators, where both are so small that it can't be too large: found with few tests, and those with
/// one branch.
#[inline(always)]
pub(crate) fn small_total(a: i128, b: i128) -> Option<i128>
    ensures { IfSome result (λ c. Some c ≡ int_bounded (a +ℤ b)) }
{
    if is_small(a) & is_small(b) {
        Some(a + b)
    } else {
        None
    }
}

/// As `small_total`, where the second is at most half as large as a numerator may be.
#[inline(always)]
pub(crate) fn total_with_small(a: i128, b: i128) -> Option<i128>
    requires { unsigned_abs b ≤ 2 ^ 126 }
    ensures { IfSome result (λ c. Some c ≡ int_bounded (a +ℤ b)) }
{
    if is_small(a) { Some(a + b) } else { None }
}

/// Whether a numerator is at most a quarter as large as one may be.
#[inline(always)]
fn is_small(n: i128) -> bool
    ensures { IsTrue result → unsigned_abs n ≤ 2 ^ 125 }
{
    -SMALL <= n && n < SMALL
}

/// The number, where it is small enough.
#[inline(always)]
fn bounded(n: i128) -> Option<i128>
    ensures { result ≡ int_bounded n }
{
    if n == i128::MIN { None } else { Some(n) }
}
