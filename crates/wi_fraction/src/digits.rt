// Digits in two pieces, and what they write.

ghost use Rattle.std.specs.Prelude.{◌≡◌, ◌+◌, ◌*◌, ◌<◌, ◌≤◌, ◌++◌, pos, length, slice_index, false, [], Some};
ghost use Rattle.std.specs.Char.{digit_value};
ghost use Rattle.std.specs.Int.{IsInRange};
ghost use Rattle.std.specs.Str.Parse.{AllDigits, digits_value};
ghost use Rattle.wi_fraction.specs.Gcd.{gcd};
ghost use Rattle.wi_fraction.specs.Number.{max_size, number_of};
ghost use Rattle.wi_fraction.specs.Inner.Bounds.{bounded};
ghost use Rattle.wi_fraction.specs.Inner.Reading.{decimal_value};

use crate::lowest_terms::reduced;
use crate::words::Parts;
use crate::{Fraction, MAX};
use std::marker::Model;

/// Digits in two pieces, one after the other. A contract sees them as one list.
#[derive(Drop)]
pub(crate) struct Digits<'a> {
    first: &'a [u8],
    second: &'a [u8],
}

impl<'a> Model for Digits<'a> {
    ghost use Rattle.std.specs.Prelude.{ℕ, List, ◌++◌};

    ghost Value = { List ℕ };

    ghost view = { λ d. d.first.now ++ d.second.now };
}

impl<'a> Digits<'a> {
    /// Digits in one piece.
    pub(crate) fn alone(digits: &'a [u8]) -> Digits<'a>
        ensures { result ≡ digits.now }
    {
        Digits {
            first: digits,
            second: &[],
        }
    }

    /// The digits of two pieces together.
    pub(crate) fn joined(first: &'a [u8], second: &'a [u8]) -> Digits<'a>
        ensures { result ≡ first.now ++ second.now }
    {
        Digits { first, second }
    }

    /// The whole number that the digits write, where it is small enough.
    pub(crate) fn whole_number(&self) -> Option<u128>
        requires { AllDigits 10 self.now }
        ensures { result ≡ bounded (digits_value 10 self.now) }
    {
        let mut value = 0;
        for i in 0..self.len() {
            value = mul_add(value, 10, self.at(i))?;
        }
        Some(value)
    }

    /// The decimal with nothing before the point, from its last digit to its first. The digits need not fit where the
    /// number does, but where the digits from some place on are no number the whole is none.
    pub(crate) fn decimal_part(&self) -> Option<Fraction>
        requires { AllDigits 10 self.now }
        ensures { result ≡ decimal_value false [] self.now }
    {
        let mut part = zero();
        for i in (0..self.len()).rev() {
            part = tenth(self.at(i), part.size(), part.denominator())?;
        }
        Some(part)
    }

    /// How many digits there are.
    fn len(&self) -> usize
        ensures { result ≡ length self.now }
    {
        self.first.len() + self.second.len()
    }

    /// The value of a digit.
    fn at(&self, i: usize) -> u128
        requires digits { AllDigits 10 self.now }
        requires inside { i < length self.now }
        ensures value { result ≡ digit_value (slice_index self.now i) }
        ensures small { result < 10 }
    {
        let count = self.first.len();
        if i < count {
            return digit(self.first[i]);
        }
        digit(self.second[i - count])
    }
}

pub(crate) fn zero() -> Fraction
    ensures { Some result ≡ number_of (pos 0) 1 }
{
    let parts = Parts {
        numerator: 0,
        denominator: 1,
    };
    Fraction::of(parts)
}

/// A tenth of the digit and n/d together. Of a tenth that five does not cancel, the denominator is at least 5 * d.
fn tenth(digit: u128, n: u128, d: u128) -> Option<Fraction>
    requires digit { digit < 10 }
    requires below_one { n < d }
    requires fits { d ≤ max_size }
    requires lowest { gcd n d ≡ 1 }
    ensures { result ≡ number_of (pos (digit * d + n)) (d * 10) }
{
    let rest = digit * (d % 5) + n % 5;
    if rest % 5 == 0 {
        return reduced(false, digit * (d / 5) + n / 5 + rest / 5, 2 * d);
    }
    if d > MAX / 5 {
        return None;
    }
    reduced(false, digit * d + n, d * 10)
}

/// The product and more, where it is small enough.
pub(crate) fn mul_add(a: u128, b: u128, more: u128) -> Option<u128>
    ensures { result ≡ bounded (a * b + more) }
{
    let sum = a.checked_mul(b)?.checked_add(more)?;
    if sum <= MAX { Some(sum) } else { None }
}

/// The value of a digit.
fn digit(byte: u8) -> u128
    requires { IsInRange 48 57 byte }
    ensures value { result ≡ digit_value byte }
    ensures small { result < 10 }
{
    u128::from(byte - b'0')
}
