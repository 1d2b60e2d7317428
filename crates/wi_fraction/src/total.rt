//! A sum that is put in lowest terms where it is told.

ghost use Rattle.std.specs.Prelude.{◌≡◌, OnOk, OnErr, IfErr, IfSome, Some, None};
ghost use Rattle.wi_fraction.specs.Arithmetic.{sum_of};
ghost use Rattle.wi_fraction.specs.Inner.Totals.{AreParts, IsSumOver};

use crate::arithmetic::{scaled, short_product, small_total, total, total_with_small};
use crate::division::{divide, remainder, small_quotient};
use crate::lowest_terms::reduced;
use crate::words::{Parts, Signed, Unsigned};
use crate::{Fraction, FractionError};
use std::marker::Model;

/// A sum of numbers, seen as the number that it is. It is kept over a denominator that needn't be the least: a number
/// whose own denominator divides that is added without a common divisor.
#[derive(Drop)]
pub struct Total {
    numerator: Signed,
    denominator: Unsigned,
}

impl Model for Total {
    ghost use Rattle.wi_fraction.specs.Number.{Number};
    ghost use Rattle.wi_fraction.specs.Number.Laws.{number_code};
    ghost use Rattle.wi_fraction.specs.Inner.Totals.{number_over, AreParts};

    ghost Value = { Number };

    ghost coded = { number_code };

    ghost view = { λ t. number_over t.numerator t.denominator };

    ghost invariant = { λ t. AreParts t.numerator t.denominator };
}

impl Total {
    /// A number, to which others may be added.
    pub fn of(number: Fraction) -> Total
        ensures { result ≡ number }
    {
        let Parts {
            numerator,
            denominator,
        } = number.parts();
        Total {
            numerator: Signed::new(numerator),
            denominator: Unsigned::new(denominator),
        }
    }

    /// Adds a number. It overflows where the sum does, as `Fraction::checked_add` has it, and is as before then.
    #[inline(always)]
    pub fn add(&mut self, other: &Fraction) -> Result<(), FractionError>
        ensures ok { OnOk result (sum_of self.old other.now ≡ Some self.new) }
        ensures overflow { IfErr result (λ e. e ≡ FractionError.Overflow) }
        ensures err { OnErr result (sum_of self.old other.now ≡ None) }
        ensures same { OnErr result (self.new ≡ self.old) }
    {
        match small_sum(self.numerator.get(), self.denominator.get(), other) {
            Some(numerator) => {
                self.numerator = Signed::new(numerator);
                Ok(())
            }
            None => self.add_any(other),
        }
    }

    /// As `add`, of any number. It stands apart, so that a small one over the same denominator is added at once.
    #[inline(never)]
    fn add_any(&mut self, other: &Fraction) -> Result<(), FractionError>
        ensures ok { OnOk result (sum_of self.old other.now ≡ Some self.new) }
        ensures overflow { IfErr result (λ e. e ≡ FractionError.Overflow) }
        ensures err { OnErr result (sum_of self.old other.now ≡ None) }
        ensures same { OnErr result (self.new ≡ self.old) }
    {
        match small_scaled_sum(self.numerator.get(), self.denominator.get(), other) {
            Some(numerator) => {
                self.numerator = Signed::new(numerator);
                Ok(())
            }
            None => self.add_large(other),
        }
    }

    /// As `add`, of any number, without the quick ways of small ones.
    #[inline(never)]
    fn add_large(&mut self, other: &Fraction) -> Result<(), FractionError>
        ensures ok { OnOk result (sum_of self.old other.now ≡ Some self.new) }
        ensures overflow { IfErr result (λ e. e ≡ FractionError.Overflow) }
        ensures err { OnErr result (sum_of self.old other.now ≡ None) }
        ensures same { OnErr result (self.new ≡ self.old) }
    {
        match numerator_with(self.numerator.get(), self.denominator.get(), other) {
            Some(numerator) => {
                self.numerator = Signed::new(numerator);
                Ok(())
            }
            None => self.add_apart(other),
        }
    }

    /// Adds a number over the least common multiple of the denominators.
    #[inline(never)]
    fn add_apart(&mut self, other: &Fraction) -> Result<(), FractionError>
        ensures ok { OnOk result (sum_of self.old other.now ≡ Some self.new) }
        ensures overflow { IfErr result (λ e. e ≡ FractionError.Overflow) }
        ensures err { OnErr result (sum_of self.old other.now ≡ None) }
        ensures same { OnErr result (self.new ≡ self.old) }
    {
        let sum = self.number().checked_add(*other)?;
        *self = Total::of(sum);
        Ok(())
    }

    /// The sum.
    pub fn number(&self) -> Fraction
        ensures { result ≡ self.now }
    {
        let numerator = self.numerator.get();
        reduced(
            numerator < 0,
            numerator.unsigned_abs(),
            self.denominator.get(),
        )
        .unwrap_or(Fraction::small(0))
    }
}

/// The numerator of the sum of n/d and a number, over d, where that is the number's denominator too and both numerators
/// are small.
#[inline(always)]
fn small_sum(n: i128, d: u128, other: &Fraction) -> Option<i128>
    requires { AreParts n d }
    ensures { IfSome result (λ m. IsSumOver n d other.now m) }
{
    let Parts {
        numerator,
        denominator,
    } = other.parts();
    if denominator == d {
        small_total(n, numerator)
    } else {
        None
    }
}

/// The numerator of the sum of n/d and a number, over d, where the number's denominator divides d and all parts are
/// small: found with one division.
#[inline(always)]
fn small_scaled_sum(n: i128, d: u128, other: &Fraction) -> Option<i128>
    requires { AreParts n d }
    ensures { IfSome result (λ m. IsSumOver n d other.now m) }
{
    let Parts {
        numerator,
        denominator,
    } = other.parts();
    let by = small_quotient(d, denominator)?;
    total_with_small(n, short_product(numerator, i128::from(by))?)
}

/// The numerator of the sum of n/d and a number, over d, where the number's denominator divides d and no part of it is
/// too large.
fn numerator_with(n: i128, d: u128, other: &Fraction) -> Option<i128>
    requires { AreParts n d }
    ensures { IfSome result (λ m. IsSumOver n d other.now m) }
{
    let Parts {
        numerator,
        denominator,
    } = other.parts();
    if denominator == d {
        total(n, numerator)
    } else {
        scaled_with(n, d, other)
    }
}

/// As `numerator_with`, where the denominators differ.
#[inline(never)]
fn scaled_with(n: i128, d: u128, other: &Fraction) -> Option<i128>
    requires { AreParts n d }
    ensures { IfSome result (λ m. IsSumOver n d other.now m) }
{
    let Parts {
        numerator,
        denominator,
    } = other.parts();
    if remainder(d, denominator) != 0 {
        return None;
    }
    total(n, scaled(numerator, divide(d, denominator))?)
}
