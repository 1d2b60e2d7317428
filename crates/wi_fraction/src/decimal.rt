// The exact decimal of any number of places.

ghost use Rattle.std.specs.Prelude.{◌≡◌, ◌+◌, ◌*◌, ◌/◌, ◌%◌, ◌^◌, ◌<◌, ◌≤◌, ◌++◌, OnOk, OnErr, string_bytes};
ghost use Rattle.std.specs.Io.{StartsWith};
ghost use Rattle.wi_fraction.specs.Number.{max_size};
ghost use Rattle.wi_fraction.specs.Text.{places, size_text, padded};
ghost use Rattle.wi_fraction.specs.Decimal.{decimal_text};
ghost use Rattle.wi_fraction.specs.Inner.Signs.{sign_text};

use crate::Fraction;
use crate::division::{divide, remainder};
use crate::text::push_joined;
use crate::words::Parts;
use itoa::Buffer;
use std::alloc::AllocError;

/// A digit of a decimal, and what is left after it.
#[derive(Clone, Copy)]
struct NextDigit {
    digit: u128,
    rest: u128,
}

impl Fraction {
    /// Appends the exact decimal with the fewest places, 126 at most, and without an exponent; n/d where no decimal is
    /// exact. On an error the text is as before.
    #[tactic(auto, unfolding(crate::specs::Decimal::decimal_text))]
    pub fn push_decimal(&self, text: &mut String) -> Result<(), AllocError>
        ensures ok { OnOk result
            (string_bytes text.new ≡ string_bytes text.old ++ decimal_text self.now) }
        ensures err { OnErr result (string_bytes text.new ≡ string_bytes text.old) }
    {
        let Parts {
            numerator: n,
            denominator: d,
        } = self.parts();
        let before = text.as_str().len();
        let pushed = push_exact(n < 0, n.unsigned_abs(), d, text);
        if pushed.is_err() {
            text.truncate(before);
        }
        pushed
    }
}

/// Appends the exact decimal of n/d with that sign. On an error a part of it may be there.
fn push_exact(negative: bool, n: u128, d: u128, text: &mut String) -> Result<(), AllocError>
    requires above_zero { 0 < d }
    requires fits { d ≤ max_size }
    ensures ok { OnOk result (string_bytes text.new
        ≡ string_bytes text.old ++ (sign_text negative ++ size_text (places 126 d) n d)) }
    ensures kept { StartsWith (string_bytes text.new) (string_bytes text.old) }
{
    let mut first = Buffer::new();
    let mut second = Buffer::new();
    match all_places(d) {
        None => push_joined(negative, first.format(n), "/", second.format(d), text),
        Some(0) => push_joined(negative, first.format(n), "", "", text),
        Some(k) => {
            push_joined(negative, first.format(divide(n, d)), ".", "", text)?;
            push_digits(remainder(n, d), d, k, text)
        }
    }
}

/// Appends that many digits of n/d after the point. On an error a part of them may be there.
fn push_digits(n: u128, d: u128, places: u32, text: &mut String) -> Result<(), AllocError>
    requires below_one { n < d }
    requires fits { d ≤ max_size }
    ensures ok { OnOk result
        (string_bytes text.new ≡ string_bytes text.old ++ padded places (n * 10 ^ places / d)) }
    ensures kept { StartsWith (string_bytes text.new) (string_bytes text.old) }
{
    let mut rest = n;
    for i in 0..places {
        let step = tenfold(rest, d);
        let mut buffer = Buffer::new();
        text.push_str(buffer.format(step.digit))?;
        rest = step.rest;
    }
    Ok(())
}

/// The fewest decimal places that write each fraction over d exactly. Of ten to the power k only the remainder is kept.
fn all_places(d: u128) -> Option<u32>
    requires above_zero { 0 < d }
    requires fits { d ≤ max_size }
    ensures { result ≡ places 126 d }
{
    let mut rest = remainder(1, d);
    for k in 0..127 {
        if rest == 0 {
            return Some(k);
        }
        rest = tenfold(rest, d).rest;
    }
    None
}

/// Ten times the rest, divided by d.
fn tenfold(rest: u128, d: u128) -> NextDigit
    requires below { rest < d }
    requires fits { d ≤ max_size }
    ensures digit { result.digit ≡ rest * 10 / d }
    ensures rest { result.rest ≡ rest * 10 % d }
{
    let two = twofold(0, rest, d);
    let four = twofold(two.digit, two.rest, d);
    let sum = four.rest + rest;
    let ten = twofold(four.digit + divide(sum, d), remainder(sum, d), d);
    NextDigit {
        digit: ten.digit,
        rest: ten.rest,
    }
}

/// Twice the whole number and the rest over d.
fn twofold(whole: u128, rest: u128, d: u128) -> NextDigit
    requires below { rest < d }
    requires fits { d ≤ max_size }
    requires small { whole ≤ 4 }
    ensures same { result.digit * d + result.rest ≡ 2 * (whole * d + rest) }
    ensures below { result.rest < d }
    ensures small { result.digit ≤ 2 * whole + 1 }
{
    let twice = 2 * rest;
    NextDigit {
        digit: 2 * whole + divide(twice, d),
        rest: remainder(twice, d),
    }
}
