// Reading texts and number tokens.

ghost use Rattle.std.specs.Prelude.{◌≡◌, ◌*◌, ◌^◌, ◌<◌, ◌≤◌, pos, length, IsTrue, []};
ghost use Rattle.std.specs.Char.{is_ascii_digit};
ghost use Rattle.std.specs.List.{prefix_len};
ghost use Rattle.std.specs.Str.Parse.{AllDigits, digits_value};
ghost use Rattle.wi_fraction.specs.Gcd.{gcd};
ghost use Rattle.wi_fraction.specs.Number.{max_size, number_of};
ghost use Rattle.wi_fraction.specs.Inner.Bounds.{bounded};
ghost use Rattle.wi_fraction.specs.Inner.Reading.{read, read_size, read_after, read_quotient, read_decimal, decimal_after, point_after, scaled_after, exponent_after, with_exponent, raised, lowered, decimal_value, is_numeral};

use crate::arithmetic::multiplied;
use crate::digits::{Digits, mul_add, zero};
use crate::lowest_terms::{number_at, reduced};
use crate::{Fraction, MAX};

impl Fraction {
    /// The number that a text spells: an optional sign, then digits, a decimal with a digit before the point, or two
    /// whole numbers with a `/` between. A decimal may have any number of digits; its value counts in lowest terms.
    #[tactic(auto, unfolding(crate::specs::Inner::Reading::read))]
    pub fn read(text: &[u8]) -> Option<Fraction>
        ensures { result ≡ read text.now }
    {
        match text {
            [b'-', size @ ..] => read_size(true, size),
            [b'+', size @ ..] => read_size(false, size),
            size => read_size(false, size),
        }
    }

    /// The number that a number token spells: digits, or a decimal, before whose point no digit need stand; then, where
    /// one is, an exponent: `e` or `E`, an optional sign and digits. Neither digits nor exponent need fit where the
    /// number does. Takes time in proportion to the text, whatever the exponent.
    #[tactic(auto, unfolding(crate::specs::Inner::Reading::read_decimal))]
    pub fn read_decimal(token: &[u8]) -> Option<Fraction>
        ensures { result ≡ read_decimal token.now }
    {
        let count = digit_count(token);
        decimal_after(&token[..count], &token[count..])
    }
}

/// What a text without its sign reads as.
#[tactic(auto, unfolding(crate::specs::Inner::Reading::read_size))]
fn read_size(negative: bool, text: &[u8]) -> Option<Fraction>
    ensures { result ≡ read_size negative text.now }
{
    let count = digit_count(text);
    if count == 0 {
        return None;
    }
    read_after(negative, &text[..count], &text[count..])
}

/// What the digits and the rest of a text read as.
#[tactic(auto, unfolding(crate::specs::Inner::Reading::read_after))]
fn read_after(negative: bool, whole: &[u8], rest: &[u8]) -> Option<Fraction>
    requires { AllDigits 10 whole.now }
    ensures { result ≡ read_after negative whole.now rest.now }
{
    let [mark, more @ ..] = rest else {
        return without_point(negative, whole);
    };
    if !is_numeral(more) {
        return None;
    }
    match *mark {
        b'.' => decimal(negative, &Digits::alone(whole), &Digits::alone(more)),
        b'/' => quotient(negative, whole, more),
        _ => None,
    }
}

/// What the digits and the rest of a number token read as.
#[tactic(auto, unfolding(crate::specs::Inner::Reading::decimal_after))]
fn decimal_after(whole: &[u8], rest: &[u8]) -> Option<Fraction>
    requires { AllDigits 10 whole.now }
    ensures { result ≡ decimal_after whole.now rest.now }
{
    let [mark, more @ ..] = rest else {
        return if whole.is_empty() {
            None
        } else {
            without_point(false, whole)
        };
    };
    if *mark == b'.' {
        return point_after(whole, more);
    }
    if whole.is_empty() {
        return None;
    }
    scaled_after(whole, &[], rest)
}

/// What the digits before a point and the rest of a number token after it read as.
#[tactic(auto, unfolding(crate::specs::Inner::Reading::point_after))]
fn point_after(whole: &[u8], text: &[u8]) -> Option<Fraction>
    requires { AllDigits 10 whole.now }
    ensures { result ≡ point_after whole.now text.now }
{
    let places = digit_count(text);
    if places == 0 {
        return None;
    }
    scaled_after(whole, &text[..places], &text[places..])
}

/// What the digits before and after the point and the rest of a number token read as.
#[tactic(auto, unfolding(crate::specs::Inner::Reading::scaled_after))]
fn scaled_after(whole: &[u8], parts: &[u8], rest: &[u8]) -> Option<Fraction>
    requires whole { AllDigits 10 whole.now }
    requires parts { AllDigits 10 parts.now }
    ensures { result ≡ scaled_after whole.now parts.now rest.now }
{
    let [mark, more @ ..] = rest else {
        return decimal(false, &Digits::alone(whole), &Digits::alone(parts));
    };
    if *mark != b'e' && *mark != b'E' {
        return None;
    }
    exponent_after(whole, parts, more)
}

/// The decimal with the exponent that the text spells.
#[tactic(auto, unfolding(crate::specs::Inner::Reading::exponent_after))]
fn exponent_after(whole: &[u8], parts: &[u8], text: &[u8]) -> Option<Fraction>
    requires whole { AllDigits 10 whole.now }
    requires parts { AllDigits 10 parts.now }
    ensures { result ≡ exponent_after whole.now parts.now text.now }
{
    match text {
        [b'-', digits @ ..] => with_exponent(true, whole, parts, digits),
        [b'+', digits @ ..] => with_exponent(false, whole, parts, digits),
        digits => with_exponent(false, whole, parts, digits),
    }
}

/// The decimal with the exponent that the digits write.
#[tactic(auto, unfolding(crate::specs::Inner::Reading::with_exponent))]
fn with_exponent(negative: bool, whole: &[u8], parts: &[u8], digits: &[u8]) -> Option<Fraction>
    requires whole { AllDigits 10 whole.now }
    requires parts { AllDigits 10 parts.now }
    ensures { result ≡ with_exponent negative whole.now parts.now digits.now }
{
    if !is_numeral(digits) {
        return None;
    }
    let power = exponent(digits);
    if negative {
        lowered(whole, parts, power)
    } else {
        raised(whole, parts, power)
    }
}

/// The exponent that the digits write, or the greatest where it is larger.
fn exponent(digits: &[u8]) -> u128
    requires { AllDigits 10 digits.now }
    ensures exact { digits_value 10 digits.now ≤ max_size → result ≡ digits_value 10 digits.now }
    ensures large { max_size < digits_value 10 digits.now → max_size ≤ result }
{
    whole_number(digits).unwrap_or(MAX)
}

/// The decimal times that power of ten.
fn raised(whole: &[u8], parts: &[u8], power: u128) -> Option<Fraction>
    requires whole { AllDigits 10 whole.now }
    requires parts { AllDigits 10 parts.now }
    ensures { result ≡ raised whole.now parts.now power }
{
    let places = parts.len() as u128;
    if power < places {
        let place = power as usize;
        return decimal(
            false,
            &Digits::joined(whole, &parts[..place]),
            &Digits::alone(&parts[place..]),
        );
    }
    let number = Digits::joined(whole, parts).whole_number()?;
    let size = raised_size(number, power - places)?;
    number_at(false, size, 1)
}

/// The whole number times that power of ten, where it is small enough.
fn raised_size(size: u128, power: u128) -> Option<u128>
    requires { size ≤ max_size }
    ensures { result ≡ bounded (size * 10 ^ power) }
{
    if size == 0 {
        return Some(0);
    }
    if power > 38 {
        return None;
    }
    mul_add(size, 10u128.pow(power as u32), 0)
}

/// The decimal divided by that power of ten.
fn lowered(whole: &[u8], parts: &[u8], power: u128) -> Option<Fraction>
    requires whole { AllDigits 10 whole.now }
    requires parts { AllDigits 10 parts.now }
    ensures { result ≡ lowered whole.now parts.now power }
{
    let places = whole.len() as u128;
    if power <= places {
        let place = (places - power) as usize;
        return decimal(
            false,
            &Digits::alone(&whole[..place]),
            &Digits::joined(&whole[place..], parts),
        );
    }
    let part = Digits::joined(whole, parts).decimal_part()?;
    lowered_part(part.size(), part.denominator(), power - places)
}

/// n/d, which is below one, that many places lower.
fn lowered_part(n: u128, d: u128, places: u128) -> Option<Fraction>
    requires below_one { n < d }
    requires fits { d ≤ max_size }
    requires lowest { gcd n d ≡ 1 }
    ensures { result ≡ number_of (pos n) (d * 10 ^ places) }
{
    if n == 0 {
        return Some(zero());
    }
    if places > 38 {
        return None;
    }
    multiplied(false, n, d, 1, 10u128.pow(places as u32))
}

/// The quotient of the whole numbers that the digits write.
fn quotient(negative: bool, above: &[u8], below: &[u8]) -> Option<Fraction>
    requires above { AllDigits 10 above.now }
    requires below { AllDigits 10 below.now }
    ensures { result
        ≡ read_quotient negative (digits_value 10 above.now) (digits_value 10 below.now) }
{
    let size = whole_number(above)?;
    let denominator = whole_number(below)?;
    if denominator == 0 {
        return None;
    }
    reduced(negative, size, denominator)
}

/// The number that digits without a point write.
fn without_point(negative: bool, digits: &[u8]) -> Option<Fraction>
    requires { AllDigits 10 digits.now }
    ensures { result ≡ decimal_value negative digits.now [] }
{
    number_at(negative, whole_number(digits)?, 1)
}

/// The decimal with those digits before and after the point.
fn decimal(negative: bool, whole: &Digits<'_>, parts: &Digits<'_>) -> Option<Fraction>
    requires whole { AllDigits 10 whole.now }
    requires parts { AllDigits 10 parts.now }
    ensures { result ≡ decimal_value negative whole.now parts.now }
{
    let part = parts.decimal_part()?;
    let number = whole.whole_number()?;
    let denominator = part.denominator();
    let size = mul_add(number, denominator, part.size())?;
    number_at(negative, size, denominator)
}

/// The whole number that the digits write, where it is small enough.
fn whole_number(digits: &[u8]) -> Option<u128>
    requires { AllDigits 10 digits.now }
    ensures { result ≡ bounded (digits_value 10 digits.now) }
{
    Digits::alone(digits).whole_number()
}

/// How many digits the text begins with.
fn digit_count(text: &[u8]) -> usize
    ensures value { result ≡ prefix_len is_ascii_digit text.now }
    ensures within { result ≤ length text.now }
{
    text.iter().take_while(|byte| byte.is_ascii_digit()).count()
}

/// Whether the text is one digit or more, and nothing else.
#[tactic(auto, using(crate::proofs::Scanning::count_all, crate::proofs::Scanning::digits_from_count))]
fn is_numeral(text: &[u8]) -> bool
    ensures value { result ≡ is_numeral text.now }
    ensures digits { IsTrue result → AllDigits 10 text.now }
{
    !text.is_empty() && digit_count(text) == text.len()
}
