// The shown text.

ghost use Rattle.std.specs.Prelude.{◌≡◌, ◌+◌, ◌<◌, ◌≤◌, ◌^◌, ◌++◌, OnOk, OnErr, IfSome, string_bytes, length};
ghost use Rattle.wi_fraction.specs.Text.{text_of, places, size_text};
ghost use Rattle.wi_fraction.specs.Inner.Signs.{sign_text};
ghost use Rattle.wi_fraction.specs.Inner.Places.{places_from};

use crate::Fraction;
use crate::division::{divide, remainder};
use crate::words::Parts;
use itoa::Buffer;
use std::alloc::AllocError;

impl Fraction {
    /// Appends the shown text: a whole number in decimal; an exact decimal of at most twelve places, with the fewest
    /// that do; else n/d.
    #[tactic(auto, unfolding(crate::specs::Text::text_of))]
    pub fn push_text(&self, text: &mut String) -> Result<(), AllocError>
        ensures ok { OnOk result
            (string_bytes text.new ≡ string_bytes text.old ++ text_of self.now) }
        ensures err { OnErr result (string_bytes text.new ≡ string_bytes text.old) }
    {
        let Parts {
            numerator: n,
            denominator: d,
        } = self.parts();
        push_parts(n < 0, n.unsigned_abs(), d, text)
    }
}

/// The fewest decimal places, at most twelve, that write each fraction over d exactly.
#[tactic(auto, using(crate::proofs::Places::places_few), unfolding(crate::specs::Text::places, crate::specs::Inner::Places::places_from))]
fn places(d: u128) -> Option<u32>
    requires { 0 < d }
    ensures value { result ≡ places 12 d }
    ensures few { IfSome result (λ k. k ≤ 12) }
{
    places_from(13, 0, 1, d)
}

/// The first number of places from k on, among so many, at which d divides the power of ten.
fn places_from(tries: u32, k: u32, power: u128, d: u128) -> Option<u32>
    requires above_zero { 0 < d }
    requires power { power ≡ 10 ^ k }
    requires few { k + tries ≤ 13 }
    ensures { result ≡ places_from tries k d }
{
    if tries == 0 {
        return None;
    }
    if remainder(power, d) == 0 {
        return Some(k);
    }
    places_from(tries - 1, k + 1, power * 10, d)
}

/// Appends the text of n/d with that sign. On an error the text is as before.
fn push_parts(negative: bool, n: u128, d: u128, text: &mut String) -> Result<(), AllocError>
    requires { 0 < d }
    ensures ok { OnOk result (string_bytes text.new
        ≡ string_bytes text.old ++ (sign_text negative ++ size_text (places 12 d) n d)) }
    ensures err { OnErr result (string_bytes text.new ≡ string_bytes text.old) }
{
    let mut first = Buffer::new();
    let mut second = Buffer::new();
    match places(d) {
        None => push_joined(negative, first.format(n), "/", second.format(d), text),
        Some(0) => push_joined(negative, first.format(divide(n, d)), "", "", text),
        Some(k) => {
            // The digits after the point are those of a number with a one in front, which keeps their zeros.
            let power = 10u128.pow(k);
            let rest = second.format(power + remainder(n, d) * divide(power, d));
            push_joined(negative, first.format(divide(n, d)), ".", &rest[1..], text)
        }
    }
}

/// Appends the sign and the three texts. On an error the text is as before.
pub(crate) fn push_joined(
    negative: bool,
    above: &str,
    mark: &str,
    below: &str,
    text: &mut String,
) -> Result<(), AllocError>
    requires { length above.now + length mark.now + length below.now < 200 }
    ensures ok { OnOk result (string_bytes text.new
        ≡ string_bytes text.old ++ (sign_text negative ++ (above.now ++ (mark.now ++ below.now)))) }
    ensures err { OnErr result (string_bytes text.new ≡ string_bytes text.old) }
{
    let sign = if negative { "-" } else { "" };
    text.reserve(sign.len() + above.len() + mark.len() + below.len())?;
    text.push_str(sign)?;
    text.push_str(above)?;
    text.push_str(mark)?;
    text.push_str(below)?;
    Ok(())
}
