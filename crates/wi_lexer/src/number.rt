//! Where a number ends.

ghost use Rattle.std.specs.Prelude.{◌≡◌, length, ◌≤◌};
ghost use Rattle.wi_fraction.specs.Inner.Signs.{is_exponent_letter};
ghost use Rattle.wi_lexer.specs.Inner.Number as reader;

use crate::runs::{byte, digits_len};

#[tactic(auto, unfolding(crate::specs::Inner::Number::decimals_len))]
fn decimals_len(text: &[u8]) -> usize
    ensures value { result ≡ reader.decimals_len text.now }
    ensures within { result ≤ length text.now }
{
    if byte(text, 0) != b'.' {
        return 0;
    }
    let digits = digits_len(&text[1..]);
    if digits == 0 {
        return 0;
    }
    1 + digits
}

#[tactic(auto, unfolding(crate::specs::Inner::Number::decimal_len))]
fn decimal_len(text: &[u8]) -> usize
    ensures value { result ≡ reader.decimal_len text.now }
    ensures within { result ≤ length text.now }
{
    let digits = digits_len(text);
    digits + decimals_len(&text[digits..])
}

fn is_exponent_letter(b: u8) -> bool
    ensures { result ≡ is_exponent_letter b }
{
    b == b'e' || b == b'E'
}

fn is_sign_byte(b: u8) -> bool
    ensures { result ≡ reader.is_sign_byte b }
{
    b == b'+' || b == b'-'
}

#[tactic(auto, unfolding(crate::specs::Inner::Number::signed_len))]
fn signed_len(text: &[u8]) -> usize
    ensures value { result ≡ reader.signed_len text.now }
    ensures within { result ≤ length text.now }
{
    if !is_sign_byte(byte(text, 0)) {
        return digits_len(text);
    }
    let digits = digits_len(&text[1..]);
    if digits > 0 { 1 + digits } else { 0 }
}

#[tactic(auto, unfolding(crate::specs::Inner::Number::exponent_len))]
fn exponent_len(text: &[u8]) -> usize
    ensures value { result ≡ reader.exponent_len text.now }
    ensures within { result ≤ length text.now }
{
    if !is_exponent_letter(byte(text, 0)) {
        return 0;
    }
    let signed = signed_len(&text[1..]);
    if signed > 0 { 1 + signed } else { 0 }
}

#[tactic(auto, unfolding(crate::specs::Inner::Number::number_len))]
pub(crate) fn number_len(text: &[u8]) -> usize
    ensures value { result ≡ reader.number_len text.now }
    ensures within { result ≤ length text.now }
{
    let decimal = decimal_len(text);
    if decimal == 0 {
        return 0;
    }
    decimal + exponent_len(&text[decimal..])
}
