//! Runs of bytes at the front of a text.

ghost use Rattle.std.specs.Prelude.{◌≡◌, length, slice_index, ◌<◌, ◌≤◌};
ghost use Rattle.wi_lexer.specs.Runs as spec;
ghost use Rattle.wi_lexer.specs.Inner.Runs as reader;

fn is_blank(b: u8) -> bool
    ensures { result ≡ spec.is_blank b }
{
    b == b' ' || b == b'\t' || b == b'\r' || b == b'\n'
}

#[tactic(auto, using(crate::proofs::RunLemmas::run_within))]
pub(crate) fn blanks_len(text: &[u8]) -> usize
    ensures value { result ≡ spec.blanks_len text.now }
    ensures within { result ≤ length text.now }
{
    text.iter().take_while(|b| is_blank(**b)).count()
}

#[tactic(auto, using(crate::proofs::RunLemmas::run_within))]
pub(crate) fn digits_len(text: &[u8]) -> usize
    ensures value { result ≡ reader.digits_len text.now }
    ensures within { result ≤ length text.now }
{
    text.iter().take_while(|b| b.is_ascii_digit()).count()
}

#[tactic(auto, using(crate::proofs::RunLemmas::run_within))]
pub(crate) fn letters_len(text: &[u8]) -> usize
    ensures value { result ≡ reader.letters_len text.now }
    ensures within { result ≤ length text.now }
{
    text.iter().take_while(|b| b.is_ascii_alphabetic()).count()
}

#[tactic(auto, using(crate::proofs::RunLemmas::run_within))]
pub(crate) fn before_colon_len(text: &[u8]) -> usize
    ensures value { result ≡ reader.before_colon_len text.now }
    ensures within { result ≤ length text.now }
{
    text.iter().take_while(|b| **b != b':').count()
}

/// The byte there, or 0 past the end.
pub(crate) fn byte(text: &[u8], at: usize) -> u8
    ensures value { result ≡ slice_index text.now at }
    ensures within { 0 < result → at < length text.now }
{
    if at < text.len() { text[at] } else { 0 }
}
