//! The words of a line.

ghost use Rattle.std.specs.Prelude.{◌≡◌, ◌≤◌, length, true, false, MatchResult};
ghost use Rattle.std.specs.List.{prefix_len, position_or_len};
ghost use Rattle.wi_scenarios.specs.declared.refusal.Refusal.TheVariants.{BadCommand};
ghost use Rattle.wi_cli.specs.Lines.{is_space, skip_spaces, first_word, after_word};
ghost use Rattle.wi_cli.specs.Inner.Operands.{is_all_spaces};

use wi_scenarios::Refusal;

/// How many spaces stand at the front.
fn spaces_len(bytes: &[u8]) -> usize
    ensures value { result ≡ prefix_len is_space bytes.now }
    ensures within { result ≤ length bytes.now }
{
    bytes.iter().take_while(|byte| **byte == b' ').count()
}

/// How many bytes stand before the first space.
fn word_len(bytes: &[u8]) -> usize
    ensures value { result ≡ position_or_len is_space bytes.now }
    ensures within { result ≤ length bytes.now }
{
    bytes.iter().take_while(|byte| **byte != b' ').count()
}

/// The bytes without the spaces that they begin with.
#[tactic(auto, using(crate::proofs::WordLemmas::spaces_off))]
fn skip_spaces(bytes: &[u8]) -> &[u8]
    ensures { result.now ≡ skip_spaces bytes.now }
{
    &bytes[spaces_len(bytes)..]
}

/// The text without the spaces that it begins with.
fn trim_spaces(text: &str) -> &str
    ensures { result.now ≡ skip_spaces text.now }
{
    text.trim_start_matches(' ')
}

/// The first word of bytes that need not be UTF-8, and all that stands after the one space that follows it.
pub(crate) fn split_bytes(bytes: &[u8]) -> (&[u8], &[u8])
    ensures word { result.0.now ≡ first_word bytes.now }
    ensures rest { result.1.now ≡ after_word bytes.now }
{
    let bytes = skip_spaces(bytes);
    let (word, rest) = bytes.split_at(word_len(bytes));
    match rest.split_first() {
        Some((_, rest)) => (word, rest),
        None => (word, rest),
    }
}

/// The first word, and all that stands after the one space that follows it.
pub(crate) fn split_word(text: &str) -> (&str, &str)
    ensures word { result.0.now ≡ first_word text.now }
    ensures rest { result.1.now ≡ after_word text.now }
{
    let text = trim_spaces(text);
    let (word, rest) = text.split_at(word_len(text.as_bytes()));
    match rest.strip_prefix(' ') {
        Some(rest) => (word, rest),
        None => (word, rest),
    }
}

/// Whether no word is there.
pub(crate) fn is_all_spaces(bytes: &[u8]) -> bool
    ensures { result ≡ is_all_spaces bytes.now }
{
    bytes.iter().all(|byte| *byte == b' ')
}

/// The only word.
pub(crate) fn only_word(words: &str) -> Result<&str, Refusal>
    ensures { MatchResult result
        (λ word. (is_all_spaces (after_word words.now) ≡ true) × (word.now ≡ first_word words.now))
        (λ e. (is_all_spaces (after_word words.now) ≡ false) × (e ≡ BadCommand)) }
{
    let (word, more) = split_word(words);
    if !is_all_spaces(more.as_bytes()) {
        return Err(Refusal::BadCommand);
    }
    Ok(word)
}
