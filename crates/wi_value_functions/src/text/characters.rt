//! The characters of a text.

ghost use Rattle.std.specs.Prelude.{◌≡◌, take, drop, length, chars};
ghost use Rattle.wi_value_functions.specs.Inner.Gives.{EndsWith};

/// How many characters a text has. Linear in it.
pub(crate) fn count(text: &str) -> usize
    ensures { result ≡ length (chars text.now) }
{
    text.chars().count()
}

/// The first characters of a text, so many or all. Linear in the text.
pub(crate) fn before(text: &str, count: u128) -> &str
    ensures { chars result.now ≡ take count (chars text.now) }
{
    let (front, _) = text.split_at(text.len() - after(text, count).len());
    front
}

/// What follows so many characters of a text. Linear in the text.
pub(crate) fn after(text: &str, count: u128) -> &str
    ensures back { chars result.now ≡ drop count (chars text.now) }
    ensures whole { EndsWith text.now result.now }
{
    let mut rest = text.chars();
    for _ in 0..count.min(text.len() as u128) {
        rest.next();
    }
    rest.as_str()
}
