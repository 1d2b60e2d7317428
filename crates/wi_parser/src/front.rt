//! How a text begins.

ghost use Rattle.std.specs.Prelude.{◌≡◌, option_map};
ghost use Rattle.wi_parser.specs.Inner.FormulaText as spec;
ghost use Rattle.wi_parser.specs.Inner.FormulaText.{IsFrontOf};

/// What follows a text's prefix, and what follows an `=` there.
#[derive(Drop)]
pub(crate) struct Front<'a> {
    pub plain: &'a str,
    pub body: Option<&'a str>,
}

/// The front of a text, which is looked at once.
pub(crate) fn front_of(text: &str) -> Front<'_>
    ensures { IsFrontOf text.now result }
{
    let plain = after_prefix(text);
    let body = after("=", plain);
    Front { plain, body }
}

/// What follows the front, where the text begins with it.
pub(crate) fn after<'a>(front: &str, text: &'a str) -> Option<&'a str>
    ensures { option_map (λ rest. rest.now) result ≡ spec.after front.now text.now }
{
    text.strip_prefix(front)
}

/// The text after the prefix `of:`, where it begins with it.
fn after_prefix(text: &str) -> &str
    ensures { result.now ≡ spec.after_prefix text.now }
{
    after("of:", text).unwrap_or(text)
}
