//! What a token is.

ghost use Rattle.std.specs.Prelude.{◌≡◌};
ghost use Rattle.wi_lexer.specs.Mark.{mark_text};
ghost use Rattle.wi_lexer.specs.Inner.Token as spec;

use crate::brackets::brackets_at;
use crate::mark::mark_at;
use crate::name::name_len;
use crate::number::number_len;
use crate::text::text_len;

/// The kinds of tokens, as in OpenFormula, "Expression Syntax".
#[derive(Clone, Copy, Debug, PartialEq, Eq)]
pub enum Kind {
    /// Digits, optionally a point and digits, or a point and digits; then optionally `e` or `E`, a sign or none, and
    /// digits.
    Number,
    /// `[.CELL]`; `cell_in` tells its cell.
    Reference,
    /// `[.CELL:.CELL]`; `cells_in` tells its cells.
    Rectangle,
    /// An ASCII letter or `_`, then ASCII letters, digits, `_` and points.
    Name,
    /// Anything in double quotes, a quote inside doubled; `text_content` tells what it stands for.
    Text,
    /// An operator, a parenthesis or a semicolon.
    Mark(Mark),
}

/// The marks.
#[derive(Clone, Copy, Debug, PartialEq, Eq)]
pub enum Mark {
    OpenParenthesis,
    CloseParenthesis,
    Plus,
    Minus,
    Asterisk,
    Slash,
    Caret,
    Percent,
    Ampersand,
    Equal,
    NotEqual,
    Less,
    LessOrEqual,
    Greater,
    GreaterOrEqual,
    Semicolon,
}

impl Mark {
    /// The mark as a formula writes it.
    pub fn text(self) -> &'static str
        ensures { result.now ≡ mark_text self }
    {
        match self {
            Mark::OpenParenthesis => "(",
            Mark::CloseParenthesis => ")",
            Mark::Plus => "+",
            Mark::Minus => "-",
            Mark::Asterisk => "*",
            Mark::Slash => "/",
            Mark::Caret => "^",
            Mark::Percent => "%",
            Mark::Ampersand => "&",
            Mark::Equal => "=",
            Mark::NotEqual => "<>",
            Mark::Less => "<",
            Mark::LessOrEqual => "<=",
            Mark::Greater => ">",
            Mark::GreaterOrEqual => ">=",
            Mark::Semicolon => ";",
        }
    }
}

/// The longest token at the front, and its length.
#[tactic(auto, unfolding(crate::specs::Inner::Token::token_at))]
pub(crate) fn token_at(text: &[u8]) -> Option<(Kind, usize)>
    ensures { result ≡ spec.token_at text.now }
{
    let number = number_len(text);
    if number > 0 {
        return Some((Kind::Number, number));
    }
    if let Some(mark) = mark_at(text) {
        return Some((Kind::Mark(mark), mark.text().len()));
    }
    if let Some(found) = brackets_at(text) {
        return Some(found);
    }
    let name = name_len(text);
    if name > 0 {
        return Some((Kind::Name, name));
    }
    let text = text_len(text);
    if text > 0 {
        return Some((Kind::Text, text));
    }
    None
}
