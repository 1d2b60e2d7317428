//! The marks at the front of a text.

ghost use Rattle.std.specs.Prelude.{◌≡◌};
ghost use Rattle.wi_lexer.specs.Inner.Mark as spec;

use crate::runs::byte;
use crate::token::Mark;

#[tactic(auto, unfolding(crate::specs::Inner::Mark::two_byte_mark))]
fn two_byte_mark(first: u8, second: u8) -> Option<Mark>
    ensures { result ≡ spec.two_byte_mark first second }
{
    match (first, second) {
        (b'<', b'>') => Some(Mark::NotEqual),
        (b'<', b'=') => Some(Mark::LessOrEqual),
        (b'>', b'=') => Some(Mark::GreaterOrEqual),
        _ => None,
    }
}

#[tactic(auto, unfolding(crate::specs::Inner::Mark::one_byte_mark))]
fn one_byte_mark(b: u8) -> Option<Mark>
    ensures { result ≡ spec.one_byte_mark b }
{
    match b {
        b'(' => Some(Mark::OpenParenthesis),
        b')' => Some(Mark::CloseParenthesis),
        b'+' => Some(Mark::Plus),
        b'-' => Some(Mark::Minus),
        b'*' => Some(Mark::Asterisk),
        b'/' => Some(Mark::Slash),
        b'^' => Some(Mark::Caret),
        b'%' => Some(Mark::Percent),
        b'&' => Some(Mark::Ampersand),
        b'=' => Some(Mark::Equal),
        b'<' => Some(Mark::Less),
        b'>' => Some(Mark::Greater),
        b';' => Some(Mark::Semicolon),
        _ => None,
    }
}

#[tactic(auto, unfolding(crate::specs::Inner::Mark::mark_at))]
pub(crate) fn mark_at(text: &[u8]) -> Option<Mark>
    ensures { result ≡ spec.mark_at text.now }
{
    let first = byte(text, 0);
    two_byte_mark(first, byte(text, 1)).or(one_byte_mark(first))
}
