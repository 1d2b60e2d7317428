//! References in brackets at the front of a text.

ghost use Rattle.std.specs.Prelude.{◌≡◌, ◌≤◌, length};
ghost use Rattle.wi_lexer.specs.Inner.Reference.{first_len};
ghost use Rattle.wi_lexer.specs.Inner.Rectangle.{second_len};
ghost use Rattle.wi_lexer.specs.Inner.Token as spec;

use crate::cell::cell_len;
use crate::runs::byte;
use crate::token::Kind;

/// The length of `[.CELL` at the front, or 0 where it doesn't stand there.
#[tactic(auto, unfolding(crate::specs::Inner::Reference::first_len))]
fn first_len(text: &[u8]) -> usize
    ensures value { result ≡ first_len text.now }
    ensures within { result ≤ length text.now }
{
    if byte(text, 0) != b'[' || byte(text, 1) != b'.' {
        return 0;
    }
    let cell = cell_len(&text[2..]);
    if cell > 0 { 2 + cell } else { 0 }
}

/// The length of `:.CELL]` at the front, or 0 where it doesn't stand there.
#[tactic(auto, unfolding(crate::specs::Inner::Rectangle::second_len))]
fn second_len(text: &[u8]) -> usize
    ensures value { result ≡ second_len text.now }
    ensures within { result ≤ length text.now }
{
    if byte(text, 0) != b':' || byte(text, 1) != b'.' {
        return 0;
    }
    let cell = cell_len(&text[2..]);
    if cell == 0 {
        return 0;
    }
    if byte(&text[2 + cell..], 0) == b']' {
        3 + cell
    } else {
        0
    }
}

/// The reference at the front, to a cell or to a rectangle, and its length. Its bytes are looked at once.
#[tactic(auto, unfolding(crate::specs::Inner::Reference::reference_len, crate::specs::Inner::Rectangle::rectangle_len))]
pub(crate) fn brackets_at(text: &[u8]) -> Option<(Kind, usize)>
    ensures { result ≡ spec.brackets_at text.now }
{
    let first = first_len(text);
    if first == 0 {
        return None;
    }
    let rest = &text[first..];
    if byte(rest, 0) == b']' {
        return Some((Kind::Reference, first + 1));
    }
    let second = second_len(rest);
    if second == 0 {
        return None;
    }
    Some((Kind::Rectangle, first + second))
}
