//! References to a rectangle.

ghost use Rattle.std.specs.Prelude.{◌≡◌, Some};
ghost use Rattle.wi_lexer.specs.Inner.Rectangle as spec;
ghost use Rattle.wi_lexer.specs.Rectangle.{IsRectangle};

use crate::cell::{CellText, cut};
use crate::runs::before_colon_len;

/// The cells of a text that is known to be a reference to a rectangle. Of its bytes it looks at those up to the colon,
/// and at the letters behind it.
#[tactic(auto, using(crate::proofs::RectangleLemmas::rectangle_long))]
pub fn cells_in(text: &[u8]) -> (CellText<'_>, CellText<'_>)
    requires { IsRectangle text.now }
    ensures { spec.rectangle_of text.now ≡ Some (spec.parts_of_both result) }
{
    let inside = &text[2..text.len() - 1];
    let (first, rest) = inside.split_at(before_colon_len(inside));
    let (_colon, second) = rest.split_at(2);
    (cut(first), cut(second))
}
