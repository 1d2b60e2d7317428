//! References to one cell.

ghost use Rattle.std.specs.Prelude.{◌≡◌, Some};
ghost use Rattle.wi_lexer.specs.Inner.Cell.{parts};
ghost use Rattle.wi_lexer.specs.Inner.Reference as spec;
ghost use Rattle.wi_lexer.specs.Reference.{IsReference};

use crate::cell::{CellText, cut};

/// The cell of a text that is known to be a reference. Of its bytes it looks at the letters alone.
#[tactic(auto, using(crate::proofs::ReferenceLemmas::reference_long))]
pub fn cell_in(text: &[u8]) -> CellText<'_>
    requires { IsReference text.now }
    ensures { spec.reference_of text.now ≡ Some (parts result) }
{
    cut(&text[2..text.len() - 1])
}
