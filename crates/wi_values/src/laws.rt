//! Laws of the definitions and of equality. The contract of each function is the law.

ghost use Rattle.std.specs.Prelude.{◌≡◌, ◌↔◌, ℕ, List, Option, IsTrue};
ghost use Rattle.wi_values.specs.Inner.Import.{imported};
ghost use Rattle.wi_values.specs.Imported.{IsImported};
ghost use Rattle.wi_values.specs.Laws.{AddressesReadBack, CornersMayTurn, NumbersReadBack};
ghost use Rattle.wi_values.specs.declared.value.Value.{Value};

use crate::replacement::Replacement;
use crate::value::Value;

/// The text of each cell's address reads back to that address.
#[tactic(auto, using(crate::proofs::ReadsBack::addresses_read_back))]
pub fn addresses_read_back()
    ensures { AddressesReadBack }
{}

/// The corners of a rectangle may stand in any order.
#[tactic(auto, using(crate::proofs::Corners::corners_may_turn))]
pub fn corners_may_turn()
    ensures { CornersMayTurn }
{}

/// The shown text of each number is taken for that number.
#[tactic(auto, using(crate::proofs::Fields::numbers_read_back))]
pub fn numbers_read_back()
    ensures { NumbersReadBack }
{}

/// Each text is taken for one thing: for the number or truth value that it spells, and else for a text, or for nothing
/// where it is too long.
pub fn what_a_text_is_taken_for()
    ensures { (text : List ℕ) (o : Option Value) → IsImported text o ↔ (imported text ≡ o) }
{}

/// Values are equal exactly where they are one value.
pub fn equal_values_are_one(a: &Value, b: &Value) -> bool
    ensures { IsTrue result ↔ (a.now ≡ b.now) }
{
    *a == *b
}

/// Replacements are equal exactly where they are one replacement.
pub fn equal_replacements_are_one(a: &Replacement, b: &Replacement) -> bool
    ensures { IsTrue result ↔ (a.now ≡ b.now) }
{
    *a == *b
}
