//! The occupied cells of a rectangle, one after another.

ghost use Rattle.std.specs.Prelude.{◌≡◌, ◌∷◌, [], ℕ, Some, true, false, IfSome, IfNone, nat_le};
ghost use Rattle.wi_values.specs.Address.{is_within, is_within_one};
ghost use Rattle.wi_sheet.specs.Inner.ReadCells.{cells_after, is_after};

use wi_arguments::successor;
use wi_store::Store;
use wi_values::{Address, Rect};

/// The first occupied cell of a rectangle after the one looked at last. It takes a search among the tiles of each 16
/// rows up to it in which something stands.
pub(crate) fn next_within(store: &Store, area: Rect, after: Option<Address>) -> Option<Address>
    ensures some { IfSome result (λ c. cells_after store.now.sheet area after
        ≡ c ∷ cells_after store.now.sheet area (Some c)) }
    ensures none { IfNone result (cells_after store.now.sheet area after ≡ []) }
{
    store.cells_stand_in_order();
    let from = first_after(area, after)?;
    store.next_occupied(area, from)
}

/// Whether a cell is in one of these rectangles.
pub(crate) fn is_in_one(at: Address, rectangles: &[Rect]) -> bool
    ensures { result ≡ is_within_one rectangles.now at }
{
    rectangles.iter().any(|rectangle| rectangle.contains(at))
}

/// From where on the cells of a rectangle come after the one looked at last, if any of them does.
fn first_after(area: Rect, after: Option<Address>) -> Option<Address>
    ensures some { IfSome result (λ from. (a : ℕ) → is_within area a ≡ true
        → is_after after a ≡ nat_le from a) }
    ensures none { IfNone result ((a : ℕ) → is_within area a ≡ true → is_after after a ≡ false) }
{
    match after {
        None => Some(area.first()),
        Some(cell) => successor(cell, area.last()),
    }
}
