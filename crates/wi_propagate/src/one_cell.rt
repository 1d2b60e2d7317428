//! Edits of one cell.

ghost use Rattle.std.specs.Prelude.{◌≡◌, ◌∷◌, [], None, false, IsTrue, IfSome};
ghost use Rattle.std.specs.Map.{keys_of};
ghost use Rattle.wi_parser.specs.Sheet.{content_of};
ghost use Rattle.wi_graph.specs.Edges.{Edges, AreEdgesOf, areas_in, sheet_after};

use wi_parser::{Content, NewContent};
use wi_store::Store;
use wi_values::Address;

/// The cell of an edit of one cell.
#[inline(always)]
pub(crate) fn only_cell(changes: &[NewContent]) -> Option<Address>
    ensures { IfSome result (λ cell. keys_of changes.now ≡ cell ∷ []) }
{
    if changes.len() != 1 {
        return None;
    }
    let change = &changes[0];
    Some(change.0)
}

/// Whether an edit is of one cell, which has no formula and gets none: each cell reads the same after it.
#[inline(always)]
pub(crate) fn is_without_formulas(store: &Store, changes: &[NewContent]) -> bool
    ensures { IsTrue result → (es : Edges) → AreEdgesOf es store.now.sheet
        → AreEdgesOf es (sheet_after store.now.sheet changes.now) }
{
    if changes.len() != 1 {
        return false;
    }
    let change = &changes[0];
    if brings_formula(&change.1) {
        return false;
    }
    if has_formula(store, change.0) {
        return false;
    }
    true
}

/// Whether a cell gets a formula.
fn brings_formula(content: &Option<Content>) -> bool
    ensures { result ≡ false → areas_in content.now ≡ None }
{
    match content {
        Some(Content::Formula(_)) => true,
        _ => false,
    }
}

/// Whether a cell has a formula.
fn has_formula(store: &Store, cell: Address) -> bool
    ensures { result ≡ false → areas_in (content_of store.now.sheet cell) ≡ None }
{
    match store.get(cell) {
        Some(Content::Formula(_)) => true,
        _ => false,
    }
}
