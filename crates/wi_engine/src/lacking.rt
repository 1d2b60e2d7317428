//! The cells whose values a frame lacks.

ghost use Rattle.std.specs.Prelude.{◌≡◌, ◌∷◌, [], ◌-◌, IfOk, IfSome, IfNone, take};
ghost use Rattle.wi_engine.specs.Inner.Attempt.{lacks_cell, lacking_after};

use crate::content_ref::formula_in;
use crate::frame::Frame;
use crate::occupied::next_within;
use std::alloc::{AllocError, Global};
use wi_store::Store;
use wi_values::{Address, Rect};

/// Whether a frame lacks the value of a cell: it has a formula under the frame's replacements, and was not found.
pub(crate) fn is_lacking(store: &Store, frame: &Frame, at: Address) -> bool
    ensures { result ≡ lacks_cell store.now.sheet frame.now.key.world frame.now.found at }
{
    formula_in(store, &frame.key.world, at).is_some() && frame.found.cell(at).is_none()
}

/// The first cell of a rectangle after another whose value a frame lacks. For each occupied cell passed it takes a
/// search for the next one, a look at what stands there and, for a formula, one at what the frame found.
pub(crate) fn next_lacking_in(
    store: &Store,
    frame: &Frame,
    area: Rect,
    after: Address,
) -> Option<Address>
    ensures some { IfSome result (λ c.
        lacking_after store.now.sheet frame.now.key.world frame.now.found area after
        ≡ c ∷ lacking_after store.now.sheet frame.now.key.world frame.now.found area c) }
    ensures none { IfNone result
        (lacking_after store.now.sheet frame.now.key.world frame.now.found area after ≡ []) }
{
    let mut ahead = next_within(store, area, Some(after));
    while let Some(cell) = ahead {
        if is_lacking(store, frame, cell) {
            return Some(cell);
        }
        ahead = next_within(store, area, Some(cell));
    }
    None
}

/// A cell, and behind it the next cells of a rectangle whose values a frame lacks: so many in all, or as many as there
/// are. It takes a search for each occupied cell of the rectangle from this one to the last that is listed, and to the
/// end where fewer are left.
pub(crate) fn with_next_lacking(
    alloc: Global,
    store: &Store,
    frame: &Frame,
    area: Rect,
    at: Address,
    count: usize,
) -> Result<Vec<Address>, AllocError>
    ensures { IfOk result (λ v.
        v.items ≡ at ∷ take (count - 1)
        (lacking_after store.now.sheet frame.now.key.world frame.now.found area at)) }
{
    let mut listed = Vec::new(alloc);
    listed.push(at)?;
    let mut last = at;
    for _ in 1..count {
        let Some(next) = next_lacking_in(store, frame, area, last) else {
            return Ok(listed);
        };
        listed.push(next)?;
        last = next;
    }
    Ok(listed)
}
