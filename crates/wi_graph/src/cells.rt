//! Some cells, and those of an edit.

ghost use Rattle.std.specs.Prelude.{◌≡◌, IfOk};
ghost use Rattle.std.specs.Map.{keys_of};

use smallvec::SmallVec;
use std::alloc::{AllocError, Global};
use wi_parser::NewContent;
use wi_values::Address;

/// Cells, of which one takes no memory of its own.
pub type Cells = SmallVec<Address, 1>;

/// The cells of an edit, of which each gets a content or none, in its order.
#[inline(always)]
pub fn edited_cells(alloc: Global, changes: &[NewContent]) -> Result<Cells, AllocError>
    ensures { IfOk result (λ cells. cells.items ≡ keys_of changes.now) }
{
    let mut cells = Cells::new(alloc);
    for change in changes {
        cells.push(change.0)?;
    }
    Ok(cells)
}
