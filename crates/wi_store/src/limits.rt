//! The limits of a sheet.

ghost use Rattle.std.specs.Prelude.{◌≡◌};
ghost use Rattle.wi_store.specs.Inner.Admission.{admitted};

use crate::fault::StoreFault;

/// How many cells may have a content, and how many edits may be accepted.
#[derive(Clone, Copy, PartialEq, Eq, Debug)]
pub struct Limits {
    pub cells: u64,
    pub edits: u64,
}

impl Limits {
    /// 200,000 cells and 1,000,000,000 edits.
    pub fn standard() -> Limits
        ensures cells { result.cells ≡ 200000 }
        ensures edits { result.edits ≡ 1000000000 }
    {
        Limits {
            cells: 200_000,
            edits: 1_000_000_000,
        }
    }

    /// So many occupied cells, if they are within the limits and one edit more than `edits` is.
    pub(crate) fn admit(&self, cells: u64, edits: u64) -> Result<u64, StoreFault>
        ensures { result ≡ admitted self.now cells edits }
    {
        if cells > self.cells {
            Err(StoreFault::Full)
        } else if edits >= self.edits {
            Err(StoreFault::EditLimit)
        } else {
            Ok(cells)
        }
    }
}
