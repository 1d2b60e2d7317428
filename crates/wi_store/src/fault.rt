//! Why an edit is refused.

use std::alloc::AllocError;
use thiserror::Error;

/// Why an edit is refused.
#[derive(Clone, Copy, PartialEq, Eq, Debug, Error)]
pub enum StoreFault {
    #[error("the sheet would have too many occupied cells")]
    Full,
    #[error("no more edits are accepted")]
    EditLimit,
    #[error("out of memory")]
    Memory,
}

impl From<AllocError> for StoreFault {
    ghost use Rattle.std.specs.Prelude.{◌≡◌};
    ghost use Rattle.wi_store.specs.declared.fault.StoreFault.TheVariants.{Memory};

    ghost from_gives = { λ _ e. e ≡ Memory };

    fn from(_error: AllocError) -> StoreFault {
        StoreFault::Memory
    }
}
