//! Why a text isn't imported.

ghost use Rattle.std.specs.Prelude.{◌≡◌};

use std::alloc::{AllocError, AllocFailed};
use thiserror::Error;
use wi_csv::CsvFault;

/// Why a text isn't imported. Of the first three the first in this order that a field has, wherever it stands; `Memory`
/// may stand in for any of them.
#[derive(Clone, Copy, PartialEq, Eq, Debug, Error)]
pub enum ImportFault {
    /// A field isn't UTF-8.
    #[error("a field is not UTF-8")]
    BadField,
    /// A field is longer than 32,767 bytes, and no number.
    #[error("a field is too long for a text")]
    TooLong,
    /// A field is for a cell outside the sheet.
    #[error("a field is for a cell outside the sheet")]
    OutOfSheet,
    /// A growth was refused, or `csv` refused for another cause, of which it has none over bytes in memory.
    #[error("there is no memory left")]
    Memory,
}

impl From<AllocError> for ImportFault {
    ghost use Rattle.wi_import.specs.declared.fault.ImportFault.TheVariants.{Memory};

    ghost from_gives = { λ _ e. e ≡ Memory };

    fn from(_error: AllocError) -> ImportFault {
        ImportFault::Memory
    }
}

impl<T: Drop> From<AllocFailed<T>> for ImportFault {
    ghost use Rattle.wi_import.specs.declared.fault.ImportFault.TheVariants.{Memory};

    ghost from_gives = { λ _ e. e ≡ Memory };

    fn from(_error: AllocFailed<T>) -> ImportFault {
        ImportFault::Memory
    }
}

impl From<CsvFault> for ImportFault {
    ghost use Rattle.wi_import.specs.declared.fault.ImportFault.TheVariants.{Memory};

    ghost from_gives = { λ _ e. e ≡ Memory };

    fn from(_fault: CsvFault) -> ImportFault {
        ImportFault::Memory
    }
}
