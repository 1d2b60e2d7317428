//! Why a text isn't read.

ghost use Rattle.std.specs.Prelude.{◌≡◌};

use csv::{Error as CsvError, ErrorKind};
use std::alloc::{AllocError, AllocFailed};
use thiserror::Error;

/// Why a text isn't read.
#[derive(Clone, Copy, PartialEq, Eq, Debug, Error)]
pub enum CsvFault {
    /// `csv` refused for another cause than memory.
    #[error("the records can't be read")]
    Read,
    /// A growth was refused.
    #[error("there is no memory left")]
    Memory,
}

impl From<AllocError> for CsvFault {
    ghost use Rattle.wi_csv.specs.declared.fault.CsvFault.TheVariants.{Memory};

    ghost from_gives = { λ _ e. e ≡ Memory };

    fn from(_error: AllocError) -> CsvFault {
        CsvFault::Memory
    }
}

impl<T: Drop> From<AllocFailed<T>> for CsvFault {
    ghost use Rattle.wi_csv.specs.declared.fault.CsvFault.TheVariants.{Memory};

    ghost from_gives = { λ _ e. e ≡ Memory };

    fn from(_error: AllocFailed<T>) -> CsvFault {
        CsvFault::Memory
    }
}

impl From<CsvError> for CsvFault {
    ghost use Rattle.csv.specs.Reading.{error_kind};
    ghost use Rattle.wi_csv.specs.Inner.Fault.{fault_of};

    ghost from_gives = { λ error e. e ≡ fault_of (error_kind error) };

    fn from(error: CsvError) -> CsvFault {
        match error.kind() {
            ErrorKind::OutOfMemory => CsvFault::Memory,
            _ => CsvFault::Read,
        }
    }
}
