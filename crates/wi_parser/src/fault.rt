//! Why a text is no formula.

ghost use Rattle.std.specs.Prelude.{◌≡◌};

use std::alloc::{AllocError, AllocFailed};
use thiserror::Error;
use wi_values::FieldFault;

/// Why a text is no formula, or no content of a cell.
#[derive(Clone, Copy, Debug, Error)]
pub enum ParseFault {
    /// A formula of more than 4,096 bytes, or a text of more than 32,767.
    #[error("the text is too long")]
    TooLong,
    #[error("a reference lies outside the sheet")]
    OutOfSheet,
    #[error("a number does not fit")]
    NumberRange,
    /// More than 64 parentheses are open, or more than 64 signs stand one after another.
    #[error("the formula nests too deep")]
    TooDeep,
    #[error("the text is no formula")]
    Syntax,
    #[error("there is no memory left")]
    Memory,
}

impl From<AllocError> for ParseFault {
    ghost use Rattle.wi_parser.specs.declared.fault.ParseFault.TheVariants.{Memory};

    ghost from_gives = { λ _ e. e ≡ Memory };

    fn from(_error: AllocError) -> ParseFault {
        ParseFault::Memory
    }
}

impl<T: Drop> From<AllocFailed<T>> for ParseFault {
    ghost use Rattle.wi_parser.specs.declared.fault.ParseFault.TheVariants.{Memory};

    ghost from_gives = { λ _ e. e ≡ Memory };

    fn from(_error: AllocFailed<T>) -> ParseFault {
        ParseFault::Memory
    }
}

impl From<FieldFault> for ParseFault {
    ghost use Rattle.wi_parser.specs.Inner.Faults.{field_fault};

    ghost from_gives = { λ fault e. e ≡ field_fault fault };

    fn from(fault: FieldFault) -> ParseFault {
        match fault {
            FieldFault::TooLong => ParseFault::TooLong,
            FieldFault::Memory => ParseFault::Memory,
        }
    }
}
