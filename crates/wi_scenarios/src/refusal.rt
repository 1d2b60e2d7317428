//! Why a command is refused.

ghost use Rattle.std.specs.Prelude.{◌≡◌};

use std::alloc::{AllocError, AllocFailed};
use thiserror::Error;
use wi_import::ImportFault;
use wi_parser::{ParseFault, ShiftFault};
use wi_store::StoreFault;
use wi_values::{Address, AddressFault, FieldFault};

/// Why a command is refused. All is then as before. The first cause of this order that holds is answered: `BadLine`,
/// `BadCommand`, `CutShort`, `OutOfSheet` of an operand, `TooLarge`, `NoScenario`, `InUse`, `TooMany`, `BadField`,
/// `TooLong`, `OutOfSheet` of a formula or a field, `NumberRange`, `TooDeep`, `Syntax`, `LeavesSheet`, `Stale`, `Loop`,
/// `Full`, `EditLimit`. `Memory` may stand in place of most answers, but of none that is found before anything grows.
#[derive(Clone, Copy, PartialEq, Debug, Error)]
pub enum Refusal {
    /// E01.
    #[error("out of memory")]
    Memory,
    /// E02.
    #[error("no such command, or not its words")]
    BadCommand,
    /// E03.
    #[error("the line is too long, or not UTF-8")]
    BadLine,
    /// E04.
    #[error("a cell outside the sheet")]
    OutOfSheet,
    /// E05.
    #[error("no formula")]
    Syntax,
    /// E06.
    #[error("the formula is nested too deeply")]
    TooDeep,
    /// E07.
    #[error("a number of the formula does not fit")]
    NumberRange,
    /// E08.
    #[error("the text or formula is too long")]
    TooLong,
    /// E09.
    #[error("the sheet would have too many occupied cells")]
    Full,
    /// E10.
    #[error("no such scenario")]
    NoScenario,
    /// E11.
    #[error("too many scenarios, replacements or sessions")]
    TooMany,
    /// E12.
    #[error("the scenario is in use by a session, or as a base scenario")]
    InUse,
    /// E13.
    #[error("the input ends before the last data line")]
    CutShort,
    /// E14.
    #[error("a field is not UTF-8")]
    BadField,
    /// E15.
    #[error("the rectangle has too many cells")]
    TooLarge,
    /// E16.
    #[error("a filled reference would leave the sheet")]
    LeavesSheet,
    /// E17.
    #[error("no more edits are accepted")]
    EditLimit,
    /// E18, with the first such cell.
    #[error("another session has edited the cell since")]
    Stale(Address),
    /// E19.
    #[error("the scenario would be based on itself")]
    Loop,
}

impl Refusal {
    ghost use Rattle.wi_scenarios.specs.Answer.{code_of};

    /// The number that the reply tells.
    pub fn code(self) -> u8
        ensures { result ≡ code_of self }
    {
        match self {
            Refusal::Memory => 1,
            Refusal::BadCommand => 2,
            Refusal::BadLine => 3,
            Refusal::OutOfSheet => 4,
            Refusal::Syntax => 5,
            Refusal::TooDeep => 6,
            Refusal::NumberRange => 7,
            Refusal::TooLong => 8,
            Refusal::Full => 9,
            Refusal::NoScenario => 10,
            Refusal::TooMany => 11,
            Refusal::InUse => 12,
            Refusal::CutShort => 13,
            Refusal::BadField => 14,
            Refusal::TooLarge => 15,
            Refusal::LeavesSheet => 16,
            Refusal::EditLimit => 17,
            Refusal::Stale(_) => 18,
            Refusal::Loop => 19,
        }
    }
}

impl From<AllocError> for Refusal {
    ghost use Rattle.wi_scenarios.specs.declared.refusal.Refusal.TheVariants.{Memory};

    ghost from_gives = { λ _ e. e ≡ Memory };

    fn from(_error: AllocError) -> Refusal {
        Refusal::Memory
    }
}

impl<T: Drop> From<AllocFailed<T>> for Refusal {
    ghost use Rattle.wi_scenarios.specs.declared.refusal.Refusal.TheVariants.{Memory};

    ghost from_gives = { λ _ e. e ≡ Memory };

    fn from(_error: AllocFailed<T>) -> Refusal {
        Refusal::Memory
    }
}

impl From<AddressFault> for Refusal {
    ghost use Rattle.wi_scenarios.specs.Answer.{operand_refusal};

    ghost from_gives = { λ fault e. e ≡ operand_refusal fault };

    fn from(fault: AddressFault) -> Refusal {
        match fault {
            AddressFault::Shape => Refusal::BadCommand,
            AddressFault::Outside => Refusal::OutOfSheet,
        }
    }
}

impl From<ParseFault> for Refusal {
    ghost use Rattle.wi_scenarios.specs.Answer.{parse_refusal};

    ghost from_gives = { λ fault e. e ≡ parse_refusal fault };

    fn from(fault: ParseFault) -> Refusal {
        match fault {
            ParseFault::TooLong => Refusal::TooLong,
            ParseFault::OutOfSheet => Refusal::OutOfSheet,
            ParseFault::NumberRange => Refusal::NumberRange,
            ParseFault::TooDeep => Refusal::TooDeep,
            ParseFault::Syntax => Refusal::Syntax,
            ParseFault::Memory => Refusal::Memory,
        }
    }
}

impl From<ShiftFault> for Refusal {
    ghost use Rattle.wi_scenarios.specs.Answer.{shift_refusal};

    ghost from_gives = { λ fault e. e ≡ shift_refusal fault };

    fn from(fault: ShiftFault) -> Refusal {
        match fault {
            ShiftFault::LeavesSheet => Refusal::LeavesSheet,
            ShiftFault::Memory => Refusal::Memory,
        }
    }
}

impl From<StoreFault> for Refusal {
    ghost use Rattle.wi_scenarios.specs.Answer.{edit_refusal};

    ghost from_gives = { λ fault e. e ≡ edit_refusal fault };

    fn from(fault: StoreFault) -> Refusal {
        match fault {
            StoreFault::Full => Refusal::Full,
            StoreFault::EditLimit => Refusal::EditLimit,
            StoreFault::Memory => Refusal::Memory,
        }
    }
}

impl From<ImportFault> for Refusal {
    ghost use Rattle.wi_scenarios.specs.Answer.{import_refusal};

    ghost from_gives = { λ fault e. e ≡ import_refusal fault };

    fn from(fault: ImportFault) -> Refusal {
        match fault {
            ImportFault::BadField => Refusal::BadField,
            ImportFault::TooLong => Refusal::TooLong,
            ImportFault::OutOfSheet => Refusal::OutOfSheet,
            ImportFault::Memory => Refusal::Memory,
        }
    }
}

impl From<FieldFault> for Refusal {
    ghost use Rattle.wi_scenarios.specs.Answer.{field_refusal};

    ghost from_gives = { λ fault e. e ≡ field_refusal fault };

    fn from(fault: FieldFault) -> Refusal {
        match fault {
            FieldFault::TooLong => Refusal::TooLong,
            FieldFault::Memory => Refusal::Memory,
        }
    }
}
