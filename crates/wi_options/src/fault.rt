//! Why words give no options.

ghost use Rattle.std.specs.Prelude.{◌≡◌};
ghost use Rattle.wi_options.specs.Status.{options_status};

use clap::error::ErrorKind;
use std::alloc::AllocError;
use thiserror::Error;

/// Why words give no options. The text of all but the last is that of `clap`.
#[derive(Debug, Drop, Error)]
pub enum OptionsFault {
    /// Help was asked for. Its text is for standard output.
    #[error(transparent)]
    Help(clap::Error),
    /// The version was asked for. Its text is for standard output.
    #[error(transparent)]
    Version(clap::Error),
    /// The words are no options. The text says which, and how the program is called; it is for standard error.
    #[error(transparent)]
    Usage(clap::Error),
    #[error("out of memory")]
    Memory,
}

impl From<AllocError> for OptionsFault {
    ghost use Rattle.wi_options.specs.declared.fault.OptionsFault.TheVariants.{Memory};

    ghost from_gives = { λ _ fault. fault ≡ Memory };

    fn from(_error: AllocError) -> OptionsFault {
        OptionsFault::Memory
    }
}

impl From<clap::Error> for OptionsFault {
    ghost use Rattle.wi_options.specs.Refused.{fault_by};
    ghost use Rattle.clap.specs.Words.{kind_of};

    ghost from_gives = { λ error fault. fault ≡ fault_by (kind_of error) error };

    fn from(error: clap::Error) -> OptionsFault {
        match error.kind() {
            ErrorKind::OutOfMemory => OptionsFault::Memory,
            ErrorKind::DisplayHelp => OptionsFault::Help(error),
            ErrorKind::DisplayVersion => OptionsFault::Version(error),
            _ => OptionsFault::Usage(error),
        }
    }
}

/// The status with which the program ends where its words give no options.
pub fn options_status(fault: &OptionsFault) -> u8
    ensures { result ≡ options_status fault.now }
{
    match fault {
        OptionsFault::Help(_) | OptionsFault::Version(_) => 0,
        OptionsFault::Usage(_) => 2,
        OptionsFault::Memory => 5,
    }
}
