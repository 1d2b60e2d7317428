//! How a run of a script may end before the script does.

ghost use Rattle.std.specs.Prelude.{◌≡◌};
ghost use Rattle.wi_cli.specs.Status.{status_of};

use std::alloc::AllocError;
use thiserror::Error;

/// Why a run ended before its script.
#[derive(Clone, Copy, PartialEq, Debug, Error)]
pub enum RunFault {
    /// Memory was refused before anything of the script was read.
    #[error("out of memory")]
    Memory,
    #[error("the script can't be read")]
    Read,
    #[error("the replies can't be written")]
    Write,
    #[error("the script has more than 1,000,000 lines")]
    ScriptLimit,
}

impl From<AllocError> for RunFault {
    ghost use Rattle.wi_cli.specs.declared.fault.RunFault.TheVariants.{Memory};

    ghost from_gives = { λ _ e. e ≡ Memory };

    fn from(_error: AllocError) -> RunFault {
        RunFault::Memory
    }
}

/// The status with which the program ends after this fault.
pub fn fault_status(fault: &RunFault) -> u8
    ensures { result ≡ status_of fault.now }
{
    match fault {
        RunFault::Read => 3,
        RunFault::Write => 3,
        RunFault::ScriptLimit => 4,
        RunFault::Memory => 5,
    }
}
