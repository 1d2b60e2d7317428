//! Why a replacement isn't put into a scenario.

use std::alloc::AllocError;
use thiserror::Error;

/// Why a replacement isn't put into a scenario.
#[derive(Clone, Copy, PartialEq, Eq, Debug, Error)]
pub enum ScenarioFault {
    #[error("too many scenarios, or too many replacements in one")]
    TooMany,
    #[error("out of memory")]
    Memory,
}

impl From<AllocError> for ScenarioFault {
    ghost use Rattle.std.specs.Prelude.{◌≡◌};
    ghost use Rattle.wi_scenario_list.specs.declared.fault.ScenarioFault.TheVariants.{Memory};

    ghost from_gives = { λ _ e. e ≡ Memory };

    fn from(_error: AllocError) -> ScenarioFault {
        ScenarioFault::Memory
    }
}
