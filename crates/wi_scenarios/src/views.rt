//! What each session is shown.

ghost use Rattle.std.specs.Prelude.{◌≡◌, ◌<◌, length, IfOk};
ghost use Rattle.std.specs.Option.{option_copied};
ghost use Rattle.wi_values.specs.Replacements.{IsInOrder};
ghost use Rattle.wi_scenario_list.specs.Bases.{lacks};
ghost use Rattle.wi_scenario_list.specs.Inner.Chains.{effective};
ghost use Rattle.wi_sessions.specs.Roster.{session_at};

use crate::desk::Desk;
use std::alloc::AllocError;
use wi_scenario_list::Scenarios;
use wi_values::Replacement;

/// The replacements that the scenario of a session puts in. The work for each replacement of that scenario and of those
/// that it is based on grows with the logarithm of their count.
pub(crate) fn replacements_for(desk: &Desk, i: usize) -> Result<Vec<Replacement>, AllocError>
    requires { i < length desk.now.sessions.sessions }
    ensures value { IfOk result (λ put.
        put.items ≡ effective desk.now.scenarios (session_at desk.now.sessions i).scenario) }
    ensures order { IfOk result (λ put. IsInOrder put.items) }
{
    desk.scenarios.effective(desk.sessions.scenario(i))
}

/// Whether a scenario is named that isn't there.
pub(crate) fn is_missing(scenarios: &Scenarios, name: Option<&str>) -> bool
    ensures { result ≡ lacks scenarios.now (option_copied name.entry) }
{
    match name {
        Some(name) => !scenarios.contains(name),
        None => false,
    }
}
