//! The command `drop`: removes a scenario.

ghost use Rattle.std.specs.Prelude.{◌≡◌, ◌<◌, length};
ghost use Rattle.std.specs.List.{list_any};
ghost use Rattle.wi_scenario_list.specs.Bases.{is_name_of};
ghost use Rattle.wi_sessions.specs.Roster.{session_at};
ghost use Rattle.wi_scenarios.specs.Inner.Calls.{IsDrop};
ghost use Rattle.wi_scenarios.specs.Inner.Sound.{book_by, IsSound};

use crate::desk::Desk;
use crate::refusal::Refusal;
use wi_propagate::Calculator;
use wi_sessions::Sessions;

/// Removes a scenario that no session uses, and on which none is based. Takes no memory. The work grows with the counts
/// of scenarios and sessions.
pub(crate) fn drop<C: Calculator>(
    calculator: &C,
    desk: &mut Desk,
    name: &str,
) -> Result<(), Refusal>
    requires { IsSound C.marked (C.stored calculator.now) desk.old }
    ensures dropped { let book = book_by C.stored C.evaluated C.restarted calculator.now in
        IsDrop name.now result (book desk.old) (book desk.new) }
    ensures sound { IsSound C.marked (C.stored calculator.now) desk.new }
{
    if !desk.scenarios.contains(name) {
        return Err(Refusal::NoScenario);
    }
    if is_used(&desk.sessions, name) || desk.scenarios.is_base(name) {
        return Err(Refusal::InUse);
    }
    desk.scenarios.remove(name);
    Ok(())
}

/// Whether a session uses the scenario.
fn is_used(sessions: &Sessions, name: &str) -> bool
    ensures { result ≡ list_any (λ x. is_name_of name.now x.scenario) sessions.now.sessions }
{
    for i in 0..sessions.len() {
        if uses(sessions, i, name) {
            return true;
        }
    }
    false
}

/// Whether a session uses the scenario.
fn uses(sessions: &Sessions, i: usize, name: &str) -> bool
    requires { i < length sessions.now.sessions }
    ensures { result ≡ is_name_of name.now (session_at sessions.now i).scenario }
{
    match sessions.scenario(i) {
        Some(used) => name == used,
        None => false,
    }
}
