//! Scenarios that put in something else.

ghost use Rattle.std.specs.Prelude.{◌≡◌, ◌≢◌, ◌<◌, ℕ, length, [], OnOk};
ghost use Rattle.wi_values.specs.Replacements.{IsInOrder};
ghost use Rattle.wi_sessions.specs.Roster.{pending_of, vacant_of};
ghost use Rattle.wi_scenarios.specs.Inner.Sound.{state_of, IsSound, MakesSound};
ghost use Rattle.wi_scenarios.specs.Inner.Switch.{HasRoom, HasRoomFor};

use crate::desk::Desk;
use crate::differing::differing_cells;
use std::alloc::{AllocError, Global};
use wi_propagate::Calculator;
use wi_scenario_list::Scenarios;
use wi_sessions::Sessions;
use wi_values::Replacement;

/// Makes room among a session's pending cells for those that may show something else where the replacements are others.
/// On an error some vacant rooms may be left. The work for each replacement grows with the logarithm of the count of
/// all; beside that it grows with what depends on the cells whose replacement is another.
pub(crate) fn make_room_between<C: Calculator>(
    alloc: Global,
    calculator: &C,
    sessions: &mut Sessions,
    i: usize,
    before: &[Replacement],
    after: &[Replacement],
) -> Result<(), AllocError>
    requires within { i < length sessions.old.sessions }
    requires none { vacant_of sessions.old i ≡ [] }
    requires before { IsInOrder before.now }
    requires after { IsInOrder after.now }
    ensures sessions { sessions.new.sessions ≡ sessions.old.sessions }
    ensures pending { sessions.new.pending ≡ sessions.old.pending }
    ensures others { (j : ℕ) → j ≢ i → vacant_of sessions.new j ≡ vacant_of sessions.old j }
    ensures room { OnOk result (HasRoom C.marked (C.stored calculator.now).sheet
        before.now after.now (pending_of sessions.old i) (vacant_of sessions.new i)) }
{
    let cells = differing_cells(alloc, before, after)?;
    if cells.is_empty() {
        return Ok(());
    }
    let marked = calculator.mark(&cells)?;
    sessions.make_room(i, &marked)
}

/// Makes room among a session's pending cells for those that may show something else in its scenario, where other
/// scenarios take the place of all. On an error some vacant rooms may be left. All that its scenario puts in is listed,
/// as it was and as it will be, also where nothing of it changes.
fn make_room_for<C: Calculator>(
    alloc: Global,
    calculator: &C,
    sessions: &mut Sessions,
    i: usize,
    before: &Scenarios,
    after: &Scenarios,
) -> Result<(), AllocError>
    requires within { i < length sessions.old.sessions }
    requires none { vacant_of sessions.old i ≡ [] }
    ensures sessions { sessions.new.sessions ≡ sessions.old.sessions }
    ensures pending { sessions.new.pending ≡ sessions.old.pending }
    ensures others { (j : ℕ) → j ≢ i → vacant_of sessions.new j ≡ vacant_of sessions.old j }
    ensures room { OnOk result
        (HasRoomFor C.marked (C.stored calculator.now).sheet before.now after.now sessions.new i) }
{
    let scenario = sessions.scenario(i);
    let first = before.effective(scenario)?;
    let second = after.effective(scenario)?;
    make_room_between(alloc, calculator, sessions, i, &first, &second)
}

/// Makes room among the pending cells of each session for those that may show something else in its scenario, where
/// other scenarios take the place of all. On an error some vacant rooms may be left.
fn make_room_for_each<C: Calculator>(
    alloc: Global,
    calculator: &C,
    sessions: &mut Sessions,
    before: &Scenarios,
    after: &Scenarios,
) -> Result<(), AllocError>
    requires { (i : ℕ) → vacant_of sessions.old i ≡ [] }
    ensures sessions { sessions.new.sessions ≡ sessions.old.sessions }
    ensures pending { sessions.new.pending ≡ sessions.old.pending }
    ensures room { OnOk result ((i : ℕ) → i < length sessions.old.sessions
        → HasRoomFor C.marked (C.stored calculator.now).sheet before.now after.now sessions.new i) }
{
    for i in 0..sessions.len() {
        make_room_for(alloc, calculator, sessions, i, before, after)?;
    }
    Ok(())
}

/// Other scenarios take the place of all; the cells that may show something else then are pending for all sessions. On
/// an error all is as before. The work for each session is that of `Scenarios::effective`, once for what its scenario
/// puts in now and once for what it will, also where nothing of it changes, and that of `make_room_between`.
pub(crate) fn switch_to<C: Calculator>(
    alloc: Global,
    calculator: &C,
    desk: &mut Desk,
    next: Scenarios,
) -> Result<(), AllocError>
    requires { IsSound C.marked (C.stored calculator.now) desk.old }
    ensures { let old = state_of (C.stored calculator.now) desk.old in
        MakesSound C.marked result (C.stored calculator.now) (record old { scenarios = next })
        desk.old desk.new }
{
    match make_room_for_each(
        alloc,
        calculator,
        &mut desk.sessions,
        &desk.scenarios,
        &next,
    ) {
        Ok(()) => {
            desk.scenarios = next;
            desk.sessions.commit_all();
            Ok(())
        }
        Err(error) => {
            desk.sessions.cancel_all();
            Err(error)
        }
    }
}
