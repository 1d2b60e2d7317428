//! The command `use`: the current session uses a scenario, or the sheet as it stands.

ghost use Rattle.std.specs.Prelude.{◌≡◌, ◌≢◌, ◌<◌, ℕ, [], length, OnOk, IfOk, string_bytes};
ghost use Rattle.std.specs.Option.{option_copied, option_map};
ghost use Rattle.wi_scenario_list.specs.Inner.Chains.{effective};
ghost use Rattle.wi_sessions.specs.Sessions.{using_scenario};
ghost use Rattle.wi_sessions.specs.Roster.{pending_of, vacant_of};
ghost use Rattle.wi_scenarios.specs.Commands.Command as command;
ghost use Rattle.wi_scenarios.specs.Pending.{SameForOthers};
ghost use Rattle.wi_scenarios.specs.Views.{current_session, current_replacements, with_current};
ghost use Rattle.wi_scenarios.specs.Inner.Sound.{state_of, pending_in, IsSound, ServesSound, MakesSound};
ghost use Rattle.wi_scenarios.specs.Inner.Switch.{HasRoom};

use crate::desk::Desk;
use crate::refusal::Refusal;
use crate::switch::make_room_between;
use crate::views::is_missing;
use std::alloc::{AllocError, Global};
use wi_propagate::Calculator;

/// The current session uses a scenario, or the sheet as it stands. The work grows with all that the old and the new one
/// put in, and with what depends on the cells whose replacement is another.
pub(crate) fn use_scenario<C: Calculator>(
    alloc: Global,
    calculator: &C,
    desk: &mut Desk,
    name: Option<&str>,
) -> Result<(), Refusal>
    requires { IsSound C.marked (C.stored calculator.now) desk.old }
    ensures served { ServesSound C.marked (command.Use (option_copied name.entry)) result
        (C.stored calculator.now) desk.old desk.new }
    ensures others { SameForOthers desk.old.current (pending_in desk.old) (pending_in desk.new) }
{
    if is_missing(&desk.scenarios, name) {
        return Err(Refusal::NoScenario);
    }
    let used = owned(alloc, name)?;
    use_in_current(alloc, calculator, desk, name, used)?;
    Ok(())
}

/// The current session uses this scenario, whose name is handed over too. On an error all is as before.
fn use_in_current<C: Calculator>(
    alloc: Global,
    calculator: &C,
    desk: &mut Desk,
    name: Option<&str>,
    used: Option<String>,
) -> Result<(), AllocError>
    requires sound { IsSound C.marked (C.stored calculator.now) desk.old }
    requires named { option_map string_bytes used ≡ option_copied name }
    ensures made { let old = state_of (C.stored calculator.now) desk.old in
        MakesSound C.marked result (C.stored calculator.now)
        (with_current old (using_scenario (current_session old) (option_copied name.entry)))
        desk.old desk.new }
    ensures others { SameForOthers desk.old.current (pending_in desk.old) (pending_in desk.new) }
{
    match make_room_for_current(alloc, calculator, desk, name) {
        Ok(()) => {
            desk.sessions.use_scenario(desk.current, used);
            desk.sessions.commit_all();
            Ok(())
        }
        Err(error) => {
            desk.sessions.cancel_all();
            Err(error)
        }
    }
}

/// The name once more.
fn owned(alloc: Global, name: Option<&str>) -> Result<Option<String>, AllocError>
    ensures { IfOk result (λ used. option_map string_bytes used ≡ option_copied name.entry) }
{
    match name {
        Some(name) => Ok(Some(String::from_str(alloc, name)?)),
        None => Ok(None),
    }
}

/// Makes room for the cells that may show something else to the current session under this scenario.
fn make_room_for_current<C: Calculator>(
    alloc: Global,
    calculator: &C,
    desk: &mut Desk,
    name: Option<&str>,
) -> Result<(), AllocError>
    requires within { desk.old.current < length desk.old.sessions.sessions }
    requires none { vacant_of desk.old.sessions desk.old.current ≡ [] }
    ensures state { state_of (C.stored calculator.now) desk.new
        ≡ state_of (C.stored calculator.now) desk.old }
    ensures pending { pending_in desk.new ≡ pending_in desk.old }
    ensures others { (j : ℕ) → j ≢ desk.old.current
        → vacant_of desk.new.sessions j ≡ vacant_of desk.old.sessions j }
    ensures room { let old = state_of (C.stored calculator.now) desk.old in
        OnOk result (HasRoom C.marked old.stored.sheet
        (current_replacements old) (effective old.scenarios (option_copied name.entry))
        (pending_of desk.old.sessions old.current) (vacant_of desk.new.sessions old.current)) }
{
    let before = desk
        .scenarios
        .effective(desk.sessions.scenario(desk.current))?;
    let after = desk.scenarios.effective(name)?;
    make_room_between(
        alloc,
        calculator,
        &mut desk.sessions,
        desk.current,
        &before,
        &after,
    )
}
