//! The command `base`: bases a scenario on another, or on none.

ghost use Rattle.std.specs.Prelude.{◌≡◌, ◌||◌, true, not, IfOk};
ghost use Rattle.std.specs.Option.{option_copied};
ghost use Rattle.wi_scenario_list.specs.Scenarios.{has_scenario, scenario_for, with_scenario};
ghost use Rattle.wi_scenario_list.specs.Bases.{lacks, would_loop, based_on};
ghost use Rattle.wi_scenarios.specs.Commands.Command as command;
ghost use Rattle.wi_scenarios.specs.Inner.Sound.{IsSound, ServesSound};

use crate::desk::Desk;
use crate::refusal::Refusal;
use crate::switch::switch_to;
use crate::views::is_missing;
use std::alloc::{AllocError, Global};
use wi_propagate::Calculator;
use wi_scenario_list::Scenarios;

/// Bases a scenario on another, or on none. The work grows with the count of scenarios, for each session with all that
/// its scenario puts in, before and after, and with what depends on the cells whose replacement is another.
pub(crate) fn base<C: Calculator>(
    alloc: Global,
    calculator: &C,
    desk: &mut Desk,
    name: &str,
    other: Option<&str>,
) -> Result<(), Refusal>
    requires { IsSound C.marked (C.stored calculator.now) desk.old }
    ensures { ServesSound C.marked (command.Base name.now (option_copied other.entry)) result
        (C.stored calculator.now) desk.old desk.new }
{
    if is_any_missing(&desk.scenarios, name, other) {
        return Err(Refusal::NoScenario);
    }
    if is_loop(&desk.scenarios, name, other) {
        return Err(Refusal::Loop);
    }
    let next = with_base(&desk.scenarios, name, other)?;
    switch_to(alloc, calculator, desk, next)?;
    Ok(())
}

/// The scenarios with one that is there based on another, or on none.
fn with_base(
    scenarios: &Scenarios,
    name: &str,
    other: Option<&str>,
) -> Result<Scenarios, AllocError>
    requires { has_scenario scenarios.now name.now ≡ true }
    ensures { IfOk result (λ next. next ≡ with_scenario scenarios.now
        (based_on (scenario_for scenarios.now name.now) (option_copied other.entry))) }
{
    let mut next = scenarios.copy()?;
    next.set_base(name, other)?;
    Ok(next)
}

/// Whether a scenario isn't there, or another is named that isn't.
fn is_any_missing(scenarios: &Scenarios, name: &str, other: Option<&str>) -> bool
    ensures { result ≡ (not (has_scenario scenarios.now name.now)
        || lacks scenarios.now (option_copied other.entry)) }
{
    is_missing(scenarios, Some(name)) || is_missing(scenarios, other)
}

/// Whether a scenario that is based on this other would be based on itself.
fn is_loop(scenarios: &Scenarios, name: &str, other: Option<&str>) -> bool
    ensures { result ≡ would_loop scenarios.now name.now (option_copied other.entry) }
{
    match other {
        Some(other) => scenarios.rests_on(other, name),
        None => false,
    }
}
