//! The command `scenario`: puts a replacement into a scenario, or takes it away.

ghost use Rattle.std.specs.Prelude.{◌≡◌, ◌≢◌, ◌∷◌, [], true, false, IfOk};
ghost use Rattle.wi_scenario_list.specs.Scenarios.{has_scenario, scenario_for, with_scenario, with_own, without_own, is_full};
ghost use Rattle.wi_scenarios.specs.Commands.Command as command;
ghost use Rattle.wi_scenarios.specs.Commands.Operands.{cell};
ghost use Rattle.wi_scenarios.specs.Inner.Sound.{IsSound, ServesSound};

use crate::areas::is_placed;
use crate::desk::Desk;
use crate::refusal::Refusal;
use crate::switch::switch_to;
use std::alloc::{AllocError, Global};
use wi_propagate::Calculator;
use wi_scenario_list::{ScenarioFault, Scenarios};
use wi_values::{Address, Value, imported_value};

/// Puts a replacement into a scenario, which is made if need be. The work grows with the count of scenarios, with the
/// scenario's own replacements, for each session with all that its scenario puts in, before and after, and, where it
/// puts in something else for the cell then, with what depends on the cell.
pub(crate) fn put<C: Calculator>(
    alloc: Global,
    calculator: &C,
    desk: &mut Desk,
    name: &str,
    at: Address,
    content: &str,
) -> Result<(), Refusal>
    requires { IsSound C.marked (C.stored calculator.now) desk.old }
    ensures { ServesSound C.marked (command.Scenario name.now (cell at) content.now) result
        (C.stored calculator.now) desk.old desk.new }
{
    if content.is_empty() {
        return take_away(alloc, calculator, desk, name, at);
    }
    put_text(alloc, calculator, desk, name, at, content)
}

/// Puts the value for which a text that isn't empty is taken into a scenario.
fn put_text<C: Calculator>(
    alloc: Global,
    calculator: &C,
    desk: &mut Desk,
    name: &str,
    at: Address,
    text: &str,
) -> Result<(), Refusal>
    requires sound { IsSound C.marked (C.stored calculator.now) desk.old }
    requires some { text.now ≢ [] }
    ensures { ServesSound C.marked (command.Scenario name.now (cell at) text.now) result
        (C.stored calculator.now) desk.old desk.new }
{
    is_placed(at);
    if desk.scenarios.is_full(name, at) {
        return Err(Refusal::TooMany);
    }
    let value = imported_value(alloc, text)?;
    let next = with_replacement(&desk.scenarios, name, at, value)?;
    switch_to(alloc, calculator, desk, next)?;
    Ok(())
}

/// Takes a scenario's own replacement away, if there is one; the scenario stays. It costs what `put` does.
pub(crate) fn take_away<C: Calculator>(
    alloc: Global,
    calculator: &C,
    desk: &mut Desk,
    name: &str,
    at: Address,
) -> Result<(), Refusal>
    requires { IsSound C.marked (C.stored calculator.now) desk.old }
    ensures { ServesSound C.marked (command.Scenario name.now (cell at) []) result
        (C.stored calculator.now) desk.old desk.new }
{
    is_placed(at);
    if !desk.scenarios.contains(name) {
        return Err(Refusal::NoScenario);
    }
    let next = without_replacement(&desk.scenarios, name, at)?;
    switch_to(alloc, calculator, desk, next)?;
    Ok(())
}

/// The scenarios with a replacement put into one, which takes one more.
fn with_replacement(
    scenarios: &Scenarios,
    name: &str,
    at: Address,
    value: Value,
) -> Result<Scenarios, AllocError>
    requires { is_full scenarios.now name.now at ≡ false }
    ensures { IfOk result (λ next. next ≡ with_scenario scenarios.now
        (with_own (scenario_for scenarios.now name.now)
        (record { at = at; value = value } ∷ []))) }
{
    let mut next = scenarios.copy()?;
    match next.put(name, at, value) {
        Ok(()) => Ok(next),
        Err(ScenarioFault::TooMany) => unreachable!(),
        Err(ScenarioFault::Memory) => Err(AllocError),
    }
}

/// The scenarios without the own replacement of one that is there.
fn without_replacement(
    scenarios: &Scenarios,
    name: &str,
    at: Address,
) -> Result<Scenarios, AllocError>
    requires { has_scenario scenarios.now name.now ≡ true }
    ensures { IfOk result (λ next.
        next ≡ with_scenario scenarios.now (without_own (scenario_for scenarios.now name.now) at)) }
{
    let mut next = scenarios.copy()?;
    next.take_away(name, at)?;
    Ok(next)
}
