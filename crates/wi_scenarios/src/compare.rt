//! The command `compare`: the cells of a rectangle whose values under two scenarios differ.

ghost use Rattle.std.specs.Prelude.{◌≡◌, ◌++◌, ◌||◌, OnOk, OnErr};
ghost use Rattle.std.specs.Option.{option_copied};
ghost use Rattle.wi_scenario_list.specs.Inner.Chains.{effective};
ghost use Rattle.wi_scenario_list.specs.Bases.{lacks};
ghost use Rattle.wi_sheet.specs.Shown.{shown};
ghost use Rattle.wi_reports.specs.Compare.{cells_compared};
ghost use Rattle.wi_reports.specs.Looks.{Costs, comparison_cases};
ghost use Rattle.wi_scenarios.specs.Commands.Command as command;
ghost use Rattle.wi_scenarios.specs.Commands.Operands.{corners};
ghost use Rattle.wi_scenarios.specs.Pending.{asked_by_compare};
ghost use Rattle.wi_scenarios.specs.Inner.Calls.{Looks};
ghost use Rattle.wi_scenarios.specs.Inner.Sound.{book_by, state_of, IsSound};

use crate::areas::{is_spanned, is_too_large};
use crate::desk::Desk;
use crate::refusal::Refusal;
use crate::views::is_missing;
use std::alloc::{AllocError, Global};
use wi_propagate::Calculator;
use wi_reports::{Sides, push_comparison};
use wi_scenario_list::Scenarios;
use wi_values::Rect;

/// The names of the two scenarios of a comparison; none is the sheet as it stands.
#[derive(Drop)]
pub(crate) struct Compared<'a> {
    pub first: Option<&'a str>,
    pub second: Option<&'a str>,
}

/// Appends a record for each cell of a rectangle whose values under two scenarios differ. The calculator is asked twice
/// for each cell; beside that the work grows with what both scenarios put in and with the length of the two texts of
/// each cell.
pub(crate) fn compare<C: Calculator>(
    alloc: Global,
    calculator: &mut C,
    desk: &Desk,
    compared: &Compared<'_>,
    area: Rect,
    out: &mut Vec<u8>,
) -> Result<(), Refusal>
    requires { IsSound C.marked (C.stored calculator.old) desk.now }
    ensures looks { let book = book_by C.stored C.evaluated C.restarted in
        let first = option_copied compared.now.first in
        let second = option_copied compared.now.second in
        Looks (command.Compare first second (corners area))
        (asked_by_compare (state_of (C.stored calculator.old) desk.now) first second area)
        result (book calculator.old desk.now) (book calculator.new desk.now)
        out.old.items out.new.items }
    ensures same { C.stored calculator.new ≡ C.stored calculator.old }
{
    is_spanned(area);
    if is_too_large(area) {
        return Err(Refusal::TooLarge);
    }
    if lacks_either(&desk.scenarios, compared) {
        return Err(Refusal::NoScenario);
    }
    push_differences(alloc, calculator, desk, compared, area, out)?;
    Ok(())
}

/// Appends the records for two scenarios that are there, or the sheet as it stands. On an error the bytes are as
/// before.
fn push_differences<C: Calculator>(
    alloc: Global,
    calculator: &mut C,
    desk: &Desk,
    compared: &Compared<'_>,
    area: Rect,
    out: &mut Vec<u8>,
) -> Result<(), AllocError>
    ensures ok { let under = effective desk.now.scenarios in
        let shown_by = shown (C.stored calculator.old).sheet in
        OnOk result (out.new.items ≡ out.old.items ++ cells_compared
        (shown_by (under (option_copied compared.now.first)))
        (shown_by (under (option_copied compared.now.second))) area) }
    ensures err { OnErr result (out.new.items ≡ out.old.items) }
    ensures same { C.stored calculator.new ≡ C.stored calculator.old }
    ensures cost { let sheet = (C.stored calculator.old).sheet in
        let under = effective desk.now.scenarios in
        Costs sheet (comparison_cases sheet (under (option_copied compared.now.first))
        (under (option_copied compared.now.second)) area)
        (C.evaluated calculator.old, C.restarted calculator.old)
        (C.evaluated calculator.new, C.restarted calculator.new) }
{
    let before = desk.scenarios.effective(compared.first)?;
    let after = desk.scenarios.effective(compared.second)?;
    let sides = Sides {
        first: &before,
        second: &after,
    };
    push_comparison(alloc, calculator, &sides, area, out)
}

/// Whether one of two scenarios is named that isn't there.
fn lacks_either(scenarios: &Scenarios, compared: &Compared<'_>) -> bool
    ensures { result ≡ (lacks scenarios.now (option_copied compared.now.first)
        || lacks scenarios.now (option_copied compared.now.second)) }
{
    is_missing(scenarios, compared.first) || is_missing(scenarios, compared.second)
}
