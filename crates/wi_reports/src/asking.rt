//! The questions of a report. After each what the calculator keeps is within its bounds.

ghost use Rattle.std.specs.Prelude.{◌≡◌, true, IfOk};
ghost use Rattle.wi_values.specs.Replacements.{IsInOrder};
ghost use Rattle.wi_sheet.specs.Shown.{shown};
ghost use Rattle.wi_sheet.specs.Demand.{demanded};
ghost use Rattle.wi_sheet.specs.TableEntry.{table_entry, entry_demanded};
ghost use Rattle.wi_reports.specs.Looks.{Costs};

use std::alloc::AllocError;
use wi_propagate::Calculator;
use wi_values::{Address, Replacement, Value};

/// What a cell shows under replacements, which stand in the order of their addresses, one for each.
#[inline(always)]
pub(crate) fn value_under<C: Calculator>(
    calculator: &mut C,
    replacements: &[Replacement],
    at: Address,
) -> Result<Value, AllocError>
    requires { IsInOrder replacements.now }
    ensures value { IfOk result (λ v. v
        ≡ shown (C.stored calculator.old).sheet replacements.now at) }
    ensures light { C.is_light calculator.new ≡ true }
    ensures same { C.stored calculator.new ≡ C.stored calculator.old }
    ensures cost { let sheet = (C.stored calculator.old).sheet in
        Costs sheet (demanded sheet replacements.now at)
        (C.evaluated calculator.old, C.restarted calculator.old)
        (C.evaluated calculator.new, C.restarted calculator.new) }
{
    let value = calculator.value(replacements, at);
    calculator.lighten();
    value
}

/// What an entry of a data table shows under replacements, which stand in the order of their addresses, one for each.
#[inline(always)]
pub(crate) fn entry_under<C: Calculator>(
    calculator: &mut C,
    replacements: &[Replacement],
    formula_cell: Address,
    pairs: &[(Address, Address)],
) -> Result<Value, AllocError>
    requires { IsInOrder replacements.now }
    ensures value { let sheet = (C.stored calculator.old).sheet in
        IfOk result (λ v. v ≡ table_entry sheet replacements.now formula_cell pairs.now) }
    ensures light { C.is_light calculator.new ≡ true }
    ensures same { C.stored calculator.new ≡ C.stored calculator.old }
    ensures cost { let sheet = (C.stored calculator.old).sheet in
        Costs sheet (entry_demanded sheet replacements.now formula_cell pairs.now)
        (C.evaluated calculator.old, C.restarted calculator.old)
        (C.evaluated calculator.new, C.restarted calculator.new) }
{
    let value = calculator.what_if_value(replacements, formula_cell, pairs);
    calculator.lighten();
    value
}
