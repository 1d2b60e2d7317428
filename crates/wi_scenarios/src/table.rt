//! The command `table`: the value of a formula cell for each cell of a column, or of a column and a row, in the place
//! of inputs.

ghost use Rattle.std.specs.Prelude.{◌≡◌};
ghost use Rattle.wi_scenarios.specs.Commands.Command as command;
ghost use Rattle.wi_scenarios.specs.Commands.Operands.{cell, corners, second_input};
ghost use Rattle.wi_scenarios.specs.Pending.{asked_by_table};
ghost use Rattle.wi_scenarios.specs.Inner.Calls.{Looks, IsTablePlaced};
ghost use Rattle.wi_scenarios.specs.Inner.Sound.{book_by, state_of, IsSound};

use crate::areas::MAX_AREA;
use crate::desk::Desk;
use crate::refusal::Refusal;
use crate::views::replacements_for;
use std::alloc::Global;
use wi_propagate::Calculator;
use wi_reports::{DataTable, push_table};

/// Appends the records of a table. The calculator is asked once for each cell of the column and of the row, and once
/// for each entry; beside that the work grows with what the session's scenario puts in and with the length of the
/// records.
pub(crate) fn table<C: Calculator>(
    alloc: Global,
    calculator: &mut C,
    desk: &Desk,
    table: &DataTable,
    out: &mut Vec<u8>,
) -> Result<(), Refusal>
    requires sound { IsSound C.marked (C.stored calculator.old) desk.now }
    requires placed { IsTablePlaced table.now.formula_cell table.now.input table.now.column
        table.now.second }
    ensures looks { let book = book_by C.stored C.evaluated C.restarted in
        let asked = table.now in
        Looks (command.Table (cell asked.formula_cell) (cell asked.input) (corners asked.column)
        (second_input asked.second))
        (asked_by_table (state_of (C.stored calculator.old) desk.now)
        asked.formula_cell asked.input asked.column asked.second)
        result (book calculator.old desk.now) (book calculator.new desk.now)
        out.old.items out.new.items }
    ensures same { C.stored calculator.new ≡ C.stored calculator.old }
{
    if !table.is_shaped() {
        return Err(Refusal::BadCommand);
    }
    if !table.is_within(MAX_AREA) {
        return Err(Refusal::TooLarge);
    }
    let put = replacements_for(desk, desk.current)?;
    push_table(alloc, calculator, &put, table, out)?;
    Ok(())
}
