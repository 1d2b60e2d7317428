//! The command `table`, as it is read.

ghost use Rattle.wi_cli.specs.Inner.Operands.{table_of_one, table_of_two, table_behind, IsRead, IsReading};
ghost use Rattle.wi_cli.specs.Inner.Forms.{TABLE, spelled};

use crate::command::Command;
use crate::operands::{line_fault, worse};
use crate::words::{is_all_spaces, only_word, split_word};
use wi_scenarios::Refusal;
use wi_values::{Address, AddressFault, Rect};

type OneCell = Result<Address, AddressFault>;

type CellRange = Result<Rect, AddressFault>;

/// `table F R XCOLUMN` and `table F R XCOLUMN C YROW`.
#[tactic(auto, using(crate::proofs::Ties::Readings::read_so))]
pub(crate) fn read_table(operands: &str) -> Result<Command<'_>, Refusal>
    ensures { IsRead (spelled TABLE operands.now) result }
{
    let (formula_cell, others) = split_word(operands);
    let (input, others) = split_word(others);
    let (column, more) = split_word(others);
    table_behind(
        Address::read(formula_cell.as_bytes()),
        Address::read(input.as_bytes()),
        Rect::read(column.as_bytes()),
        more,
    )
}

/// The table of these operands and of what stands behind them: nothing, or a second input and a row.
fn table_behind(
    formula_cell: OneCell,
    input: OneCell,
    column: CellRange,
    more: &str,
) -> Result<Command<'_>, Refusal>
    ensures { IsReading (table_behind formula_cell input column more.now) result }
{
    if is_all_spaces(more.as_bytes()) {
        return table_of_one(formula_cell, input, column);
    }
    let (second, others) = split_word(more);
    let row = only_word(others)?;
    table_of_two(
        formula_cell,
        input,
        column,
        Address::read(second.as_bytes()),
        Rect::read(row.as_bytes()),
    )
}

/// The table of one input.
fn table_of_one<'a>(
    formula_cell: OneCell,
    input: OneCell,
    column: CellRange,
) -> Result<Command<'a>, Refusal>
    ensures { IsReading (table_of_one formula_cell input column) result }
{
    let fault = line_fault(column, true);
    let fault = worse(formula_cell.err(), worse(input.err(), fault));
    if let Some(fault) = fault {
        return Err(Refusal::from(fault));
    }
    Ok(Command::Table {
        formula_cell: formula_cell?,
        input: input?,
        column: column?,
    })
}

/// The table of two inputs.
fn table_of_two<'a>(
    formula_cell: OneCell,
    input: OneCell,
    column: CellRange,
    second: OneCell,
    row: CellRange,
) -> Result<Command<'a>, Refusal>
    ensures { IsReading (table_of_two formula_cell input column second row) result }
{
    let others = worse(second.err(), line_fault(row, false));
    let others = worse(line_fault(column, true), others);
    let fault = worse(formula_cell.err(), worse(input.err(), others));
    if let Some(fault) = fault {
        return Err(Refusal::from(fault));
    }
    Ok(Command::TableOfTwo {
        formula_cell: formula_cell?,
        input: input?,
        column: column?,
        second: second?,
        row: row?,
    })
}
