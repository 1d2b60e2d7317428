//! The shown texts of a rectangle, a record for each row.

ghost use Rattle.std.specs.Prelude.{◌≡◌, ◌++◌, ◌<◌, OnOk, OnErr};
ghost use Rattle.std.specs.Io.{StartsWith};
ghost use Rattle.wi_values.specs.Address.{rows, cells_of_row};
ghost use Rattle.wi_values.specs.Replacements.{IsInOrder};
ghost use Rattle.wi_sheet.specs.Shown.{shown};
ghost use Rattle.wi_reports.specs.Rows.{rows_shown};
ghost use Rattle.wi_reports.specs.Looks.{Costs, cells_cases, rows_cases};
ghost use Rattle.wi_reports.specs.Inner.Parts.{row_shown};

use crate::texts::push_texts;
use std::alloc::{AllocError, Global};
use wi_csv::push_record;
use wi_propagate::Calculator;
use wi_values::{Rect, Replacement};

/// Appends the texts that a rectangle shows under replacements, which stand in the order of their addresses, one for
/// each: a record for each row. On an error the bytes are as before. The calculator is asked once for each cell; beside
/// that the work grows with the length of the records.
pub fn push_rows<C: Calculator>(
    alloc: Global,
    calculator: &mut C,
    replacements: &[Replacement],
    area: Rect,
    out: &mut Vec<u8>,
) -> Result<(), AllocError>
    requires { IsInOrder replacements.now }
    ensures ok { let value = shown (C.stored calculator.old).sheet replacements.now in
        OnOk result (out.new.items ≡ out.old.items ++ rows_shown value area) }
    ensures err { OnErr result (out.new.items ≡ out.old.items) }
    ensures same { C.stored calculator.new ≡ C.stored calculator.old }
    ensures cost { let sheet = (C.stored calculator.old).sheet in
        Costs sheet (rows_cases sheet replacements.now area)
        (C.evaluated calculator.old, C.restarted calculator.old)
        (C.evaluated calculator.new, C.restarted calculator.new) }
{
    let before = out.len();
    let pushed = push_all(alloc, calculator, replacements, area, out);
    if pushed.is_err() {
        out.truncate(before);
    }
    pushed
}

/// Appends the records of all rows of a rectangle. On an error a part of them may be there.
fn push_all<C: Calculator>(
    alloc: Global,
    calculator: &mut C,
    replacements: &[Replacement],
    area: Rect,
    out: &mut Vec<u8>,
) -> Result<(), AllocError>
    requires { IsInOrder replacements.now }
    ensures ok { let value = shown (C.stored calculator.old).sheet replacements.now in
        OnOk result (out.new.items ≡ out.old.items ++ rows_shown value area) }
    ensures kept { StartsWith out.new.items out.old.items }
    ensures same { C.stored calculator.new ≡ C.stored calculator.old }
    ensures cost { let sheet = (C.stored calculator.old).sheet in
        Costs sheet (rows_cases sheet replacements.now area)
        (C.evaluated calculator.old, C.restarted calculator.old)
        (C.evaluated calculator.new, C.restarted calculator.new) }
{
    let first = area.first().row();
    for row in first..area.last().row() + 1 {
        push_row(alloc, calculator, replacements, row, area, out)?;
    }
    Ok(())
}

/// Appends the record of one row of a rectangle. On an error the bytes are as before.
fn push_row<C: Calculator>(
    alloc: Global,
    calculator: &mut C,
    replacements: &[Replacement],
    row: u32,
    area: Rect,
    out: &mut Vec<u8>,
) -> Result<(), AllocError>
    requires order { IsInOrder replacements.now }
    requires within { row < rows }
    ensures ok { OnOk result (out.new.items
        ≡ out.old.items ++ row_shown (C.stored calculator.old).sheet replacements.now area row) }
    ensures kept { StartsWith out.new.items out.old.items }
    ensures same { C.stored calculator.new ≡ C.stored calculator.old }
    ensures cost { let sheet = (C.stored calculator.old).sheet in
        Costs sheet (cells_cases sheet replacements.now (cells_of_row row area))
        (C.evaluated calculator.old, C.restarted calculator.old)
        (C.evaluated calculator.new, C.restarted calculator.new) }
{
    let mut texts = Vec::new(alloc);
    push_texts(alloc, calculator, replacements, row, area, &mut texts)?;
    push_record(&texts, out)
}
