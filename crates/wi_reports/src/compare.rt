//! The cells of a rectangle whose values under two lists of replacements differ, a record for each.

ghost use Rattle.std.specs.Prelude.{◌≡◌, ◌++◌, ◌∷◌, ◌<◌, [], IfOk, OnOk, OnErr, string_bytes};
ghost use Rattle.std.specs.List.{flat_map};
ghost use Rattle.std.specs.Io.{StartsWith};
ghost use Rattle.wi_fraction.specs.Arithmetic.{sum_of, negated};
ghost use Rattle.wi_values.specs.Address.{rows, cells_of_row};
ghost use Rattle.wi_values.specs.Replacements.{IsInOrder};
ghost use Rattle.wi_values.specs.Value.{shown_text};
ghost use Rattle.wi_sheet.specs.Shown as show;
ghost use Rattle.wi_csv.specs.Row.{row};
ghost use Rattle.wi_reports.specs.Compare.{difference_text, cells_compared};
ghost use Rattle.wi_sheet.specs.Demand.{demanded};
ghost use Rattle.wi_reports.specs.Looks.{Costs, both_cases, comparison_cases};
ghost use Rattle.wi_reports.specs.Inner.Parts.{cell_compared, difference_record, number_text};

use crate::asking::value_under;
use crate::texts::address_text;
use std::alloc::{AllocError, Global};
use wi_csv::push_record;
use wi_fraction::Fraction;
use wi_propagate::Calculator;
use wi_sessions::same;
use wi_values::{Address, ErrorKind, Rect, Replacement, Value};

/// The two lists of replacements of a comparison.
#[derive(Drop)]
pub struct Sides<'a> {
    pub first: &'a [Replacement],
    pub second: &'a [Replacement],
}

/// Appends a record for each cell of a rectangle whose values under two lists of replacements differ, in row-major
/// order: the address, the first value, the second, and the second less the first where both are numbers. Each list
/// stands in the order of its addresses, one for each. On an error the bytes are as before. The calculator is asked
/// twice for each cell; beside that the work grows with the length of the two texts of each cell.
pub fn push_comparison<C: Calculator>(
    alloc: Global,
    calculator: &mut C,
    sides: &Sides<'_>,
    area: Rect,
    out: &mut Vec<u8>,
) -> Result<(), AllocError>
    requires { IsInOrder sides.now.first.now × IsInOrder sides.now.second.now }
    ensures ok { let shown_by = show.shown (C.stored calculator.old).sheet in
        let records = cells_compared
        (shown_by sides.now.first.now) (shown_by sides.now.second.now) area in
        OnOk result (out.new.items ≡ out.old.items ++ records) }
    ensures err { OnErr result (out.new.items ≡ out.old.items) }
    ensures same { C.stored calculator.new ≡ C.stored calculator.old }
    ensures cost { let sheet = (C.stored calculator.old).sheet in
        Costs sheet (comparison_cases sheet sides.now.first.now sides.now.second.now area)
        (C.evaluated calculator.old, C.restarted calculator.old)
        (C.evaluated calculator.new, C.restarted calculator.new) }
{
    let before = out.len();
    let pushed = push_all(alloc, calculator, sides, area, out);
    if pushed.is_err() {
        out.truncate(before);
    }
    pushed
}

/// Appends the records of a rectangle. On an error a part of them may be there.
fn push_all<C: Calculator>(
    alloc: Global,
    calculator: &mut C,
    sides: &Sides<'_>,
    area: Rect,
    out: &mut Vec<u8>,
) -> Result<(), AllocError>
    requires { IsInOrder sides.now.first.now × IsInOrder sides.now.second.now }
    ensures ok { let shown_by = show.shown (C.stored calculator.old).sheet in
        let records = cells_compared
        (shown_by sides.now.first.now) (shown_by sides.now.second.now) area in
        OnOk result (out.new.items ≡ out.old.items ++ records) }
    ensures kept { StartsWith out.new.items out.old.items }
    ensures same { C.stored calculator.new ≡ C.stored calculator.old }
    ensures cost { let sheet = (C.stored calculator.old).sheet in
        Costs sheet (comparison_cases sheet sides.now.first.now sides.now.second.now area)
        (C.evaluated calculator.old, C.restarted calculator.old)
        (C.evaluated calculator.new, C.restarted calculator.new) }
{
    let top = area.first().row();
    for row in top..area.last().row() + 1 {
        push_row(alloc, calculator, sides, row, area, out)?;
    }
    Ok(())
}

/// Appends the records of one row of a rectangle. On an error a part of them may be there.
fn push_row<C: Calculator>(
    alloc: Global,
    calculator: &mut C,
    sides: &Sides<'_>,
    row: u32,
    area: Rect,
    out: &mut Vec<u8>,
) -> Result<(), AllocError>
    requires order { IsInOrder sides.now.first.now × IsInOrder sides.now.second.now }
    requires within { row < rows }
    ensures ok { let compared = cell_compared
        (C.stored calculator.old).sheet sides.now.first.now sides.now.second.now in
        OnOk result (out.new.items ≡ out.old.items ++ flat_map compared (cells_of_row row area)) }
    ensures kept { StartsWith out.new.items out.old.items }
    ensures same { C.stored calculator.new ≡ C.stored calculator.old }
    ensures cost { let sheet = (C.stored calculator.old).sheet in
        let cases = both_cases sheet sides.now.first.now sides.now.second.now in
        Costs sheet (flat_map cases (cells_of_row row area))
        (C.evaluated calculator.old, C.restarted calculator.old)
        (C.evaluated calculator.new, C.restarted calculator.new) }
{
    let left = area.first().column();
    for column in left..area.last().column() + 1 {
        let at = Address::at(row, column);
        push_cell(alloc, calculator, sides, at, out)?;
    }
    Ok(())
}

/// Appends the record of a cell; nothing where its two values are one. On an error the bytes are as before.
fn push_cell<C: Calculator>(
    alloc: Global,
    calculator: &mut C,
    sides: &Sides<'_>,
    at: Address,
    out: &mut Vec<u8>,
) -> Result<(), AllocError>
    requires { IsInOrder sides.now.first.now × IsInOrder sides.now.second.now }
    ensures ok { let compared = cell_compared
        (C.stored calculator.old).sheet sides.now.first.now sides.now.second.now at in
        OnOk result (out.new.items ≡ out.old.items ++ compared) }
    ensures kept { StartsWith out.new.items out.old.items }
    ensures same { C.stored calculator.new ≡ C.stored calculator.old }
    ensures cost { let sheet = (C.stored calculator.old).sheet in
        Costs sheet (both_cases sheet sides.now.first.now sides.now.second.now at)
        (C.evaluated calculator.old, C.restarted calculator.old)
        (C.evaluated calculator.new, C.restarted calculator.new) }
{
    let before = value_under(calculator, sides.first, at)?;
    push_compared(alloc, calculator, &before, sides.second, at, out)
}

/// Appends the record of a cell with this first value; nothing where its second value is the same. On an error the
/// bytes are as before.
fn push_compared<C: Calculator>(
    alloc: Global,
    calculator: &mut C,
    before: &Value,
    second: &[Replacement],
    at: Address,
    out: &mut Vec<u8>,
) -> Result<(), AllocError>
    requires { IsInOrder second.now }
    ensures ok { let after = show.shown (C.stored calculator.old).sheet second.now at in
        OnOk result (out.new.items ≡ out.old.items ++ difference_record at before.now after) }
    ensures err { OnErr result (out.new.items ≡ out.old.items) }
    ensures same { C.stored calculator.new ≡ C.stored calculator.old }
    ensures cost { let sheet = (C.stored calculator.old).sheet in
        Costs sheet (demanded sheet second.now at)
        (C.evaluated calculator.old, C.restarted calculator.old)
        (C.evaluated calculator.new, C.restarted calculator.new) }
{
    let after = value_under(calculator, second, at)?;
    push_difference(alloc, at, before, &after, out)
}

/// Appends the record of a cell with these two values; nothing where they are one. On an error the bytes are as before.
fn push_difference(
    alloc: Global,
    at: Address,
    first: &Value,
    second: &Value,
    out: &mut Vec<u8>,
) -> Result<(), AllocError>
    ensures ok { OnOk result (out.new.items
        ≡ out.old.items ++ difference_record at first.now second.now) }
    ensures err { OnErr result (out.new.items ≡ out.old.items) }
{
    if same(first, second) {
        return Ok(());
    }
    let address = address_text(alloc, at)?;
    let difference = difference_text(alloc, first, second)?;
    push_values(alloc, &address, first, second, &difference, out)
}

/// Appends the record of an address, two values, and their difference. On an error the bytes are as before.
fn push_values(
    alloc: Global,
    address: &str,
    first: &Value,
    second: &Value,
    difference: &str,
    out: &mut Vec<u8>,
) -> Result<(), AllocError>
    ensures ok { let fields = address.now
        ∷ shown_text first.now ∷ shown_text second.now ∷ difference.now ∷ [] in
        OnOk result (out.new.items ≡ out.old.items ++ row fields) }
    ensures err { OnErr result (out.new.items ≡ out.old.items) }
{
    let before = first.shown(alloc)?;
    let after = second.shown(alloc)?;
    push_record(&[address, before.as_str(), after.as_str(), difference], out)
}

/// The text of the second value less the first, where both are numbers; else an empty one.
fn difference_text(alloc: Global, first: &Value, second: &Value) -> Result<String, AllocError>
    ensures { IfOk result (λ text. string_bytes text ≡ difference_text first.now second.now) }
{
    match (first, second) {
        (Value::Number(x), Value::Number(y)) => difference(*x, *y).shown(alloc),
        _ => Ok(String::new(alloc)),
    }
}

/// The second number less the first, or `BadNumber` where it doesn't fit.
fn difference(first: Fraction, second: Fraction) -> Value
    ensures { shown_text result ≡ number_text (sum_of second (negated first)) }
{
    match second.checked_sub(first) {
        Ok(number) => Value::Number(number),
        Err(_) => Value::Fault(ErrorKind::BadNumber),
    }
}
