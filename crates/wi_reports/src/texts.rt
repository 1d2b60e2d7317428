//! The texts of values, cells and addresses.

ghost use Rattle.std.specs.Prelude.{◌≡◌, ◌++◌, ◌∷◌, ◌<◌, [], map, IfOk, OnOk, string_bytes};
ghost use Rattle.wi_values.specs.Address.{rows, cells_of_row, address_text};
ghost use Rattle.wi_values.specs.Value.{shown_text};
ghost use Rattle.wi_values.specs.Replacements.{IsInOrder};
ghost use Rattle.wi_reports.specs.Rows.{text_under};
ghost use Rattle.wi_sheet.specs.Demand.{demanded};
ghost use Rattle.wi_reports.specs.Looks.{Costs, cells_cases};

use crate::asking::value_under;
use std::alloc::{AllocError, Global};
use wi_propagate::Calculator;
use wi_values::{Address, Rect, Replacement, Value};

/// The text of an address.
pub(crate) fn address_text(alloc: Global, at: Address) -> Result<String, AllocError>
    ensures { IfOk result (λ text. string_bytes text ≡ address_text at) }
{
    let mut text = String::new(alloc);
    at.push_text(&mut text)?;
    Ok(text)
}

/// Appends the text that is shown for a value.
pub(crate) fn push_text_of(
    alloc: Global,
    value: &Value,
    texts: &mut Vec<String>,
) -> Result<(), AllocError>
    ensures { OnOk result (map string_bytes texts.new.items
        ≡ map string_bytes texts.old.items ++ shown_text value.now ∷ []) }
{
    texts.push(value.shown(alloc)?)?;
    Ok(())
}

/// Appends the text that a cell shows under replacements.
pub(crate) fn push_text_under<C: Calculator>(
    alloc: Global,
    calculator: &mut C,
    replacements: &[Replacement],
    at: Address,
    texts: &mut Vec<String>,
) -> Result<(), AllocError>
    requires { IsInOrder replacements.now }
    ensures text { let text = text_under (C.stored calculator.old).sheet replacements.now at in
        OnOk result (map string_bytes texts.new.items
        ≡ map string_bytes texts.old.items ++ text ∷ []) }
    ensures same { C.stored calculator.new ≡ C.stored calculator.old }
    ensures cost { let sheet = (C.stored calculator.old).sheet in
        Costs sheet (demanded sheet replacements.now at)
        (C.evaluated calculator.old, C.restarted calculator.old)
        (C.evaluated calculator.new, C.restarted calculator.new) }
{
    let value = value_under(calculator, replacements, at)?;
    push_text_of(alloc, &value, texts)
}

/// Appends the texts that the cells of one row of a rectangle show under replacements.
pub(crate) fn push_texts<C: Calculator>(
    alloc: Global,
    calculator: &mut C,
    replacements: &[Replacement],
    row: u32,
    area: Rect,
    texts: &mut Vec<String>,
) -> Result<(), AllocError>
    requires order { IsInOrder replacements.now }
    requires within { row < rows }
    ensures texts { OnOk result (map string_bytes texts.new.items ≡ map string_bytes texts.old.items
        ++ map (text_under (C.stored calculator.old).sheet replacements.now)
        (cells_of_row row area)) }
    ensures same { C.stored calculator.new ≡ C.stored calculator.old }
    ensures cost { let sheet = (C.stored calculator.old).sheet in
        Costs sheet (cells_cases sheet replacements.now (cells_of_row row area))
        (C.evaluated calculator.old, C.restarted calculator.old)
        (C.evaluated calculator.new, C.restarted calculator.new) }
{
    let first = area.first().column();
    for column in first..area.last().column() + 1 {
        push_text_under(
            alloc,
            calculator,
            replacements,
            Address::at(row, column),
            texts,
        )?;
    }
    Ok(())
}
