//! The command `fill`: copies a cell's content to each cell of a rectangle.

ghost use Rattle.std.specs.Prelude.{◌<◌, ◌++◌, ℕ, List, MatchResult};
ghost use Rattle.std.specs.Option.{option_copied};
ghost use Rattle.wi_values.specs.Address.{rows, cells_of, cells_of_row};
ghost use Rattle.wi_scenarios.specs.Commands.Command as command;
ghost use Rattle.wi_scenarios.specs.Commands.Operands.{cell, corners};
ghost use Rattle.wi_scenarios.specs.Inner.Calls.{IsEditBy};
ghost use Rattle.wi_scenarios.specs.Inner.Editing.{copy_to, CopiesAs, AreCopies, HasNoCopies};
ghost use Rattle.wi_scenarios.specs.Inner.Sound.{book_by, IsSound};

use crate::areas::{is_placed, is_spanned, is_too_large};
use crate::desk::Desk;
use crate::edit::edit_area;
use crate::refusal::Refusal;
use std::alloc::Global;
use wi_parser::{Content, NewContent, ShiftFault};
use wi_propagate::Calculator;
use wi_values::{Address, Rect};

/// Copies a cell's content to each cell of a rectangle, all from the content that stands there before. The work grows
/// with the cells of the rectangle and with the content, and is that of `apply_edit` for them.
pub(crate) fn fill<C: Calculator>(
    alloc: Global,
    calculator: &mut C,
    desk: &mut Desk,
    from: Address,
    area: Rect,
    force: bool,
) -> Result<(), Refusal>
    requires { IsSound C.marked (C.stored calculator.old) desk.old }
    ensures edit { let book = book_by C.stored C.evaluated C.restarted in
        IsEditBy C.marked (cells_of area) (command.Fill force (cell from) (corners area))
        result (book calculator.old desk.old) (book calculator.new desk.new) }
    ensures sound { IsSound C.marked (C.stored calculator.new) desk.new }
{
    is_placed(from);
    is_spanned(area);
    if is_too_large(area) {
        return Err(Refusal::TooLarge);
    }
    let mut contents = copies(alloc, calculator.content(from), from, area)?;
    edit_area(alloc, calculator, desk, area, &mut contents, force)
}

/// The copies of a cell's content for the cells of a rectangle.
fn copies(
    alloc: Global,
    content: Option<&Content>,
    from: Address,
    area: Rect,
) -> Result<Vec<NewContent>, ShiftFault>
    ensures { MatchResult result
        (λ changes. AreCopies (option_copied content.entry) from (cells_of area) changes.items)
        (λ fault. HasNoCopies (option_copied content.entry) from (cells_of area) fault) }
{
    let mut changes = Vec::new(alloc);
    let first = area.first().row();
    for row in first..area.last().row() + 1 {
        push_copies(alloc, content, from, area, row, &mut changes)?;
    }
    Ok(changes)
}

/// Appends the copies for one row of a rectangle.
fn push_copies(
    alloc: Global,
    content: Option<&Content>,
    from: Address,
    area: Rect,
    row: u32,
    changes: &mut Vec<NewContent>,
) -> Result<(), ShiftFault>
    requires { row < rows }
    ensures { MatchResult result
        (λ done. (cells : List ℕ)
        → AreCopies (option_copied content.entry) from cells changes.old.items
        → AreCopies (option_copied content.entry)
        from (cells ++ cells_of_row row area) changes.new.items)
        (λ fault. HasNoCopies (option_copied content.entry) from (cells_of_row row area) fault) }
{
    let first = area.first().column();
    for column in first..area.last().column() + 1 {
        let to = Address::at(row, column);
        let copy = copied(alloc, content, from, to)?;
        changes.push((to, copy))?;
    }
    Ok(())
}

/// The copy of a cell's content for another cell.
fn copied(
    alloc: Global,
    content: Option<&Content>,
    from: Address,
    to: Address,
) -> Result<Option<Content>, ShiftFault>
    ensures { CopiesAs (copy_to (option_copied content.entry) from to) result }
{
    match content {
        None => Ok(None),
        Some(Content::Constant(value)) => Ok(Some(Content::Constant(value.copy(alloc)?))),
        Some(Content::Formula(formula)) => {
            let down = i64::from(to.row()) - i64::from(from.row());
            let right = i64::from(to.column()) - i64::from(from.column());
            Ok(Some(Content::Formula(formula.shift(down, right)?)))
        }
    }
}
