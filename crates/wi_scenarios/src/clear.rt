//! The command `clear`: empties the cells of a rectangle.

ghost use Rattle.std.specs.Prelude.{◌≡◌, map, None, IfOk};
ghost use Rattle.wi_scenarios.specs.Commands.Command as command;
ghost use Rattle.wi_scenarios.specs.Commands.Operands.{corners};
ghost use Rattle.wi_scenarios.specs.Pending.{occupied_in};
ghost use Rattle.wi_scenarios.specs.Inner.Calls.{IsEditBy};
ghost use Rattle.wi_scenarios.specs.Inner.Sound.{book_by, IsSound};

use crate::areas::is_spanned;
use crate::desk::Desk;
use crate::edit::edit_area;
use crate::refusal::Refusal;
use std::alloc::{AllocError, Global};
use wi_parser::NewContent;
use wi_propagate::{Calculator, occupied_in};
use wi_values::{Address, Rect};

/// Empties the cells of a rectangle. The work grows with its occupied cells: for each it is that of `apply_edit`, and
/// of a search, in which rows with a cell beside the rectangle count, but no more of them than the rectangle has
/// columns.
pub(crate) fn clear<C: Calculator>(
    alloc: Global,
    calculator: &mut C,
    desk: &mut Desk,
    area: Rect,
    force: bool,
) -> Result<(), Refusal>
    requires { IsSound C.marked (C.stored calculator.old) desk.old }
    ensures edit { let book = book_by C.stored C.evaluated C.restarted in
        IsEditBy C.marked (occupied_in (C.stored calculator.old).sheet area)
        (command.Clear force (corners area))
        result (book calculator.old desk.old) (book calculator.new desk.new) }
    ensures sound { IsSound C.marked (C.stored calculator.new) desk.new }
{
    is_spanned(area);
    let cells = occupied_in(alloc, calculator, area)?;
    let mut contents = emptied(alloc, &cells)?;
    edit_area(alloc, calculator, desk, area, &mut contents, force)
}

/// No content for each of some cells.
fn emptied(alloc: Global, cells: &[Address]) -> Result<Vec<NewContent>, AllocError>
    ensures { IfOk result (λ changes. changes.items ≡ map (λ a. (a, None)) cells.now) }
{
    let mut changes = Vec::new(alloc);
    for cell in cells {
        changes.push((*cell, None))?;
    }
    Ok(changes)
}
