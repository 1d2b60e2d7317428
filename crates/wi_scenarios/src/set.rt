//! The command `set`: puts a content into a cell.

ghost use Rattle.std.specs.Prelude.{[], ◌∷◌};
ghost use Rattle.wi_scenarios.specs.Commands.Command as command;
ghost use Rattle.wi_scenarios.specs.Commands.Operands.{cell};
ghost use Rattle.wi_scenarios.specs.Inner.Calls.{IsEditBy};
ghost use Rattle.wi_scenarios.specs.Inner.Sound.{book_by, IsSound};

use crate::areas::is_placed;
use crate::desk::Desk;
use crate::edit::edit_area;
use crate::refusal::Refusal;
use std::alloc::Global;
use wi_parser::Content;
use wi_propagate::Calculator;
use wi_values::{Address, Rect};

/// Puts a content into a cell.
pub(crate) fn set<C: Calculator>(
    alloc: Global,
    calculator: &mut C,
    desk: &mut Desk,
    at: Address,
    content: &str,
    force: bool,
) -> Result<(), Refusal>
    requires { IsSound C.marked (C.stored calculator.old) desk.old }
    ensures edit { let book = book_by C.stored C.evaluated C.restarted in
        IsEditBy C.marked (at ∷ []) (command.Set force (cell at) content.now)
        result (book calculator.old desk.old) (book calculator.new desk.new) }
    ensures sound { IsSound C.marked (C.stored calculator.new) desk.new }
{
    is_placed(at);
    if content.is_empty() {
        return Err(Refusal::BadCommand);
    }
    let content = Content::read(alloc, content)?;
    let mut contents = [(at, Some(content))];
    let area = Rect::of(at);
    edit_area(alloc, calculator, desk, area, &mut contents, force)
}
