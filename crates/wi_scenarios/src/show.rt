//! The command `show`: the shown texts of a rectangle, a record for each row.

ghost use Rattle.std.specs.Prelude.{◌≡◌};
ghost use Rattle.wi_scenarios.specs.Commands.Command as command;
ghost use Rattle.wi_scenarios.specs.Commands.Operands.{corners};
ghost use Rattle.wi_scenarios.specs.Pending.{asked_by_show};
ghost use Rattle.wi_scenarios.specs.Inner.Calls.{Looks};
ghost use Rattle.wi_scenarios.specs.Inner.Sound.{book_by, state_of, IsSound};

use crate::areas::{is_spanned, is_too_large};
use crate::desk::Desk;
use crate::refusal::Refusal;
use crate::views::replacements_for;
use std::alloc::Global;
use wi_propagate::Calculator;
use wi_reports::push_rows;
use wi_values::Rect;

/// Appends the records of a rectangle. The calculator is asked once for each cell; beside that the work grows with what
/// the session's scenario puts in and with the length of the records.
pub(crate) fn show<C: Calculator>(
    alloc: Global,
    calculator: &mut C,
    desk: &Desk,
    area: Rect,
    out: &mut Vec<u8>,
) -> Result<(), Refusal>
    requires { IsSound C.marked (C.stored calculator.old) desk.now }
    ensures looks { let book = book_by C.stored C.evaluated C.restarted in
        Looks (command.Show (corners area))
        (asked_by_show (state_of (C.stored calculator.old) desk.now) area)
        result (book calculator.old desk.now) (book calculator.new desk.now)
        out.old.items out.new.items }
    ensures same { C.stored calculator.new ≡ C.stored calculator.old }
{
    is_spanned(area);
    if is_too_large(area) {
        return Err(Refusal::TooLarge);
    }
    let put = replacements_for(desk, desk.current)?;
    push_rows(alloc, calculator, &put, area, out)?;
    Ok(())
}
