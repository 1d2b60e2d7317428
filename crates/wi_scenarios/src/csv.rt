//! The command `csv`: puts the fields of a CSV text into cells.

ghost use Rattle.wi_scenarios.specs.Inner.Calls.{IsImport};
ghost use Rattle.wi_scenarios.specs.Inner.Sound.{book_by, IsSound};

use crate::areas::is_placed;
use crate::desk::Desk;
use crate::edit::apply_edit;
use crate::refusal::Refusal;
use std::alloc::Global;
use wi_edit_log::Named;
use wi_import::import as read_import;
use wi_propagate::Calculator;
use wi_values::Address;

/// Puts the fields of a CSV text into cells, from a cell on. The work grows with the text, and is that of `apply_edit`
/// for its fields.
pub(crate) fn import<C: Calculator>(
    alloc: Global,
    calculator: &mut C,
    desk: &mut Desk,
    at: Address,
    text: &[u8],
    force: bool,
) -> Result<(), Refusal>
    requires { IsSound C.marked (C.stored calculator.old) desk.old }
    ensures edit { let book = book_by C.stored C.evaluated C.restarted in
        IsImport C.marked force at text.now
        result (book calculator.old desk.old) (book calculator.new desk.new) }
    ensures sound { IsSound C.marked (C.stored calculator.new) desk.new }
{
    is_placed(at);
    let found = read_import(alloc, at, text)?;
    let named = Named::new(found.named)?;
    let mut contents = found.changes;
    apply_edit(alloc, calculator, desk, named, &mut contents, force)
}
