//! What is freed where memory ran out, before a command is tried once more.

ghost use Rattle.std.specs.Prelude.{◌≡◌, ◌↔◌, [], true, Err};
ghost use Rattle.wi_scenarios.specs.declared.refusal.Refusal.TheVariants.{Memory};

use wi_propagate::Calculator;
use wi_scenarios::{Refusal, Workbook};

/// Whether memory ran out.
#[inline(always)]
pub(crate) fn lacks_memory(done: &Result<(), Refusal>) -> bool
    ensures { (result ≡ true) ↔ (done.now ≡ Err Memory) }
{
    matches!(done, Err(Refusal::Memory))
}

/// Takes bytes away, and gives their memory back.
pub(crate) fn free_bytes(bytes: &mut Vec<u8>)
    ensures { bytes.new.items ≡ [] }
{
    bytes.clear();
    bytes.shrink_to_fit();
}

/// Gives back the memory of bytes that aren't used any more, and of all that the workbook can find again.
pub(crate) fn forget<C: Calculator>(book: &mut Workbook<C>, spare: &mut Vec<u8>)
    ensures { book.new ≡ book.old }
{
    free_bytes(spare);
    book.forget();
}
