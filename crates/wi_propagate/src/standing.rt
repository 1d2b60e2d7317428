//! A cell's value where no formula gives it.

ghost use Rattle.std.specs.Prelude.{IfOk};
ghost use Rattle.wi_values.specs.Replacements.{IsInOrder};
ghost use Rattle.wi_parser.specs.Sheet.{put_all};
ghost use Rattle.wi_propagate.specs.Inner.Standing.{IsStandingOf};

use std::alloc::{AllocError, Global};
use wi_parser::{Content, Formula};
use wi_store::Store;
use wi_values::{Address, Replacement, Value};
use wi_worlds::value_at;

/// A cell's value where no formula gives it, or else its formula.
#[derive(Drop)]
pub enum Standing<'a> {
    Value(Value),
    Formula(&'a Formula),
}

/// The value of a cell under replacements where it is replaced or has no formula, and else its formula, so that what
/// stands there is looked at once. The cell shows that value unless it is circular. The work grows with the logarithms
/// of the counts of replacements and of occupied cells.
pub(crate) fn standing_value<'a>(
    alloc: Global,
    store: &'a Store,
    replacements: &[Replacement],
    at: Address,
) -> Result<Standing<'a>, AllocError>
    requires { IsInOrder replacements.now }
    ensures { IfOk result (IsStandingOf (put_all store.now.sheet replacements.now) at) }
{
    if let Some(value) = value_at(replacements, at) {
        return Ok(Standing::Value(value.copy(alloc)?));
    }
    match store.get(at) {
        None => Ok(Standing::Value(Value::Empty)),
        Some(Content::Constant(value)) => Ok(Standing::Value(value.copy(alloc)?)),
        Some(Content::Formula(formula)) => Ok(Standing::Formula(formula)),
    }
}
