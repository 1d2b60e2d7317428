//! What a cell shows under replacements, where no formula has to be evaluated for it.

ghost use Rattle.std.specs.Prelude.{◌≡◌, Some, IfOk};
ghost use Rattle.wi_parser.specs.Sheet.{content_of, put_all};
ghost use Rattle.wi_engine.specs.Inner.MemoState.{IsMemoOf};
ghost use Rattle.wi_engine.specs.Inner.Frames.{MayBeRead};
ghost use Rattle.wi_engine.specs.Inner.Steps.{IsAskedOf};

use crate::content_ref::{ContentRef, replaced, stored};
use crate::frame::{Step, Unvalued};
use crate::memo::Memo;
use std::alloc::{AllocError, Global};
use wi_parser::{Content, Formula};
use wi_store::Store;
use wi_values::{Address, Value};
use wi_worlds::World;

/// A cell's value under replacements, where nothing or a constant stands there, or its value is remembered; else its formula
/// has to be evaluated. The work grows with the logarithms of the counts of replacements and of occupied cells, beside that of a
/// copy of the value and, for a formula, of its key.
pub(crate) fn value_now<'a, M: Memo>(
    alloc: Global,
    store: &'a Store,
    world: &World,
    at: Address,
    memo: &mut M,
) -> Result<Step<'a, Value>, AllocError>
    requires memo { IsMemoOf store.now.sheet (M.state memo.old) }
    requires read { MayBeRead store.now.sheet (M.state memo.old) at }
    ensures asked { IfOk result (IsAskedOf store.now.sheet (M.state memo.old) world.now at) }
    ensures same { M.state memo.new ≡ M.state memo.old }
{
    if let Some(value) = replaced(world, at) {
        return Ok(Step::Ready(value.copy(alloc)?));
    }
    match stored(store, at) {
        ContentRef::Nothing => Ok(Step::Ready(Value::Empty)),
        ContentRef::Constant(value) => Ok(Step::Ready(value.copy(alloc)?)),
        ContentRef::Formula(formula) => remembered_value(alloc, world, at, formula, memo),
    }
}

/// The value of a cell that has this formula under replacements, where it is remembered; else the formula has to be evaluated. It
/// makes the cell's key, looks it up once and copies the value.
#[inline(always)]
pub(crate) fn remembered_value<'a, M: Memo>(
    alloc: Global,
    world: &World,
    at: Address,
    formula: &'a Formula,
    memo: &mut M,
) -> Result<Step<'a, Value>, AllocError>
    requires memo { IsMemoOf (M.state memo.old).sheet (M.state memo.old) }
    requires read { MayBeRead (M.state memo.old).sheet (M.state memo.old) at }
    requires formula { content_of (put_all (M.state memo.old).sheet world.now) at
        ≡ Some (Content.Formula formula.now) }
    ensures asked { IfOk result
        (IsAskedOf (M.state memo.old).sheet (M.state memo.old) world.now at) }
    ensures same { M.state memo.new ≡ M.state memo.old }
{
    let key = memo.key(at, world)?;
    match memo.look(&key) {
        Some(value) => Ok(Step::Ready(value.copy(alloc)?)),
        None => Ok(Step::First(Unvalued { key, formula })),
    }
}
