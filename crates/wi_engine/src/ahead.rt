//! The cell whose value is found for a frame before its formula is evaluated for the first time.

ghost use Rattle.std.specs.Prelude.{◌≡◌, ℕ, true, None, IfOk, IfSome, is_ok};
ghost use Rattle.wi_engine.specs.Inner.MemoState.{IsMemoOf};
ghost use Rattle.wi_engine.specs.Inner.Findings.{found_value};
ghost use Rattle.wi_engine.specs.Inner.Frames.{IsFrame, IsWaitedFor};
ghost use Rattle.wi_engine.specs.Inner.Steps.{FrameSteps};
ghost use Rattle.wi_engine.specs.declared.frame.Waiting.TheVariants as waiting;

use crate::asked::remembered_value;
use crate::content_ref::formula_in;
use crate::frame::{Frame, Step, Unvalued, Waiting};
use crate::memo::Memo;
use crate::pool::Pool;
use std::alloc::AllocError;
use wi_functions::first_cell;
use wi_store::Store;

/// Finds the value of a cell with a formula for which any evaluation of a frame's formula asks, so that this isn't evaluated in
/// vain, where the frame waits for nothing and no value was found for it yet. A cell that has to be evaluated first is given, and
/// the frame waits for it. It takes at most a walk through the formula's tree, and mostly a step or two there; then a look at the
/// cell's content, its key, and a look at what is remembered of it.
pub(crate) fn look_ahead<'a, M: Memo>(
    pool: &mut Pool,
    store: &'a Store,
    frame: &mut Frame<'a>,
    memo: &mut M,
) -> Result<Option<Unvalued<'a>>, AllocError>
    requires memo { IsMemoOf store.now.sheet (M.state memo.old) }
    requires frame { IsFrame store.now.sheet (M.state memo.old) frame.old }
    ensures steps { FrameSteps store.now.sheet (M.state memo.old) (M.state memo.new)
        frame.old frame.new 0 (is_ok result) }
    ensures next { IfOk result (λ o. IfSome o
        (IsWaitedFor store.now.sheet (M.state memo.old) frame.new)) }
{
    if !is_new(frame) {
        return Ok(None);
    }
    let Some(at) = first_cell(frame.formula) else {
        return Ok(None);
    };
    let Some(formula) = formula_in(store, &frame.key.world, at) else {
        return Ok(None);
    };
    let alloc = pool.allocator();
    match remembered_value(alloc, &frame.key.world, at, formula, memo)? {
        Step::Ready(value) => {
            frame.found.add_cell(at, value, pool)?;
            Ok(None)
        }
        Step::First(first) => {
            frame.waiting = Waiting::Cells(at, Vec::new(alloc));
            Ok(Some(first))
        }
    }
}

/// Whether a frame waits for nothing, and no value was found for it.
fn is_new(frame: &Frame) -> bool
    ensures waiting { result ≡ true → frame.now.waiting ≡ waiting.Nothing }
    ensures found { result ≡ true → (c : ℕ) → found_value frame.now.found c ≡ None }
{
    match frame.waiting {
        Waiting::Nothing => frame.found.is_empty(),
        Waiting::Cells(_, _) => false,
        Waiting::WhatIf(_, _) => false,
    }
}
