//! What a frame does, from one value to the next.

ghost use Rattle.std.specs.Prelude.{◌≡◌, ◌-◌, ◌∷◌, [], ◌⊎◌, ℕ, true, false, None, Ok, All, IfOk, IfSome, IfNone, OnOk, is_ok};
ghost use Rattle.wi_values.specs.Replacements.{IsInOrder};
ghost use Rattle.wi_parser.specs.Sheet.{put_all};
ghost use Rattle.wi_functions.specs.declared.evaluation.Want.TheVariants as wanted;
ghost use Rattle.wi_values.specs.Address.{is_one_of};
ghost use Rattle.wi_sheet.specs.CellValue as values;
ghost use Rattle.wi_engine.specs.Inner.MemoState.{IsMemoOf};
ghost use Rattle.wi_engine.specs.Inner.Attempt.{AsksAt, IsLacking, lacks_cell};
ghost use Rattle.wi_engine.specs.Inner.Frames.{MayBeRead, StandsAt, AreReadHere, Awaits, IsAwaited, IsFrame, IsWaitedFor, case_at, is_of_cell, waits};
ghost use Rattle.wi_engine.specs.Inner.Steps.{AreInputsOf, FrameSteps, FrameCounts, FrameTakes, FrameWaits, IsAdvanceOf};
ghost use Rattle.wi_engine.specs.declared.frame.Waiting.TheVariants as waiting;

use crate::ahead::look_ahead;
use crate::asked::value_now;
use crate::attempt::attempt;
use crate::frame::{Frame, Step, Unvalued, Waiting};
use crate::lacking::is_lacking;
use crate::lists::FoundWhatIf;
use crate::memo::Memo;
use crate::pool::Pool;
use crate::together::{Batch, together};
use std::alloc::{AllocError, Global};
use std::mem;
use wi_cache::Key;
use wi_functions::{Meter, Outcome, Want};
use wi_parser::Pair;
use wi_store::Store;
use wi_values::{Address, Replacement, Value};
use wi_worlds::World;

/// Replacements with those of a what-if put in. All its inputs' values are taken before any is put.
#[inline(always)]
pub(crate) fn world_of_what_if<'a, M: Memo>(
    alloc: Global,
    store: &'a Store,
    world: &World,
    pairs: &[Pair],
    memo: &mut M,
) -> Result<Step<'a, World>, AllocError>
    requires memo { IsMemoOf store.now.sheet (M.state memo.old) }
    requires read { All (λ p.
        MayBeRead store.now.sheet (M.state memo.old) p.replacement.at) pairs.now }
    ensures inputs { IfOk result
        (AreInputsOf store.now.sheet (M.state memo.old) world.now pairs.now) }
    ensures order { IsInOrder world.now }
    ensures same { M.state memo.new ≡ M.state memo.old }
{
    let _ = world.replacements();
    let mut inputs = Vec::new(alloc);
    for pair in pairs {
        match value_now(alloc, store, world, pair.replacement.at, memo)? {
            Step::Ready(value) => inputs.push(Replacement {
                at: pair.input.at,
                value,
            })?,
            Step::First(input) => return Ok(Step::First(input)),
        }
    }
    Ok(Step::Ready(world.with(&inputs)?))
}

/// The next of these cells whose value a frame lacks, and takes it and those behind it away, none of which it lacks.
fn next_lacking(store: &Store, frame: &Frame, cells: &mut Vec<Address>) -> Option<Address>
    requires { AreReadHere store.now.sheet (case_at frame.now.key) cells.old.items }
    ensures rest { AreReadHere store.now.sheet (case_at frame.now.key) cells.new.items }
    ensures next { IfSome result (λ a.
        IsLacking store.now.sheet frame.now.key.world frame.now.found (wanted.Cell a)
        × AreReadHere store.now.sheet (case_at frame.now.key) (a ∷ [])) }
    ensures passed { IfSome result (λ a. (d : ℕ) → is_one_of cells.old.items d ≡ true
        → lacks_cell store.now.sheet frame.now.key.world frame.now.found d ≡ true
        → (is_one_of cells.new.items d ≡ true) ⊎ (d ≡ a)) }
    ensures none { IfNone result ((d : ℕ) → is_one_of cells.old.items d ≡ true
        → lacks_cell store.now.sheet frame.now.key.world frame.now.found d ≡ false) }
{
    while let Some(at) = cells.pop() {
        if is_lacking(store, frame, at) {
            return Some(at);
        }
    }
    None
}

/// Finds the values of cells for a frame that waits for nothing else, so that it lacks none of them, or gives one that
/// has to be evaluated first.
fn resolve_cells<'a, M: Memo>(
    pool: &mut Pool,
    store: &'a Store,
    frame: &mut Frame<'a>,
    at: Address,
    others: Vec<Address>,
    memo: &mut M,
) -> Result<Option<Unvalued<'a>>, AllocError>
    requires memo { IsMemoOf store.now.sheet (M.state memo.old) }
    requires frame { IsFrame store.now.sheet (M.state memo.old) frame.old }
    requires waiting { frame.old.waiting ≡ waiting.Nothing }
    requires awaits { Awaits store.now.sheet (case_at frame.old.key) frame.old.found
        (waiting.Cells at others) }
    ensures steps { FrameSteps store.now.sheet (M.state memo.old) (M.state memo.new)
        frame.old frame.new 1 (is_ok result) }
    ensures next { IfOk result (λ o. IfSome o
        (IsWaitedFor store.now.sheet (M.state memo.old) frame.new)) }
    ensures settled { result ≡ Ok None → frame.new.waiting ≡ waiting.Nothing }
    ensures all { result ≡ Ok None → (d : ℕ) → is_one_of others.items d ≡ true
        → lacks_cell store.now.sheet frame.new.key.world frame.new.found d ≡ false }
{
    let alloc = pool.allocator();
    let mut others = others;
    let mut at = at;
    'cells: loop {
        match value_now(alloc, store, &frame.key.world, at, memo)? {
            Step::Ready(value) => frame.found.add_cell(at, value, pool)?,
            Step::First(first) => {
                frame.waiting = Waiting::Cells(at, others);
                return Ok(Some(first));
            }
        }
        match next_lacking(store, frame, &mut others) {
            Some(next) => at = next,
            None => return Ok(None),
        }
    }
}

/// Finds the value of a what-if for a frame that waits for nothing else, or gives a cell that has to be evaluated
/// first: that of an input's value, and else its formula cell.
fn resolve_what_if<'a, M: Memo>(
    pool: &mut Pool,
    store: &'a Store,
    frame: &mut Frame<'a>,
    at: Address,
    pairs: Vec<Pair>,
    memo: &mut M,
) -> Result<Option<Unvalued<'a>>, AllocError>
    requires memo { IsMemoOf store.now.sheet (M.state memo.old) }
    requires frame { IsFrame store.now.sheet (M.state memo.old) frame.old }
    requires waiting { frame.old.waiting ≡ waiting.Nothing }
    requires awaits { Awaits store.now.sheet (case_at frame.old.key) frame.old.found
        (waiting.WhatIf at pairs) }
    ensures steps { FrameSteps store.now.sheet (M.state memo.old) (M.state memo.new)
        frame.old frame.new 1 (is_ok result) }
    ensures next { IfOk result (λ o. IfSome o
        (IsWaitedFor store.now.sheet (M.state memo.old) frame.new)) }
    ensures settled { result ≡ Ok None → frame.new.waiting ≡ waiting.Nothing }
{
    let alloc = pool.allocator();
    match world_of_what_if(alloc, store, &frame.key.world, &pairs, memo)? {
        Step::First(first) => {
            frame.waiting = Waiting::WhatIf(at, pairs);
            Ok(Some(first))
        }
        Step::Ready(world) => match value_now(alloc, store, &world, at, memo)? {
            Step::First(first) => {
                frame.waiting = Waiting::WhatIf(at, pairs);
                Ok(Some(first))
            }
            Step::Ready(value) => {
                frame
                    .found
                    .add_what_if(FoundWhatIf { at, pairs, value }, pool)?;
                Ok(None)
            }
        },
    }
}

/// Finds what a frame waits for, or gives a cell that has to be evaluated first.
fn resolve<'a, M: Memo>(
    pool: &mut Pool,
    store: &'a Store,
    frame: &mut Frame<'a>,
    memo: &mut M,
) -> Result<Option<Unvalued<'a>>, AllocError>
    requires memo { IsMemoOf store.now.sheet (M.state memo.old) }
    requires frame { IsFrame store.now.sheet (M.state memo.old) frame.old }
    ensures steps { FrameSteps store.now.sheet (M.state memo.old) (M.state memo.new)
        frame.old frame.new 0 (is_ok result) }
    ensures next { IfOk result (λ o. IfSome o
        (IsWaitedFor store.now.sheet (M.state memo.old) frame.new)) }
    ensures settled { result ≡ Ok None → frame.new.waiting ≡ waiting.Nothing }
{
    match mem::replace(&mut frame.waiting, Waiting::Nothing) {
        Waiting::Nothing => Ok(None),
        Waiting::Cells(at, others) => resolve_cells(pool, store, frame, at, others, memo),
        Waiting::WhatIf(at, pairs) => resolve_what_if(pool, store, frame, at, pairs, memo),
    }
}

/// Lets a frame wait for what its formula lacks: for a cell, with those that are found together with it.
fn wait_for(pool: &mut Pool, store: &Store, frame: &mut Frame, want: Want) -> Result<(), AllocError>
    requires asks { AsksAt store.now.sheet frame.old.key.world frame.old.key.cell want }
    requires lacking { IsLacking store.now.sheet frame.old.key.world frame.old.found want }
    requires formula { StandsAt store.now.sheet frame.old.key frame.old.formula.now }
    ensures awaits { FrameWaits store.now.sheet frame.old frame.new (is_ok result) }
    ensures waits { OnOk result (waits frame.new.waiting ≡ 1) }
{
    match want {
        Want::Cell(at) => {
            let Batch { cells, scan } = together(pool.allocator(), store, frame, at)?;
            if let Some(scan) = scan {
                frame.keep_scan(scan, pool)?;
            }
            frame.waiting = Waiting::Cells(at, cells);
            Ok(())
        }
        Want::WhatIf(at, pairs) => {
            frame.waiting = Waiting::WhatIf(at, pairs);
            Ok(())
        }
    }
}

/// Goes on with a frame until its value is there or another has to be found first.
pub(crate) fn advance<'a, M: Memo>(
    pool: &mut Pool,
    store: &'a Store,
    frame: &mut Frame<'a>,
    memo: &mut M,
    meter: &mut Meter,
) -> Result<Step<'a, Value>, AllocError>
    requires memo { IsMemoOf store.now.sheet (M.state memo.old) }
    requires frame { IsFrame store.now.sheet (M.state memo.old) frame.old }
    ensures steps { FrameSteps store.now.sheet (M.state memo.old) (M.state memo.new)
        frame.old frame.new (meter.new.restarts - meter.old.restarts) (is_ok result) }
    ensures gives { IfOk result
        (IsAdvanceOf store.now.sheet (M.state memo.old) frame.old frame.new meter.old meter.new) }
    ensures counts { FrameCounts store.now.sheet frame.old meter.old meter.new (is_ok result) }
{
    if let Some(ahead) = look_ahead(pool, store, frame, memo)? {
        return Ok(Step::First(ahead));
    }
    'rounds: loop {
        if let Some(first) = resolve(pool, store, frame, memo)? {
            return Ok(Step::First(first));
        }
        match attempt(pool.allocator(), store, frame, meter)? {
            Outcome::Done(value) => return Ok(Step::Ready(value)),
            Outcome::Needs(want) => wait_for(pool, store, frame, want)?,
        }
    }
}

/// Whether a frame waits for the value of a cell.
fn waits_for_cell(frame: &Frame) -> bool
    ensures { result ≡ is_of_cell frame.now.waiting }
{
    match &frame.waiting {
        Waiting::Nothing => false,
        Waiting::Cells(_, _) => true,
        Waiting::WhatIf(_, _) => false,
    }
}

/// Lets a frame that waits for nothing wait for the next of these cells that it lacks, if it lacks one.
fn wait_for_others(store: &Store, frame: &mut Frame, others: Vec<Address>)
    requires waiting { frame.old.waiting ≡ waiting.Nothing }
    requires read { AreReadHere store.now.sheet (case_at frame.old.key) others.items }
    ensures { FrameWaits store.now.sheet frame.old frame.new true }
{
    let mut others = others;
    if let Some(next) = next_lacking(store, frame, &mut others) {
        frame.waiting = Waiting::Cells(next, others);
    }
}

/// Takes in the value that was found for a key, where a frame waits for its cell, so that it isn't looked up. The frame
/// then waits for the next cell that it lacks.
pub(crate) fn take_in(
    pool: &mut Pool,
    store: &Store,
    frame: &mut Frame,
    key: &Key,
    value: &Value,
) -> Result<(), AllocError>
    requires awaits { Awaits store.now.sheet
        (case_at frame.old.key) frame.old.found frame.old.waiting }
    requires awaited { IsAwaited store.now.sheet frame.old.key.world frame.old.waiting key.now }
    requires right { value.now
        ≡ values.cell_value (put_all store.now.sheet key.now.world) key.now.cell }
    ensures { FrameTakes store.now.sheet key.now frame.old frame.new (is_ok result) }
{
    if !waits_for_cell(frame) {
        return Ok(());
    }
    let Waiting::Cells(at, others) = mem::replace(&mut frame.waiting, Waiting::Nothing) else {
        unreachable!()
    };
    let shown = value.copy(pool.allocator())?;
    frame.found.add_cell(at, shown, pool)?;
    wait_for_others(store, frame, others);
    Ok(())
}
