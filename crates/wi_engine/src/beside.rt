//! The single cells that are found together with one that a formula lacks.
//!
//! A formula that adds a thousand cells would be begun a thousand times if one of them were found each time. But an
//! operator evaluates both operands whatever their values are, and so do most functions with their parameters; SUM and
//! its like take the items of one after another, up to an error. So where one cell is lacking, all are found for which
//! each evaluation asks that an error doesn't end. None is found that stands in one branch alone.

ghost use Rattle.std.specs.Prelude.{◌≡◌, IfOk};
ghost use Rattle.wi_parser.specs.View.{tree_of, all_of};
ghost use Rattle.wi_parser.specs.Tree.{call};
ghost use Rattle.wi_engine.specs.Inner.Sure.{AreSure, FirstIsSure, IsOneSure, IsSure, IsListedWith};

use crate::frame::Frame;
use crate::lacking::is_lacking;
use std::alloc::{AllocError, Global};
use wi_parser::Expr;
use wi_store::Store;
use wi_value_functions::{Function, ReferenceFunction, function_for};
use wi_values::{Address, Text};

/// The cells that a frame lacks and for which each evaluation of its formula asks that an error doesn't end, from the
/// left, and behind them a cell. A walk through the formula's tree finds them, in which each cell costs a look at what
/// stands there and, for a formula, one at what the frame found. It is made where 4 cells were found before, or 8, or
/// 16, and so on: a formula that reads few is soon begun anew, and one walk after another finds nothing new. Else it is
/// that cell alone.
pub(crate) fn with_sure_cells(
    alloc: Global,
    store: &Store,
    frame: &Frame,
    at: Address,
) -> Result<Vec<Address>, AllocError>
    ensures { IfOk result (λ v.
        AreSure store.now.sheet frame.now frame.now.formula.now at v.items) }
{
    let mut cells = Vec::new(alloc);
    if frame.found.has_doubled() {
        push_sure(store, frame, frame.formula.tree(), &mut cells)?;
    }
    cells.push(at)?;
    Ok(cells)
}

/// Appends the cells that a frame lacks and for which each evaluation of an expression asks that an error doesn't end.
#[cycle(walking)]
fn push_sure(
    store: &Store,
    frame: &Frame,
    expr: &Expr,
    cells: &mut Vec<Address>,
) -> Result<(), AllocError>
    ensures { IfOk result (λ _. IsListedWith store.now.sheet frame.now
        (IsSure (tree_of expr.now)) cells.old.items cells.new.items) }
{
    match expr {
        Expr::Number(_) => Ok(()),
        Expr::Text(_) => Ok(()),
        Expr::Cell(reference) => push_lacking(store, frame, reference.at, cells),
        Expr::Rectangle(_) => Ok(()),
        Expr::Parenthesized(inner) => push_sure(store, frame, inner, cells),
        Expr::Signed(_, inner) => push_sure(store, frame, inner, cells),
        Expr::Percent(inner) => push_sure(store, frame, inner, cells),
        Expr::Binary(_, operands) => {
            push_sure(store, frame, &operands.0, cells)?;
            push_sure(store, frame, &operands.1, cells)
        }
        Expr::WhatIf(_) => Ok(()),
        Expr::Call(call) => push_sure_of_call(store, frame, &call.0, &call.1, cells),
    }
}

/// Appends those of a call: of all parameters where the function takes the value of each or folds the items of each,
/// and of the first where this chooses another.
#[cycle(walking)]
#[inline(never)]
fn push_sure_of_call(
    store: &Store,
    frame: &Frame,
    name: &Text,
    parameters: &[Expr],
    cells: &mut Vec<Address>,
) -> Result<(), AllocError>
    ensures { IfOk result (λ _. IsListedWith store.now.sheet frame.now
        (IsSure (call name.now (all_of parameters.now))) cells.old.items cells.new.items) }
{
    match function_for(name.as_str(), parameters.len()) {
        Ok(Function::Lazy(_)) => push_sure_of_first(store, frame, parameters, cells),
        Ok(Function::Values(_)) => push_sure_of_all(store, frame, parameters, cells),
        Ok(Function::References(function)) => match function {
            ReferenceFunction::Fold(_) => push_sure_of_all(store, frame, parameters, cells),
            ReferenceFunction::Lookup(_) => Ok(()),
        },
        Err(_) => Ok(()),
    }
}

/// Appends those of the first of expressions.
#[cycle(walking)]
fn push_sure_of_first(
    store: &Store,
    frame: &Frame,
    exprs: &[Expr],
    cells: &mut Vec<Address>,
) -> Result<(), AllocError>
    ensures { IfOk result (λ _. IsListedWith store.now.sheet frame.now
        (FirstIsSure (all_of exprs.now)) cells.old.items cells.new.items) }
{
    match exprs.first() {
        Some(first) => push_sure(store, frame, first, cells),
        None => Ok(()),
    }
}

/// Appends those of each of expressions.
#[cycle(walking)]
fn push_sure_of_all(
    store: &Store,
    frame: &Frame,
    exprs: &[Expr],
    cells: &mut Vec<Address>,
) -> Result<(), AllocError>
    ensures { IfOk result (λ _. IsListedWith store.now.sheet frame.now
        (IsOneSure (all_of exprs.now)) cells.old.items cells.new.items) }
{
    for expr in exprs {
        push_sure(store, frame, expr, cells)?;
    }
    Ok(())
}

/// Appends a cell, if a frame lacks it.
fn push_lacking(
    store: &Store,
    frame: &Frame,
    at: Address,
    cells: &mut Vec<Address>,
) -> Result<(), AllocError>
    ensures { IfOk result (λ _. IsListedWith store.now.sheet frame.now
        (λ d. at ≡ d) cells.old.items cells.new.items) }
{
    if is_lacking(store, frame, at) {
        cells.push(at)?;
    }
    Ok(())
}
