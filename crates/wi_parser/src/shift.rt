//! Formulas filled into other cells.

ghost use Rattle.std.specs.Prelude.{◌≡◌, ◌<◌, [], ◌∷◌, map, IfSome, IfOk};
ghost use Rattle.std.specs.List.{list_all, flat_map};
ghost use Rattle.wi_values.specs.Address as spec;
ghost use Rattle.wi_parser.specs.Tree as tree;
ghost use Rattle.wi_parser.specs.Leaves.{all_leaves};
ghost use Rattle.wi_parser.specs.View.{tree_of, all_of, pair_of};
ghost use Rattle.wi_parser.specs.Shift as shift;
ghost use Rattle.wi_parser.specs.Inner.Moves as moves;

use crate::expr::{Corners, Expr, Operator, Pair, Reference, WhatIf, binary, call, text};
use std::alloc::{AllocError, AllocFailed, Global};
use thiserror::Error;
use wi_values::{Address, COLUMNS, ROWS};

/// Why a formula is not filled into another cell.
#[derive(Clone, Copy, Debug, Error)]
pub enum ShiftFault {
    #[error("a reference leaves the sheet")]
    LeavesSheet,
    #[error("there is no memory left")]
    Memory,
}

impl From<AllocError> for ShiftFault {
    ghost use Rattle.wi_parser.specs.declared.shift.ShiftFault.TheVariants.{Memory};

    ghost from_gives = { λ _ e. e ≡ Memory };

    fn from(_error: AllocError) -> ShiftFault {
        ShiftFault::Memory
    }
}

impl<T: Drop> From<AllocFailed<T>> for ShiftFault {
    ghost use Rattle.wi_parser.specs.declared.shift.ShiftFault.TheVariants.{Memory};

    ghost from_gives = { λ _ e. e ≡ Memory };

    fn from(_error: AllocFailed<T>) -> ShiftFault {
        ShiftFault::Memory
    }
}

/// Whether the relative parts of all references stay in the sheet where they move by so many rows and columns.
#[cycle(staying)]
pub(crate) fn all_stay(expr: &Expr, rows: i64, columns: i64) -> bool
    ensures { result ≡ moves.all_references (moves.stays rows columns) (tree_of expr.now) }
{
    match expr {
        Expr::Number(_) => true,
        Expr::Text(_) => true,
        Expr::Cell(r) => stays(r, rows, columns),
        Expr::Rectangle(corners) => {
            stays(&corners.one, rows, columns) && stays(&corners.other, rows, columns)
        }
        Expr::Parenthesized(t) => all_stay(t, rows, columns),
        Expr::Signed(_, t) => all_stay(t, rows, columns),
        Expr::Percent(t) => all_stay(t, rows, columns),
        Expr::Binary(_, operands) => {
            all_stay(&operands.0, rows, columns) && all_stay(&operands.1, rows, columns)
        }
        Expr::WhatIf(w) => {
            stays(&w.formula_cell, rows, columns) && pairs_stay(&w.pairs, rows, columns)
        }
        Expr::Call(c) => each_stays(&c.1, rows, columns),
    }
}

#[cycle(staying)]
fn each_stays(exprs: &[Expr], rows: i64, columns: i64) -> bool
    ensures { result ≡ list_all (moves.stays rows columns)
        (flat_map moves.leaf_references (all_leaves (all_of exprs.now))) }
{
    for expr in exprs {
        if !all_stay(expr, rows, columns) {
            return false;
        }
    }
    true
}

fn pairs_stay(pairs: &[Pair], rows: i64, columns: i64) -> bool
    ensures { result ≡ list_all (moves.stays rows columns)
        (flat_map (λ q. q.0 ∷ q.1 ∷ []) (map pair_of pairs.now)) }
{
    pairs.iter().all(|p| stays(&p.input, rows, columns) && stays(&p.replacement, rows, columns))
}

/// The tree with each reference moved by so many rows and columns.
#[cycle(shift)]
pub(crate) fn shifted(
    alloc: Global,
    expr: &Expr,
    rows: i64,
    columns: i64,
) -> Result<Expr, AllocError>
    ensures { IfOk result
        (λ e. tree_of e ≡ moves.map_references (moves.moved rows columns) (tree_of expr.now)) }
{
    match expr {
        Expr::Number(x) => Ok(Expr::Number(*x)),
        Expr::Text(s) => text(s),
        Expr::Cell(r) => Ok(Expr::Cell(moved(r, rows, columns))),
        Expr::Rectangle(corners) => Ok(Expr::Rectangle(Corners {
            one: moved(&corners.one, rows, columns),
            other: moved(&corners.other, rows, columns),
        })),
        Expr::Parenthesized(t) => Ok(Expr::Parenthesized(boxed(alloc, t, rows, columns)?)),
        Expr::Signed(sign, t) => Ok(Expr::Signed(*sign, boxed(alloc, t, rows, columns)?)),
        Expr::Percent(t) => Ok(Expr::Percent(boxed(alloc, t, rows, columns)?)),
        Expr::Binary(op, operands) => {
            binary_shifted(alloc, *op, &operands.0, &operands.1, rows, columns)
        }
        Expr::WhatIf(w) => what_if(alloc, &w.formula_cell, &w.pairs, rows, columns),
        Expr::Call(c) => call(alloc, &c.0, each_shifted(alloc, &c.1, rows, columns)?),
    }
}

/// A part of a tree, in a box.
#[cycle(shift)]
fn boxed(alloc: Global, expr: &Expr, rows: i64, columns: i64) -> Result<Box<Expr>, AllocError>
    ensures { IfOk result (λ b. tree_of b.value
        ≡ moves.map_references (moves.moved rows columns) (tree_of expr.now)) }
{
    Ok(Box::new(alloc, shifted(alloc, expr, rows, columns)?)?)
}

/// An operator between its operands, both moved. It stands apart so that a level needs little stack.
#[cycle(shift)]
#[inline(never)]
fn binary_shifted(
    alloc: Global,
    op: Operator,
    left: &Expr,
    right: &Expr,
    rows: i64,
    columns: i64,
) -> Result<Expr, AllocError>
    ensures { IfOk result (λ e. tree_of e ≡ moves.map_references (moves.moved rows columns)
        (tree.binary op (tree_of left.now) (tree_of right.now))) }
{
    let left = shifted(alloc, left, rows, columns)?;
    let right = shifted(alloc, right, rows, columns)?;
    binary(alloc, op, left, right)
}

/// The parameters of a call.
#[cycle(shift)]
fn each_shifted(
    alloc: Global,
    exprs: &[Expr],
    rows: i64,
    columns: i64,
) -> Result<Vec<Expr>, AllocError>
    ensures { IfOk result (λ v. all_of v.items
        ≡ moves.map_references_in (moves.moved rows columns) (all_of exprs.now)) }
{
    let mut moved = Vec::new(alloc);
    for expr in exprs {
        moved.push(shifted(alloc, expr, rows, columns)?)?;
    }
    Ok(moved)
}

/// The inputs of a what-if move as the cells do that it reads.
fn what_if(
    alloc: Global,
    f: &Reference,
    pairs: &[Pair],
    rows: i64,
    columns: i64,
) -> Result<Expr, AllocError>
    ensures { IfOk result (λ e. tree_of e ≡ tree.what_if (moves.moved rows columns f.now)
        (map (λ q. (moves.moved rows columns q.0, moves.moved rows columns q.1))
        (map pair_of pairs.now))) }
{
    let formula_cell = moved(f, rows, columns);
    let pairs = moved_pairs(alloc, pairs, rows, columns)?;
    let what_if = WhatIf {
        formula_cell,
        pairs,
    };
    Ok(Expr::WhatIf(Box::new(alloc, what_if)?))
}

fn moved_pairs(
    alloc: Global,
    pairs: &[Pair],
    rows: i64,
    columns: i64,
) -> Result<Vec<Pair>, AllocError>
    ensures { IfOk result (λ v. map pair_of v.items
        ≡ map (λ q. (moves.moved rows columns q.0, moves.moved rows columns q.1))
        (map pair_of pairs.now)) }
{
    let mut all = Vec::new(alloc);
    for pair in pairs {
        all.push(Pair {
            input: moved(&pair.input, rows, columns),
            replacement: moved(&pair.replacement, rows, columns),
        })?;
    }
    Ok(all)
}

#[tactic(auto, unfolding(crate::specs::Inner::Moves::stays))]
fn stays(r: &Reference, rows: i64, columns: i64) -> bool
    ensures { result ≡ moves.stays rows columns r.now }
{
    row_moved(r, rows).is_some() && column_moved(r, columns).is_some()
}

#[tactic(auto, unfolding(crate::specs::Inner::Moves::moved))]
fn moved(r: &Reference, rows: i64, columns: i64) -> Reference
    ensures { result ≡ moves.moved rows columns r.now }
{
    let row = row_moved(r, rows).unwrap_or(0);
    let column = column_moved(r, columns).unwrap_or(0);
    Reference {
        at: Address::at(row, column),
        column_is_absolute: r.column_is_absolute,
        row_is_absolute: r.row_is_absolute,
    }
}

fn row_moved(r: &Reference, rows: i64) -> Option<u32>
    ensures value { result ≡ moves.row_moved rows r.now }
    ensures within { IfSome result (λ k. k < spec.rows) }
{
    part(r.row_is_absolute, ROWS, rows, r.at.row())
}

fn column_moved(r: &Reference, columns: i64) -> Option<u32>
    ensures value { result ≡ moves.column_moved columns r.now }
    ensures within { IfSome result (λ k. k < spec.columns) }
{
    part(r.column_is_absolute, COLUMNS, columns, r.at.column())
}

/// A row or a column of a sheet that has so many, moved unless it is absolute; none outside the sheet.
fn part(is_absolute: bool, size: u32, by: i64, at: u32) -> Option<u32>
    requires { at < size }
    ensures value { result ≡ shift.part is_absolute size by at }
    ensures within { IfSome result (λ k. k < size) }
{
    if is_absolute {
        return Some(at);
    }
    let moved = i64::from(at).checked_add(by)?;
    if moved < 0 || moved >= i64::from(size) {
        return None;
    }
    Some(moved as u32)
}
