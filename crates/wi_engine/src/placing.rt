//! Plans whose formulas are placed: each reference is a place in the list of the values so far, or a constant.

ghost use Rattle.std.specs.Prelude.{ℕ, List, IfOk, IfSome, OnOk};
ghost use Rattle.wi_parser.specs.View.{tree_of, all_of};
ghost use Rattle.wi_parser.specs.Tree.{binary, call, cell, percent, signed};
ghost use Rattle.wi_engine.specs.Inner.Placing.{AreNumbered, ArePlacedAs, ArePlacedFor, IsNumberedMore, IsPlacedAs, IsPlacedFormula, IsPlacedPlan, plain_reference};

use crate::content_ref::{ContentRef, formula_at, stored};
use crate::plan::{Plan, Planned};
use std::alloc::{AllocError, Global};
use std::collections::BTreeMap;
use wi_functions::{Placed, placed_call};
use wi_parser::{Expr, Operator, Sign};
use wi_store::Store;
use wi_values::{Address, ErrorKind, Text, Value};

/// A cell of a plan, with its formula over the values of the inputs and of the cells before it.
#[derive(Drop)]
pub struct PlacedCell {
    pub planned: Planned,
    /// None where the value is given.
    pub formula: Option<Placed>,
}

/// The formulas of a plan over places. The first places are those of the inputs, and the others those of the cells, in
/// the plan's order.
#[derive(Drop)]
pub struct PlacedPlan {
    pub cells: Vec<PlacedCell>,
    pub root: Placed,
}

/// The places of the cells whose values stand in a list, each counted from 0.
#[derive(Drop)]
struct Numbering {
    by_cell: BTreeMap<Address, usize>,
    count: usize,
}

impl Numbering {
    /// Takes the next place for a cell. No memory has room for more places than can be counted.
    fn add(&mut self, at: Address) -> Result<(), AllocError>
        ensures { OnOk result (IsNumberedMore self.old self.new at) }
    {
        let Some(count) = self.count.checked_add(1) else {
            return Err(AllocError);
        };
        self.by_cell.insert(at, self.count)?;
        self.count = count;
        Ok(())
    }
}

/// A plan's formulas over places. None where one of them has a what-if, a function that takes references, or a
/// reference to a cell with a formula that is neither an input nor stands before. The formulas are gone through once:
/// each reference takes a look-up among the places, and where it has none one in the sheet.
pub(crate) fn placed_plan(
    alloc: Global,
    store: &Store,
    inputs: &[Address],
    root: Address,
    cells: &[Planned],
) -> Result<Option<PlacedPlan>, AllocError>
    ensures { IfOk result (λ o. IfSome o (λ p.
        IsPlacedPlan store.now.sheet inputs.now root cells.now p)) }
{
    let mut places = Numbering {
        by_cell: BTreeMap::new(alloc),
        count: 0,
    };
    for input in inputs {
        places.add(*input)?;
    }
    let mut placed = Vec::new(alloc);
    for planned in cells {
        let Some(cell) = placed_one(alloc, store, &places, *planned)? else {
            return Ok(None);
        };
        placed.push(cell)?;
        places.add(planned.at)?;
    }
    match placed_formula(alloc, store, &places, root)? {
        Some(formula) => Ok(Some(PlacedPlan {
            cells: placed,
            root: formula,
        })),
        None => Ok(None),
    }
}

/// A cell of a plan with its formula placed, unless its value is given.
fn placed_one(
    alloc: Global,
    store: &Store,
    places: &Numbering,
    planned: Planned,
) -> Result<Option<PlacedCell>, AllocError>
    ensures { IfOk result (λ o. IfSome o (λ c. (before : List ℕ)
        → AreNumbered before places.now → ArePlacedFor store.now.sheet before planned c)) }
{
    if planned.is_given {
        return Ok(Some(PlacedCell {
            planned,
            formula: None,
        }));
    }
    match placed_formula(alloc, store, places, planned.at)? {
        Some(formula) => Ok(Some(PlacedCell {
            planned,
            formula: Some(formula),
        })),
        None => Ok(None),
    }
}

/// The formula in a cell over places, if it has one that can be placed.
fn placed_formula(
    alloc: Global,
    store: &Store,
    places: &Numbering,
    at: Address,
) -> Result<Option<Placed>, AllocError>
    ensures { IfOk result (λ o. IfSome o (λ p. (before : List ℕ)
        → AreNumbered before places.now → IsPlacedFormula store.now.sheet before at p)) }
{
    match formula_at(store, at) {
        Some(formula) => placed(alloc, store, places, formula.tree()),
        None => Ok(None),
    }
}

/// An expression over places. The work is linear in the size of the tree, with one look-up for each reference.
#[cycle(placing)]
fn placed(
    alloc: Global,
    store: &Store,
    places: &Numbering,
    expr: &Expr,
) -> Result<Option<Placed>, AllocError>
    ensures { IfOk result (λ o. IfSome o
        (IsPlacedAs store.now.sheet places.now (tree_of expr.now))) }
{
    match expr {
        Expr::Number(x) => Ok(Some(Placed::Constant(Value::Number(*x)))),
        Expr::Text(text) => Ok(Some(Placed::Constant(Value::Text(text.copy()?)))),
        Expr::Cell(reference) => placed_cell(alloc, store, places, reference.at),
        Expr::Rectangle(corners) => {
            if corners.one.at == corners.other.at {
                return placed_cell(alloc, store, places, corners.one.at);
            }
            Ok(Some(Placed::Constant(Value::Fault(ErrorKind::BadValue))))
        }
        Expr::Parenthesized(inner) => placed(alloc, store, places, inner),
        Expr::Signed(sign, inner) => signed(alloc, store, places, *sign, inner),
        Expr::Percent(inner) => percent(alloc, store, places, inner),
        Expr::Binary(operator, operands) => {
            binary(alloc, store, places, *operator, &operands.0, &operands.1)
        }
        Expr::WhatIf(_) => Ok(None),
        Expr::Call(call) => called(alloc, store, places, &call.0, &call.1),
    }
}

/// A placed expression after a sign.
#[cycle(placing)]
fn signed(
    alloc: Global,
    store: &Store,
    places: &Numbering,
    sign: Sign,
    inner: &Expr,
) -> Result<Option<Placed>, AllocError>
    ensures { IfOk result (λ o. IfSome o (IsPlacedAs store.now.sheet places.now
        (signed sign (tree_of inner.now)))) }
{
    match placed(alloc, store, places, inner)? {
        Some(inner) => Ok(Some(Placed::Signed(sign, Box::new(alloc, inner)?))),
        None => Ok(None),
    }
}

/// A placed expression before a percent sign.
#[cycle(placing)]
fn percent(
    alloc: Global,
    store: &Store,
    places: &Numbering,
    inner: &Expr,
) -> Result<Option<Placed>, AllocError>
    ensures { IfOk result (λ o. IfSome o (IsPlacedAs store.now.sheet places.now
        (percent (tree_of inner.now)))) }
{
    match placed(alloc, store, places, inner)? {
        Some(inner) => Ok(Some(Placed::Percent(Box::new(alloc, inner)?))),
        None => Ok(None),
    }
}

/// Two placed expressions with an operator between them.
#[cycle(placing)]
fn binary(
    alloc: Global,
    store: &Store,
    places: &Numbering,
    operator: Operator,
    left: &Expr,
    right: &Expr,
) -> Result<Option<Placed>, AllocError>
    ensures { IfOk result (λ o. IfSome o (IsPlacedAs store.now.sheet places.now
        (binary operator (tree_of left.now) (tree_of right.now)))) }
{
    let Some(x) = placed(alloc, store, places, left)? else {
        return Ok(None);
    };
    let Some(y) = placed(alloc, store, places, right)? else {
        return Ok(None);
    };
    let operands = Box::new(alloc, (x, y))?;
    Ok(Some(Placed::Binary(operator, operands)))
}

/// A call with its parameters placed.
#[cycle(placing)]
fn called(
    alloc: Global,
    store: &Store,
    places: &Numbering,
    name: &Text,
    parameters: &[Expr],
) -> Result<Option<Placed>, AllocError>
    ensures { IfOk result (λ o. IfSome o
        (IsPlacedAs store.now.sheet places.now (call name.now (all_of parameters.now)))) }
{
    match all_placed(alloc, store, places, parameters)? {
        Some(parameters) => Ok(placed_call(name, parameters)),
        None => Ok(None),
    }
}

/// Parameters over places.
#[cycle(placing)]
fn all_placed(
    alloc: Global,
    store: &Store,
    places: &Numbering,
    parameters: &[Expr],
) -> Result<Option<Vec<Placed>>, AllocError>
    ensures { IfOk result (λ o. IfSome o (λ ps.
        ArePlacedAs store.now.sheet places.now (all_of parameters.now) ps.items)) }
{
    let mut all = Vec::new(alloc);
    for parameter in parameters {
        let Some(one) = placed(alloc, store, places, parameter)? else {
            return Ok(None);
        };
        all.push(one)?;
    }
    Ok(Some(all))
}

/// A reference to a cell: its place, or what it shows where it has no formula.
fn placed_cell(
    alloc: Global,
    store: &Store,
    places: &Numbering,
    at: Address,
) -> Result<Option<Placed>, AllocError>
    ensures { IfOk result (λ o. IfSome o (λ p.
        IsPlacedAs store.now.sheet places.now (cell (plain_reference at)) p)) }
{
    if let Some(place) = places.by_cell.get(&at) {
        return Ok(Some(Placed::Place(*place)));
    }
    match stored(store, at) {
        ContentRef::Nothing => Ok(Some(Placed::Constant(Value::Empty))),
        ContentRef::Constant(value) => Ok(Some(Placed::Constant(value.copy(alloc)?))),
        ContentRef::Formula(_) => Ok(None),
    }
}
