//! One formula's value.

ghost use Rattle.std.specs.Prelude.{◌≡◌, map, IfOk, IfSome, OnErr, MatchResult};
ghost use Rattle.wi_parser.specs.View.{tree_of, all_of, pair_of};
ghost use Rattle.wi_parser.specs.Tree.{cell, rectangle, signed, percent, binary, call};
ghost use Rattle.wi_parser.specs.Tree.{what_if as what_if_tree};
ghost use Rattle.wi_standard_functions.specs.Arguments.{value_or};
ghost use Rattle.wi_value_functions.specs.Applied.{applied_to_arguments};
ghost use Rattle.wi_value_functions.specs.declared.function.Function.TheVariants.{Lazy};
ghost use Rattle.wi_arguments.specs.Arguments.{arguments_in};
ghost use Rattle.wi_functions.specs.Meaning as formulas;
ghost use Rattle.wi_functions.specs.Operators as operators;
ghost use Rattle.wi_functions.specs.Counts.{counted};
ghost use Rattle.wi_functions.specs.Evaluation.{ByAll, IsOutcomeOf};
ghost use Rattle.wi_functions.specs.Inner.Calls.{values_of, ReferInside};
ghost use Rattle.wi_functions.specs.Inner.Parts.{of_tree, of_parameters, mapped, stopped};
ghost use Rattle.wi_functions.specs.Inner.Parts.{EvaluatesAs, Evaluates};

use crate::choice::{Choice, choose};
use crate::meter::Meter;
use crate::operators::{hundredth, operate, with_sign};
use crate::references::{referred, value_of_references};
use std::alloc::{AllocError, Global};
use wi_arguments::{Argument, LookedUp, Lookup};
use wi_parser::{Corners, Expr, Formula, Operator, Pair, Reference, Sign};
use wi_value_functions::{Function, LazyFunction, Stop, function_for, value_of_values, zero};
use wi_values::{Address, ErrorKind, Text, Value};

/// What an evaluation can't go on without.
#[derive(Drop)]
pub enum Want {
    Cell(Address),
    /// The value of the formula cell, if each input had the value of its replacement cell.
    WhatIf(Address, Vec<Pair>),
}

/// How an evaluation ends.
#[derive(Drop)]
pub enum Outcome {
    Done(Value),
    Needs(Want),
}

/// A function that stops at a cell whose value isn't known wants that cell.
fn stopped(stop: Stop<Address>) -> Stop<Want>
    ensures { result ≡ stopped stop }
{
    match stop {
        Stop::Missing(at) => Stop::Missing(Want::Cell(at)),
        Stop::Memory => Stop::Memory,
    }
}

/// A formula's value, in which Empty becomes 0, or what is missing for it. The first is counted as
/// an evaluation, the second as a restart. Memory is needed for the texts that are copied and
/// joined, and for what is missing; where memory runs out nothing is counted.
pub fn evaluate<L: Lookup>(
    alloc: Global,
    formula: &Formula,
    lookup: &L,
    meter: &mut Meter,
) -> Result<Outcome, AllocError>
    // The value is what all assignments that agree with what is known make of the formula.
    ensures outcome { IfOk result
        (IsOutcomeOf L.known_cell L.known_what_if lookup.now formula.now) }
    ensures counted { IfOk result (λ o. meter.new ≡ counted o meter.old) }
    ensures err { OnErr result (meter.new ≡ meter.old) }
{
    match value_of(alloc, formula.tree(), lookup) {
        Ok(value) => {
            meter.count_evaluation();
            Ok(Outcome::Done(zero_for_empty(value)))
        }
        Err(Stop::Missing(want)) => {
            meter.count_restart();
            Ok(Outcome::Needs(want))
        }
        Err(Stop::Memory) => Err(AllocError),
    }
}

/// A formula's result, in which Empty becomes 0.
pub fn zero_for_empty(value: Value) -> Value
    ensures { result ≡ formulas.zero_for_empty value }
{
    match value {
        Value::Empty => Value::Number(zero()),
        other => other,
    }
}

/// An expression's value. What each kind of expression needs of the stack stands in a function of
/// its own, so that a level of a long chain needs little.
#[cycle(evaluating)]
#[inline(never)]
fn value_of<L: Lookup>(alloc: Global, expr: &Expr, lookup: &L) -> Result<Value, Stop<Want>>
    ensures { Evaluates L.known_cell L.known_what_if lookup.now result
        (of_tree (tree_of expr.now)) }
{
    match expr {
        Expr::Number(x) => Ok(Value::Number(*x)),
        Expr::Text(text) => text_value(text),
        Expr::Cell(reference) => cell_value(alloc, *reference, lookup),
        Expr::Rectangle(corners) => rectangle_value(alloc, *corners, lookup),
        Expr::Parenthesized(inner) => value_of(alloc, inner, lookup),
        Expr::Signed(sign, inner) => signed_value(alloc, *sign, inner, lookup),
        Expr::Percent(inner) => percent_value(alloc, inner, lookup),
        Expr::Binary(operator, operands) => {
            if let Some(x) = lent(&operands.0, lookup) {
                return with_right_operand(alloc, *operator, x, &operands.1, lookup);
            }
            binary_value(alloc, *operator, &operands.0, &operands.1, lookup)
        }
        Expr::WhatIf(what_if) => {
            what_if_value(alloc, what_if.formula_cell, &what_if.pairs, lookup)
        }
        Expr::Call(call) => call_value(alloc, &call.0, &call.1, lookup),
    }
}

/// The value of an expression after a sign.
#[cycle(evaluating)]
#[inline(never)]
fn signed_value<L: Lookup>(
    alloc: Global,
    sign: Sign,
    inner: &Expr,
    lookup: &L,
) -> Result<Value, Stop<Want>>
    ensures { Evaluates L.known_cell L.known_what_if lookup.now result
        (of_tree (signed sign (tree_of inner.now))) }
{
    let x = value_of(alloc, inner, lookup)?;
    Ok(with_sign(sign, x))
}

/// The value of an expression before a percent sign.
#[cycle(evaluating)]
#[inline(never)]
fn percent_value<L: Lookup>(alloc: Global, inner: &Expr, lookup: &L) -> Result<Value, Stop<Want>>
    ensures { Evaluates L.known_cell L.known_what_if lookup.now result
        (of_tree (percent (tree_of inner.now))) }
{
    let x = value_of(alloc, inner, lookup)?;
    Ok(hundredth(&x))
}

/// The value of two expressions with an operator between them.
#[cycle(evaluating)]
#[inline(never)]
fn binary_value<L: Lookup>(
    alloc: Global,
    operator: Operator,
    left: &Expr,
    right: &Expr,
    lookup: &L,
) -> Result<Value, Stop<Want>>
    ensures { Evaluates L.known_cell L.known_what_if lookup.now result
        (of_tree (binary operator (tree_of left.now) (tree_of right.now))) }
{
    let x = value_of(alloc, left, lookup)?;
    with_right_operand(alloc, operator, &x, right, lookup)
}

/// The value of an operator between a value and an expression.
#[cycle(evaluating)]
#[inline(never)]
fn with_right_operand<L: Lookup>(
    alloc: Global,
    operator: Operator,
    left: &Value,
    right: &Expr,
    lookup: &L,
) -> Result<Value, Stop<Want>>
    ensures { Evaluates L.known_cell L.known_what_if lookup.now result
        (mapped (operators.operate operator left.now) (of_tree (tree_of right.now))) }
{
    if let Some(y) = lent(right, lookup) {
        return operate(alloc, operator, left, y);
    }
    if let Expr::Number(y) = right {
        return operate(alloc, operator, left, &Value::Number(*y));
    }
    let y = value_of(alloc, right, lookup)?;
    operate(alloc, operator, left, &y)
}

/// A call's value. Which function it calls, and whether that takes so many parameters, comes before
/// any of them.
#[cycle(evaluating)]
#[inline(never)]
fn call_value<L: Lookup>(
    alloc: Global,
    name: &Text,
    parameters: &[Expr],
    lookup: &L,
) -> Result<Value, Stop<Want>>
    ensures { Evaluates L.known_cell L.known_what_if lookup.now result
        (of_tree (call name.now (all_of parameters.now))) }
{
    match function_for(name.as_str(), parameters.len()) {
        Err(error) => Ok(Value::Fault(error)),
        Ok(Function::Lazy(function)) => lazy_value(alloc, function, parameters, lookup),
        Ok(Function::Values(function)) => {
            let values = all_values(alloc, parameters, lookup)?;
            Ok(value_of_values(alloc, function, &values)?)
        }
        Ok(Function::References(function)) => {
            let arguments = all_arguments(alloc, parameters, lookup)?;
            match value_of_references(alloc, function, &arguments, lookup) {
                Ok(value) => Ok(value),
                Err(stop) => Err(stopped(stop)),
            }
        }
    }
}

/// What a function gives that evaluates its first parameter, and then the one that this chooses and
/// no other.
#[cycle(evaluating)]
fn lazy_value<L: Lookup>(
    alloc: Global,
    function: LazyFunction,
    parameters: &[Expr],
    lookup: &L,
) -> Result<Value, Stop<Want>>
    ensures { Evaluates L.known_cell L.known_what_if lookup.now result
        (mapped (applied_to_arguments (Lazy function)) (of_parameters (all_of parameters.now))) }
{
    let first = parameter_or(alloc, parameters, 0, Value::Empty, lookup)?;
    match choose(function, first, parameters.len()) {
        Choice::Value(value) => Ok(value),
        Choice::Parameter(place, default) => {
            parameter_or(alloc, parameters, place, default, lookup)
        }
    }
}

/// The value of the parameter at a place, counted from 0, or else the default.
#[cycle(evaluating)]
#[inline(always)]
fn parameter_or<L: Lookup>(
    alloc: Global,
    parameters: &[Expr],
    place: usize,
    default: Value,
    lookup: &L,
) -> Result<Value, Stop<Want>>
    ensures { Evaluates L.known_cell L.known_what_if lookup.now result
        (mapped (λ args. value_or default args place) (of_parameters (all_of parameters.now))) }
{
    match parameters.get(place) {
        Some(parameter) => value_of(alloc, parameter, lookup),
        None => Ok(default),
    }
}

/// The values of all parameters.
#[cycle(evaluating)]
#[inline(never)]
fn all_values<L: Lookup>(
    alloc: Global,
    parameters: &[Expr],
    lookup: &L,
) -> Result<Vec<Value>, Stop<Want>>
    ensures { EvaluatesAs L.known_cell L.known_what_if lookup.now result (λ _ vs. vs.items)
        (mapped values_of (of_parameters (all_of parameters.now))) }
{
    let mut values = Vec::new(alloc);
    for parameter in parameters {
        values.push(value_of(alloc, parameter, lookup)?)?;
    }
    Ok(values)
}

/// All parameters as arguments: those that are references as they are, and the values of the
/// others.
#[cycle(evaluating)]
#[inline(never)]
fn all_arguments<L: Lookup>(
    alloc: Global,
    parameters: &[Expr],
    lookup: &L,
) -> Result<Vec<Argument>, Stop<Want>>
    ensures meant { EvaluatesAs L.known_cell L.known_what_if lookup.now result
        (λ a args. arguments_in a.cells args.items) (of_parameters (all_of parameters.now)) }
    ensures refers { IfOk result (λ args. ReferInside args.items (all_of parameters.now)) }
{
    let mut arguments = Vec::new(alloc);
    for parameter in parameters {
        let argument = match referred(parameter) {
            Some(area) => Argument::Reference(area),
            None => Argument::Value(value_of(alloc, parameter, lookup)?),
        };
        arguments.push(argument)?;
    }
    Ok(arguments)
}

/// A text's value.
#[inline(never)]
fn text_value(text: &Text) -> Result<Value, Stop<Want>>
    ensures { MatchResult result (λ v. v ≡ Value.Text text.now) (λ s. s ≡ Stop.Memory) }
{
    Ok(Value::Text(text.copy()?))
}

/// A cell's value.
#[inline(never)]
fn cell_value<L: Lookup>(
    alloc: Global,
    reference: Reference,
    lookup: &L,
) -> Result<Value, Stop<Want>>
    ensures { Evaluates L.known_cell L.known_what_if lookup.now result (of_tree (cell reference)) }
{
    match lookup.cell(reference.at) {
        LookedUp::Known(value) => Ok(value.copy(alloc)?),
        LookedUp::Missing => Err(Stop::Missing(Want::Cell(reference.at))),
    }
}

/// The value of an expression that is a cell, where that is known, so that an operator takes it as it is lent.
fn lent<'a, L: Lookup>(expr: &Expr, lookup: &'a L) -> Option<&'a Value>
    ensures { IfSome result (λ v. ByAll L.known_cell L.known_what_if lookup.now
        (λ a. v.now ≡ formulas.meaning (tree_of expr.now) a.cells a.what_ifs)) }
{
    let Expr::Cell(reference) = expr else {
        return None;
    };
    match lookup.cell(reference.at) {
        LookedUp::Known(value) => Some(value),
        LookedUp::Missing => None,
    }
}

/// The value of a rectangle of one cell. A larger one has none, and none of its cells is asked for.
#[inline(never)]
fn rectangle_value<L: Lookup>(
    alloc: Global,
    corners: Corners,
    lookup: &L,
) -> Result<Value, Stop<Want>>
    ensures { Evaluates L.known_cell L.known_what_if lookup.now result
        (of_tree (rectangle corners)) }
{
    if corners.one.at == corners.other.at {
        return cell_value(alloc, corners.one, lookup);
    }
    Ok(Value::Fault(ErrorKind::BadValue))
}

/// A what-if's value.
#[inline(never)]
fn what_if_value<L: Lookup>(
    alloc: Global,
    formula_cell: Reference,
    pairs: &[Pair],
    lookup: &L,
) -> Result<Value, Stop<Want>>
    ensures { Evaluates L.known_cell L.known_what_if lookup.now result
        (of_tree (what_if_tree formula_cell (map pair_of pairs.now))) }
{
    match lookup.what_if(formula_cell.at, pairs) {
        LookedUp::Known(value) => Ok(value.copy(alloc)?),
        LookedUp::Missing => Err(Stop::Missing(Want::WhatIf(
            formula_cell.at,
            Vec::from_slice(alloc, pairs)?,
        ))),
    }
}
