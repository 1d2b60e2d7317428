//! Values of formulas over two cells and their what-ifs.

use crate::text_spelling::spelled;
use crate::values::{push_value, spelled_value};
use std::alloc::{AllocError, Global};
use wi_arguments::{LookedUp, Lookup, successor};
use wi_functions::{Meter, Outcome, Want, evaluate};
use wi_parser::{Formula, Pair, parse};
use wi_values::{Address, Rect, Value};

/// Knows the values of A1 and B1, and that each what-if of A1 has that of A1 and each of B1 is Empty.
#[derive(Drop)]
struct KnownCells {
    a1: Value,
    b1: Value,
    empty: Value,
}

impl Lookup for KnownCells {
    ghost use Rattle.std.specs.Prelude.{◌==◌, if◌then◌else◌, Some, None};

    ghost known_cell = { λ k a. if a == 0 then Some k.a1 else if a == 1 then Some k.b1 else None };

    ghost known_what_if = { λ k f _. if f == 0 then Some k.a1 else if f == 1 then Some k.empty else None };

    fn cell(&self, at: Address) -> LookedUp<'_> {
        if at == Address::at(0, 0) {
            LookedUp::Known(&self.a1)
        } else if at == Address::at(0, 1) {
            LookedUp::Known(&self.b1)
        } else {
            LookedUp::Missing
        }
    }

    fn what_if(&self, formula_cell: Address, _pairs: &[Pair]) -> LookedUp<'_> {
        if formula_cell == Address::at(0, 0) {
            LookedUp::Known(&self.a1)
        } else if formula_cell == Address::at(0, 1) {
            LookedUp::Known(&self.empty)
        } else {
            LookedUp::Missing
        }
    }

    fn next_value(&self, area: Rect, from: Address) -> Option<(Address, LookedUp<'_>)> {
        let mut ahead = Some(from);
        while let Some(at) = ahead {
            if area.contains(at) && !self.cell(at).is_known_empty() {
                return Some((at, self.cell(at)));
            }
            ahead = successor(at, area.last());
        }
        None
    }
}

fn push_want(want: &Want, line: &mut String) -> Result<(), AllocError> {
    line.push_str("asks for ")?;
    match want {
        Want::Cell(at) => at.push_text(line),
        Want::WhatIf(at, pairs) => {
            at.push_text(line)?;
            let count = pairs.len();
            write!(line, ", pairs: {count}")
        }
    }
}

/// What is known where A1 and B1 have these values.
fn known(a1: Value, b1: Value) -> KnownCells {
    KnownCells {
        a1,
        b1,
        empty: Value::Empty,
    }
}

/// Appends the value of a formula, or what it asks for.
fn push_value_of(
    alloc: Global,
    formula: &Formula,
    known: &KnownCells,
    line: &mut String,
) -> Result<(), AllocError> {
    match evaluate(alloc, formula, known, &mut Meter::new())? {
        Outcome::Done(value) => push_value(&value, line),
        Outcome::Needs(want) => push_want(&want, line),
    }
}

/// Evaluates a formula, and appends what is counted then.
fn push_count(
    alloc: Global,
    formula: &Formula,
    known: &KnownCells,
    meter: &mut Meter,
    line: &mut String,
) -> Result<(), AllocError> {
    drop(evaluate(alloc, formula, known, meter)?);
    let evaluations = meter.evaluations();
    let restarts = meter.restarts();
    write!(line, "evaluations {evaluations}, restarts {restarts} | ")
}

/// Appends what is counted after each of two evaluations of a formula.
fn push_counts(
    alloc: Global,
    formula: &Formula,
    known: &KnownCells,
    line: &mut String,
) -> Result<(), AllocError> {
    let mut meter = Meter::new();
    for _ in 0..2u32 {
        push_count(alloc, formula, known, &mut meter, line)?;
    }
    line.push_str("end")
}

/// Appends the value of a formula, or what its evaluations count.
fn push_evaluated(
    alloc: Global,
    operation: &str,
    formula: &Formula,
    known: &KnownCells,
    line: &mut String,
) -> Result<(), AllocError> {
    match operation {
        "count" => push_counts(alloc, formula, known, line),
        _ => push_value_of(alloc, formula, known, line),
    }
}

/// Appends what the evaluation of the formula of a text gives, or why the text is none.
fn push_of_text(
    alloc: Global,
    operation: &str,
    text: &str,
    known: &KnownCells,
    line: &mut String,
) -> Result<(), AllocError> {
    match parse(alloc, text) {
        Ok(formula) => push_evaluated(alloc, operation, &formula, known, line),
        Err(fault) => write!(line, "{fault}"),
    }
}

/// What is known where parts of a case spell the values of A1 and B1.
fn spelled_cells(alloc: Global, left: &str, right: &str) -> Option<KnownCells> {
    let a1 = spelled_value(alloc, left)?;
    Some(known(a1, spelled_value(alloc, right)?))
}

/// Appends what the evaluation of the formula that a part of a case spells gives, or why it spells none.
fn push_spelled(
    alloc: Global,
    operation: &str,
    part: &str,
    known: &KnownCells,
    line: &mut String,
) -> Option<()> {
    push_of_text(alloc, operation, &spelled(alloc, part)?, known, line).ok()
}

/// Appends what the evaluation of a formula gives, or what it counts, after the values of A1 and B1.
pub fn push(alloc: Global, operation: &str, operands: &str, line: &mut String) -> Option<()> {
    let (left, others) = operands.split_once(' ')?;
    let (right, part) = others.split_once(' ')?;
    let known = spelled_cells(alloc, left, right)?;
    let pushed = push_spelled(alloc, operation, part, &known, line);
    drop(known);
    pushed
}
