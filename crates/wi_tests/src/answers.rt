//! What calculators are asked, and what they are to answer. A call that is refused as out of memory is made again; what
//! is asked so tells whether it was answered at once, as it must be where no memory is refused.

ghost use Rattle.wi_values.specs.Replacements.{IsInOrder};

use crate::cells::{area, cell, changes};
use crate::texts::expect_that;
use std::alloc::{AllocError, Global};
use std::process::Abort;
use wi_propagate::Calculator;
use wi_store::StoreFault;
use wi_values::{Address, Replacement, Value};

/// Puts contents into cells by one edit, where there is memory for them.
fn edit<C: Calculator>(
    rt: &impl Abort,
    alloc: Global,
    calculator: &mut C,
    texts: &str,
) -> Option<Result<(), StoreFault>> {
    Some(calculator.apply(changes(rt, alloc, texts)?))
}

/// Fills cells by one edit, which is accepted where there is memory.
pub fn fill<C: Calculator>(
    rt: &impl Abort,
    alloc: Global,
    calculator: &mut C,
    texts: &str,
) -> Option<()> {
    edit(rt, alloc, calculator, texts)?.ok()
}

/// Whether cells have a content.
pub fn expect_occupied<C: Calculator>(rt: &impl Abort, calculator: &C, rows: &[(&str, bool)]) {
    for (at, wanted) in rows {
        let content = calculator.content(cell(rt, at));
        expect_that(rt, content.is_some() == *wanted, at);
    }
}

/// The next occupied cell of a rectangle, from a cell on, or a dash.
pub fn expect_next<C: Calculator>(rt: &impl Abort, calculator: &C, rows: &[(&str, &str, &str)]) {
    for (within, from, wanted) in rows {
        let next = calculator.next_occupied(area(rt, within), cell(rt, from));
        expect_that(rt, next == Address::read(wanted.as_bytes()).ok(), from);
    }
}

/// Which cells are marked where some change. Tells whether it was answered at once.
pub fn expect_marked<C: Calculator>(
    rt: &impl Abort,
    calculator: &C,
    edited: &[Address],
    wanted: &[Address],
) -> bool {
    let mut at_once = true;
    let marked = match calculator.mark(edited) {
        Ok(marked) => marked,
        Err(_) => {
            at_once = false;
            calculator.mark(edited).expect(rt, "marked")
        }
    };
    assert!(rt; marked.as_slice() == wanted);
    at_once
}

fn truth(value: Value) -> Option<bool> {
    match value {
        Value::Logical(truth) => Some(truth),
        _ => None,
    }
}

/// The truth value that a cell shows, or the entry of a data table with these pairs and this formula cell.
fn ask<C: Calculator>(
    calculator: &mut C,
    at: Address,
    pairs: &[(Address, Address)],
) -> Result<Option<bool>, AllocError> {
    let value = if pairs.is_empty() {
        calculator.value(&[], at)?
    } else {
        calculator.what_if_value(&[], at, pairs)?
    };
    Ok(truth(value))
}

/// What a question was answered, and whether at once.
#[derive(Clone, Copy)]
struct Answer {
    truth: Option<bool>,
    at_once: bool,
}

/// What `ask` answers, and whether at once. Where memory is refused, it asks again; then there is memory.
fn asked<C: Calculator>(
    rt: &impl Abort,
    calculator: &mut C,
    at: Address,
    pairs: &[(Address, Address)],
) -> Answer {
    match ask(calculator, at, pairs) {
        Ok(truth) => Answer {
            truth,
            at_once: true,
        },
        Err(_) => Answer {
            truth: ask(calculator, at, pairs).expect(rt, "an answer"),
            at_once: false,
        },
    }
}

/// What a cell shows under replacements. Tells whether it was answered at once.
pub fn expect_under<C: Calculator>(
    rt: &impl Abort,
    calculator: &mut C,
    replacements: &[Replacement],
    at: Address,
    wanted: bool,
) -> bool
    requires { IsInOrder replacements.now }
{
    let mut at_once = true;
    let value = match calculator.value(replacements, at) {
        Ok(value) => value,
        Err(_) => {
            at_once = false;
            calculator.value(replacements, at).expect(rt, "a value")
        }
    };
    expect_that(rt, truth(value) == Some(wanted), "under replacements");
    at_once
}

/// That a cell shows no truth value. Tells whether it was answered at once.
pub fn expect_no_truth<C: Calculator>(rt: &impl Abort, calculator: &mut C, at: Address) -> bool {
    let answer = asked(rt, calculator, at, &[]);
    expect_that(rt, answer.truth.is_none(), "no truth value");
    answer.at_once
}

/// What is answered with no evaluation. Tells whether it was answered at once.
fn expect_looked_up<C: Calculator>(
    rt: &impl Abort,
    calculator: &mut C,
    at: Address,
    pairs: &[(Address, Address)],
    wanted: bool,
) -> bool {
    let before = calculator.evaluations();
    let answer = asked(rt, calculator, at, pairs);
    expect_that(rt, answer.truth == Some(wanted), "the answer");
    expect_that(rt, calculator.evaluations() == before, "no evaluation");
    answer.at_once
}

/// What is answered, and again with no evaluation. Tells whether both were answered at once.
pub fn expect_kept<C: Calculator>(
    rt: &impl Abort,
    calculator: &mut C,
    at: Address,
    pairs: &[(Address, Address)],
    wanted: bool,
) -> bool {
    let answer = asked(rt, calculator, at, pairs);
    expect_that(rt, answer.truth == Some(wanted), "the first answer");
    let looked_up_at_once = expect_looked_up(rt, calculator, at, pairs, wanted);
    answer.at_once && looked_up_at_once
}

/// An edit that was refused as out of memory: D4 has no content and C4 is looked up as FALSE.
fn expect_unedited<C: Calculator>(rt: &impl Abort, calculator: &mut C, fault: StoreFault) {
    expect_that(rt, fault == StoreFault::Memory, "memory");
    expect_occupied(rt, calculator, &[("D4", false)]);
    expect_looked_up(rt, calculator, cell(rt, "C4"), &[], false);
}

/// An edit. Where memory is refused, nothing is edited, and the edit is made again. Tells whether it was made at once,
/// or nothing where there is no memory for what it puts in.
pub fn expect_edit<C: Calculator>(
    rt: &impl Abort,
    alloc: Global,
    calculator: &mut C,
    texts: &str,
) -> Option<bool> {
    match edit(rt, alloc, calculator, texts)? {
        Ok(()) => Some(true),
        Err(fault) => {
            expect_unedited(rt, calculator, fault);
            fill(rt, alloc, calculator, texts).expect(rt, texts);
            Some(false)
        }
    }
}

/// An edit of a sheet where a cell shows no truth value. Where memory is refused, it still shows none, and the edit is
/// made again. Tells whether it was made at once, or nothing where there is no memory for what it puts in.
pub fn expect_edit_of_cycle<C: Calculator>(
    rt: &impl Abort,
    alloc: Global,
    calculator: &mut C,
    at: Address,
    texts: &str,
) -> Option<bool> {
    match edit(rt, alloc, calculator, texts)? {
        Ok(()) => Some(true),
        Err(fault) => {
            expect_that(rt, fault == StoreFault::Memory, "memory");
            expect_no_truth(rt, calculator, at);
            fill(rt, alloc, calculator, texts).expect(rt, texts);
            Some(false)
        }
    }
}
