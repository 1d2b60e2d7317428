//! Calls of calculators where memory is refused: all is as it was, and the same call once more does what it should.
//!
//! `rt try --test --fail-alloc N` refuses the Nth growth, and so one at most in a test. `rt test` and the gate refuse
//! none: there these tests show that each call succeeds at once. So of two passes at least one must succeed at once, or
//! a call was refused as out of memory though there is memory.

ghost use Rattle.std.specs.Prelude.{◌≤◌};

use crate::calls::{CELLS, Call};
use crate::kept::is_answered;
use std::alloc::Global;
use std::process::Abort;

fn expect_answered(rt: &impl Abort, alloc: Global, keep: usize, call: Call<'_>)
    requires { 1 ≤ keep }
{
    let at_once = is_answered(rt, alloc, keep, CELLS, call);
    assert!(rt; at_once || is_answered(rt, alloc, keep, CELLS, call));
}

#[test]
fn of_questions(rt: HostRuntime) {
    expect_answered(&rt, rt.alloc(), 50, Call::Question);
}

/// The value that came last is kept.
#[test]
fn of_questions_where_one_value_is_kept(rt: HostRuntime) {
    expect_answered(&rt, rt.alloc(), 1, Call::Question);
}

#[test]
fn of_entries(rt: HostRuntime) {
    expect_answered(&rt, rt.alloc(), 50, Call::Entry);
}

#[test]
fn of_edits(rt: HostRuntime) {
    expect_answered(&rt, rt.alloc(), 50, Call::Edit);
}

#[test]
fn of_edits_of_cycles(rt: HostRuntime) {
    expect_answered(&rt, rt.alloc(), 50, Call::Cycle);
}

#[test]
fn of_questions_under_replacements(rt: HostRuntime) {
    expect_answered(&rt, rt.alloc(), 50, Call::Replaced);
}

#[test]
fn of_marks(rt: HostRuntime) {
    expect_answered(&rt, rt.alloc(), 50, Call::Mark);
}
