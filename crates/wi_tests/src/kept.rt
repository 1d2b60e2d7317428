//! The calculator that keeps values.

ghost use Rattle.std.specs.Prelude.{◌≤◌};

use crate::calls::{Call, expect_filled};
use std::alloc::Global;
use std::process::Abort;
use wi_propagate::KeptCalculator;
use wi_store::Limits;

/// Whether a call is answered at once by a sheet that keeps so many values, and whose cells have these contents. It
/// isn't where there is no memory for these.
pub fn is_answered(rt: &impl Abort, alloc: Global, keep: usize, texts: &str, call: Call<'_>) -> bool
    requires { 1 ≤ keep }
{
    let Ok(mut sheet) = KeptCalculator::new(alloc, Limits::standard(), keep) else {
        return false;
    };
    let at_once = expect_filled(rt, alloc, &mut sheet, texts, call);
    drop(sheet);
    at_once
}

const WHAT_IF: &str = "B1 10, B2 =[.B1]*3, A4 7, C4 =MULTIPLE.OPERATIONS([.B2];[.B1];[.A4])";

/// As many values as the program's words let it keep.
const MOST: usize = 1_000_000;

#[test]
fn cells_with_no_content(rt: HostRuntime) {
    let call = Call::Occupied(&[("C1", true), ("D1", false)]);
    assert!(rt; is_answered(&rt, rt.alloc(), MOST, "C1 =1", call));
}

/// Those that read one of the given at any remove, and the given.
#[test]
fn marked_cells(rt: HostRuntime) {
    let call = Call::Marked(&[
        ("", ""),
        ("B1", "B1 B2 C4"),
        ("A4", "A4 C4"),
        ("C4 A4 C4", "A4 C4"),
        ("B3", "B3"),
    ]);
    assert!(rt; is_answered(&rt, rt.alloc(), 50, WHAT_IF, call));
}

#[test]
fn occupied_cells(rt: HostRuntime) {
    let call = Call::Next(&[
        ("A1:C3", "A1", "B1"),
        ("A1:C3", "C1", "B2"),
        ("A1:C3", "C2", "-"),
        ("A4:C9", "A1", "A4"),
    ]);
    assert!(rt; is_answered(&rt, rt.alloc(), 50, WHAT_IF, call));
}
