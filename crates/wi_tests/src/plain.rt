//! The calculator that keeps nothing.

use crate::calls::{Call, expect_filled};
use std::alloc::Global;
use std::process::Abort;
use wi_propagate::PlainCalculator;
use wi_store::Limits;

/// Whether a call is answered at once by a sheet whose cells have these contents.
fn is_answered(rt: &impl Abort, alloc: Global, texts: &str, call: Call<'_>) -> bool {
    let mut sheet = PlainCalculator::new(alloc, Limits::standard());
    let at_once = expect_filled(rt, alloc, &mut sheet, texts, call);
    drop(sheet);
    at_once
}

#[test]
fn cells_with_no_content(rt: HostRuntime) {
    let call = Call::Occupied(&[("C1", true), ("D1", false)]);
    assert!(rt; is_answered(&rt, rt.alloc(), "C1 =1", call));
}

/// All cells with a formula, and the given one.
#[test]
fn marked_cells(rt: HostRuntime) {
    let call = Call::Marked(&[("B1", "C1 B2 B1")]);
    assert!(rt; is_answered(&rt, rt.alloc(), "B1 10, B2 =[.B1]*3, C1 =1", call));
}

#[test]
fn occupied_cells(rt: HostRuntime) {
    let call = Call::Next(&[
        ("A1:C3", "B1", "B1"),
        ("A1:C3", "C1", "B2"),
        ("A1:C3", "C2", "-"),
    ]);
    assert!(rt; is_answered(&rt, rt.alloc(), "B1 10, B2 =[.B1]*3, A4 7", call));
}
