//! Calls of a sheet on either calculator. The sheet is lent here, and made and dropped in one place for each
//! calculator: to prove that it is dropped is dear.

use crate::answers::{
    expect_edit, expect_edit_of_cycle, expect_kept, expect_marked, expect_next, expect_no_truth,
    expect_occupied, expect_under, fill,
};
use crate::cells::{cell, cells};
use std::alloc::Global;
use std::process::Abort;
use wi_propagate::Calculator;
use wi_values::{Address, Replacement, Value};

/// B2 is whether B1 is above 5, and C4 whether it would be with A4 in B1.
pub const CELLS: &str = "B1 10, B2 =[.B1]>5, A4 3, C4 =MULTIPLE.OPERATIONS([.B2];[.B1];[.A4])";

/// What is asked of a sheet. The first three name what is answered; the others are asked of a sheet of `CELLS`.
#[derive(Clone, Copy)]
pub enum Call<'a> {
    /// Whether cells have a content.
    Occupied(&'a [(&'a str, bool)]),
    /// The next occupied cell of a rectangle, from a cell on.
    Next(&'a [(&'a str, &'a str, &'a str)]),
    /// Which cells are marked where some change, each at once.
    Marked(&'a [(&'a str, &'a str)]),
    /// What C4 shows.
    Question,
    /// B2 with what A4 shows in B1.
    Entry,
    /// An edit that turns what C4 shows.
    Edit,
    /// An edit that closes a cycle, and one that opens it.
    Cycle,
    /// B2 with nothing in B1.
    Replaced,
    /// Which cells are marked where B1 changes.
    Mark,
}

fn expect_each_marked<C: Calculator>(
    rt: &impl Abort,
    alloc: Global,
    sheet: &C,
    rows: &[(&str, &str)],
) {
    for (edited, wanted) in rows {
        let edited = cells(rt, alloc, edited);
        let at_once = expect_marked(rt, sheet, &edited, &cells(rt, alloc, wanted));
        assert!(rt; at_once);
    }
}

/// Turns what C4 shows, and fills other cells.
const LATER: &str = "A4 9, D4 =[.C4], D5 =[.B1:.C4]+[.B2:.C2], D6 =[.D4]=[.D5], D7 7";

/// C4 shows FALSE, and TRUE after the edit. Tells whether each call succeeded at once.
fn expect_turned<C: Calculator>(rt: &impl Abort, alloc: Global, sheet: &mut C) -> bool {
    let at = cell(rt, "C4");
    let before = expect_kept(rt, sheet, at, &[], false);
    match expect_edit(rt, alloc, sheet, LATER) {
        Some(at_once) => expect_kept(rt, sheet, at, &[], true) && before && at_once,
        None => false,
    }
}

/// B1 and B2 no longer read each other after the edit. Tells whether each call succeeded at once.
fn expect_opened<C: Calculator>(
    rt: &impl Abort,
    alloc: Global,
    sheet: &mut C,
    at: Address,
) -> bool {
    let before = expect_no_truth(rt, sheet, at);
    match expect_edit_of_cycle(rt, alloc, sheet, at, "B1 10") {
        Some(at_once) => expect_kept(rt, sheet, at, &[], false) && before && at_once,
        None => false,
    }
}

/// B1 and B2 read each other after the first edit, and not after the second. Tells whether each call succeeded at once.
fn expect_closed_and_opened<C: Calculator>(rt: &impl Abort, alloc: Global, sheet: &mut C) -> bool {
    let at = cell(rt, "C4");
    let before = expect_kept(rt, sheet, at, &[], false);
    match expect_edit(rt, alloc, sheet, "B1 =[.B2]") {
        Some(at_once) => expect_opened(rt, alloc, sheet, at) && before && at_once,
        None => false,
    }
}

/// Nothing stands in B1 then, so B2 is FALSE; else it is TRUE. Tells whether each call succeeded at once.
fn expect_replaced<C: Calculator>(rt: &impl Abort, sheet: &mut C) -> bool {
    let at = cell(rt, "B2");
    let put = [Replacement {
        at: cell(rt, "B1"),
        value: Value::Empty,
    }];
    let before = expect_kept(rt, sheet, at, &[], true);
    let replaced = expect_under(rt, sheet, &put, at, false);
    let after = expect_kept(rt, sheet, at, &[], true);
    before && replaced && after
}

fn expect_entry<C: Calculator>(rt: &impl Abort, sheet: &mut C) -> bool {
    let pairs = [(cell(rt, "B1"), cell(rt, "A4"))];
    expect_kept(rt, sheet, cell(rt, "B2"), &pairs, false)
}

fn expect_mark<C: Calculator>(rt: &impl Abort, sheet: &C) -> bool {
    let wanted = [cell(rt, "B1"), cell(rt, "B2"), cell(rt, "C4")];
    expect_marked(rt, sheet, &[cell(rt, "B1")], &wanted)
}

/// What is answered is what is to be answered. Tells whether it was answered at once.
fn expect_answered<C: Calculator>(
    rt: &impl Abort,
    alloc: Global,
    sheet: &mut C,
    call: Call<'_>,
) -> bool {
    match call {
        Call::Occupied(rows) => expect_occupied(rt, sheet, rows),
        Call::Next(rows) => expect_next(rt, sheet, rows),
        Call::Marked(rows) => expect_each_marked(rt, alloc, sheet, rows),
        Call::Question => return expect_kept(rt, sheet, cell(rt, "C4"), &[], false),
        Call::Entry => return expect_entry(rt, sheet),
        Call::Edit => return expect_turned(rt, alloc, sheet),
        Call::Cycle => return expect_closed_and_opened(rt, alloc, sheet),
        Call::Replaced => return expect_replaced(rt, sheet),
        Call::Mark => return expect_mark(rt, sheet),
    }
    true
}

/// Fills an empty sheet by one edit. What is asked then is answered as it is to be. Tells whether all was answered at
/// once, and that it wasn't where there is no memory to fill the sheet.
pub fn expect_filled<C: Calculator>(
    rt: &impl Abort,
    alloc: Global,
    sheet: &mut C,
    texts: &str,
    call: Call<'_>,
) -> bool {
    match fill(rt, alloc, sheet, texts) {
        Some(()) => expect_answered(rt, alloc, sheet, call),
        None => false,
    }
}
