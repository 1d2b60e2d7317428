//! Where memory is refused all is as it was.
//!
//! `rt try --test --fail-alloc N` refuses the Nth growth, and so one at most in a test. `rt test` and the gate refuse
//! none: there these tests show that each call succeeds. So of two passes at least one must be without a refusal.

use crate::keys::{is_logical, keep, keep_in_table, look, look_in_table};
use crate::stores::{apply, expect_counts};
use std::alloc::{AllocError, Global};
use std::process::Abort;
use wi_cache::{Kept, RunTable};
use wi_csv::{CsvFault, push_record, records};
use wi_parser::Content;
use wi_ranges::RangeIndex;
use wi_store::{Limits, Store, StoreFault};
use wi_values::{Address, Rect, Replacement, Text, Value};
use wi_worlds::{Reaches, World};

/// What stands before a record.
fn before(alloc: Global) -> Result<Vec<u8>, AllocError> {
    Vec::from_slice(alloc, b"before")
}

/// A record was appended, or what stood before is all.
fn is_right(was_pushed: bool, text: &[u8]) -> bool {
    if was_pushed {
        text.len() == 43
    } else {
        text == b"before".as_slice()
    }
}

fn count_records(alloc: Global) -> Result<usize, CsvFault> {
    Ok(records(alloc, b"1,2\n3\n")?.len())
}

/// Whether a record was appended.
fn is_pushed(rt: &impl Abort, alloc: Global) -> bool {
    let Ok(mut text) = before(alloc) else {
        return false;
    };
    let was_pushed = push_record(&["a long field", "another long field"], &mut text).is_ok();
    assert!(rt; is_right(was_pushed, &text));
    was_pushed
}

/// Whether the records of a text were read.
fn are_read(rt: &impl Abort, alloc: Global) -> bool {
    match count_records(alloc) {
        Ok(count) => {
            assert!(rt; count == 2);
            true
        }
        Err(fault) => {
            assert!(rt; fault == CsvFault::Memory);
            false
        }
    }
}

#[test]
fn of_records(rt: HostRuntime) {
    assert!(rt; is_pushed(&rt, rt.alloc()) || is_pushed(&rt, rt.alloc()));
    assert!(rt; are_read(&rt, rt.alloc()) || are_read(&rt, rt.alloc()));
}

fn has(store: &Store, at: Address, sign: bool) -> bool {
    match store.get(at) {
        Some(Content::Constant(value)) => is_logical(Some(value), sign),
        _ => false,
    }
}

/// An edit that puts TRUE into A1.
const ONE: &str = "A1 TRUE";

/// An edit that empties A1 and fills forty other cells, which needs memory more than once.
const FORTY: &str =
    "A1 -, A2 FALSE, A3 FALSE, A4 FALSE, A5 FALSE, A6 FALSE, A7 FALSE, A8 FALSE, A9 FALSE, \
    A10 FALSE, A11 FALSE, A12 FALSE, A13 FALSE, A14 FALSE, A15 FALSE, A16 FALSE, A17 FALSE, \
    A18 FALSE, A19 FALSE, A20 FALSE, A21 FALSE, A22 FALSE, A23 FALSE, A24 FALSE, A25 FALSE, \
    A26 FALSE, A27 FALSE, A28 FALSE, A29 FALSE, A30 FALSE, A31 FALSE, A32 FALSE, A33 FALSE, \
    A34 FALSE, A35 FALSE, A36 FALSE, A37 FALSE, A38 FALSE, A39 FALSE, A40 FALSE, A41 FALSE";

fn expect_forty(rt: &impl Abort, store: &Store) {
    expect_counts(rt, store, 40, 2);
    assert!(rt; store.get(Address::at(0, 0)).is_none());
}

fn expect_one(rt: &impl Abort, store: &Store) {
    expect_counts(rt, store, 1, 1);
    assert!(rt; has(store, Address::at(0, 0), true));
    for row in 1..41 {
        assert!(rt; store.get(Address::at(row, 0)).is_none());
    }
}

/// A store gets TRUE in A1, and then the edit of forty, or all is as before that. Tells whether both edits were made.
fn expect_applied(rt: &impl Abort, alloc: Global, store: &mut Store) -> bool {
    if apply(rt, alloc, store, ONE).is_err() {
        return false;
    }
    match apply(rt, alloc, store, FORTY) {
        Ok(()) => {
            expect_forty(rt, store);
            true
        }
        Err(refusal) => {
            assert!(rt; refusal == StoreFault::Memory);
            expect_one(rt, store);
            false
        }
    }
}

fn is_applied(rt: &impl Abort, alloc: Global) -> bool {
    let mut store = Store::new(alloc, Limits::standard());
    let is_applied = expect_applied(rt, alloc, &mut store);
    drop(store);
    is_applied
}

#[test]
fn of_stores(rt: HostRuntime) {
    assert!(rt; is_applied(&rt, rt.alloc()) || is_applied(&rt, rt.alloc()));
}

/// So many readers are listed. Tells whether there was memory for the list.
fn expect_readers(rt: &impl Abort, index: &RangeIndex, at: Address, wanted: usize) -> bool {
    match index.readers_of(at) {
        Ok(readers) => {
            assert!(rt; readers.len() == wanted);
            true
        }
        Err(_) => false,
    }
}

/// A pair of 38 blocks is added to an index of one, and once again. Tells whether each call succeeded.
fn expect_added(rt: &impl Abort, index: &mut RangeIndex) -> bool {
    let (top, bottom) = (Address::at(1, 0), Address::at(1_048_574, 0));
    let reader = Address::at(0, 3);
    let added = index.add(Rect::new(top, bottom), reader).is_ok();
    let added_again = index.add(Rect::new(top, bottom), reader).is_ok();
    let times = u64::from(added) + u64::from(added_again);
    assert!(rt; index.pieces() == 2 + 38 * times);
    let at_bottom = expect_readers(rt, index, bottom, usize::from(times > 0));
    let at_top = expect_readers(rt, index, top, 1 + usize::from(times > 0));
    times == 2 && at_bottom && at_top
}

/// The index of one has the pair of A1:A10 and C1.
fn is_added(rt: &impl Abort, alloc: Global) -> bool {
    let area = Rect::new(Address::at(0, 0), Address::at(9, 0));
    let mut index = RangeIndex::new(alloc);
    let is_added = index.add(area, Address::at(0, 2)).is_ok() && expect_added(rt, &mut index);
    drop(index);
    is_added
}

#[test]
fn of_the_range_index(rt: HostRuntime) {
    assert!(rt; is_added(&rt, rt.alloc()) || is_added(&rt, rt.alloc()));
}

/// One more value is kept in a list of one, or only that one is there. Tells whether it is kept.
fn expect_second(rt: &impl Abort, alloc: Global, kept: &mut Kept) -> bool {
    let (first, second) = (Address::at(0, 0), Address::at(0, 1));
    let added = keep(alloc, kept, second, Value::Empty).is_ok();
    let has_first = is_logical(look(alloc, kept, first), true);
    let has_second = look(alloc, kept, second).is_some();
    assert!(rt; kept.len() == 1 + usize::from(added));
    assert!(rt; has_first && has_second == added);
    added
}

/// Whether two values are kept in a list of two.
fn is_kept(rt: &impl Abort, alloc: Global) -> bool {
    let Ok(mut kept) = Kept::new(alloc, 2) else {
        return false;
    };
    let first = keep(alloc, &mut kept, Address::at(0, 0), Value::Logical(true)).is_ok();
    let is_kept = first && expect_second(rt, alloc, &mut kept);
    drop(kept);
    is_kept
}

#[test]
fn of_kept_values(rt: HostRuntime) {
    assert!(rt; is_kept(&rt, rt.alloc()) || is_kept(&rt, rt.alloc()));
}

/// Nineteen more values are kept, each of which is found if it was kept. Tells how many were.
fn expect_more(rt: &impl Abort, alloc: Global, table: &mut RunTable) -> u32 {
    let mut count = 0u32;
    for column in 1..20 {
        let cell = Address::at(0, column);
        let added = keep_in_table(alloc, table, cell, Value::Empty).is_ok();
        let is_found = matches!(look_in_table(alloc, table, cell), Some(Value::Empty));
        assert!(rt; is_found == added);
        count = count.saturating_add(u32::from(added));
    }
    count
}

/// Whether all values are kept that a table is given.
fn is_table_filled(rt: &impl Abort, alloc: Global) -> bool {
    let mut table = RunTable::new(alloc);
    let first = Address::at(0, 0);
    let added = keep_in_table(alloc, &mut table, first, Value::Logical(true)).is_ok();
    let more = expect_more(rt, alloc, &mut table);
    let is_found = is_logical(look_in_table(alloc, &table, first), true);
    drop(table);
    assert!(rt; is_found == added);
    added && more == 19
}

#[test]
fn of_run_tables(rt: HostRuntime) {
    assert!(rt; is_table_filled(&rt, rt.alloc()) || is_table_filled(&rt, rt.alloc()));
}

/// A world in which A2 is TRUE and C3 is emptied.
fn old(alloc: Global) -> Result<World, AllocError> {
    World::new(alloc).with(&[
        Replacement {
            at: Address::at(2, 2),
            value: Value::Empty,
        },
        Replacement {
            at: Address::at(1, 0),
            value: Value::Logical(true),
        },
    ])
}

/// In C3 a text then, and A1 emptied.
fn newer(alloc: Global, world: &World) -> Result<World, AllocError> {
    let three = Value::Text(Text::from_str(alloc, "three")?);
    world.with(&[
        Replacement {
            at: Address::at(2, 2),
            value: three,
        },
        Replacement {
            at: Address::at(0, 0),
            value: Value::Empty,
        },
    ])
}

/// Tells whether the newer world was made.
fn expect_newer(rt: &impl Abort, alloc: Global, world: &World) -> bool {
    let Ok(newer) = newer(alloc, world) else {
        return false;
    };
    let count = newer.replacements().len();
    drop(newer);
    assert!(rt; count == 3);
    true
}

/// Whether each of three worlds was made.
fn is_made(rt: &impl Abort, alloc: Global) -> bool {
    let Ok(world) = old(alloc) else {
        return false;
    };
    let Ok(as_before) = old(alloc) else {
        return false;
    };
    let is_made = expect_newer(rt, alloc, &world);
    let is_as_before = world == as_before;
    drop(world);
    drop(as_before);
    assert!(rt; is_as_before);
    is_made
}

#[test]
fn of_worlds(rt: HostRuntime) {
    assert!(rt; is_made(&rt, rt.alloc()) || is_made(&rt, rt.alloc()));
}

/// Forty cells of a column.
fn column(alloc: Global) -> Result<Vec<Address>, AllocError> {
    let mut cells = Vec::new(alloc);
    for row in 0..40 {
        cells.push(Address::at(row, 0))?;
    }
    Ok(cells)
}

/// Whether a cell was made known, with the forty that reach it. Where it wasn't, none is known.
fn is_made_known(rt: &impl Abort, alloc: Global) -> bool {
    let Ok(cone) = column(alloc) else {
        return false;
    };
    let mut reaches = Reaches::new(alloc);
    let was_added = reaches.add(Address::at(0, 0), &cone).is_ok();
    assert!(rt; reaches.len() == usize::from(was_added));
    drop(reaches);
    was_added
}

#[test]
fn of_cells_that_are_told(rt: HostRuntime) {
    assert!(rt; is_made_known(&rt, rt.alloc()) || is_made_known(&rt, rt.alloc()));
}
