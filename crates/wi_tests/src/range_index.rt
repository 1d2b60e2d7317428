//! The range index.

use crate::cells::{area, cell};
use crate::texts::{expect_addresses, expect_that};
use std::alloc::{AllocError, Global};
use std::process::Abort;
use wi_ranges::RangeIndex;
use wi_values::{Address, Rect};

/// Adds the pair that a text names, as `A2:A3 C1`, or takes it away, as `-A2:A3 C1`.
fn take(rt: &impl Abort, index: &mut RangeIndex, step: &str) {
    let Some((pair, reader)) = step.trim_start().split_once(' ') else {
        return;
    };
    let reader = cell(rt, reader);
    match pair.strip_prefix("-") {
        Some(taken) => index.remove(area(rt, taken), reader),
        None => index.add(area(rt, pair), reader).expect(rt, step),
    }
}

fn take_all(rt: &impl Abort, index: &mut RangeIndex, steps: &str) {
    for step in steps.split(',') {
        take(rt, index, step);
    }
}

/// How many blocks there are after these steps.
fn pieces(rt: &impl Abort, alloc: Global, steps: &str) -> u64 {
    let mut index = RangeIndex::new(alloc);
    take_all(rt, &mut index, steps);
    let pieces = index.pieces();
    drop(index);
    pieces
}

fn expect_pieces(rt: &impl Abort, alloc: Global, rows: &[(&str, u64)]) {
    for (steps, wanted) in rows {
        expect_that(rt, pieces(rt, alloc, steps) == *wanted, steps);
    }
}

/// These are the readers of a cell, a space behind each.
fn expect_readers_of(rt: &impl Abort, alloc: Global, index: &RangeIndex, at: &str, wanted: &str) {
    let found = index.readers_of(cell(rt, at)).expect(rt, at);
    expect_addresses(rt, alloc, at, &found, wanted);
}

fn expect_readers(rt: &impl Abort, alloc: Global, index: &RangeIndex, rows: &[(&str, &str)]) {
    for (at, wanted) in rows {
        expect_readers_of(rt, alloc, index, at, wanted);
    }
}

#[test]
fn rectangles_have_few_pieces(rt: HostRuntime) {
    expect_pieces(
        &rt,
        rt.alloc(),
        &[
            ("", 0),
            ("A1:A1048576 C1", 1),
            ("A1:A1048576 C1, -A1:A1048576 C1", 0),
            ("A2:A1048575 C1", 38),
            ("A2:A1048575 C1, -A2:A1048575 C1", 0),
            ("A1:XFD1048575 C1", 20),
            ("A1:XFD1048575 C1, -A1:XFD1048575 C1", 0),
            ("B3 C1", 1),
            ("B3 C1, -B3 C1", 0),
        ],
    );
}

#[test]
fn equal_pairs_count(rt: HostRuntime) {
    expect_pieces(
        &rt,
        rt.alloc(),
        &[
            ("A2:A3 C1, A2:A3 C1", 4),
            ("A2:A3 C1, A2:A3 C1, -A2:A3 C1", 2),
            ("A2:A3 C1, A2:A3 C1, -A2:A3 C1, -A2:A3 C1", 0),
            ("A2:A3 C1, A2:A3 C1, -A2:A3 C1, -A2:A3 C1, -A2:A3 C1", 0),
        ],
    );
}

/// The readers of cells after these steps.
fn expect_readers_after(rt: &impl Abort, alloc: Global, steps: &str, rows: &[(&str, &str)]) {
    let mut index = RangeIndex::new(alloc);
    take_all(rt, &mut index, steps);
    expect_readers(rt, alloc, &index, rows);
    drop(index);
}

#[test]
fn one_of_two_equal_pairs_is_left(rt: HostRuntime) {
    let steps = "A2:A3 C1, A2:A3 C1, -A2:A3 C1";
    expect_readers_after(&rt, rt.alloc(), steps, &[("A3", "C1 ")]);
}

#[test]
fn none_of_two_equal_pairs_is_left(rt: HostRuntime) {
    let steps = "A2:A3 C1, A2:A3 C1, -A2:A3 C1, -A2:A3 C1, -A2:A3 C1";
    expect_readers_after(&rt, rt.alloc(), steps, &[("A3", "")]);
}

/// Pairs of which some differ in the reader alone, some in the rectangle alone.
#[test]
fn readers_stand_in_order(rt: HostRuntime) {
    expect_readers_after(
        &rt,
        rt.alloc(),
        "B2:C9 E5, B2:C9 D1, B2:C9 A9, C9 A9, A1:XFD1048576 F7, A1:A9 A1",
        &[
            ("C9", "D1 E5 F7 A9 "),
            ("B2", "D1 E5 F7 A9 "),
            ("D9", "F7 "),
            ("C1", "F7 "),
            ("A9", "A1 F7 "),
            ("XFD1048576", "F7 "),
        ],
    );
}

/// A search that has been asked of many cells, which nothing reads, still tells the readers of others.
#[test]
fn a_long_search_tells_readers(rt: HostRuntime) {
    let mut index = RangeIndex::new(rt.alloc());
    take_all(&rt, &mut index, "A1:A9 C1, A20:A40 D1, B7 E1, A41:B50 E2");
    let mut search = index.search();
    for row in 0..20 {
        let found = search.readers_of(Address::at(row, 25)).expect(&rt, "none");
        assert!(rt; found.is_empty());
    }
    let rows = [
        ("A5", "C1 "),
        ("A20", "D1 "),
        ("B7", "E1 "),
        ("B50", "E2 "),
        ("B8", ""),
    ];
    for (at, wanted) in rows {
        let found = search.readers_of(cell(&rt, at)).expect(&rt, at);
        expect_addresses(&rt, rt.alloc(), at, &found, wanted);
    }
    drop(search);
    drop(index);
}

/// The pair of this number: ten rows of column A, and one of 250 cells of column B as their reader. Those from 500 on
/// are equal to those before.
fn numbered(number: u32) -> (Rect, Address) {
    let top = number % 500;
    (
        Rect::new(Address::at(top, 0), Address::at(top + 9, 0)),
        Address::at(number % 250, 1),
    )
}

fn add_many(index: &mut RangeIndex, count: u32) -> Result<(), AllocError> {
    for number in 0..count {
        let (area, reader) = numbered(number);
        index.add(area, reader)?;
    }
    Ok(())
}

fn remove_many(index: &mut RangeIndex, count: u32) {
    for number in 0..count {
        let (area, reader) = numbered(number);
        index.remove(area, reader);
    }
}

const READ: [(&str, &str); 5] = [
    ("A1", "B1 "),
    ("A20", "B11 B12 B13 B14 B15 B16 B17 B18 B19 B20 "),
    ("A255", "B1 B2 B3 B4 B5 B246 B247 B248 B249 B250 "),
    ("A509", "B250 "),
    ("A510", ""),
];

/// The index of a thousand pairs is read, and again when five hundred of them are taken away. No block is left when
/// none is left.
fn expect_thousand(rt: &impl Abort, alloc: Global, index: &mut RangeIndex) {
    add_many(index, 1_000).expect(rt, "memory for a thousand");
    expect_readers(rt, alloc, index, &READ);
    remove_many(index, 500);
    expect_readers(rt, alloc, index, &READ);
    remove_many(index, 500);
    expect_that(rt, index.pieces() == 0, "none is left");
}

#[test]
fn a_thousand_pairs(rt: HostRuntime) {
    let mut index = RangeIndex::new(rt.alloc());
    expect_thousand(&rt, rt.alloc(), &mut index);
    drop(index);
}
