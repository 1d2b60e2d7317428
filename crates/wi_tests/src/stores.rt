//! Stores.

use crate::cells::{Changes, area, cell, changes};
use crate::texts::{expect_addresses, expect_text, expect_that, word};
use std::alloc::{AllocError, Global};
use std::process::Abort;
use wi_parser::Content;
use wi_store::{Limits, Store, StoreFault};
use wi_values::{Address, Value};

/// Appends a constant as a word, the text of a formula, or a dash.
fn push_told(content: Option<&Content>, text: &mut String) -> Result<(), AllocError> {
    match content {
        Some(Content::Constant(value)) => text.push_str(word(Some(value))),
        Some(Content::Formula(formula)) => formula.print(text),
        None => text.push('-'),
    }
}

/// This stands in a cell.
fn expect_cell(rt: &impl Abort, alloc: Global, store: &Store, at: &str, wanted: &str) {
    let mut text = String::new(alloc);
    push_told(store.get(cell(rt, at)), &mut text).expect(rt, at);
    expect_text(rt, at, &text, wanted);
}

/// An edit, what is answered, how many cells are occupied and edits made then, and what stands in some cells.
type Edit<'a> = (&'a str, Result<(), StoreFault>, (u64, u64), &'a str);

fn expect_cells(rt: &impl Abort, alloc: Global, store: &Store, cells: &str) {
    for cell in cells.split(',') {
        if let Some((at, wanted)) = cell.trim_start().split_once(' ') {
            expect_cell(rt, alloc, store, at, wanted);
        }
    }
}

/// How many cells are occupied, and how many edits were made.
pub fn expect_counts(rt: &impl Abort, store: &Store, occupied: u64, edits: u64) {
    assert!(rt; store.occupied() == occupied);
    assert!(rt; store.edits() == edits);
}

/// Makes an edit, and gives what is answered, or that there is no memory for what it puts in.
pub fn apply(
    rt: &impl Abort,
    alloc: Global,
    store: &mut Store,
    edit: &str,
) -> Result<(), StoreFault> {
    match changes(rt, alloc, edit) {
        Some(changes) => store.apply(changes),
        None => Err(StoreFault::Memory),
    }
}

fn expect_edit(rt: &impl Abort, alloc: Global, store: &mut Store, edit: &Edit<'_>) {
    let (edit, wanted, (occupied, edits), cells) = *edit;
    let answer = apply(rt, alloc, store, edit);
    expect_that(rt, answer == wanted, edit);
    expect_counts(rt, store, occupied, edits);
    expect_cells(rt, alloc, store, cells);
}

fn expect_edits(rt: &impl Abort, alloc: Global, limits: Limits, edits: &[Edit<'_>]) {
    let mut store = Store::new(alloc, limits);
    expect_that(rt, store.limits() == limits, "limits");
    expect_counts(rt, &store, 0, 0);
    for edit in edits {
        expect_edit(rt, alloc, &mut store, edit);
    }
    drop(store);
}

/// Of two pairs for one cell the later counts.
#[test]
fn an_edit_is_read_back(rt: HostRuntime) {
    expect_edits(
        &rt,
        rt.alloc(),
        Limits::standard(),
        &[
            (
                "A2 TRUE, A1 TRUE, A2 FALSE",
                Ok(()),
                (2, 1),
                "A1 TRUE, A2 FALSE, B1 -",
            ),
            (
                "A2 =1/2, B1 =1/2",
                Ok(()),
                (3, 2),
                "A1 TRUE, A2 =1/2, B1 =1/2",
            ),
        ],
    );
}

/// One cell may have a content, and three edits may be made.
#[test]
fn an_edit_is_judged_by_its_end(rt: HostRuntime) {
    expect_edits(
        &rt,
        rt.alloc(),
        Limits { cells: 1, edits: 3 },
        &[
            (
                "A1 TRUE, B1 TRUE",
                Err(StoreFault::Full),
                (0, 0),
                "A1 -, B1 -",
            ),
            ("A1 TRUE, A1 -, B1 TRUE", Ok(()), (1, 1), "A1 -, B1 TRUE"),
            ("B1 -, B1 FALSE", Ok(()), (1, 2), "B1 FALSE"),
            ("B1 TRUE, B1 -", Ok(()), (0, 3), "B1 -"),
            (
                "A1 TRUE, B1 TRUE",
                Err(StoreFault::Full),
                (0, 3),
                "A1 -, B1 -",
            ),
            ("", Err(StoreFault::EditLimit), (0, 3), "A1 -, B1 -"),
        ],
    );
}

/// The empty text stands for the constant Empty.
#[test]
fn the_constant_empty_is_no_content(rt: HostRuntime) {
    let limits = Limits { cells: 0, edits: 1 };
    expect_edits(&rt, rt.alloc(), limits, &[("A1 ", Ok(()), (0, 1), "A1 -")]);
}

/// A sheet with formulas in B1, D1, A2, B2, C2, D2, C3 and A4, and a constant in B3.
fn with_formulas(rt: &impl Abort, alloc: Global) -> Store {
    let mut store = Store::new(alloc, Limits::standard());
    let cells = "B3 TRUE, A4 =1, C3 =1, D2 =1, C2 =1, B2 =1, A2 =1, D1 =1, B1 =1";
    apply(rt, alloc, &mut store, cells).expect(rt, cells);
    store
}

/// The next occupied cell, if there is one, as `B1:C3 A1` asks: of a rectangle, from a cell on.
fn next_occupied(rt: &impl Abort, store: &Store, place: &str) -> Option<Address> {
    let (rectangle, from) = place.split_once(' ').expect(rt, place);
    store.next_occupied(area(rt, rectangle), cell(rt, from))
}

fn next(rt: &impl Abort, alloc: Global, store: &Store, place: &str) -> Vec<Address> {
    let mut found = Vec::new(alloc);
    if let Some(at) = next_occupied(rt, store, place) {
        found.push(at).expect(rt, place);
    }
    found
}

/// The cells that are asked for.
fn found(rt: &impl Abort, alloc: Global, store: &Store, asked: &str) -> Vec<Address> {
    let Some((question, place)) = asked.split_once(' ') else {
        return store.formulas().expect(rt, asked);
    };
    match question {
        "in" => store.formulas_in(area(rt, place)).expect(rt, asked),
        _ => next(rt, alloc, store, place),
    }
}

/// These cells are answered where they are asked for, a space behind each.
fn expect_answer(rt: &impl Abort, alloc: Global, store: &Store, asked: &str, wanted: &str) {
    let found = found(rt, alloc, store, asked);
    expect_addresses(rt, alloc, asked, &found, wanted);
}

fn expect_each(rt: &impl Abort, alloc: Global, store: &Store, rows: &[(&str, &str)]) {
    for (asked, wanted) in rows {
        expect_answer(rt, alloc, store, asked, wanted);
    }
}

/// What is asked of the sheet with formulas is answered so.
fn expect_answers(rt: &impl Abort, alloc: Global, rows: &[(&str, &str)]) {
    let store = with_formulas(rt, alloc);
    expect_each(rt, alloc, &store, rows);
    drop(store);
}

#[test]
fn formulas_within_rectangles(rt: HostRuntime) {
    expect_answers(
        &rt,
        rt.alloc(),
        &[
            ("in A1:B2", "B1 A2 B2 "),
            ("in B1:C3", "B1 B2 C2 C3 "),
            ("in C3:B2", "B2 C2 C3 "),
            ("in A1:A4", "A2 A4 "),
            ("in D1:D9", "D1 D2 "),
            ("in C1:C3", "C2 C3 "),
            ("in D2", "D2 "),
            ("in B3", ""),
            ("in A5:XFD9", ""),
            ("in A1:XFD1048576", "B1 D1 A2 B2 C2 D2 C3 A4 "),
        ],
    );
}

#[test]
fn a_list_of_all_formulas(rt: HostRuntime) {
    expect_answers(&rt, rt.alloc(), &[("all", "B1 D1 A2 B2 C2 D2 C3 A4 ")]);
}

#[test]
fn the_next_occupied_cell(rt: HostRuntime) {
    expect_answers(
        &rt,
        rt.alloc(),
        &[
            ("next B1:C3 A1", "B1 "),
            ("next B1:C3 B1", "B1 "),
            ("next B1:C3 C1", "B2 "),
            ("next B1:C3 D2", "B3 "),
            ("next A1:A9 A3", "A4 "),
            ("next C1:C3 A1", "C2 "),
            ("next A1:XFD1048576 C1", "D1 "),
            ("next B1:C3 D3", ""),
            ("next E1:E9 A1", ""),
            ("next A1:A2 A4", ""),
        ],
    );
}

/// An edit that fills so many rows of column A, from the last row up.
fn many(alloc: Global, count: u32) -> Result<Changes, AllocError> {
    let mut changes = Vec::new(alloc);
    for row in (0..count.min(1_048_576)).rev() {
        let filled = Content::Constant(Value::Logical(true));
        changes.push((Address::at(row, 0), Some(filled)))?;
    }
    Ok(changes)
}

/// Fills so many rows of a store, and gives what is answered.
fn fill(alloc: Global, store: &mut Store, count: u32) -> Result<(), StoreFault> {
    store.apply(many(alloc, count)?)
}

#[test]
fn an_edit_of_many_cells(rt: HostRuntime) {
    let mut store = Store::new(rt.alloc(), Limits::standard());
    let filled = fill(rt.alloc(), &mut store, 200_000);
    assert!(rt; filled == Ok(()));
    expect_counts(&rt, &store, 200_000, 1);
    let refused = fill(rt.alloc(), &mut store, 200_001);
    assert!(rt; refused == Err(StoreFault::Full));
    expect_counts(&rt, &store, 200_000, 1);
    drop(store);
}
