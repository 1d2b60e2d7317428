//! Kept values and the table of a run.

ghost use Rattle.std.specs.Prelude.{◌≤◌};

use crate::cells::cell;
use crate::keys::{is_logical, keep, keep_in_table, look, look_in_table};
use crate::texts::{expect_text, expect_that, value, word};
use crate::worlds::after;
use std::alloc::{AllocError, Global};
use std::process::Abort;
use wi_cache::{Kept, Key, RunTable};
use wi_values::{Address, Value};
use wi_worlds::World;

/// Keeps the values of words for cells, one after another.
fn keep_words(rt: &impl Abort, alloc: Global, kept: &mut Kept, values: &[(&str, &str)]) {
    for (at, word) in values {
        let value = value(rt, alloc, word);
        keep(alloc, kept, cell(rt, at), value).expect(rt, at);
    }
}

fn expect_found(rt: &impl Abort, alloc: Global, kept: &Kept, wanted: &[(&str, &str)]) {
    for (at, wanted) in wanted {
        let found = look(alloc, kept, cell(rt, at));
        expect_text(rt, at, word(found), wanted);
    }
}

fn expect_count(rt: &impl Abort, kept: &Kept, wanted: usize) {
    assert!(rt; kept.len() == wanted);
}

/// Keeps values one after another in a list with room for so many; then these are found, and this is how many there
/// are.
fn expect_kept(
    rt: &impl Abort,
    alloc: Global,
    room: usize,
    values: &[(&str, &str)],
    wanted: &[(&str, &str)],
    count: usize,
)
    requires { 1 ≤ room }
{
    let mut kept = Kept::new(alloc, room).expect(rt, "a list");
    keep_words(rt, alloc, &mut kept, values);
    expect_found(rt, alloc, &kept, wanted);
    expect_count(rt, &kept, count);
    drop(kept);
}

#[test]
fn an_empty_list_has_none(rt: HostRuntime) {
    expect_kept(&rt, rt.alloc(), 1, &[], &[("A1", "-")], 0);
}

#[test]
fn a_full_list_of_one_keeps_the_new_key(rt: HostRuntime) {
    expect_kept(
        &rt,
        rt.alloc(),
        1,
        &[("A1", "TRUE"), ("B1", "")],
        &[("A1", "-"), ("B1", "")],
        1,
    );
}

#[test]
fn a_known_key_drops_none(rt: HostRuntime) {
    expect_kept(
        &rt,
        rt.alloc(),
        2,
        &[("A1", "TRUE"), ("B1", ""), ("A1", "FALSE")],
        &[("A1", "FALSE"), ("B1", "")],
        2,
    );
}

#[test]
fn a_full_list_of_two_drops_one(rt: HostRuntime) {
    expect_kept(
        &rt,
        rt.alloc(),
        2,
        &[("A1", ""), ("B1", ""), ("C1", "")],
        &[("C1", "")],
        2,
    );
}

/// Whether a value is found for A1 in a generation and a world.
fn knows_a1(kept: &Kept, generation: u64, world: World) -> bool {
    let cell = Address::at(0, 0);
    kept.look(&Key {
        cell,
        generation,
        world,
    })
    .is_some()
}

fn expect_no_a1(rt: &impl Abort, kept: &Kept, generation: u64, world: World) {
    assert!(rt; !knows_a1(kept, generation, world));
}

#[test]
fn a_key_is_of_one_generation_and_one_world(rt: HostRuntime) {
    let mut kept = Kept::new(rt.alloc(), 2).expect(&rt, "a list");
    keep_words(&rt, rt.alloc(), &mut kept, &[("A1", "")]);
    expect_no_a1(&rt, &kept, 0, after(&rt, rt.alloc(), &["A5="]));
    expect_no_a1(&rt, &kept, 1, World::new(rt.alloc()));
    drop(kept);
}

const MANY: u32 = 2_000;

/// Keeps a value for each of many rows of column A.
fn keep_many(alloc: Global, kept: &mut Kept) -> Result<(), AllocError> {
    for row in 0..MANY {
        let value = Value::Logical(row % 2 == 0);
        keep(alloc, kept, Address::at(row, 0), value)?;
    }
    Ok(())
}

/// The first of many rows for which another value is found.
fn first_other(alloc: Global, kept: &Kept) -> Option<u32> {
    for row in 0..MANY {
        if !is_logical(look(alloc, kept, Address::at(row, 0)), row % 2 == 0) {
            return Some(row);
        }
    }
    None
}

/// Keeps many values, of which none goes.
fn expect_many(rt: &impl Abort, alloc: Global, kept: &mut Kept) {
    keep_many(alloc, kept).expect(rt, "memory for many");
    expect_count(rt, kept, 2_000);
    expect_that(rt, first_other(alloc, kept).is_none(), "the values");
}

#[test]
fn a_list_keeps_as_many_as_it_has_space_for(rt: HostRuntime) {
    let mut kept = Kept::new(rt.alloc(), 2_000).expect(&rt, "a list");
    expect_many(&rt, rt.alloc(), &mut kept);
    drop(kept);
}

/// Keeps a value for each of many rows of column A, and then replaces that of row 39 by Empty.
fn table_many(alloc: Global, table: &mut RunTable) -> Result<(), AllocError> {
    for row in 0..MANY {
        let value = Value::Logical(row % 2 == 0);
        keep_in_table(alloc, table, Address::at(row, 0), value)?;
    }
    keep_in_table(alloc, table, Address::at(39, 0), Value::Empty)
}

/// Whether this is the value of a row.
fn is_of_row(value: Option<&Value>, row: u32) -> bool {
    if row == 39 {
        return matches!(value, Some(Value::Empty));
    }
    is_logical(value, row % 2 == 0)
}

/// The first of many rows for which another value is found in a table.
fn first_other_in_table(alloc: Global, table: &RunTable) -> Option<u32> {
    for row in 0..MANY {
        if !is_of_row(look_in_table(alloc, table, Address::at(row, 0)), row) {
            return Some(row);
        }
    }
    None
}

fn expect_many_in_table(rt: &impl Abort, alloc: Global, table: &mut RunTable) {
    table_many(alloc, table).expect(rt, "memory for many");
    let beyond = look_in_table(alloc, table, Address::at(MANY, 0));
    expect_that(rt, beyond.is_none(), "beyond");
    let other = first_other_in_table(alloc, table);
    expect_that(rt, other.is_none(), "the values");
}

#[test]
fn a_run_table_drops_none(rt: HostRuntime) {
    let mut table = RunTable::new(rt.alloc());
    expect_many_in_table(&rt, rt.alloc(), &mut table);
    drop(table);
}
