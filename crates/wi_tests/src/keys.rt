//! Kept lists and run tables by cells, with no replacements.

use std::alloc::{AllocError, Global};
use wi_cache::{Kept, Key, RunTable};
use wi_values::{Address, Value};
use wi_worlds::World;

fn key(alloc: Global, cell: Address) -> Key {
    Key {
        cell,
        generation: 0,
        world: World::new(alloc),
    }
}

pub fn keep(alloc: Global, kept: &mut Kept, cell: Address, value: Value) -> Result<(), AllocError> {
    drop(kept.keep(key(alloc, cell), value)?);
    Ok(())
}

pub fn look(alloc: Global, kept: &Kept, cell: Address) -> Option<&Value> {
    kept.look(&key(alloc, cell))
}

pub fn keep_in_table(
    alloc: Global,
    table: &mut RunTable,
    cell: Address,
    value: Value,
) -> Result<(), AllocError> {
    table.keep(key(alloc, cell), value)
}

pub fn look_in_table(alloc: Global, table: &RunTable, cell: Address) -> Option<&Value> {
    table.look(&key(alloc, cell))
}

pub fn is_logical(value: Option<&Value>, sign: bool) -> bool {
    match value {
        Some(Value::Logical(found)) => *found == sign,
        _ => false,
    }
}
