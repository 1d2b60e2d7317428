//! What a session was last shown.

ghost use Rattle.std.specs.Prelude.{◌≡◌, ◌≢◌, [], ℕ, OnOk, OnErr, length, unwrap_or};
ghost use Rattle.std.specs.Map.{keys_of};
ghost use Rattle.std.specs.Option.{option_copied};
ghost use Rattle.std.specs.Result.{result_unwrap_or};
ghost use Rattle.wi_values.specs.declared.value.Value.TheVariants.{Empty};
ghost use Rattle.wi_tiles.specs.Rooms.{AreBetweenEdits, AreInEdit, HoldsTheSame, has_value, taken};
ghost use Rattle.wi_sessions.specs.Pictures.{same_value, value_in, with_changes};

use std::alloc::{AllocError, Global};
use std::marker::Model;
use wi_tiles::{CellMap, exchange_all, make_rooms, sweep};
use wi_values::{Address, Value};

/// A cell, and the value that it has now.
pub type Change = (Address, Value);

/// The values of a sheet's cells as they were at some time. A cell that was empty has no value here.
#[derive(Drop)]
pub struct Picture {
    // None of them is Empty but while changes are put in.
    values: CellMap<Value>,
}

impl Model for Picture {
    ghost use Rattle.std.specs.Prelude.{ℕ, List};
    ghost use Rattle.wi_values.specs.declared.value.Value.{Value as Shown};
    ghost use Rattle.std.specs.Coded.{codes};
    ghost use Rattle.wi_values.specs.contracts.value.Value as value;
    ghost use Rattle.wi_values.specs.declared.value.Value.TheVariants.{Empty};
    ghost use Rattle.wi_tiles.specs.Rooms.{AreBetweenEdits};

    ghost Value = { List (ℕ × Shown) };

    ghost coded = { Prim.hlevel (codes, value.the_row.coded) };

    ghost view = { λ p. p.values.entries };

    ghost invariant = { λ p. AreBetweenEdits Empty p.values.entries };
}

/// Whether two values are one: of the same kind, and with the same content.
pub fn same(a: &Value, b: &Value) -> bool
    ensures { result ≡ same_value a.now b.now }
{
    *a == *b
}

impl Picture {
    /// The picture of an empty sheet. Takes no memory.
    pub fn new(alloc: Global) -> Picture
        ensures { result ≡ [] }
    {
        Picture {
            values: CellMap::new(alloc),
        }
    }

    /// The value of a cell; none if it was empty. Logarithmic in the tiles of its 16 rows that have something, and else
    /// constant.
    pub fn value(&self, at: Address) -> Option<&Value>
        ensures { unwrap_or (option_copied result) Empty ≡ value_in self.now at }
    {
        self.values.get(at)
    }

    /// Whether a cell had this value. One look-up by `value`, logarithmic in the tiles of 16 rows, and a comparison, at
    /// most linear in the length of a text.
    pub fn has(&self, at: Address, value: &Value) -> bool
        ensures { result ≡ same_value (value_in self.now at) value.now }
    {
        match self.value(at) {
            Some(had) => same(had, value),
            None => matches!(value, Value::Empty),
        }
    }

    /// Puts changes in, one after another: cells and the values that they have now. On an error all is as before. The
    /// work for each change is that of two look-ups, of one more where a value is taken away or memory runs out, and of
    /// putting a value in where none stands or taking it away. Without changes it takes no memory.
    pub fn apply(&mut self, mut changes: Vec<Change>) -> Result<(), AllocError>
        ensures done { OnOk result (self.new ≡ with_changes self.old changes.items) }
        ensures refused { OnErr result (self.new ≡ self.old) }
        ensures some { OnErr result (changes.items ≢ []) }
    {
        put_changes(&mut self.values, &mut changes)
    }
}

/// Puts changes in, one after another. If memory runs out, all is as before.
fn put_changes(values: &mut CellMap<Value>, changes: &mut [Change]) -> Result<(), AllocError>
    requires { AreBetweenEdits Empty values.old.entries }
    ensures done { OnOk result (values.new.entries ≡ with_changes values.old.entries changes.old) }
    ensures refused { OnErr result (values.new.entries ≡ values.old.entries) }
    ensures between { AreBetweenEdits Empty values.new.entries }
    ensures some { OnErr result (changes.old ≢ []) }
{
    if changes.is_empty() {
        return Ok(());
    }
    let before = values.len() as u64;
    let answer = exchange_values(values, before, changes);
    sweep(values, changes, answer.unwrap_or(before));
    answer?;
    Ok(())
}

/// Puts changes in, one after another, and answers how many cells have a value then, or leaves the values as they were;
/// `before` is how many have one before. Rooms of the changed cells may be vacant after either.
fn exchange_values(
    values: &mut CellMap<Value>,
    before: u64,
    changes: &mut [Change],
) -> Result<u64, AllocError>
    requires between { AreBetweenEdits Empty values.old.entries }
    requires before { before ≡ length values.old.entries }
    ensures done { OnOk result
        (HoldsTheSame Empty (with_changes values.old.entries changes.old) values.new.entries) }
    ensures refused { OnErr result (HoldsTheSame Empty values.old.entries values.new.entries) }
    ensures occupied { result_unwrap_or result before
        ≡ length (taken has_value values.new.entries) }
    ensures edit { AreInEdit Empty (keys_of changes.new) values.new.entries }
{
    make_rooms(values, changes)?;
    Ok(exchange_all(values, changes, before))
}
