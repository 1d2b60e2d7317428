//! What a cell shows.

ghost use Rattle.std.specs.Prelude.{◌≡◌, IfOk};
ghost use Rattle.wi_values.specs.Replacements.{IsInOrder};
ghost use Rattle.wi_sheet.specs.Shown as show;
ghost use Rattle.wi_sheet.specs.Demand.{demanded};
ghost use Rattle.wi_sheet.specs.Inner.Spending.{NeverFall, plus, price};

use std::alloc::{AllocError, Global};
use wi_engine::{Pool, Question, Remembered, reached};
use wi_functions::Meter;
use wi_store::Store;
use wi_values::{Address, ErrorKind, Replacement, Value};
use wi_worlds::World;

/// What a cell shows under replacements, which stand in the order of their addresses, one for each. A formula is
/// evaluated once for each list of replacements of cells that its cell reaches under which its value is asked for. What
/// is found is forgotten at the end.
pub(crate) fn shown(
    alloc: Global,
    store: &Store,
    replacements: &[Replacement],
    at: Address,
    meter: &mut Meter,
) -> Result<Value, AllocError>
    requires { IsInOrder replacements.now }
    ensures value { IfOk result (λ v. v ≡ show.shown store.now.sheet replacements.now at) }

    // No more than what the cell demands is evaluated, also where memory runs out.
    ensures within { let cases = demanded store.now.sheet replacements.now at in
        NeverFall meter.new (plus meter.old (price store.now.sheet cases)) }
    ensures counts { NeverFall meter.old meter.new }
{
    let Some(order) = reached(alloc, store, at)? else {
        return Ok(Value::Fault(ErrorKind::Circular));
    };
    let world = World::new(alloc).with(replacements)?;
    let memo = Remembered::new(alloc, store, order);
    let pool = Pool::new(alloc);
    let mut question = Question {
        memo,
        meter: *meter,
        pool,
    };
    let result = question.value(store, &world, at);
    *meter = question.meter;
    result
}
