//! Which parameter gives the value of a call, where one is chosen (OpenFormula, "Logical Functions" and
//! CHOOSE).

ghost use Rattle.std.specs.Prelude.{ℕ};
ghost use Rattle.wi_value_functions.specs.declared.function.LazyFunction.TheVariants as functions;
ghost use Rattle.wi_functions.specs.Inner.Calls.{Chooses};

use wi_value_functions::{LazyFunction, to_logical, to_whole};
use wi_values::{ErrorKind, Value};

/// What a call gives, once the value of its first parameter is there.
#[derive(Drop)]
pub(crate) enum Choice {
    Value(Value),
    /// The value of the parameter at a place, counted from 0, or else the default.
    Parameter(usize, Value),
}

/// What a call of a function gives that has so many parameters, and whose first has this value.
pub(crate) fn choose(function: LazyFunction, first: Value, count: usize) -> Choice
    ensures { Chooses function first count result }
{
    match function {
        LazyFunction::If => by_condition(&first),
        LazyFunction::IfError => unless_error(first),
        LazyFunction::IfNa => unless_not_available(first),
        LazyFunction::Choose => by_index(&first, count),
    }
}

/// IF: the second parameter where the first is TRUE, and the third where it is FALSE.
fn by_condition(condition: &Value) -> Choice
    ensures { (count : ℕ) → Chooses functions.If condition.now count result }
{
    match to_logical(condition) {
        Ok(true) => Choice::Parameter(1, Value::Logical(true)),
        Ok(false) => Choice::Parameter(2, Value::Logical(false)),
        Err(error) => Choice::Value(Value::Fault(error)),
    }
}

/// IFERROR: the first parameter unless it is an error, and else the second.
fn unless_error(first: Value) -> Choice
    ensures { (count : ℕ) → Chooses functions.IfError first count result }
{
    match first {
        Value::Fault(_) => Choice::Parameter(1, Value::Empty),
        value => Choice::Value(value),
    }
}

/// IFNA: the first parameter unless it is `#N/A`, and else the second.
fn unless_not_available(first: Value) -> Choice
    ensures { (count : ℕ) → Chooses functions.IfNa first count result }
{
    match first {
        Value::Fault(ErrorKind::NotAvailable) => Choice::Parameter(1, Value::Empty),
        other => Choice::Value(other),
    }
}

/// CHOOSE: the parameter that the first counts out, from 1, of those behind it.
fn by_index(index: &Value, count: usize) -> Choice
    ensures { Chooses functions.Choose index.now count result }
{
    match to_whole(index) {
        Err(error) => Choice::Value(Value::Fault(error)),
        Ok(k) => match usize::try_from(k) {
            Ok(place) if 1 <= place && place < count => Choice::Parameter(place, Value::Empty),
            _ => Choice::Value(Value::Fault(ErrorKind::BadValue)),
        },
    }
}
