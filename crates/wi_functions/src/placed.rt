//! A formula whose references are places in a list of values.

ghost use Rattle.std.specs.Prelude.{◌≡◌, ◌<◌, ◌++◌, ◌∷◌, [], List, map, vec_len, vec_capacity, IfOk, IfSome, IfNone, OnOk, OnErr};
ghost use Rattle.wi_values.specs.declared.value.Value.{Value as Values};
ghost use Rattle.wi_standard_functions.specs.Arguments.{Argument, value_or};
ghost use Rattle.wi_standard_functions.specs.Functions.{call_value};
ghost use Rattle.wi_value_functions.specs.Applied.{applied_to_arguments, applied_to_values, arguments_of};
ghost use Rattle.wi_value_functions.specs.declared.function.Function.TheVariants.{Lazy};
ghost use Rattle.wi_functions.specs.Counts.{one_more};
ghost use Rattle.wi_functions.specs.Meaning as formulas;
ghost use Rattle.wi_functions.specs.Operators as operators;
ghost use Rattle.wi_functions.specs.Inner.Named as named;
ghost use Rattle.wi_functions.specs.Placed.{placed_value, placed_values, value_at_place};

use crate::choice::{Choice, choose};
use crate::evaluation::zero_for_empty;
use crate::meter::Meter;
use crate::number::{number_at_hand, take_number};
use crate::operators::{hundredth, operate, with_sign};
use std::alloc::{AllocError, Global};
use wi_parser::{Operator, Sign};
use wi_value_functions::{
    Function, LazyFunction, ValueFunction, function_for, value_of_values, zero,
};
use wi_values::{Text, Value};

/// A formula's tree in which each reference to a cell is a place in a list of values, or the value itself, and each
/// function is found. There are no parentheses.
#[derive(Drop)]
pub enum Placed {
    Constant(Value),
    /// A place, counted from 0. Where the list ends before it, its value is Empty.
    Place(usize),
    Signed(Sign, Box<Placed>),
    Percent(Box<Placed>),
    /// Both operands stand behind one box.
    Binary(Operator, Box<(Placed, Placed)>),
    Lazy(LazyFunction, Vec<Placed>),
    Values(ValueFunction, Vec<Placed>),
}

/// The value of a placed formula over a list of values, in which Empty becomes 0. It is counted; where memory runs out
/// nothing is. Memory is needed for texts, and for the values of a call's parameters.
pub fn evaluate_placed(
    alloc: Global,
    placed: &Placed,
    values: &[Value],
    meter: &mut Meter,
) -> Result<Value, AllocError>
    ensures value { IfOk result
        (λ v. v ≡ formulas.zero_for_empty (placed_value placed.now values.now)) }
    ensures counted { IfOk result (λ _. meter.new
        ≡ record meter.old { evaluations = one_more meter.old.evaluations }) }
    ensures err { OnErr result (meter.new ≡ meter.old) }
{
    let mut number = zero();
    if take_number(placed, values, &mut number) {
        meter.count_evaluation();
        return Ok(Value::Number(number));
    }
    evaluate_any(alloc, placed, values, meter)
}

/// As `evaluate_placed`, with a value for each part.
#[inline(never)]
fn evaluate_any(
    alloc: Global,
    placed: &Placed,
    values: &[Value],
    meter: &mut Meter,
) -> Result<Value, AllocError>
    ensures value { IfOk result
        (λ v. v ≡ formulas.zero_for_empty (placed_value placed.now values.now)) }
    ensures counted { IfOk result (λ _. meter.new
        ≡ record meter.old { evaluations = one_more meter.old.evaluations }) }
    ensures err { OnErr result (meter.new ≡ meter.old) }
{
    let value = value_of_placed(alloc, placed, values)?;
    meter.count_evaluation();
    Ok(zero_for_empty(value))
}

/// Appends the value of a placed formula, as `evaluate_placed` gives it, to those that it stands over. A number is
/// reckoned in place.
#[inline(always)]
pub fn push_evaluated(
    alloc: Global,
    placed: &Placed,
    values: &mut Vec<Value>,
    meter: &mut Meter,
) -> Result<(), AllocError>
    requires { vec_len values.old < vec_capacity values.old }
    ensures value { OnOk result (values.new.items ≡ values.old.items
        ++ formulas.zero_for_empty (placed_value placed.now values.old.items) ∷ []) }
    ensures capacity { vec_capacity values.new ≡ vec_capacity values.old }
    ensures counted { OnOk result (meter.new
        ≡ record meter.old { evaluations = one_more meter.old.evaluations }) }
    ensures err { OnErr result (meter.new ≡ meter.old) }
{
    if let Some(at_hand) = number_at_hand(placed, values) {
        meter.count_evaluation();
        values.push_reserved(Value::Number(at_hand));
        return Ok(());
    }
    let mut number = zero();
    if take_number(placed, values, &mut number) {
        meter.count_evaluation();
        values.push_reserved(Value::Number(number));
        return Ok(());
    }
    push_any(alloc, placed, values, meter)
}

/// As `push_evaluated`, with a value for each part.
#[inline(never)]
fn push_any(
    alloc: Global,
    placed: &Placed,
    values: &mut Vec<Value>,
    meter: &mut Meter,
) -> Result<(), AllocError>
    requires { vec_len values.old < vec_capacity values.old }
    ensures value { OnOk result (values.new.items ≡ values.old.items
        ++ formulas.zero_for_empty (placed_value placed.now values.old.items) ∷ []) }
    ensures capacity { vec_capacity values.new ≡ vec_capacity values.old }
    ensures counted { OnOk result (meter.new
        ≡ record meter.old { evaluations = one_more meter.old.evaluations }) }
    ensures err { OnErr result (meter.new ≡ meter.old) }
{
    let value = evaluate_any(alloc, placed, values, meter)?;
    values.push_reserved(value);
    Ok(())
}

/// The value of a placed expression. What each kind needs of the stack stands in a function of its own.
#[cycle(placed)]
#[inline(never)]
fn value_of_placed(alloc: Global, placed: &Placed, values: &[Value]) -> Result<Value, AllocError>
    ensures { IfOk result (λ v. v ≡ placed_value placed.now values.now) }
{
    match placed {
        Placed::Constant(value) => value.copy(alloc),
        Placed::Place(place) => value_at(alloc, values, *place),
        Placed::Signed(sign, inner) => signed_placed(alloc, *sign, inner, values),
        Placed::Percent(inner) => percent_placed(alloc, inner, values),
        Placed::Binary(operator, operands) => {
            if let Some(x) = lent(&operands.0, values) {
                return with_right_placed(alloc, *operator, x, &operands.1, values);
            }
            binary_placed(alloc, *operator, &operands.0, &operands.1, values)
        }
        Placed::Lazy(function, parameters) => lazy_placed(alloc, *function, parameters, values),
        Placed::Values(function, parameters) => {
            values_placed(alloc, *function, parameters, values)
        }
    }
}

/// The value of a placed expression after a sign.
#[cycle(placed)]
#[inline(never)]
fn signed_placed(
    alloc: Global,
    sign: Sign,
    inner: &Placed,
    values: &[Value],
) -> Result<Value, AllocError>
    ensures { IfOk result (λ v. v
        ≡ operators.with_sign sign (placed_value inner.now values.now)) }
{
    let x = value_of_placed(alloc, inner, values)?;
    Ok(with_sign(sign, x))
}

/// The value of a placed expression before a percent sign.
#[cycle(placed)]
#[inline(never)]
fn percent_placed(alloc: Global, inner: &Placed, values: &[Value]) -> Result<Value, AllocError>
    ensures { IfOk result (λ v. v ≡ named.hundredth (placed_value inner.now values.now)) }
{
    let x = value_of_placed(alloc, inner, values)?;
    Ok(hundredth(&x))
}

/// The value of two placed expressions with an operator between them.
#[cycle(placed)]
#[inline(never)]
fn binary_placed(
    alloc: Global,
    operator: Operator,
    left: &Placed,
    right: &Placed,
    values: &[Value],
) -> Result<Value, AllocError>
    ensures { IfOk result (λ v. v ≡ operators.operate operator
        (placed_value left.now values.now) (placed_value right.now values.now)) }
{
    let x = value_of_placed(alloc, left, values)?;
    with_right_placed(alloc, operator, &x, right, values)
}

/// The value of an operator between a value and a placed expression.
#[cycle(placed)]
#[inline(never)]
fn with_right_placed(
    alloc: Global,
    operator: Operator,
    left: &Value,
    right: &Placed,
    values: &[Value],
) -> Result<Value, AllocError>
    ensures { IfOk result (λ v. v ≡ operators.operate operator
        left.now (placed_value right.now values.now)) }
{
    if let Some(y) = lent(right, values) {
        return operated(alloc, operator, left, y);
    }
    let y = value_of_placed(alloc, right, values)?;
    operated(alloc, operator, left, &y)
}

/// What a function gives that takes the value of its first parameter, and then that of the one that this chooses.
#[cycle(placed)]
fn lazy_placed(
    alloc: Global,
    function: LazyFunction,
    parameters: &[Placed],
    values: &[Value],
) -> Result<Value, AllocError>
    ensures { IfOk result (λ v. v ≡ applied_to_arguments (Lazy function)
        (arguments_of (placed_values parameters.now values.now))) }
{
    let first = parameter_or(alloc, parameters, 0, Value::Empty, values)?;
    match choose(function, first, parameters.len()) {
        Choice::Value(value) => Ok(value),
        Choice::Parameter(place, default) => {
            parameter_or(alloc, parameters, place, default, values)
        }
    }
}

/// The value of the parameter at a place, counted from 0, or else the default.
#[cycle(placed)]
#[inline(always)]
fn parameter_or(
    alloc: Global,
    parameters: &[Placed],
    place: usize,
    default: Value,
    values: &[Value],
) -> Result<Value, AllocError>
    ensures { IfOk result (λ v. v ≡ value_or default
        (arguments_of (placed_values parameters.now values.now)) place) }
{
    match parameters.get(place) {
        Some(parameter) => value_of_placed(alloc, parameter, values),
        None => Ok(default),
    }
}

/// What a function gives that takes the values of all its parameters.
#[cycle(placed)]
#[inline(never)]
fn values_placed(
    alloc: Global,
    function: ValueFunction,
    parameters: &[Placed],
    values: &[Value],
) -> Result<Value, AllocError>
    ensures { IfOk result (λ v. v
        ≡ applied_to_values function (placed_values parameters.now values.now)) }
{
    let mut taken = Vec::new(alloc);
    for parameter in parameters {
        taken.push(value_of_placed(alloc, parameter, values)?)?;
    }
    value_of_values(alloc, function, &taken)
}

/// A copy of the value at a place, or Empty.
#[inline(never)]
fn value_at(alloc: Global, values: &[Value], place: usize) -> Result<Value, AllocError>
    ensures { IfOk result (λ v. v ≡ placed_value (Placed.Place place) values.now) }
{
    match at_place(values, place) {
        Some(value) => value.copy(alloc),
        None => Ok(Value::Empty),
    }
}

/// The value at a place, if the list has so many.
#[inline(always)]
fn at_place(values: &[Value], place: usize) -> Option<&Value>
    ensures some { IfSome result (λ v. v.now ≡ value_at_place values.now place) }
    ensures none { IfNone result (Value.Empty ≡ value_at_place values.now place) }
{
    match values.get(place) {
        Some(value) => Some(value),
        None => None,
    }
}

/// The value of a placed expression that is a constant or a place, so that an operator takes it as it is lent.
#[inline(always)]
pub(crate) fn lent<'a>(placed: &'a Placed, values: &'a [Value]) -> Option<&'a Value>
    ensures { IfSome result (λ v. v.now ≡ placed_value placed.now values.now) }
{
    match placed {
        Placed::Constant(value) => Some(value),
        Placed::Place(place) => at_place(values, *place),
        _ => None,
    }
}

/// What an operator gives for two values.
#[inline(always)]
fn operated(
    alloc: Global,
    operator: Operator,
    left: &Value,
    right: &Value,
) -> Result<Value, AllocError>
    ensures { IfOk result (λ v. v ≡ operators.operate operator left.now right.now) }
{
    match operate(alloc, operator, left, right) {
        Ok(value) => Ok(value),
        Err(_) => Err(AllocError),
    }
}

/// A call of a function whose parameters are placed. None where it takes references.
pub fn placed_call(name: &Text, parameters: Vec<Placed>) -> Option<Placed>
    ensures { IfSome result (λ p. (vs : List Values) (args : List Argument)
        → map (λ (a : Argument). a.value) args ≡ placed_values parameters.items vs
        → placed_value p vs ≡ call_value name.now args) }
{
    match function_for(name.as_str(), parameters.len()) {
        Err(error) => Some(Placed::Constant(Value::Fault(error))),
        Ok(Function::Lazy(function)) => Some(Placed::Lazy(function, parameters)),
        Ok(Function::Values(function)) => Some(Placed::Values(function, parameters)),
        Ok(Function::References(_)) => None,
    }
}
