//! Why a function ends before its value.

ghost use Rattle.std.specs.Prelude.{◌≡◌, IfOk};
ghost use Rattle.wi_values.specs.declared.value.Value.{Value as AnyValue};
ghost use Rattle.wi_value_functions.specs.NoValues.{as_value, Gives};

use std::alloc::{AllocError, AllocFailed};
use wi_values::{Address, ErrorKind, Value};

/// An error that is met, or what stops the function.
#[derive(Drop)]
pub enum NoValue<S> {
    Error(ErrorKind),
    Stopped(S),
}

/// What stops a function: a value that isn't known, or that memory ran out.
#[derive(Drop)]
pub enum Stop<W> {
    Missing(W),
    Memory,
}

impl<S: Drop> From<ErrorKind> for NoValue<S> {
    ghost use Rattle.wi_value_functions.specs.declared.no_value.NoValue.TheVariants.{Error};

    ghost from_gives = { λ e r. r ≡ Error e };

    fn from(error: ErrorKind) -> NoValue<S> {
        NoValue::Error(error)
    }
}

impl From<Address> for NoValue<Address> {
    ghost use Rattle.wi_value_functions.specs.declared.no_value.NoValue.TheVariants.{Stopped};

    ghost from_gives = { λ c r. r ≡ Stopped c };

    fn from(missing: Address) -> NoValue<Address> {
        NoValue::Stopped(missing)
    }
}

impl From<AllocError> for NoValue<AllocError> {
    ghost use Rattle.wi_value_functions.specs.declared.no_value.NoValue.TheVariants.{Stopped};

    ghost from_gives = { λ e r. r ≡ Stopped e };

    fn from(error: AllocError) -> NoValue<AllocError> {
        NoValue::Stopped(error)
    }
}

impl From<Address> for NoValue<Stop<Address>> {
    ghost use Rattle.wi_value_functions.specs.declared.no_value.NoValue.TheVariants.{Stopped};
    ghost use Rattle.wi_value_functions.specs.declared.no_value.Stop.TheVariants.{Missing};

    ghost from_gives = { λ c r. r ≡ Stopped (Missing c) };

    fn from(missing: Address) -> NoValue<Stop<Address>> {
        NoValue::Stopped(Stop::Missing(missing))
    }
}

impl<W: Drop> From<AllocError> for NoValue<Stop<W>> {
    ghost use Rattle.wi_value_functions.specs.declared.no_value.NoValue.TheVariants.{Stopped};
    ghost use Rattle.wi_value_functions.specs.declared.no_value.Stop.TheVariants.{Memory};

    ghost from_gives = { λ _ r. r ≡ Stopped Memory };

    fn from(_: AllocError) -> NoValue<Stop<W>> {
        NoValue::Stopped(Stop::Memory)
    }
}

impl<T: Drop, W: Drop> From<AllocFailed<T>> for NoValue<Stop<W>> {
    ghost use Rattle.wi_value_functions.specs.declared.no_value.NoValue.TheVariants.{Stopped};
    ghost use Rattle.wi_value_functions.specs.declared.no_value.Stop.TheVariants.{Memory};

    ghost from_gives = { λ _ r. r ≡ Stopped Memory };

    fn from(_error: AllocFailed<T>) -> NoValue<Stop<W>> {
        NoValue::Stopped(Stop::Memory)
    }
}

impl<W: Drop> From<AllocError> for Stop<W> {
    ghost use Rattle.wi_value_functions.specs.declared.no_value.Stop.TheVariants.{Memory};

    ghost from_gives = { λ _ s. s ≡ Memory };

    fn from(_: AllocError) -> Stop<W> {
        Stop::Memory
    }
}

impl<T: Drop, W: Drop> From<AllocFailed<T>> for Stop<W> {
    ghost use Rattle.wi_value_functions.specs.declared.no_value.Stop.TheVariants.{Memory};

    ghost from_gives = { λ _ s. s ≡ Memory };

    fn from(_error: AllocFailed<T>) -> Stop<W> {
        Stop::Memory
    }
}

/// The value of a function, which an error is too.
pub fn as_value<S: Drop>(outcome: Result<Value, NoValue<S>>) -> Result<Value, S>
    ensures ends { result ≡ as_value outcome }
    ensures value { (v : AnyValue) → Gives outcome v → IfOk result (λ w. w ≡ v) }
{
    match outcome {
        Ok(value) => Ok(value),
        Err(NoValue::Error(e)) => Ok(Value::Fault(e)),
        Err(NoValue::Stopped(stop)) => Err(stop),
    }
}
