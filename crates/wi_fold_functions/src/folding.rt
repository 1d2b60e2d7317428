//! A fold over the items of arguments, from the left to the first error.

ghost use Rattle.std.specs.Prelude.{◌≡◌, ℕ, true, is_some, is_err, None, Result, Err, IfOk, IfErr, OnOk};
ghost use Rattle.std.specs.ControlFlow.{break_value};
ghost use Rattle.std.proofs.Common.{ap};
ghost use Rattle.wi_values.specs.declared.value.ErrorKind.{ErrorKind as ErrorKinds};
ghost use Rattle.wi_values.specs.declared.value.Value.{Value as Values};
ghost use Rattle.wi_standard_functions.specs.Sequence.{from_cell, sequence_of};
ghost use Rattle.wi_standard_functions.specs.Inner.Named.{fold_until_error};
ghost use Rattle.wi_arguments.specs.Arguments.{argument_in, arguments_in, refers_to, KnownAgrees, IsMissing};
ghost use Rattle.wi_fold_functions.specs.Inner.Items.{item_of, items_of, go_on, go_on_through, shown};
ghost use Rattle.wi_fold_functions.specs.Inner.Items.Laws.{empty_passed};

use crate::fold::Fold;
use crate::item::Item;
use std::ops::ControlFlow;
use wi_arguments::{Argument, Lookup, TakesCells, take_cells};
use wi_values::{Address, ErrorKind, Value};

/// The value of a function that folds the items of its arguments. It looks at filled cells alone, and at none after the
/// first error.
pub(crate) fn fold_arguments<L: Lookup, F: Fold>(
    arguments: &[Argument],
    lookup: &L,
    start: F,
) -> Result<Value, Address>
    ensures done { IfOk result (λ v. (cells : ℕ → Values)
        → KnownAgrees (L.known_cell lookup.now) cells → v ≡ shown F.value
        (fold_until_error F.step start (sequence_of (arguments_in cells arguments.now)))) }
    ensures missing { IfErr result (IsMissing (L.known_cell lookup.now) arguments.now) }
{
    let mut folding = Folding { so_far: Ok(start) };
    for argument in arguments {
        folding.take_argument(argument, lookup)?;
        if folding.so_far.is_err() {
            return Ok(folding.value());
        }
    }
    Ok(folding.value())
}

/// What is made of the items so far, or the first error met.
#[derive(Drop)]
struct Folding<F> {
    so_far: Result<F, ErrorKind>,
}

impl<F: Fold> Folding<F> {
    /// Takes the items of an argument.
    fn take_argument<L: Lookup>(&mut self, argument: &Argument, lookup: &L) -> Result<(), Address>
        ensures taken { OnOk result ((cells : ℕ → Values)
            → KnownAgrees (L.known_cell lookup.now) cells → self.new.so_far
            ≡ go_on_through F.step self.old.so_far (items_of (argument_in cells argument.now))) }
        ensures missing { IfErr result (λ c. L.known_cell lookup.now c ≡ None) }
        ensures referred { IfErr result (λ c. refers_to c argument.now ≡ true) }
    {
        match argument {
            Argument::Reference(area) => {
                take_cells(*area, lookup, self)?;
                Ok(())
            }
            Argument::Value(value) => {
                let _ = self.take_item(Item::Scalar(value));
                Ok(())
            }
        }
    }

    /// Takes one more item, and tells whether another could make a difference: an error that was met stays.
    #[inline(always)]
    fn take_item(&mut self, item: Item<'_>) -> ControlFlow<()>
        ensures taken { self.new.so_far ≡ go_on F.step self.old.so_far (item_of item.entry) }
        ensures broken { is_some (break_value result) ≡ true → is_err self.new.so_far ≡ true }
    {
        if let Err(e) = self.step(item) {
            self.so_far = Err(e);
            return ControlFlow::Break(());
        }
        ControlFlow::Continue(())
    }

    #[inline(always)]
    fn step(&mut self, item: Item<'_>) -> Result<(), ErrorKind>
        ensures ok { OnOk result
            (self.new.so_far ≡ go_on F.step self.old.so_far (item_of item.entry)) }
        ensures err { IfErr result
            (λ e. go_on F.step self.old.so_far (item_of item.entry) ≡ Err e) }
    {
        match &mut self.so_far {
            Ok(made) => made.step(item),
            Err(e) => Err(*e),
        }
    }

    /// What the function shows of it.
    fn value(self) -> Value
        ensures { result ≡ shown F.value self.so_far }
    {
        match self.so_far {
            Ok(made) => made.value(),
            Err(e) => Value::Fault(e),
        }
    }
}

impl<F: Fold> TakesCells for Folding<F> {
    ghost after = { λ s _ v. record { so_far = go_on F.step s.so_far (from_cell v) } };

    fn take(&mut self, _at: Address, value: &Value) -> ControlFlow<()> {
        self.take_item(Item::OfCell(value))
    }

    ghost passes_empty = { λ s _. ap (λ (r : Result F ErrorKinds). record { so_far = r }) (empty_passed F.step F.passes_empty s.so_far) };
}
