//! SUMIF (OpenFormula, "Mathematical Functions").

ghost use Rattle.std.specs.Prelude.{◌≡◌, ℕ, true, None, Some, is_some, is_err, Result, Ok, Err, IfOk, IfErr, OnOk};
ghost use Rattle.std.specs.ControlFlow.{break_value};
ghost use Rattle.std.proofs.Common.{ap};
ghost use Rattle.wi_fraction.specs.Number.{Number};
ghost use Rattle.wi_value_functions.specs.declared.no_value.NoValue.{NoValue as NoValues};
ghost use Rattle.wi_value_functions.specs.declared.no_value.Stop.{Stop as Stops};
ghost use Rattle.wi_lookup_functions.specs.Inner.Laws.{empty_not_summed};
ghost use Rattle.wi_standard_functions.specs.Arguments.{region_of};
ghost use Rattle.wi_standard_functions.specs.Inner.Named.{sum_of_items};
ghost use Rattle.wi_standard_functions.specs.Inner.Named.{sum_if_by};
ghost use Rattle.wi_value_functions.specs.NoValues.{IfMissing};
ghost use Rattle.wi_arguments.specs.Arguments.{IsMissing, IsOfArguments};
ghost use Rattle.wi_lookup_functions.specs.Inner.Meeting.{is_met};
ghost use Rattle.wi_lookup_functions.specs.Inner.Giving.{Agrees, Gives};
ghost use Rattle.wi_lookup_functions.specs.Inner.Sums.{known_there, same_extent, values_where, with_cell, with_known, with_met_known, IsMissingInEither};

use crate::arguments::area_at;
use crate::cells::value_of;
use crate::criteria::{area_or, criterion_at};
use crate::criterion::Criterion;
use crate::extent::{place_there, same_extent};
use std::alloc::Global;
use std::ops::ControlFlow;
use wi_arguments::{Argument, Lookup, TakesCells, take_cells};
use wi_fraction::{Fraction, Total};
use wi_value_functions::{NoValue, Stop, add_to, as_value, zero};
use wi_values::{Address, ErrorKind, Rect, Value};

/// SUMIF: the sum of the third argument's cells at the places where the first's meet the criterion that the second is;
/// without a third it is the first. The first error met, from the left and the top, is the result, and `BadValue` where
/// the two are not of one size. It walks through the filled cells of the first, and tries the criterion at each.
pub(crate) fn sum_if_value<L: Lookup>(
    alloc: Global,
    arguments: &[Argument],
    lookup: &L,
) -> Result<Value, Stop<Address>>
    ensures done { IfOk result
        (IsOfArguments (L.known_cell lookup.now) sum_if_by arguments.now) }
    ensures missing { IfErr result
        (λ s. IfMissing s (IsMissing (L.known_cell lookup.now) arguments.now)) }
{
    as_value(sum_if(alloc, arguments, lookup))
}

fn sum_if<L: Lookup>(
    alloc: Global,
    arguments: &[Argument],
    lookup: &L,
) -> Result<Value, NoValue<Stop<Address>>>
    ensures { Gives (L.known_cell lookup.now) sum_if_by arguments.now result }
{
    let area = area_at(arguments, 0)?;
    let criterion = criterion_at(alloc, arguments, 1, lookup)?;
    let added = area_or(area, arguments, 2)?;
    if !same_extent(area, added) {
        return Err(NoValue::Error(ErrorKind::BadValue));
    }
    let sum = sum_met(&criterion, area, added, lookup)?;
    Ok(Value::Number(sum))
}

/// The sum of the cells at the places where those of another rectangle meet a criterion.
fn sum_met<L: Lookup>(
    criterion: &Criterion,
    area: Rect,
    added: Rect,
    lookup: &L,
) -> Result<Fraction, NoValue<Stop<Address>>>
    requires { same_extent area added ≡ true }
    ensures { Agrees (L.known_cell lookup.now)
        (IsMissingInEither (L.known_cell lookup.now) area added)
        (λ x. x)
        (λ cells. sum_of_items (values_where (is_met criterion.now)
        (region_of cells area).values (region_of cells added).values))
        result }
{
    // Its rows lie in the sheet.
    let _ = added.last().row();
    let mut summing = Summing {
        criterion,
        area,
        added,
        lookup,
        so_far: Ok(Total::of(zero())),
    };
    take_cells(area, lookup, &mut summing)?;
    number_of(summing.so_far)
}

/// The sum that a total is.
fn number_of(
    so_far: Result<Total, NoValue<Stop<Address>>>,
) -> Result<Fraction, NoValue<Stop<Address>>>
    ensures { result ≡ so_far }
{
    match so_far {
        Ok(total) => Ok(total.number()),
        Err(no_value) => Err(no_value),
    }
}

/// The sum so far of the cells at the places where those of another rectangle meet a criterion, or why there is none.
#[derive(Drop)]
struct Summing<'a, L> {
    criterion: &'a Criterion,
    area: Rect,
    added: Rect,
    lookup: &'a L,
    so_far: Result<Total, NoValue<Stop<Address>>>,
}

impl<'a, L: Lookup> TakesCells for Summing<'a, L> {
    ghost after = { λ s c v. record s { so_far = with_met_known (L.known_cell s.lookup.now) s.criterion.now s.area s.added s.so_far c v } };

    #[inline(always)]
    fn take(&mut self, at: Address, value: &Value) -> ControlFlow<()> {
        if !self.criterion.meets(value) {
            return ControlFlow::Continue(());
        }
        match place_there(at, self.area, self.added) {
            Some(other) => add_there(&mut self.so_far, at, value, other, self.lookup),
            None => ControlFlow::Continue(()),
        }
    }

    ghost passes_empty = { λ s c. ap (λ (r : Result Number (NoValues (Stops ℕ))). record s { so_far = r }) (empty_not_summed (L.known_cell s.lookup.now) s.criterion.now s.area s.added s.so_far c) };
}

/// Adds the cell at the place of one that has a value itself, and tells whether another could make a difference.
#[inline(always)]
fn add_there<L: Lookup>(
    so_far: &mut Result<Total, NoValue<Stop<Address>>>,
    at: Address,
    value: &Value,
    other: Address,
    lookup: &L,
) -> ControlFlow<()>
    ensures taken { so_far.new ≡ with_known so_far.old other
        (known_there (L.known_cell lookup.now) at value.now other) }
    ensures broken { is_some (break_value result) ≡ true → is_err so_far.new ≡ true }
{
    let added = match so_far {
        Ok(total) => add_known(total, at, value, other, lookup),
        Err(_) => return ControlFlow::Break(()),
    };
    match added {
        Ok(()) => ControlFlow::Continue(()),
        Err(no_value) => {
            *so_far = Err(no_value);
            ControlFlow::Break(())
        }
    }
}

/// Adds that cell to a total.
#[inline(always)]
fn add_known<L: Lookup>(
    total: &mut Total,
    at: Address,
    value: &Value,
    other: Address,
    lookup: &L,
) -> Result<(), NoValue<Stop<Address>>>
    ensures ok { OnOk result (with_known (Ok total.old) other
        (known_there (L.known_cell lookup.now) at value.now other) ≡ Ok total.new) }
    ensures err { IfErr result (λ n. with_known (Ok total.old) other
        (known_there (L.known_cell lookup.now) at value.now other) ≡ Err n) }
{
    let there = value_there(at, value, other, lookup)?;
    add_cell(total, there)?;
    Ok(())
}

/// The value of a cell beside one that has a value itself, or the cell where that is missing.
#[inline(always)]
fn value_there<'a, L: Lookup>(
    at: Address,
    value: &'a Value,
    other: Address,
    lookup: &'a L,
) -> Result<&'a Value, Address>
    ensures known { IfOk result (λ v.
        known_there (L.known_cell lookup.now) at value.now other ≡ Some v.now) }
    ensures missing { IfErr result (λ c. (c ≡ other)
        × (known_there (L.known_cell lookup.now) at value.now other ≡ None)) }
{
    if other == at {
        return Ok(value);
    }
    value_of(other, lookup)
}

/// Adds the number of a cell, where it has one.
#[inline(always)]
fn add_cell(total: &mut Total, value: &Value) -> Result<(), ErrorKind>
    ensures ok { OnOk result (with_cell (Ok total.old) value.now ≡ Ok total.new) }
    ensures err { IfErr result (λ e. with_cell (Ok total.old) value.now ≡ Err e) }
{
    match value {
        Value::Number(x) => add_to(total, x),
        Value::Fault(e) => Err(*e),
        _ => Ok(()),
    }
}
