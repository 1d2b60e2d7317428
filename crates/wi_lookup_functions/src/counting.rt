//! COUNTIF (OpenFormula, "Information Functions").

ghost use Rattle.std.specs.Prelude.{◌≡◌, ℕ, true, None, map, IfOk, IfErr, count_by};
ghost use Rattle.std.proofs.Common.{ap};
ghost use Rattle.wi_values.specs.Address.{cells_of, is_within};
ghost use Rattle.wi_values.specs.declared.value.Value.{Value as Values};
ghost use Rattle.wi_standard_functions.specs.Information.{count_if_value};
ghost use Rattle.wi_value_functions.specs.NoValues.{IfMissing};
ghost use Rattle.wi_arguments.specs.Arguments.{IsMissing, IsOfArguments, KnownAgrees};
ghost use Rattle.wi_value_functions.specs.Inner.Counts.{counted, IsCut};
ghost use Rattle.wi_lookup_functions.specs.Inner.Meeting.{is_met};
ghost use Rattle.wi_lookup_functions.specs.Inner.Laws.{empty_not_counted};
ghost use Rattle.wi_lookup_functions.specs.Inner.Giving.{Gives};

use crate::arguments::area_at;
use crate::criteria::criterion_at;
use crate::criterion::Criterion;
use std::alloc::Global;
use std::ops::ControlFlow;
use wi_arguments::{Argument, Lookup, TakesCells, take_cells};
use wi_value_functions::{NoValue, Stop, as_value, counted, whole_value};
use wi_values::{Address, Rect, Value};

/// COUNTIF: how many cells of the first argument meet the criterion that the second is. It walks through the filled
/// cells, and tries the criterion at each.
pub(crate) fn count_if_value<L: Lookup>(
    alloc: Global,
    arguments: &[Argument],
    lookup: &L,
) -> Result<Value, Stop<Address>>
    ensures done { IfOk result
        (IsOfArguments (L.known_cell lookup.now) count_if_value arguments.now) }
    ensures missing { IfErr result
        (λ s. IfMissing s (IsMissing (L.known_cell lookup.now) arguments.now)) }
{
    as_value(count_if(alloc, arguments, lookup))
}

fn count_if<L: Lookup>(
    alloc: Global,
    arguments: &[Argument],
    lookup: &L,
) -> Result<Value, NoValue<Stop<Address>>>
    ensures { Gives (L.known_cell lookup.now) count_if_value arguments.now result }
{
    let area = area_at(arguments, 0)?;
    let criterion = criterion_at(alloc, arguments, 1, lookup)?;
    let count = count_met(&criterion, area, lookup)?;
    Ok(whole_value(count))
}

/// How many cells of a rectangle meet a criterion. `Err` has a cell whose value isn't known.
fn count_met<L: Lookup>(criterion: &Criterion, area: Rect, lookup: &L) -> Result<u128, Address>
    ensures count { IfOk result (λ n. (cells : ℕ → Values)
        → KnownAgrees (L.known_cell lookup.now) cells
        → IsCut n (count_by (is_met criterion.now) (map cells (cells_of area)))) }
    ensures missing { IfErr result (λ c. L.known_cell lookup.now c ≡ None) }
    ensures inside { IfErr result (λ c. is_within area c ≡ true) }
{
    let mut counting = Counting {
        criterion,
        count: 0,
    };
    take_cells(area, lookup, &mut counting)?;
    Ok(counting.count)
}

/// How many cells so far meet a criterion. A count goes no higher than it fits: no number is so great.
#[derive(Drop)]
struct Counting<'a> {
    criterion: &'a Criterion,
    count: u128,
}

impl<'a> TakesCells for Counting<'a> {
    ghost after = { λ s _ v. record { criterion = s.criterion; count = counted (is_met s.criterion.now v) s.count } };

    fn take(&mut self, _at: Address, value: &Value) -> ControlFlow<()> {
        self.count = counted(self.count, self.criterion.meets(value));
        ControlFlow::Continue(())
    }

    ghost passes_empty = { λ s _. ap (λ (n : ℕ). record { criterion = s.criterion; count = n }) (empty_not_counted s.criterion.now s.count) };
}
