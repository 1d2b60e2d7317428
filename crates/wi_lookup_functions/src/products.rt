//! SUMPRODUCT (OpenFormula, "Mathematical Functions").

ghost use Rattle.std.specs.Prelude.{◌≡◌, true, map, Some, Ok, IfOk, IfErr, slice_get};
ghost use Rattle.std.specs.List.{list_all};
ghost use Rattle.wi_values.specs.Address.{is_within};
ghost use Rattle.wi_standard_functions.specs.Arguments.{region_of};
ghost use Rattle.wi_standard_functions.specs.Mathematical.{sum_product_value};
ghost use Rattle.wi_value_functions.specs.NoValues.{IfMissing};
ghost use Rattle.wi_arguments.specs.Arguments.{IsMissing, IsOfArguments};
ghost use Rattle.wi_lookup_functions.specs.Inner.Giving.{Agrees, Gives};
ghost use Rattle.wi_lookup_functions.specs.Inner.Products.{areas_of, product_there, sum_over, sum_through, with_factor, IsAreaError, IsMissingInAny};
ghost use Rattle.wi_lookup_functions.specs.Inner.Sums.{same_extent};

use crate::cells::value_of;
use crate::extent::same_place;
use crate::places::{have_one_size, next_place};
use std::alloc::Global;
use wi_arguments::{Argument, Lookup};
use wi_fraction::Fraction;
use wi_value_functions::{NoValue, Stop, add, as_value, multiply, one, zero};
use wi_values::{Address, ErrorKind, Rect, Value};

/// SUMPRODUCT: the sum, over the places of rectangles of one size, of the products of the cells that stand there; a
/// cell that isn't a number counts 0. The first error met, by place and then from the left, is the result; `BadValue`
/// where an argument isn't a reference or the rectangles aren't of one size. It takes a search for the next filled cell
/// of each rectangle at each place where a cell of one of them is filled.
pub(crate) fn sum_product_value<L: Lookup>(
    alloc: Global,
    arguments: &[Argument],
    lookup: &L,
) -> Result<Value, Stop<Address>>
    ensures done { IfOk result
        (IsOfArguments (L.known_cell lookup.now) sum_product_value arguments.now) }
    ensures missing { IfErr result
        (λ s. IfMissing s (IsMissing (L.known_cell lookup.now) arguments.now)) }
{
    as_value(sum_product(alloc, arguments, lookup))
}

fn sum_product<L: Lookup>(
    alloc: Global,
    arguments: &[Argument],
    lookup: &L,
) -> Result<Value, NoValue<Stop<Address>>>
    ensures { Gives (L.known_cell lookup.now) sum_product_value arguments.now result }
{
    let areas = areas_of(alloc, arguments)?;
    let sum = sum_over(&areas, lookup)?;
    Ok(Value::Number(sum))
}

/// The rectangles that all arguments refer to.
fn areas_of(alloc: Global, arguments: &[Argument]) -> Result<Vec<Rect>, NoValue<Stop<Address>>>
    ensures done { IfOk result (λ areas. areas_of arguments.now ≡ Ok areas.items) }
    ensures error { IfErr result (IsAreaError arguments.now) }
{
    let mut areas = Vec::new(alloc);
    for argument in arguments {
        areas.push(argument.area()?)?;
    }
    Ok(areas)
}

/// The sum of the products at all places of rectangles, where these have one size.
fn sum_over<L: Lookup>(areas: &[Rect], lookup: &L) -> Result<Fraction, NoValue<Stop<Address>>>
    ensures { Agrees (L.known_cell lookup.now) (IsMissingInAny (L.known_cell lookup.now) areas.now)
        (λ x. x) (λ cells. sum_over (map (region_of cells) areas.now)) result }
{
    let Some(first) = first_of(areas) else {
        return Ok(zero());
    };
    if !have_one_size(first, areas) {
        return Err(NoValue::Error(ErrorKind::BadValue));
    }
    sum_of_products(first, areas, lookup)
}

fn first_of(areas: &[Rect]) -> Option<Rect>
    ensures { result ≡ slice_get areas.now 0 }
{
    areas.first().copied()
}

/// The sum of the products at all places of rectangles that have the size of the first. It goes from one place where a
/// cell of any of them is filled to the next; a place is told by the first one's cell.
fn sum_of_products<L: Lookup>(
    first: Rect,
    areas: &[Rect],
    lookup: &L,
) -> Result<Fraction, NoValue<Stop<Address>>>
    requires head { Some first ≡ slice_get areas.now 0 }
    requires size { list_all (same_extent first) areas.now ≡ true }
    ensures { Agrees (L.known_cell lookup.now) (IsMissingInAny (L.known_cell lookup.now) areas.now)
        (λ x. x) (λ cells. sum_through cells first areas.now) result }
{
    let mut sum = zero();
    let mut ahead = next_place(first, areas, &None, lookup);
    while let Some(at) = ahead {
        let product = product_at(first, areas, at, lookup)?;
        let more = add(sum, product)?;
        sum = more;
        ahead = next_place(first, areas, &ahead, lookup);
    }
    Ok(sum)
}

/// The product of the cells at a place, from the left.
#[tactic(auto, using(crate::proofs::InOrder::has_size))]
fn product_at<L: Lookup>(
    first: Rect,
    areas: &[Rect],
    at: Address,
    lookup: &L,
) -> Result<Fraction, NoValue<Stop<Address>>>
    requires within { is_within first at ≡ true }
    requires size { list_all (same_extent first) areas.now ≡ true }
    ensures { Agrees (L.known_cell lookup.now) (IsMissingInAny (L.known_cell lookup.now) areas.now)
        (λ x. x) (λ cells. product_there cells first areas.now at) result }
{
    let mut product = one();
    for area in areas {
        let value = value_of(same_place(at, first, *area), lookup)?;
        let more = with_factor(product, value)?;
        product = more;
    }
    Ok(product)
}

/// A product with one more cell, which counts 0 where it isn't a number.
fn with_factor(product: Fraction, value: &Value) -> Result<Fraction, ErrorKind>
    ensures { result ≡ with_factor product value.now }
{
    match value {
        Value::Empty => multiply(product, zero()),
        Value::Number(x) => multiply(product, *x),
        Value::Text(_) => multiply(product, zero()),
        Value::Logical(_) => multiply(product, zero()),
        Value::Fault(e) => Err(*e),
    }
}
