//! SUM and PRODUCT (OpenFormula, "Mathematical Functions").

ghost use Rattle.std.specs.Prelude.{IfOk, IfErr, refl};
ghost use Rattle.wi_values.specs.declared.value.Value.TheVariants.{Number as number};
ghost use Rattle.wi_arguments.specs.Arguments.{IsMissing, IsOfArguments};
ghost use Rattle.wi_fold_functions.specs.Inner.Made.{sum_with, product_with};
ghost use Rattle.wi_standard_functions.specs.Inner.Named.{sum_value, product_value};

use crate::adding::add_item;
use crate::fold::Fold;
use crate::folding::fold_arguments;
use crate::item::Item;
use wi_arguments::{Argument, Lookup};
use wi_fraction::{Fraction, Total};
use wi_value_functions::{multiply, one, zero};
use wi_values::{Address, ErrorKind, Value};

/// SUM: the sum of the numbers that count, from the left, or the first error met; `BadNumber` where a sum doesn't fit.
/// `Err` has a cell whose value isn't known.
pub(crate) fn sum_value<L: Lookup>(arguments: &[Argument], lookup: &L) -> Result<Value, Address>
    ensures done { IfOk result (IsOfArguments (L.known_cell lookup.now) sum_value arguments.now) }
    ensures missing { IfErr result (IsMissing (L.known_cell lookup.now) arguments.now) }
{
    fold_arguments(
        arguments,
        lookup,
        Sum {
            total: Total::of(zero()),
        },
    )
}

/// PRODUCT: the product of the numbers that count, from the left, or the first error met; `BadNumber` where a product
/// doesn't fit. `Err` has a cell whose value isn't known.
pub(crate) fn product_value<L: Lookup>(arguments: &[Argument], lookup: &L) -> Result<Value, Address>
    ensures done { IfOk result
        (IsOfArguments (L.known_cell lookup.now) product_value arguments.now) }
    ensures missing { IfErr result (IsMissing (L.known_cell lookup.now) arguments.now) }
{
    fold_arguments(arguments, lookup, Product { product: one() })
}

/// The sum of the numbers so far.
#[derive(Drop)]
struct Sum {
    total: Total,
}

impl Fold for Sum {
    ghost step = { sum_with };

    ghost value = { λ s. number s.total };

    #[inline(always)]
    fn step(&mut self, item: Item<'_>) -> Result<(), ErrorKind> {
        add_item(&mut self.total, item)
    }

    fn value(self) -> Value {
        Value::Number(self.total.number())
    }

    ghost passes_empty = { λ _. refl };
}

/// The product of the numbers so far.
#[derive(Drop)]
struct Product {
    product: Fraction,
}

impl Fold for Product {
    ghost step = { product_with };

    ghost value = { λ s. number s.product };

    fn step(&mut self, item: Item<'_>) -> Result<(), ErrorKind> {
        if let Some(x) = item.number()? {
            self.product = multiply(self.product, x)?;
        }
        Ok(())
    }

    fn value(self) -> Value {
        Value::Number(self.product)
    }

    ghost passes_empty = { λ _. refl };
}
