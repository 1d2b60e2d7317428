//! Items added to a total.

ghost use Rattle.std.specs.Prelude.{◌≡◌, Ok, Err, IfErr, OnOk};
ghost use Rattle.wi_standard_functions.specs.Arithmetic.{addition};
ghost use Rattle.wi_fold_functions.specs.Inner.Items.{item_of};
ghost use Rattle.wi_fold_functions.specs.Inner.Made.{calculated_with};

use crate::item::Item;
use wi_fraction::Total;
use wi_value_functions::add_to;
use wi_values::{ErrorKind, Value};

/// Adds the number of an item, where one counts.
#[inline(always)]
pub(crate) fn add_item(total: &mut Total, item: Item<'_>) -> Result<(), ErrorKind>
    ensures ok { OnOk result
        (calculated_with addition total.old (item_of item.entry) ≡ Ok total.new) }
    ensures err { IfErr result
        (λ e. calculated_with addition total.old (item_of item.entry) ≡ Err e) }
{
    match item {
        Item::OfCell(Value::Number(x)) => add_to(total, x),
        _ => add_apart(total, item),
    }
}

/// As `add_item`, of any item. It stands apart, so that a number is added at once.
#[inline(never)]
fn add_apart(total: &mut Total, item: Item<'_>) -> Result<(), ErrorKind>
    ensures ok { OnOk result
        (calculated_with addition total.old (item_of item.entry) ≡ Ok total.new) }
    ensures err { IfErr result
        (λ e. calculated_with addition total.old (item_of item.entry) ≡ Err e) }
{
    match item.number()? {
        Some(x) => add_to(total, &x),
        None => Ok(()),
    }
}
