//! The items of a sequence.

ghost use Rattle.std.specs.Prelude.{◌≡◌};
ghost use Rattle.wi_standard_functions.specs.Sequence.{from_cell, number_of_item, logical_of_item, value_of_item};
ghost use Rattle.wi_fold_functions.specs.Inner.Items.{item_of};

use wi_fraction::Fraction;
use wi_value_functions::{to_logical, to_number};
use wi_values::{ErrorKind, Value};

/// An item of a sequence: the value of a cell of a reference, or a scalar.
#[derive(Clone, Copy)]
pub(crate) enum Item<'a> {
    OfCell(&'a Value),
    Scalar(&'a Value),
}

impl<'a> Item<'a> {
    pub(crate) fn value(self) -> &'a Value
        ensures { result.now ≡ value_of_item (item_of self.entry) }
    {
        match self {
            Item::OfCell(value) => value,
            Item::Scalar(value) => value,
        }
    }

    /// Its number, where one counts: a scalar is converted, and of cells the Numbers count.
    pub(crate) fn number(self) -> Result<Option<Fraction>, ErrorKind>
        ensures { result ≡ number_of_item (item_of self.entry) }
    {
        match self {
            Item::OfCell(value) => number_of_cell(value),
            Item::Scalar(value) => Ok(Some(to_number(value)?)),
        }
    }

    /// Its truth value, where one counts: a scalar is converted, and of cells the Numbers and Logicals count.
    pub(crate) fn logical(self) -> Result<Option<bool>, ErrorKind>
        ensures { result ≡ logical_of_item (item_of self.entry) }
    {
        match self {
            Item::OfCell(Value::Empty) => Ok(None),
            Item::OfCell(Value::Text(_)) => Ok(None),
            Item::OfCell(value) => Ok(Some(to_logical(value)?)),
            Item::Scalar(value) => Ok(Some(to_logical(value)?)),
        }
    }
}

/// The number of a cell, where it is one.
fn number_of_cell(value: &Value) -> Result<Option<Fraction>, ErrorKind>
    ensures { result ≡ number_of_item (from_cell value.now) }
{
    match value {
        Value::Empty => Ok(None),
        Value::Number(x) => Ok(Some(*x)),
        Value::Text(_) => Ok(None),
        Value::Logical(_) => Ok(None),
        Value::Fault(e) => Err(*e),
    }
}
