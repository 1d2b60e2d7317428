//! A constant put in the place of a cell's content.

use crate::address::Address;
use crate::value::Value;

/// A constant that stands in for a cell's content; Empty takes the content away.
#[derive(PartialEq, Eq, Hash, Drop)]
pub struct Replacement {
    pub at: Address,
    pub value: Value,
}
