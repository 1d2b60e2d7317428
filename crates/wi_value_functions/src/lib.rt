//! Functions whose arguments are values, all functions by their names, and what operators and other functions share
//! with these.
#![tactic(auto)]

mod arithmetic;
mod convert;
mod count;
mod first_error;
mod function;
mod information;
mod logical;
mod mathematical;
mod no_value;
mod rounding;
mod table;
mod text;
mod value;

pub use arithmetic::{add, add_to, divide, multiply, number_value, subtract};
pub use convert::{one, to_logical, to_number, to_whole, zero};
pub use count::{counted, whole_number, whole_value};
pub use first_error::{both, no_error};
pub use function::{
    FoldFunction, Function, LazyFunction, LookupFunction, ReferenceFunction, Test, TextFunction,
    ValueFunction,
};
pub use information::{is_empty_value, is_number_value};
pub use mathematical::power_value;
pub use no_value::{NoValue, Stop, as_value};
pub use table::function_for;
pub use text::limited_text;
pub use value::value_of_values;
