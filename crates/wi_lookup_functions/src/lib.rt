//! MATCH, INDEX, VLOOKUP and HLOOKUP of OpenFormula, and the functions that go by criteria or by several rectangles
//! side by side; and how values compare, and which of them match one that is sought or meet a criterion.
#![tactic(auto)]

mod arguments;
mod axis;
mod cells;
mod comparison;
mod counting;
mod criteria;
mod criterion;
mod extent;
mod index;
pub mod laws;
mod match_place;
mod matching;
mod outcome;
mod places;
mod products;
mod region;
mod rule;
mod search;
mod summing;
mod tables;
mod value;

pub use comparison::compare;
pub use value::value_of_lookup;
