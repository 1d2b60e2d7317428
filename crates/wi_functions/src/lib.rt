//! The value of one formula.
#![tactic(auto)]

mod choice;
mod evaluation;
mod first;
mod meter;
mod number;
mod operators;
mod placed;
mod references;

pub use evaluation::{Outcome, Want, evaluate, zero_for_empty};
pub use first::first_cell;
pub use meter::Meter;
pub use placed::{Placed, evaluate_placed, placed_call, push_evaluated};
pub use wi_arguments::{LookedUp, Lookup};
