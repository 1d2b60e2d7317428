//! What a function has before it: what is known of cells, and its arguments.
#![tactic(auto)]

mod argument;
mod cells;
mod lookup;
mod taker;
mod walk;

pub use argument::Argument;
pub use cells::successor;
pub use lookup::{LookedUp, Lookup};
pub use taker::TakesCells;
pub use walk::take_cells;
