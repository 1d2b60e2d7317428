//! Kept values: those of one call, and those that outlive a call, of which there are only so many.
#![tactic(auto)]

mod given_up;
mod hashed;
mod kept;
mod key;
pub mod laws;
mod run_table;
mod texts;

pub use given_up::GivenUp;
pub use kept::Kept;
pub use key::Key;
pub use run_table::RunTable;
