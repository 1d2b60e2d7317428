//! The log of edits: who edited which cells.
#![tactic(auto)]

mod cells;
mod edit;
mod edit_log;
mod named;
mod noted;
mod rising;
mod search;

pub use edit_log::EditLog;
pub use named::Named;
