//! The dependents of a cell: pairs of a rectangle and a cell that reads it, found by blocks of rows.
#![tactic(auto)]

mod around;
mod bag;
mod block;
mod few;
mod index;
pub mod laws;
mod pair;
mod pieces;
mod readers;
mod rising_set;
mod search;
mod singles;
mod telling;

pub use index::RangeIndex;
pub use rising_set::RisingSet;
pub use search::ReaderSearch;
