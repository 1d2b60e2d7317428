//! Calculators: what the cells of a sheet show, and what entries of data tables show.
#![tactic(auto)]

mod calculator;
mod carried;
mod cones;
mod costs;
mod flushing;
mod generations;
mod keeping;
mod kept;
mod last_worlds;
mod late_stamps;
pub mod laws;
mod occupied;
mod one_cell;
mod plain;
mod planned_cell;
mod plans;
mod recurring;
mod standing;
mod table_entry;
mod value;

pub use calculator::Calculator;
pub use kept::KeptCalculator;
pub use occupied::occupied_in;
pub use plain::PlainCalculator;
pub use wi_graph::{Cells, Watch, edited_cells};
