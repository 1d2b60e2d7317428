//! The graph of references: which cells are on or above a cycle, and which cells depend on a cell.
#![tactic(auto)]

mod apart;
mod below;
mod beyond;
mod bounds;
mod cell_set;
mod cells;
mod changes;
mod closing;
mod cone;
mod edit;
mod graph;
pub mod laws;
mod pinned;
mod reads;
mod rooms;
mod sets;
mod sides;
mod staging;
mod stripping;
mod turning;
mod watch;
mod within;

pub use cells::{Cells, edited_cells};
pub use graph::Graph;
pub use watch::Watch;
