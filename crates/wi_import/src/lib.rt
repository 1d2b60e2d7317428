//! What an import of CSV text puts into which cells.
#![tactic(auto)]

mod areas;
mod changes;
mod checking;
mod fault;
mod imported;
mod importing;
pub mod laws;

pub use fault::ImportFault;
pub use imported::Import;
pub use importing::import;
