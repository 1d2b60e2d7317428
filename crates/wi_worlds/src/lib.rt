//! Replacements of cells' contents, as a map from addresses to values.
#![tactic(auto)]

mod compared;
mod entries;
pub mod laws;
mod lookup;
mod part;
mod reaches;
mod rising;
mod world;

pub use entries::listed;
pub use lookup::value_at;
pub use reaches::Reaches;
pub use world::World;
