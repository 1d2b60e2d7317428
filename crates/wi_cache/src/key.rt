//! Under what a value is kept.

use wi_values::Address;
use wi_worlds::World;

/// A cell, its generation, which is the number of the last accepted edit that changed the cell or something that it
/// depends on, and the replacements of cells that it reaches.
#[derive(PartialEq, Eq, Drop)]
pub struct Key {
    pub cell: Address,
    pub generation: u64,
    pub world: World,
}
