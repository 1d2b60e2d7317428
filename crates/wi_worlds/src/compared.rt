//! Equality and hash of worlds.

ghost use Rattle.wi_values.specs.Replacements.{same_replacements};
ghost use Rattle.wi_worlds.specs.Inner.Compared.{same_world_equiv, same_world_hash, same_world_partial, world_input};

use crate::world::World;
use std::hash::{Hash, Hasher};

/// Worlds of different digests are told apart without a look at their replacements.
impl PartialEq for World {
    ghost eq = { same_replacements };

    ghost laws = { same_world_partial };

    fn eq(&self, other: &World) -> bool {
        self.digest() == other.digest() && self.replacements() == other.replacements()
    }
}

impl Eq for World {
    ghost laws = { same_world_equiv };
}

/// The work of a hash is the same whatever the count of replacements.
impl Hash for World {
    ghost hash_input = { world_input };

    ghost respects_eq = { same_world_hash };

    fn hash<H: Hasher>(&self, state: &mut H) {
        self.digest().hash(state);
    }
}
