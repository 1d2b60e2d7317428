//! Replacements that questions share.

ghost use Rattle.std.specs.Prelude.{◌≡◌, ◌↔◌, [], IsTrue, IfOk};
ghost use Rattle.wi_values.specs.Replacements.{IsInOrder};

use std::alloc::{AllocError, Global};
use std::mem;
use wi_values::Replacement;
use wi_worlds::World;

/// The replacements of the last two questions. They are two since a comparison asks in turn under each of its two
/// lists.
#[derive(Drop)]
pub struct LastWorlds {
    last: World,
    before: World,
}

impl LastWorlds {
    /// None yet. Takes no memory.
    pub(crate) fn new(alloc: Global) -> LastWorlds
        ensures { result ≡ record { last = []; before = [] } }
    {
        LastWorlds {
            last: World::new(alloc),
            before: World::new(alloc),
        }
    }

    /// These replacements, which stand in order. They are compared with those of the last two questions, texts byte by
    /// byte, and shared with the question that had the same, which takes no memory. Else they are copied, texts too,
    /// and hashed, and the work for each grows with the logarithm of their count.
    pub(crate) fn world_for(
        &self,
        alloc: Global,
        replacements: &[Replacement],
    ) -> Result<World, AllocError>
        requires { IsInOrder replacements.now }
        ensures { IfOk result (λ w. w ≡ replacements.now) }
    {
        if has_exactly(&self.last, replacements) {
            return self.last.copy();
        }
        if has_exactly(&self.before, replacements) {
            return self.before.copy();
        }
        World::new(alloc).with(replacements)
    }

    /// Keeps the replacements of one question more, in the place of those of the last but one. Takes no memory.
    pub(crate) fn keep(&mut self, world: World)
        ensures { self.new ≡ record { last = world; before = self.old.last } }
    {
        self.before = mem::replace(&mut self.last, world);
    }
}

/// Whether a world has these replacements, and no others.
fn has_exactly(world: &World, replacements: &[Replacement]) -> bool
    ensures { IsTrue result ↔ (world.now ≡ replacements.now) }
{
    world.replacements() == replacements
}
