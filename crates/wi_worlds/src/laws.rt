//! Laws of equality. The contract of each function is the law.

ghost use Rattle.std.specs.Prelude.{◌≡◌, ◌↔◌, ℕ, IsTrue};
ghost use Rattle.wi_values.specs.Replacements.{replaced};

use crate::world::World;

/// Worlds are equal exactly where they are one world, and exactly where they have the same for each address.
pub fn equal_worlds_are_one(a: &World, b: &World) -> bool
    ensures one { IsTrue result ↔ (a.now ≡ b.now) }
    ensures everywhere { IsTrue result ↔ ((c : ℕ) → replaced a.now c ≡ replaced b.now c) }
{
    let _ = a.replacements();
    let _ = b.replacements();
    *a == *b
}
