//! Laws of keys. The contract of each function is the law.

ghost use Rattle.std.specs.Prelude.{◌≡◌, ◌↔◌, IsTrue};

use crate::key::Key;

/// Keys are equal exactly where they are one key: the same cell, generation and replacements.
#[tactic(auto, using(crate::proofs::Keys::alike))]
pub fn equal_keys_are_one(a: &Key, b: &Key) -> bool
    ensures { IsTrue result ↔ (a.now ≡ b.now) }
{
    *a == *b
}
