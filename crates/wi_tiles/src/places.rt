//! What has something at some of its places.

ghost use Rattle.std.specs.Prelude.{◌≡◌, ◌↔◌, ◌<◌, ℕ, Option, Some, None, is_some, not, IsTrue, IfOk, OnOk, OnErr, option_copied, option_map};
ghost use Rattle.std.specs.Option.{option_or};
ghost use Rattle.wi_tiles.specs.Inner.Changes.{IsKept, IsChanged};

use std::alloc::{AllocError, Global};

/// Something at some of so many places.
pub(crate) trait Places<V> {
    /// How many places there are.
    ghost size: { ℕ };

    /// What a place has.
    ghost at: { Self → ℕ → Option V };

    /// Nothing. Takes no memory.
    fn vacant(alloc: Global) -> Self
        ensures { (p : ℕ) → at result p ≡ None };

    /// Whether no place has anything, so that it may go.
    fn is_vacant(&self) -> bool
        ensures { IsTrue result ↔ ((p : ℕ) → at self.now p ≡ None) };

    /// What a place has.
    fn get(&self, place: u64) -> Option<&V>
        requires { place < size }
        ensures { option_copied result ≡ at self.now place };

    /// Puts a value where nothing stands, and answers whether nothing stood. If memory runs out, each place has what it
    /// had.
    fn put_new(&mut self, place: u64, value: V, alloc: Global) -> Result<bool, AllocError>
        requires { place < size }
        ensures new { IfOk result (λ new. new ≡ not (is_some (at self.old place))) }
        ensures ok { OnOk result (IsChanged at self.old self.new place
            (option_or (at self.old place) (Some value))) }
        ensures err { OnErr result (IsKept at self.old self.new) };

    /// Puts a value in the place of what stands, and gives that; where nothing stands it does nothing. Takes no memory.
    fn replace(&mut self, place: u64, value: V) -> Option<V>
        requires { place < size }
        ensures value { result ≡ at self.old place }
        ensures put { IsChanged at self.old self.new place
            (option_map (λ _. value) (at self.old place)) };

    /// Takes away what a place has. Takes no memory.
    fn remove(&mut self, place: u64, alloc: Global) -> Option<V>
        requires { place < size }
        ensures value { result ≡ at self.old place }
        ensures left { IsChanged at self.old self.new place None };
}

/// Takes room for one part, where there is none yet. If memory runs out, all is as before.
pub(crate) fn room_for_first<T>(parts: &mut Vec<T>) -> Result<(), AllocError>
    ensures { parts.new.items ≡ parts.old.items }
{
    if parts.is_empty() {
        parts.reserve_exact(1)?;
    }
    Ok(())
}
