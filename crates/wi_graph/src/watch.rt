//! Cells at which a search for a cone may stop.

ghost use Rattle.std.specs.Prelude.{◌≡◌, ℕ, Bool, false};

use wi_values::Address;

/// Cells that are watched. Where with each of them each that reads it is watched too, a search for dependents may stop
/// at them.
pub trait Watch {
    ghost watched: { Self → ℕ → Bool };

    /// Whether a cell is watched.
    fn has(&self, at: Address) -> bool
        ensures { result ≡ watched self.now at };
}

/// No cell is watched.
pub(crate) struct Unwatched;

impl Watch for Unwatched {
    ghost watched = { λ _ _. false };

    fn has(&self, _at: Address) -> bool {
        false
    }
}
