//! What may be vacant.

ghost use Rattle.std.specs.Prelude.{◌≡◌, ◌↔◌, Bool, false};

use wi_values::Value;

/// What a room has: something, or nothing.
pub trait MayBeVacant {
    /// Nothing.
    ghost vacant: { Self };

    /// Whether this is something.
    ghost is_taken: { Self → Bool };

    /// Nothing. Takes no memory.
    fn vacant() -> Self
        ensures { result ≡ vacant };

    /// Whether this is something.
    fn is_taken(&self) -> bool
        ensures { result ≡ is_taken self.now };

    /// All but nothing is something.
    ghost tells: { (x : Self) → (is_taken x ≡ false) ↔ (x ≡ vacant) };
}

/// Empty is nothing.
impl MayBeVacant for Value {
    ghost use Rattle.wi_values.specs.declared.value.Value.TheVariants.{Empty};
    ghost use Rattle.wi_tiles.specs.Rooms.{has_value, tells_empty};

    ghost vacant = { Empty };

    ghost is_taken = { has_value };

    fn vacant() -> Value {
        Value::Empty
    }

    fn is_taken(&self) -> bool {
        !matches!(self, Value::Empty)
    }

    ghost tells = { tells_empty };
}

/// None is nothing.
impl<T> MayBeVacant for Option<T> {
    ghost use Rattle.std.specs.Prelude.{None};
    ghost use Rattle.std.specs.Option.{is_some};
    ghost use Rattle.wi_tiles.specs.Rooms.{tells_none};

    ghost vacant = { None };

    ghost is_taken = { is_some };

    fn vacant() -> Option<T> {
        None
    }

    fn is_taken(&self) -> bool {
        self.is_some()
    }

    ghost tells = { tells_none };
}
