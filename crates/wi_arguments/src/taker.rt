//! What takes the values of cells.

ghost use Rattle.std.specs.Prelude.{◌≡◌, ℕ, true, is_some};
ghost use Rattle.std.specs.ControlFlow.{break_value};
ghost use Rattle.wi_values.specs.declared.value.Value.{Value as Values};

use std::ops::ControlFlow;
use wi_values::{Address, Value};

/// What takes the values of cells one after another, and to which an Empty one makes no difference.
pub trait TakesCells {
    ghost use Rattle.wi_values.specs.declared.value.Value.TheVariants.{Empty};

    /// What it is after a cell with this value.
    ghost after: { Self → ℕ → Values → Self };

    /// Takes the value of a cell, and tells whether another could make a difference.
    fn take(&mut self, at: Address, value: &Value) -> ControlFlow<()>
        ensures taken { self.new ≡ after self.old at value.now }
        ensures broken { is_some (break_value result) ≡ true → (c : ℕ) → (v : Values)
            → after self.new c v ≡ self.new };

    /// An Empty cell makes no difference.
    ghost passes_empty: { (s : Self) → (c : ℕ) → after s c Empty ≡ s };
}
