//! What is made of the items of a sequence.

ghost use Rattle.std.specs.Prelude.{◌≡◌, Result, Ok, Err, OnOk, IfErr};
ghost use Rattle.wi_values.specs.declared.value.ErrorKind.{ErrorKind as ErrorKinds};
ghost use Rattle.wi_values.specs.declared.value.Value.{Value as Values};
ghost use Rattle.wi_standard_functions.specs.Sequence.{Item as Items, from_cell};
ghost use Rattle.wi_fold_functions.specs.Inner.Items.{item_of};

use crate::item::Item;
use wi_values::{ErrorKind, Value};

/// What is made of the items of a sequence, one after another.
pub(crate) trait Fold: Drop {
    ghost use Rattle.wi_values.specs.declared.value.Value.TheVariants.{Empty};

    /// What is made with one more item, or the error that it is or gives.
    ghost step: { Self → Items → Result Self ErrorKinds };

    /// What a function shows, when there are no more items.
    ghost value: { Self → Values };

    /// Takes one more item, or tells the error that it is or gives.
    fn step(&mut self, item: Item<'_>) -> Result<(), ErrorKind>
        ensures ok { OnOk result (step self.old (item_of item.entry) ≡ Ok self.new) }
        ensures err { IfErr result (λ e. step self.old (item_of item.entry) ≡ Err e) };

    /// What the function shows, when there are no more items.
    fn value(self) -> Value
        ensures { result ≡ value self };

    /// An Empty cell makes no difference.
    ghost passes_empty: { (s : Self) → step s (from_cell Empty) ≡ Ok s };
}
