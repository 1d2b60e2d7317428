//! What is remembered of values.

ghost use Rattle.std.specs.Prelude.{◌≡◌, ◌≤◌, ℕ, true, false, List, None, IfOk, OnOk};
ghost use Rattle.std.specs.Option.{option_copied};
ghost use Rattle.wi_values.specs.declared.replacement.Replacement.{Replacement as Replacements};
ghost use Rattle.wi_parser.specs.Sheet.{put_all};
ghost use Rattle.wi_graph.specs.Circular.{circular};
ghost use Rattle.wi_sheet.specs.CellValue.{cell_value};
ghost use Rattle.wi_sheet.specs.Demand.{reaching};
ghost use Rattle.wi_engine.specs.Inner.MemoState.{MemoState};
ghost use Rattle.wi_engine.specs.Inner.Keeps.{Keeps, HasFound};

use std::alloc::AllocError;
use wi_cache::Key;
use wi_values::{Address, Value};
use wi_worlds::World;

/// What is remembered of the values of a sheet's cells under replacements. A value stands under a key: its cell, the
/// cell's generation, and the replacements of cells that it reaches.
pub trait Memo {
    /// The sheet, the cells for which keys are made, and what is remembered of them.
    ghost state: { Self → MemoState };

    /// The key for a cell under replacements.
    fn key(&mut self, at: Address, world: &World) -> Result<Key, AllocError>
        requires covered { (state self.old).covers at ≡ true }
        ensures cell { IfOk result (λ k. k.cell ≡ at) }
        ensures world { IfOk result (λ k. k.world ≡ reaching (state self.old).sheet at world.now) }
        ensures generation { IfOk result (λ k. k.generation ≡ (state self.old).generation at) }
        ensures same { state self.new ≡ state self.old };

    /// The value that is remembered for a key.
    fn look(&self, key: &Key) -> Option<&Value>
        requires generation { key.now.generation ≡ (state self.now).generation key.now.cell }
        ensures value { option_copied result ≡ (state self.now).known key.now.cell key.now.world }
        ensures unfound { result ≡ None
            → (state self.now).found key.now.cell key.now.world ≡ false }
        ensures unkept { result ≡ None
            → (state self.now).kept key.now.cell key.now.world ≡ false };

    /// Whether no place is free for a value that is kept for longer, as far as that is known.
    fn is_full(&self) -> bool
        ensures { result ≡ true → (state self.now).space ≡ 0 }
    {
        false
    }

    /// Remembers a value for a key, which is found from then on, and keeps it for longer where the capacity allows any.
    /// Another that was kept may be evicted for it; of those found none is forgotten. If memory runs out, the value may
    /// be remembered or not.
    fn keep(&mut self, key: Key, value: Value) -> Result<(), AllocError>
        requires generation { key.generation ≡ (state self.old).generation key.cell }
        requires open_cell { circular (state self.old).sheet key.cell ≡ false }
        requires right { value ≡ cell_value (put_all (state self.old).sheet key.world) key.cell }
        ensures keeps { Keeps (state self.old) (state self.new) key value }
        ensures found { OnOk result (HasFound (state self.old) (state self.new) key) }
        ensures there { OnOk result (1 ≤ (state self.old).capacity
            → (state self.new).kept key.cell key.world ≡ true) }
        ensures stays { (c : ℕ) (w : List Replacements) → (state self.old).found c w ≡ true
            → (state self.new).found c w ≡ true };

    /// As `keep`, but where no place is free it may be remembered for this question alone, so that none that is kept is
    /// evicted for it.
    fn remember(&mut self, key: Key, value: Value) -> Result<(), AllocError>
        requires generation { key.generation ≡ (state self.old).generation key.cell }
        requires open_cell { circular (state self.old).sheet key.cell ≡ false }
        requires right { value ≡ cell_value (put_all (state self.old).sheet key.world) key.cell }
        ensures keeps { Keeps (state self.old) (state self.new) key value }
        ensures found { OnOk result (HasFound (state self.old) (state self.new) key) }
        ensures stays { (c : ℕ) (w : List Replacements) → (state self.old).found c w ≡ true
            → (state self.new).found c w ≡ true }
    {
        self.keep(key, value)
    }
}
