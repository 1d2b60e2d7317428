//! Values that were found in one call.

ghost use Rattle.std.specs.Prelude.{◌≡◌, [], OnOk, OnErr};
ghost use Rattle.std.specs.Option.{option_copied};
ghost use Rattle.wi_cache.specs.Entries.{PutsIn, value_for};

use crate::key::Key;
use std::alloc::{AllocError, Global};
use std::collections::HashMap;
use std::marker::Model;
use wi_values::Value;

/// Values by keys. None goes.
#[derive(Drop)]
pub struct RunTable {
    found: HashMap<Key, Value>,
}

impl Model for RunTable {
    ghost use Rattle.std.specs.Prelude.{List};
    ghost use Rattle.std.specs.Coded.{coded_list, coded×};
    ghost use Rattle.wi_cache.specs.declared.key.Key.{Key};
    ghost use Rattle.wi_cache.specs.contracts.key.Key as key;
    ghost use Rattle.wi_values.specs.declared.value.Value.{Value as Shown};
    ghost use Rattle.wi_values.specs.contracts.value.Value as value;

    ghost Value = { List (Key × Shown) };

    ghost coded = { coded_list (coded× key.the_row.coded value.the_row.coded) };

    ghost view = { λ t. t.found.entries };
}

impl RunTable {
    /// No values. Takes no memory.
    pub fn new(alloc: Global) -> RunTable
        ensures { result ≡ [] }
    {
        RunTable {
            found: HashMap::new(alloc),
        }
    }

    /// The value that is kept for a key. Expected constant time, beside the hash of the key, which isn't taken where
    /// the table is empty.
    pub fn look(&self, key: &Key) -> Option<&Value>
        ensures { option_copied result ≡ value_for self.now key.now }
    {
        if self.found.is_empty() {
            return None;
        }
        self.found.get(key)
    }

    /// Keeps a value for a key, in the place of an earlier one. If memory runs out, all stays as it was. Expected
    /// constant time over many calls, beside the hash of the key.
    pub fn keep(&mut self, key: Key, value: Value) -> Result<(), AllocError>
        ensures ok { OnOk result (PutsIn self.old self.new key value) }
        ensures err { OnErr result (self.new ≡ self.old) }
    {
        self.found.insert(key, value)?;
        Ok(())
    }
}
