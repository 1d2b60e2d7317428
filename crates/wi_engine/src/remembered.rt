//! What is remembered in one question.

ghost use Rattle.std.specs.Prelude.{◌≡◌, []};
ghost use Rattle.wi_engine.specs.Inner.MemoState.{IsMemoOf};
ghost use Rattle.wi_sheet.specs.Inner.ReadOrder.{IsReadOrder};
ghost use Rattle.wi_engine.specs.Inner.Remembered.{question_state, remembered};

use crate::cone::{Cones, add_cones};
use crate::memo::Memo;
use std::alloc::{AllocError, Global};
use std::collections::BTreeMap;
use std::marker::Model;
use wi_cache::{Key, RunTable};
use wi_store::Store;
use wi_values::{Address, Value};
use wi_worlds::World;

/// What is remembered in one question: the values found, and which cells reach the replaced ones.
#[derive(Drop)]
pub struct Remembered<'a> {
    alloc: Global,
    store: &'a Store,
    // The cells for which keys are made, each after those that it reads.
    order: Vec<Address>,
    // Of the replaced addresses so far: which of those cells reach them.
    cones: Cones,
    // The replacements of the last key that had some of them, and not all.
    last: World,
    table: RunTable,
}

impl<'a> Model for Remembered<'a> {
    ghost use Rattle.wi_engine.specs.Inner.Remembered.{OneQuestion};

    ghost Value = { OneQuestion };

    ghost use Rattle.std.specs.Coded.{codes};
    ghost use Rattle.wi_parser.specs.contracts.content.Content as content;
    ghost use Rattle.wi_cache.specs.contracts.key.Key as key;
    ghost use Rattle.wi_values.specs.contracts.value.Value as value;

    ghost coded = { Prim.hlevel
        (codes, content.the_row.coded, key.the_row.coded, value.the_row.coded) };

    ghost use Rattle.wi_sheet.specs.Inner.ReadOrder.{IsReadOrder};
    ghost use Rattle.wi_engine.specs.Inner.Remembered.{AreCones, remembered};

    ghost view = { λ m. remembered m.store.now.sheet m.order.items m.table };

    ghost invariant = { λ m. IsReadOrder m.store.now.sheet m.order.items
        × AreCones m.store.now.sheet m.order.items m.cones };
}

impl<'a> Remembered<'a> {
    /// Nothing yet, of the values of cells that stand in an order of reading. Takes no memory.
    pub fn new(alloc: Global, store: &'a Store, order: Vec<Address>) -> Remembered<'a>
        requires order { IsReadOrder store.now.sheet order.items }
        ensures value { result ≡ remembered store.now.sheet order.items [] }
        ensures right { IsMemoOf store.now.sheet (question_state result) }
    {
        Remembered {
            alloc,
            store,
            order,
            cones: BTreeMap::new(alloc),
            last: World::new(alloc),
            table: RunTable::new(alloc),
        }
    }
}

impl<'a> Memo for Remembered<'a> {
    ghost state = { question_state };

    /// The key for a cell under replacements. The work for an address that is replaced for the first time is one pass
    /// over what all the cells read; else it grows with the count of replacements, and with logarithms. Keys in turn
    /// with the same part of the replacements share it.
    fn key(&mut self, at: Address, world: &World) -> Result<Key, AllocError> {
        add_cones(self.alloc, self.store, &self.order, world, &mut self.cones)?;
        let world = world.reaching(at, &self.cones, &mut self.last)?;
        Ok(Key {
            cell: at,
            generation: 0,
            world,
        })
    }

    fn look(&self, key: &Key) -> Option<&Value> {
        self.table.look(key)
    }

    fn keep(&mut self, key: Key, value: Value) -> Result<(), AllocError> {
        self.table.keep(key, value)
    }
}
