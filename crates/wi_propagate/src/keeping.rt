//! What is remembered in one question, and what is kept for longer.

ghost use Rattle.std.specs.Prelude.{◌≡◌, ◌≤◌, [], false, None, Ok, length, IfSome, OnOk, OnErr};
ghost use Rattle.wi_graph.specs.Edges.{AreEdgesOf};
ghost use Rattle.wi_cache.specs.Entries.{PutsIn, going};
ghost use Rattle.wi_cache.specs.declared.key.Key.{Key as Keys};
ghost use Rattle.wi_engine.specs.Inner.MemoState.{IsMemoOf};
ghost use Rattle.wi_propagate.specs.Inner.Cones.{AreAllCones};
ghost use Rattle.wi_propagate.specs.Inner.Keeping.{keeping, state_in, ArePlaced, IsKeepingRight, TakesOver};
ghost use Rattle.wi_propagate.specs.Inner.Stamps.{flushed, AreAllStamped};

use crate::carried::Carried;
use crate::cones::add_cones;
use crate::generations::Generations;
use std::alloc::{AllocError, Global};
use std::marker::Model;
use wi_cache::{GivenUp, Kept, Key};
use wi_engine::Memo;
use wi_graph::Graph;
use wi_store::Store;
use wi_values::{Address, Value};
use wi_worlds::World;

/// What is remembered in one question: the values that are kept for longer, and those that were given up in it, so that
/// none is lost before it ends.
#[derive(Drop)]
pub struct Keeping<'a> {
    alloc: Global,
    store: &'a Store,
    graph: &'a Graph,
    generations: &'a Generations,
    // With the cones of the replaced cells so far, and of some before, and the values that were given up in this
    // question.
    carried: Box<Carried>,
    // The replacements of the last key that had some of them, and not all.
    last: World,
    // How many replacements the question came with.
    own: usize,
}

impl<'a> Model for Keeping<'a> {
    ghost use Rattle.wi_propagate.specs.Inner.Keeping.{Keeping as OneQuestion};

    ghost Value = { OneQuestion };

    ghost use Rattle.std.specs.Coded.{codes};
    ghost use Rattle.wi_parser.specs.contracts.content.Content as content;
    ghost use Rattle.wi_cache.specs.contracts.key.Key as key;
    ghost use Rattle.wi_values.specs.contracts.value.Value as value;

    ghost coded = { Prim.hlevel
        (codes, content.the_row.coded, key.the_row.coded, value.the_row.coded) };

    ghost use Rattle.std.specs.Prelude.{◌≡◌, None};
    ghost use Rattle.wi_graph.specs.Edges.{AreEdgesOf};
    ghost use Rattle.wi_propagate.specs.Inner.Cones.{AreAllCones};
    ghost use Rattle.wi_propagate.specs.Inner.Keeping.{keeping, IsKeepingRight};
    ghost use Rattle.wi_propagate.specs.Inner.Stamps.{flushed, AreAllStamped};

    ghost view = { λ m. keeping m.store.now.sheet m.store.now.edits
        (flushed m.store.now.sheet m.generations.now.edited_at) m.carried.value.given_up.entries
        m.carried.value.kept };

    ghost invariant = { λ m. AreEdgesOf m.graph.now.now m.store.now.sheet
        × (m.graph.now.staged ≡ None)
        × AreAllCones m.store.now.sheet m.carried.value.cones
        × IsKeepingRight (keeping m.store.now.sheet m.store.now.edits
        (flushed m.store.now.sheet m.generations.now.edited_at) m.carried.value.given_up.entries
        m.carried.value.kept)
        × AreAllStamped m.store.now.sheet m.store.now.edits m.generations.now };
}

impl<'a> Keeping<'a> {
    /// What is carried, with nothing given up yet, for a question that comes with so many replacements. Takes no
    /// memory. Values that were given up before go.
    pub(crate) fn new(
        alloc: Global,
        store: &'a Store,
        graph: &'a Graph,
        generations: &'a Generations,
        mut carried: Box<Carried>,
        own: usize,
    ) -> Keeping<'a>
        requires edges { AreEdgesOf graph.now.now store.now.sheet }
        requires staged { graph.now.staged ≡ None }
        requires cones { AreAllCones store.now.sheet carried.value.cones }
        requires right { IsKeepingRight
            (keeping store.now.sheet store.now.edits
            (flushed store.now.sheet generations.now.edited_at) [] carried.value.kept) }
        requires valid_since { AreAllStamped store.now.sheet store.now.edits generations.now }
        ensures value { result
            ≡ keeping store.now.sheet store.now.edits
            (flushed store.now.sheet generations.now.edited_at) [] carried.value.kept }
        ensures memo { IsMemoOf store.now.sheet (state_in result) }
        ensures placed { ArePlaced carried.value.kept }
    {
        let _ = carried.kept.len();
        let inner = &mut *carried;
        inner.given_up.clear(alloc);
        inner.costs.begin(store);
        Keeping {
            alloc,
            store,
            graph,
            generations,
            carried,
            last: World::new(alloc),
            own,
        }
    }

    /// What is carried to the next question: the values that are kept, which are no more than there is room for, the
    /// cones that are known, and the memory for values that are given up, without them.
    pub(crate) fn into_carried(self) -> Box<Carried>
        ensures kept { result.value.kept ≡ self.entry.values }
        ensures within { length result.value.kept.entries ≤ result.value.kept.capacity }
        ensures right { IsKeepingRight self.entry }
        ensures cones { AreAllCones self.entry.sheet result.value.cones }
    {
        let _ = &self.store;
        let _ = self.carried.kept.len();
        let mut carried = self.carried;
        carried.given_up.clear(self.alloc);
        carried
    }
}

impl<'a> Keeping<'a> {
    /// Whether a value for a key has a place in the list: always where one is free. In a full list it has none under
    /// more replacements than the question came with, unless they come back, or where others cost more. If memory runs
    /// out, all stays as it was.
    #[inline(always)]
    fn has_place(&mut self, key: &Key) -> Result<bool, AllocError>
        ensures same { self.new ≡ self.old }
        ensures full { result ≡ Ok false
            → self.old.values.capacity ≤ length self.old.values.entries }
    {
        let carried = &mut *self.carried;
        if !carried.kept.is_full() {
            return Ok(true);
        }
        if self.own < key.world.replacements().len() {
            let is_back = carried.recurring.comes_back(&key.world)?;
            if !is_back {
                carried.costs.pass(key);
                return Ok(false);
            }
        }
        Ok(carried.costs.is_worth(key))
    }

    /// Puts a value among those that were given up, so that it is found in this question alone. If memory runs out, all
    /// stays as it was.
    #[inline(always)]
    fn put_aside(&mut self, key: Key, value: Value) -> Result<(), AllocError>
        ensures puts { OnOk result (PutsIn self.old.given_up self.new.given_up key value) }
        ensures same { self.new ≡ keeping self.old.sheet self.old.edits
            self.old.generations self.new.given_up self.old.values }
        ensures err { OnErr result (self.new ≡ self.old) }
    {
        let carried = &mut *self.carried;
        carried.given_up.make_space()?;
        carried.given_up.put((key, value));
        Ok(())
    }
}

impl<'a> Memo for Keeping<'a> {
    ghost state = { state_in };

    /// The key for a cell under replacements. The work for a cell that is replaced for the first time is that of its
    /// cone; else it is a comparison for each replacement, and that of `reaching_by`. Keys in turn with the same part
    /// of the replacements share it. Values that were given up, and may have this part, are prepared for a look by
    /// `GivenUp::catch_up`.
    #[inline(always)]
    fn key(&mut self, at: Address, world: &World) -> Result<Key, AllocError> {
        let carried = &mut *self.carried;
        add_cones(self.graph, world, &mut carried.cones)?;
        let world = world.reaching_by(at, carried.cones.reaches(), &mut self.last)?;
        let key = Key {
            cell: at,
            generation: self.generations.generation_of(at),
            world,
        };
        carried.given_up.catch_up(&key)?;
        carried.costs.note(&key);
        Ok(key)
    }

    fn is_full(&self) -> bool {
        let _ = self.carried.kept.len();
        self.carried.kept.is_full()
    }

    fn look(&self, key: &Key) -> Option<&Value> {
        match self.carried.kept.look(key) {
            Some(value) => Some(value),
            None => self.carried.given_up.look(key),
        }
    }

    /// Keeps a value for longer. Where another goes for it, there is room for that one among those given up first, so
    /// that none is lost if memory runs out.
    #[inline(always)]
    fn keep(&mut self, key: Key, value: Value) -> Result<(), AllocError> {
        let carried = &mut *self.carried;
        let _ = carried.kept.len();
        make_space(&carried.kept, &mut carried.given_up)?;
        let gone = carried.kept.keep(key, value)?;
        give_up(gone, &mut carried.given_up);
        Ok(())
    }

    /// A value that is used by another one under the same replacements. In a full list it has a place only where
    /// `has_place` says so.
    #[inline(always)]
    fn remember(&mut self, key: Key, value: Value) -> Result<(), AllocError> {
        if self.has_place(&key)? {
            return self.keep(key, value);
        }
        self.put_aside(key, value)
    }
}

/// Makes room for the value that goes for a new one, if one does. If memory runs out, all is as before.
fn make_space(kept: &Kept, given_up: &mut GivenUp) -> Result<(), AllocError>
    ensures entries { given_up.new.entries ≡ given_up.old.entries }
    ensures space { OnOk result ((k : Keys)
        → IfSome (going kept.now k) (λ _. 1 ≤ given_up.new.space)) }
{
    if kept.is_full() {
        return given_up.make_space();
    }
    Ok(())
}

/// Puts the value that went, if one did, among those given up. Takes no memory.
#[inline(always)]
fn give_up(gone: Option<(Key, Value)>, given_up: &mut GivenUp)
    requires { IfSome gone (λ _. 1 ≤ given_up.old.space) }
    ensures { TakesOver gone given_up.old.entries given_up.new.entries }
{
    if let Some(entry) = gone {
        given_up.put(entry);
    }
}
