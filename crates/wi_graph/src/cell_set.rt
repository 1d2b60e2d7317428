//! A set of cells, with a rectangle around them.

ghost use Rattle.std.specs.Prelude.{◌≡◌, ◌+◌, ℕ, [], true, false, IsTrue, ◌↔◌, OnOk, OnErr, if◌then◌else◌};
ghost use Rattle.std.specs.Ordering.{nat_cmp};
ghost use Rattle.std.specs.BTreeSet.{btree_set_len, contains, Updates, IsUnchanged};
ghost use Rattle.wi_values.specs.Address.{is_within};
ghost use Rattle.wi_graph.specs.Inner.Bounds.{AreWithin};

use crate::bounds::{around_cell, with_cell};
use std::alloc::{AllocError, Global};
use std::collections::BTreeSet;
use std::marker::Model;
use wi_values::{Address, Rect};

/// A set of cells. The rectangle has each that came in since the set was empty, so that what lies apart from it need
/// not be searched.
#[derive(Drop)]
pub(crate) struct CellSet {
    set: BTreeSet<Address>,
    around: Rect,
}

impl Model for CellSet {
    ghost use Rattle.std.specs.Prelude.{ℕ};
    ghost use Rattle.std.specs.BTreeSet.{BTreeSet};

    ghost Value = { BTreeSet ℕ };

    ghost use Rattle.wi_graph.specs.Inner.Bounds.{AreWithin};

    ghost view = { λ s. s.set };

    ghost invariant = { λ s. AreWithin s.around s.set };
}

impl CellSet {
    /// No cells. Takes no memory.
    pub(crate) fn new(alloc: Global) -> CellSet
        ensures { result.keys ≡ [] }
    {
        CellSet {
            set: BTreeSet::new(alloc),
            around: around_cell(Address::at(0, 0)),
        }
    }

    /// The cells.
    pub(crate) fn set(&self) -> &BTreeSet<Address>
        ensures { result.now ≡ self.now }
    {
        &self.set
    }

    /// A rectangle that has each of the cells.
    pub(crate) fn around(&self) -> Rect
        ensures { AreWithin result self.now }
    {
        self.around
    }

    pub(crate) fn is_empty(&self) -> bool
        ensures { IsTrue result ↔ (btree_set_len self.now ≡ 0) }
    {
        self.set.is_empty()
    }

    pub(crate) fn contains(&self, cell: &Address) -> bool
        ensures { result ≡ contains nat_cmp self.now cell.now }
    {
        self.set.contains(cell)
    }

    /// Puts a cell in. If memory runs out, the set is as before.
    pub(crate) fn insert(&mut self, cell: Address) -> Result<(), AllocError>
        ensures updates { OnOk result (Updates nat_cmp self.old self.new cell true) }
        ensures err { OnErr result (IsUnchanged self.old self.new) }
    {
        let around = self.around_with(cell);
        self.set.insert(cell)?;
        self.around = around;
        Ok(())
    }

    /// Takes a cell out, and says whether it was in.
    pub(crate) fn remove(&mut self, cell: &Address) -> bool
        ensures test { result ≡ contains nat_cmp self.old cell.now }
        ensures updates { Updates nat_cmp self.old self.new cell.now false }
        ensures len { btree_set_len self.new + (if result then 1 else 0) ≡ btree_set_len self.old }
    {
        self.set.remove(cell)
    }

    /// The rectangle around the cells and one more.
    fn around_with(&self, cell: Address) -> Rect
        ensures cell { is_within result cell ≡ true }
        ensures others { AreWithin result self.now }
    {
        if self.set.is_empty() {
            around_cell(cell)
        } else {
            with_cell(self.around, cell)
        }
    }
}
