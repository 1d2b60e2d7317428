//! Pairs of one cell, by their cells.

ghost use Rattle.std.specs.Prelude.{◌≡◌, ◌≤◌, ◌^◌, ◌||◌, ◌∷◌, ◌↔◌, ℕ, [], false, Some, IsTrue, IfOk, OnOk, OnErr, length};
ghost use Rattle.std.specs.List.{list_any};
ghost use Rattle.std.specs.Ordering.{nat_cmp};
ghost use Rattle.std.specs.BTreeSet.{contains};
ghost use Rattle.wi_tiles.specs.Entries.{get};
ghost use Rattle.wi_ranges.specs.Blocks.{blocks_of};
ghost use Rattle.wi_ranges.specs.Bag.{is_same};
ghost use Rattle.wi_ranges.specs.Inner.Index.{pair_reads};
ghost use Rattle.wi_ranges.specs.Inner.Singles.{blocks_in_all, pairs_of, HasPairMore, HasPairOf};

use crate::few::Few;
use crate::pair::RangePair;
use crate::rising_set::RisingSet;
use std::alloc::{AllocError, Global};
use std::marker::Model;
use wi_tiles::CellMap;
use wi_values::Address;

/// How many pairs there may be, so that their count and that of all pieces fit 64 bits together.
const MOST_PAIRS: u64 = 1 << 62;

/// The readers of cells, by the cell that they read. There is one or more of each.
type Readers = CellMap<Few>;

/// Pairs of one cell, any number of each up to a limit.
#[derive(Drop)]
pub struct Singles {
    readers: Readers,
    count: u64,
    alloc: Global,
}

impl Model for Singles {
    ghost use Rattle.std.specs.Prelude.{List};
    ghost use Rattle.wi_ranges.specs.declared.pair.RangePair.{RangePair};
    ghost use Rattle.wi_ranges.specs.Inner.Singles.{pairs_of, AreByCell};

    ghost Value = { List RangePair };

    ghost view = { λ s. pairs_of s.readers.entries };

    ghost invariant = { λ s. AreByCell s.count s.readers.entries };
}

impl Singles {
    /// No pairs. Takes no memory.
    pub(crate) fn new(alloc: Global) -> Singles
        ensures { result ≡ [] }
    {
        Singles {
            readers: CellMap::new(alloc),
            count: 0,
            alloc,
        }
    }

    /// Adds a pair if it is one of one cell and there is room for it, and answers whether it is. If memory runs out,
    /// all is as before.
    pub(crate) fn add(&mut self, pair: &RangePair) -> Result<bool, AllocError>
        ensures more { IfOk result
            (λ added. IsTrue added → HasPairMore pair.now self.old self.new) }
        ensures same { IfOk result (λ added. added ≡ false → self.new ≡ self.old) }
        ensures err { OnErr result (self.new ≡ self.old) }
    {
        if self.count >= MOST_PAIRS {
            return Ok(false);
        }
        let added = add_reader(self.alloc, &mut self.readers, pair)?;
        if added {
            self.count += 1;
        }
        Ok(added)
    }

    /// Takes away one such pair if there is one, and answers whether there was.
    pub(crate) fn remove(&mut self, pair: &RangePair) -> bool
        ensures less { IsTrue result → HasPairMore pair.now self.new self.old }
        ensures none { result ≡ false → list_any (is_same pair.now) self.old ≡ false }
        ensures same { result ≡ false → self.new ≡ self.old }
    {
        let removed = remove_reader(&mut self.readers, pair);
        if removed {
            self.count -= 1;
        }
        removed
    }

    /// Adds the readers of a cell to a set. If memory runs out, some of them may be in it.
    pub(crate) fn add_readers(&self, at: Address, set: &mut RisingSet) -> Result<(), AllocError>
        ensures { OnOk result ((r : ℕ) → contains nat_cmp set.new r
            ≡ (contains nat_cmp set.old r || list_any (pair_reads at r) self.now)) }
    {
        let _ = self.readers.len();
        match self.readers.get(at) {
            Some(few) => few.add_to(set),
            None => Ok(()),
        }
    }

    /// Whether some cell reads a cell.
    pub(crate) fn has_readers(&self, at: Address) -> bool
        ensures { IsTrue result ↔ HasPairOf at self.now }
    {
        let _ = self.readers.len();
        match self.readers.get(at) {
            Some(few) => {
                few.has_one();
                true
            }
            None => false,
        }
    }

    /// How many blocks all pairs have together.
    pub(crate) fn pieces(&self) -> u64
        ensures count { result ≡ blocks_in_all self.now }
        ensures fits { result ≤ 2 ^ 62 }
    {
        self.count
    }
}

/// Adds a pair if it is one of one cell and there is room for it by the cell, and answers whether it is. If memory runs
/// out, all is as before.
fn add_reader(alloc: Global, readers: &mut Readers, pair: &RangePair) -> Result<bool, AllocError>
    ensures more { IfOk result (λ added. IsTrue added
        → HasPairMore pair.now (pairs_of readers.old.entries) (pairs_of readers.new.entries)) }
    ensures block { IfOk result (λ added. IsTrue added → length (blocks_of pair.now) ≡ 1) }
    ensures same { IfOk result
        (λ added. added ≡ false → pairs_of readers.new.entries ≡ pairs_of readers.old.entries) }
    ensures err { OnErr result (pairs_of readers.new.entries ≡ pairs_of readers.old.entries) }
{
    if !pair.is_single() {
        return Ok(false);
    }
    if readers.put_new(pair.first, Few::one(pair.reader))? {
        return Ok(true);
    }
    match readers.replace(pair.first, Few::one(pair.reader)) {
        Some(mut few) => {
            let added = few.add(alloc, pair.reader);
            let _ = readers.replace(pair.first, few);
            added
        }
        // This doesn't come, since the cell has readers.
        None => Ok(false),
    }
}

/// Takes one such pair away if there is one, and answers whether there was.
fn remove_reader(readers: &mut Readers, pair: &RangePair) -> bool
    ensures less { IsTrue result
        → HasPairMore pair.now (pairs_of readers.new.entries) (pairs_of readers.old.entries) }
    ensures block { IsTrue result → length (blocks_of pair.now) ≡ 1 }
    ensures none { result ≡ false
        → list_any (is_same pair.now) (pairs_of readers.old.entries) ≡ false }
    ensures same { result ≡ false → pairs_of readers.new.entries ≡ pairs_of readers.old.entries }
{
    if !pair.is_single() {
        return false;
    }
    let _ = readers.len();
    if is_only(readers, pair.first, pair.reader) {
        let _ = readers.remove(pair.first);
        return true;
    }
    match readers.replace(pair.first, Few::one(pair.reader)) {
        Some(mut few) => {
            let removed = few.remove(pair.reader);
            let _ = readers.replace(pair.first, few);
            removed
        }
        None => false,
    }
}

/// Whether a cell has this reader alone.
fn is_only(readers: &Readers, at: Address, reader: Address) -> bool
    ensures { IsTrue result ↔ (get nat_cmp readers.now at ≡ Some (reader ∷ [])) }
{
    match readers.get(at) {
        Some(few) => few.is_only(reader),
        None => false,
    }
}
