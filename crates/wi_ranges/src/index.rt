//! The index of readers.

ghost use Rattle.std.specs.Prelude.{◌≡◌, [], ℕ, ◌↔◌, IsTrue, IfOk, OnOk, OnErr};
ghost use Rattle.std.specs.List.{Contains};
ghost use Rattle.std.specs.List.Sorted.{IsStrictlyIncreasing};
ghost use Rattle.wi_ranges.specs.Bag.{pair_for, pieces_of, HasOneMore, HasOneLess, IsReader, IsRead};
ghost use Rattle.wi_ranges.specs.Inner.Telling.{telling};

use crate::around::{has_cell, with_area};
use crate::bag::{add_pair, remove_pair};
use crate::pair::RangePair;
use crate::pieces::Pieces;
use crate::readers::{add_readers_of, has_readers_in};
use crate::rising_set::RisingSet;
use crate::search::ReaderSearch;
use crate::singles::Singles;
use std::alloc::{AllocError, Global};
use std::collections::BTreeSet;
use std::marker::Model;
use wi_values::{Address, Rect};

/// Pairs of a rectangle and a cell that reads it, any number of each.
#[derive(Drop)]
pub struct RangeIndex {
    // Pairs of one cell, as most are: of a cell as many as have room there.
    singles: Singles,
    // Each other pair, by its number among equal ones, at each of its blocks.
    pieces: Pieces,
    // It has each cell that such a pair reads or has read, so that what lies apart from it need not be searched.
    around: Option<Rect>,
    alloc: Global,
}

impl Model for RangeIndex {
    ghost use Rattle.wi_ranges.specs.Bag.{Bag};
    ghost use Rattle.wi_ranges.specs.Inner.Around.{IsAround};
    ghost use Rattle.wi_ranges.specs.Inner.Index.{AreWhole, bag_of};
    ghost use Rattle.wi_ranges.specs.Inner.Singles.{with_pairs};

    ghost Value = { Bag };

    ghost view = { λ x. with_pairs x.singles (bag_of x.pieces.keys) };

    ghost invariant = { λ x. AreWhole x.pieces.keys × IsAround x.around (bag_of x.pieces.keys) };
}

impl RangeIndex {
    /// No pairs. Takes no memory.
    pub fn new(alloc: Global) -> RangeIndex
        ensures { result ≡ [] }
    {
        RangeIndex {
            singles: Singles::new(alloc),
            pieces: BTreeSet::new(alloc),
            around: None,
            alloc,
        }
    }

    /// Adds a pair. On an error all is as before. A pair of one cell that few read takes some searches among the tiles
    /// of 16 rows, as `CellMap::put_new` does; one that opens a tile is linear in these. For others the work grows with
    /// the pair's blocks, twice those where there is an equal pair, and the logarithm of the count of pieces.
    pub fn add(&mut self, area: Rect, reader: Address) -> Result<(), AllocError>
        ensures ok { OnOk result (HasOneMore (pair_for area reader) self.old self.new) }
        ensures err { OnErr result (self.new ≡ self.old) }
    {
        let pair = RangePair::new(area, reader);
        if self.singles.add(&pair)? {
            return Ok(());
        }
        add_pair(&mut self.pieces, &pair)?;
        self.around = Some(with_area(&self.around, area));
        Ok(())
    }

    /// Takes away one such pair if there is one. Takes no memory. A pair of one cell that few read takes some searches
    /// among the tiles of 16 rows; the last reader of a cell goes at the cost of `CellMap::remove`. For others the work
    /// grows with the pair's blocks and the logarithm of the count of pieces.
    pub fn remove(&mut self, area: Rect, reader: Address)
        ensures { HasOneLess (pair_for area reader) self.old self.new }
    {
        let pair = RangePair::new(area, reader);
        if self.singles.remove(&pair) {
            return;
        }
        remove_pair(&mut self.pieces, &pair);
    }

    /// The dependents of the cell, which read a rectangle with it, in row-major order, each once. Where each pair is of
    /// one cell that few read, and for a cell apart from the rectangle around all that is read by rectangles, the work
    /// grows with the readers, beside one `CellMap::get`. Else it grows with the pairs, equal ones too, at the blocks
    /// that hold the cell's row, and with the logarithms of their count and of that of all pieces. Such blocks are one
    /// for each level up to the highest at which a piece stands, at most 21.
    pub fn readers_of(&self, at: Address) -> Result<Vec<Address>, AllocError>
        ensures order { IfOk result (λ readers. IsStrictlyIncreasing readers.items) }
        ensures readers { IfOk result
            (λ readers. (r : ℕ) → Contains readers.items r ↔ IsReader self.now at r) }
    {
        let mut readers = RisingSet::new(self.alloc);
        self.singles.add_readers(at, &mut readers)?;
        if !has_cell(&self.around, at) {
            return readers.into_list();
        }
        add_readers_of(&self.pieces, at, &mut readers)?;
        readers.into_list()
    }

    /// Whether some cell reads the cell. The search is that of `readers_of`, and ends at the first that does. Apart
    /// from the rectangle around all that is read by rectangles it is for pairs of one cell alone. It takes no memory.
    pub fn has_readers(&self, at: Address) -> bool
        ensures { IsTrue result ↔ IsRead self.now at }
    {
        if self.singles.has_readers(at) {
            return true;
        }
        if !has_cell(&self.around, at) {
            return false;
        }
        has_readers_in(&self.pieces, at)
    }

    /// A search for the readers of one cell after another, in which nothing was told. Takes no memory.
    pub fn search(&self) -> ReaderSearch<'_>
        ensures { result ≡ telling self.now [] }
    {
        ReaderSearch::new(self.alloc, self, &self.singles, &self.pieces, self.around)
    }

    /// How many blocks all pairs have together.
    pub fn pieces(&self) -> u64
        ensures { result ≡ pieces_of self.now }
    {
        self.pieces.len() as u64 + self.singles.pieces()
    }
}
