//! A search for the readers of one cell after another.

ghost use Rattle.std.specs.Prelude.{◌≡◌, [], IfOk};
ghost use Rattle.wi_ranges.specs.Inner.Around.{IsAround};
ghost use Rattle.wi_ranges.specs.Inner.Index.{AreWhole, bag_of};
ghost use Rattle.wi_ranges.specs.Inner.Singles.{with_pairs};
ghost use Rattle.wi_ranges.specs.Inner.Telling.{telling, Answers};

use crate::around::has_cell;
use crate::index::RangeIndex;
use crate::pieces::Pieces;
use crate::rising_set::RisingSet;
use crate::singles::Singles;
use crate::telling::{Left, tell_readers};
use std::alloc::{AllocError, Global};
use std::collections::BTreeMap;
use std::marker::Model;
use wi_values::{Address, Rect};

/// For so many cells the index is asked: to list the rectangles that are left pays only beyond them.
const FIRST_CELLS: usize = 16;

/// A search for the readers of one cell after another. What was told of a rectangle needn't be told again.
#[derive(Drop)]
pub struct ReaderSearch<'a> {
    index: &'a RangeIndex,
    // The parts of the index.
    singles: &'a Singles,
    pieces: &'a Pieces,
    around: Option<Rect>,
    left: Left,
    asked: usize,
    alloc: Global,
}

impl<'a> Model for ReaderSearch<'a> {
    ghost use Rattle.wi_ranges.specs.Inner.Telling.{Telling, telling, readers_told};

    ghost Value = { Telling };

    ghost use Rattle.std.specs.Prelude.{◌≡◌};
    ghost use Rattle.wi_ranges.specs.Inner.Around.{IsAround};
    ghost use Rattle.wi_ranges.specs.Inner.Index.{AreWhole, bag_of};
    ghost use Rattle.wi_ranges.specs.Inner.Singles.{with_pairs};

    ghost view = { λ s. telling s.index.now (readers_told s.left s.pieces.now.keys) };

    ghost invariant = { λ s. (s.index.now ≡ with_pairs s.singles.now (bag_of s.pieces.now.keys))
        × AreWhole s.pieces.now.keys × IsAround s.around (bag_of s.pieces.now.keys) };
}

impl<'a> ReaderSearch<'a> {
    /// A search in an index of these parts, in which nothing was told. Takes no memory.
    pub(crate) fn new(
        alloc: Global,
        index: &'a RangeIndex,
        singles: &'a Singles,
        pieces: &'a Pieces,
        around: Option<Rect>,
    ) -> ReaderSearch<'a>
        requires parts { index.now ≡ with_pairs singles.now (bag_of pieces.now.keys) }
        requires whole { AreWhole pieces.now.keys }
        requires around { IsAround around (bag_of pieces.now.keys) }
        ensures { result ≡ telling index.now [] }
    {
        ReaderSearch {
            index,
            singles,
            pieces,
            around,
            left: BTreeMap::new(alloc),
            asked: 0,
            alloc,
        }
    }

    /// The dependents of a cell, each once, but for some that were told before.
    pub fn readers_of(&mut self, at: Address) -> Result<Vec<Address>, AllocError>
        ensures { IfOk result (λ readers. Answers self.old self.new at readers.items) }
    {
        if self.has_asked_enough() {
            return self.untold_readers(at);
        }
        self.first_readers(at)
    }

    /// Whether the rectangles that are left are worth a list.
    fn has_asked_enough(&self) -> bool {
        self.asked >= FIRST_CELLS
    }

    /// All dependents of a cell, each once.
    fn first_readers(&mut self, at: Address) -> Result<Vec<Address>, AllocError>
        ensures { IfOk result (λ readers. Answers self.old self.new at readers.items) }
    {
        self.asked = self.asked.saturating_add(1);
        self.index.readers_of(at)
    }

    /// The dependents of a cell, each once, but for those of rectangles of which they were told before.
    fn untold_readers(&mut self, at: Address) -> Result<Vec<Address>, AllocError>
        ensures { IfOk result (λ readers. Answers self.old self.new at readers.items) }
    {
        let mut readers = RisingSet::new(self.alloc);
        self.singles.add_readers(at, &mut readers)?;
        if !has_cell(&self.around, at) {
            return readers.into_list();
        }
        tell_readers(self.alloc, self.pieces, at, &mut self.left, &mut readers)?;
        readers.into_list()
    }
}
