//! A rectangle and a cell that reads it.

ghost use Rattle.std.specs.Prelude.{◌≡◌, ◌==◌, ◌<◌, IsTrue, length};
ghost use Rattle.wi_values.specs.Address.{is_within, rows};
ghost use Rattle.wi_ranges.specs.Bag.{pair_for, pair_area, lowest_pair};
ghost use Rattle.wi_ranges.specs.Blocks.{blocks_of, last_row};
ghost use Rattle.wi_ranges.specs.Inner.Index.{lowest};
ghost use Rattle.wi_ranges.specs.Inner.Telling.{first_for, is_same_area};

use wi_values::{Address, Rect};

/// A rectangle, by its corners, and a cell that reads it.
#[derive(Clone, Copy, PartialEq, Eq, PartialOrd, Ord)]
pub struct RangePair {
    pub(crate) first: Address,
    pub(crate) last: Address,
    pub(crate) reader: Address,
}

/// One of the pairs that are equal, by its number among them, which is counted from 0.
#[derive(Clone, Copy, PartialEq, Eq, PartialOrd, Ord)]
pub struct Numbered {
    pub(crate) pair: RangePair,
    pub(crate) number: u64,
}

impl Numbered {
    /// The first in the order of numbered pairs.
    pub(crate) fn lowest() -> Numbered
        ensures { result ≡ lowest }
    {
        Numbered {
            pair: RangePair::lowest(),
            number: 0,
        }
    }
}

impl RangePair {
    pub(crate) fn new(area: Rect, reader: Address) -> RangePair
        ensures { result ≡ pair_for area reader }
    {
        RangePair {
            first: area.first(),
            last: area.last(),
            reader,
        }
    }

    /// The first pair in the order of pairs.
    pub(crate) fn lowest() -> RangePair
        ensures { result ≡ lowest_pair }
    {
        let first = Address::at(0, 0);
        RangePair {
            first,
            last: first,
            reader: first,
        }
    }

    /// Whether another pair is of the same rectangle.
    pub(crate) fn has_area_of(&self, other: &RangePair) -> bool
        ensures { result ≡ is_same_area self.now other.now }
    {
        self.first == other.first && self.last == other.last
    }

    /// The first of the numbered pairs of its rectangle.
    pub(crate) fn first_numbered(&self) -> Numbered
        ensures { result ≡ first_for self.now }
    {
        Numbered {
            pair: RangePair {
                first: self.first,
                last: self.last,
                reader: Address::at(0, 0),
            },
            number: 0,
        }
    }

    /// Whether the rectangle is one cell. It has one block then.
    pub(crate) fn is_single(&self) -> bool
        ensures value { result ≡ (self.now.first == self.now.last) }
        ensures block { IsTrue result → length (blocks_of self.now) ≡ 1 }
    {
        // A row of the sheet has a block.
        let _ = self.first.row();
        self.first == self.last
    }

    /// The last row of the rectangle, counted from 0.
    pub(crate) fn last_row(&self) -> u32
        ensures value { result ≡ last_row self.now }
        ensures within { result < rows }
    {
        self.first.row().max(self.last.row())
    }

    /// Whether a cell lies in the rectangle.
    pub(crate) fn has(&self, at: Address) -> bool
        ensures { result ≡ is_within (pair_area self.now) at }
    {
        (self.first.row() <= at.row() && at.row() <= self.last.row())
            && (self.first.column() <= at.column() && at.column() <= self.last.column())
    }
}
