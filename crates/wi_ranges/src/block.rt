//! Blocks of rows.

ghost use Rattle.std.specs.Prelude.{◌≡◌, ◌<◌, ◌+◌, ◌-◌, ◌^◌, ◌≤◌, ◌&&◌, true};
ghost use Rattle.wi_values.specs.Address.{rows};
ghost use Rattle.wi_ranges.specs.Blocks.{block, lies_within, meets, blocks_in, blocks_of, half_with, first_row, last_row};
ghost use Rattle.wi_ranges.specs.Inner.Index.{holds, is_among};

use crate::pair::RangePair;

/// 2^level rows.
#[derive(Clone, Copy, PartialEq, Eq, PartialOrd, Ord)]
pub struct Block {
    pub(crate) level: u32,
    pub(crate) first: u32,
}

impl Block {
    /// All rows of a sheet.
    pub(crate) fn sheet() -> Block
        ensures { result ≡ block 20 0 }
    {
        Block {
            level: 20,
            first: 0,
        }
    }

    /// A block that has all blocks of a pair: its row where it has one alone, and else the sheet.
    pub(crate) fn around(pair: &RangePair) -> Block
        ensures blocks { blocks_in pair.now result ≡ blocks_of pair.now }
        ensures within { result.first + 2 ^ result.level ≤ rows }
        ensures holds { holds (first_row pair.now) result ≡ true }
    {
        let row = pair.first.row();
        if pair.last_row() == row {
            Block {
                level: 0,
                first: row,
            }
        } else {
            Block::sheet()
        }
    }

    /// The row after its last.
    fn end(&self) -> u32
        requires { self.now.first + 2 ^ self.now.level ≤ rows }
        ensures { result ≡ self.now.first + 2 ^ self.now.level }
    {
        self.first + (1 << self.level)
    }

    /// Whether all of its rows are rows of the rectangle.
    pub(crate) fn lies_within(&self, pair: &RangePair) -> bool
        requires { self.now.first + 2 ^ self.now.level ≤ rows }
        ensures { result ≡ lies_within (first_row pair.now) (last_row pair.now) self.now }
    {
        pair.first.row() <= self.first && self.end() <= pair.last_row() + 1
    }

    /// Whether one of its rows is a row of the rectangle.
    pub(crate) fn meets(&self, pair: &RangePair) -> bool
        requires { self.now.first + 2 ^ self.now.level ≤ rows }
        ensures { result ≡ meets (first_row pair.now) (last_row pair.now) self.now }
    {
        pair.first.row() < self.end() && self.first <= pair.last_row()
    }

    /// Its upper half.
    pub(crate) fn upper(&self) -> Block
        requires level { 0 < self.now.level }
        requires on_sheet { self.now.first + 2 ^ self.now.level ≤ rows }
        ensures value { result ≡ block (self.now.level - 1) self.now.first }
        ensures within { result.first + 2 ^ result.level ≤ rows }
    {
        Block {
            level: self.level - 1,
            first: self.first,
        }
    }

    /// Its lower half.
    pub(crate) fn lower(&self) -> Block
        requires level { 0 < self.now.level }
        requires on_sheet { self.now.first + 2 ^ self.now.level ≤ rows }
        ensures value { result
            ≡ block (self.now.level - 1) (self.now.first + 2 ^ (self.now.level - 1)) }
        ensures within { result.first + 2 ^ result.level ≤ rows }
    {
        Block {
            level: self.level - 1,
            first: self.upper().end(),
        }
    }

    /// The half that holds a row of it.
    pub(crate) fn half_with(&self, row: u32) -> Block
        requires level { 0 < self.now.level }
        requires on_sheet { self.now.first + 2 ^ self.now.level ≤ rows }
        ensures value { result ≡ half_with row self.now }
        ensures within { result.first + 2 ^ result.level ≤ rows }
    {
        let lower = self.lower();
        if row < lower.first {
            self.upper()
        } else {
            lower
        }
    }

    /// The block of a pair that holds its first row, in a block that holds that row.
    pub(crate) fn first_of(&self, pair: &RangePair) -> Block
        requires on_sheet { self.now.first + 2 ^ self.now.level ≤ rows }
        requires holds { holds (first_row pair.now) self.now ≡ true }
        ensures { is_among result (blocks_in pair.now self.now) ≡ true }
    {
        if self.lies_within(pair) {
            *self
        } else {
            self.half_with(pair.first.row()).first_of(pair)
        }
    }
}
