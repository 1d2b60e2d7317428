//! What the cells of a rectangle have, one after another.

ghost use Rattle.std.specs.Prelude.{◌≡◌, ◌≢◌, ◌<◌, ℕ, true, IsSome, IfSome, IfNone, MatchOption, filter};
ghost use Rattle.std.specs.Int.{bit_at};
ghost use Rattle.std.specs.Map.Iter.{TakesFirst};
ghost use Rattle.wi_tiles.specs.Inner.Cells.{is_ahead};
ghost use Rattle.wi_tiles.specs.Inner.Entries.{entries_of};
ghost use Rattle.wi_tiles.specs.Inner.Lines.{slot};
ghost use Rattle.wi_tiles.specs.Inner.Within.{filled, step_entry, CountsFirst, IsFirstLeft};

use crate::band::Tiles;
use crate::found::turn_on;
use crate::masks::cell_in;
use crate::pages::{Pages, start};
use crate::tile::Tile;
use std::marker::Model;
use wi_values::{Address, Rect};

/// What the cells of a rectangle have, with the cells, in row-major order. It is seen as the entries that are still to
/// come.
#[derive(Drop)]
pub struct Within<'a, V> {
    pages: &'a Pages<V>,
    area: Rect,
    // The tile that is walked through, one of its cells, and its bits that are to come.
    tile: Option<&'a Tile<V>>,
    corner: Address,
    left: u64,
    // Whether no bit between those has anything, and if so, how many before them have something.
    whole: bool,
    before: usize,
    // The row and the column from which the walk goes on behind it, and if more tiles of the row's band lie in the
    // rectangle, all these, and how many of them lie left of the column.
    row: u32,
    column: u32,
    tiles: Option<Tiles<'a, V>>,
    first: usize,
}

impl<'a, V> Model for Within<'a, V> {
    ghost use Rattle.std.specs.Prelude.{ℕ, List, filter};
    ghost use Rattle.wi_values.specs.Address.{place};
    ghost use Rattle.wi_tiles.specs.Inner.Entries.{entries_of};
    ghost use Rattle.wi_tiles.specs.Inner.Within.{is_pending, IsWalk};

    ghost Value = { List (ℕ × V) };

    ghost view = { λ w. filter (λ e. is_pending w.area (place w.row w.column) w.corner w.left e.0)
        (entries_of w.pages.now) };

    ghost invariant = { λ w. (IsWalk w.pages.now w.area w.tile w.corner w.left w.before w.whole)
        w.row w.column w.tiles w.first };
}

impl<'a, V> Within<'a, V> {
    /// What the cells of a rectangle have, at a cell or after it.
    pub(crate) fn new(pages: &'a Pages<V>, area: Rect, from: Address) -> Within<'a, V>
        ensures { result ≡ filter (λ e. is_ahead area from e.0) (entries_of pages.now) }
    {
        let begin = start(area, from);
        Within {
            pages,
            area,
            tile: None,
            corner: from,
            left: 0,
            whole: false,
            before: 0,
            row: begin.0,
            column: begin.1,
            tiles: None,
            first: 0,
        }
    }

    /// The next entry, by a cell of its tile and its bit there: so its own cell is reckoned only where it is wanted.
    #[inline(always)]
    fn step(&mut self) -> Option<(Address, u32, &'a V)>
        ensures steps { TakesFirst step_entry self.old result self.new }
        ensures within { IfSome result (λ x. x.1 < 64) }
    {
        match first_left(self.tile, self.left, self.before, self.whole) {
            Some(found) => {
                self.left = without(self.left, found.0);
                self.before = found.1 + 1;
                Some((self.corner, found.0, found.2))
            }
            None => match turn_on(
                self.pages,
                self.area,
                self.row,
                self.column,
                self.tiles,
                self.first,
            ) {
                Some(turn) => {
                    let bit = turn.left.trailing_zeros();
                    self.tile = Some(turn.tile);
                    self.corner = turn.corner;
                    self.left = without(turn.left, bit);
                    self.before = turn.before + 1;
                    self.whole = turn.whole;
                    self.row = turn.row;
                    self.column = turn.column;
                    self.tiles = turn.tiles;
                    self.first = turn.first;
                    Some((turn.corner, bit, turn.tile.value_at(turn.before)))
                }
                None => None,
            },
        }
    }
}

impl<'a, V> Iterator for Within<'a, V> {
    ghost use Rattle.std.specs.Prelude.{length};
    ghost use Rattle.std.specs.Iterator.{at_most};
    ghost use Rattle.std.specs.Map.Iter.{TakesFirst};
    ghost use Rattle.wi_tiles.specs.Inner.Within.{entry};

    type Item = (Address, &'a V);

    ghost next_gives = { TakesFirst entry };

    ghost remaining = { λ s. at_most (length s) };

    /// A step among the bits of a tile for each cell, and one search for each 16 rows; and where more than one of their
    /// tiles lie in the rectangle, one step more for each tile of each row.
    #[inline(always)]
    fn next(&mut self) -> Option<(Address, &'a V)> {
        match self.step() {
            Some(found) => Some((cell_in(found.0, found.1), found.2)),
            None => None,
        }
    }
}

/// The first of the bits that are left of a tile, how many before it have something, and what it has; nothing is left
/// where there is no tile.
fn first_left<V>(
    tile: Option<&Tile<V>>,
    left: u64,
    before: usize,
    whole: bool,
) -> Option<(u32, usize, &V)>
    requires there { IfSome tile (λ t. (i : ℕ) → i < 64 → bit_at left i ≡ 1
        → IsSome (slot t.now i)) }
    requires counted { IfSome tile (λ t. whole ≡ true → CountsFirst t.now left before) }
    requires nothing { IfNone tile (left ≡ 0) }
    ensures some { IfSome result (λ x. MatchOption tile.entry ⊥
        (λ t. IsFirstLeft t.now left x.0 x.1 x.2.now)) }
    ensures small { IfSome result (λ x. x.1 < 64) }
    ensures none { IfNone result (left ≡ 0) }
{
    if left == 0 {
        return None;
    }
    match tile {
        Some(tile) => {
            let bit = left.trailing_zeros();
            let place = place_of(tile, bit, before, whole);
            Some((bit, place, tile.value_at(place)))
        }
        None => unreachable!(),
    }
}

/// How many bits before one have something, where it may be known.
fn place_of<V>(tile: &Tile<V>, bit: u32, before: usize, whole: bool) -> usize
    requires within { bit < 64 }
    requires counted { whole ≡ true → filled tile.now bit ≡ before }
    ensures { result ≡ filled tile.now bit }
{
    if whole {
        before
    } else {
        tile.count_before(bit)
    }
}

/// All bits but one.
fn without(bits: u64, bit: u32) -> u64
    requires { bit < 64 }
    ensures cleared { bit_at result bit ≡ 0 }
    ensures others { (i : ℕ) → i < 64 → i ≢ bit → bit_at result i ≡ bit_at bits i }
{
    bits & !(1 << bit)
}
