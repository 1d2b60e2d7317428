//! The tiles of a band that lie in the columns of a rectangle, and which of their bits come next.

ghost use Rattle.std.specs.Prelude.{◌≡◌, ◌<◌, ◌≤◌, ◌+◌, ◌*◌, ◌/◌, ℕ, None, IsTrue, IfSome, IfNone, length};
ghost use Rattle.wi_values.specs.Address.{rows, columns, place, row_of, column_of};
ghost use Rattle.wi_tiles.specs.Inner.Cells.{Pages};
ghost use Rattle.wi_tiles.specs.Inner.Lines.{cell};
ghost use Rattle.wi_tiles.specs.Inner.Next.{HasNoneAbove};
ghost use Rattle.wi_tiles.specs.Inner.Sorted.{find, key, Rises};
ghost use Rattle.wi_tiles.specs.Inner.Turns.{LeadsOn};
ghost use Rattle.wi_tiles.specs.Inner.Within.{AreTiles, AreOfBand, IsPlace, IsNextTile};

use crate::masks::{bits_in, lines_between};
use crate::sorted::place_from;
use crate::tile::Tile;
use wi_values::{Address, Rect};

/// Tiles of a band, with their groups of columns.
pub(crate) type Tiles<'a, V> = &'a [(u32, Tile<V>)];

/// A tile of which something is to come, and where a walk goes on behind that.
#[derive(Drop)]
pub(crate) struct Turn<'a, V> {
    pub tile: &'a Tile<V>,
    // One of its cells, its bits that are to come, and how many others before these have something.
    pub corner: Address,
    pub left: u64,
    pub before: usize,
    // Whether no bit between those that are to come has anything.
    pub whole: bool,
    // The row and the column from which the walk goes on, and if more tiles of the row's band lie in the rectangle, all
    // these, and how many of them lie left of the column.
    pub row: u32,
    pub column: u32,
    pub tiles: Option<Tiles<'a, V>>,
    pub first: usize,
}

/// Those of the tiles of a band.
pub(crate) fn tiles_in<V>(parts: &[(u32, Tile<V>)], area: Rect) -> &[(u32, Tile<V>)]
    requires { Rises parts.now }
    ensures tiles { AreTiles area result.now }
    ensures same { (g : ℕ) → column_of area.first / 4 ≤ g → g ≤ column_of area.last / 4
        → find g result.now ≡ find g parts.now }
{
    if is_only(parts, area.first().column() / 4, area.last().column() / 4) {
        return parts;
    }
    let low = place_from(parts, area.first().column() / 4);
    let high = place_from(parts, area.last().column() / 4 + 1);
    &parts[low..high]
}

/// Whether there is one tile, and its group of columns is one of these.
#[inline(always)]
fn is_only<V>(parts: &[(u32, Tile<V>)], low: u32, high: u32) -> bool
    ensures { IsTrue result → (length parts.now ≡ 1) × (low ≤ key parts.now 0)
        × (key parts.now 0 ≤ high) }
{
    if parts.len() != 1 {
        return false;
    }
    let part = &parts[0];
    low <= part.0 && part.0 <= high
}

/// Turns to the first tile, in a band's rows from a row and a column on, that has something of a rectangle. The tiles
/// before a first place lie left of the column.
pub(crate) fn turn_beside<'a, V>(
    tiles: &'a [(u32, Tile<V>)],
    area: Rect,
    from: u32,
    side: u32,
    first: usize,
) -> Option<Turn<'a, V>>
    requires tiles { AreTiles area tiles.now }
    requires top { row_of area.first ≤ from }
    requires sheet { from < rows }
    requires left { column_of area.first ≤ side }
    requires right { side ≤ columns }
    requires place { IsPlace tiles.now first (side / 4) }
    ensures some { IfSome result (λ t. (w : Pages V) → AreOfBand w area from tiles.now
        → LeadsOn w area from side t) }
    ensures none { IfNone result ((w : Pages V) → AreOfBand w area from tiles.now
        → HasNoneAbove w area (place from side) (from / 16 * 16 + 16)) }
{
    let left = area.first().column();
    let below = (from / 16 * 16 + 16).min(area.last().row() + 1);
    let mut row = from;
    let mut column = side;
    let mut place = first;
    while row < below {
        match next_tile(tiles, area, row % 16, column, place) {
            Some(next) => {
                let part = &tiles[next.0];
                return Some(Turn {
                    tile: &part.1,
                    corner: Address::at(row, part.0 * 4),
                    left: next.1,
                    before: part.1.count_before(next.1.trailing_zeros()),
                    whole: true,
                    row,
                    column: part.0 * 4 + 4,
                    tiles: Some(tiles),
                    first: next.0 + 1,
                });
            }
            None => {
                row += 1;
                column = left;
                place = 0;
            }
        }
    }
    None
}

/// The first of these tiles, from a place on, that has something in a line, in a rectangle's columns from a column on:
/// its place, and the bits that have it.
fn next_tile<V>(
    tiles: &[(u32, Tile<V>)],
    area: Rect,
    line: u32,
    column: u32,
    first: usize,
) -> Option<(usize, u64)>
    requires tiles { AreTiles area tiles.now }
    requires line { line < 16 }
    requires place { IsPlace tiles.now first (column / 4) }
    ensures some { IfSome result (λ x. IsNextTile area tiles.now line column x.0 x.1) }
    ensures none { IfNone result ((k : ℕ) → column ≤ k → k ≤ column_of area.last
        → cell tiles.now line k ≡ None) }
{
    let mut place = first;
    while place < tiles.len() {
        let part = &tiles[place];
        let left = part.1.bits_of(bits_in(area, part.0, column, line, line));
        if left != 0 {
            return Some((place, left));
        }
        place += 1;
    }
    None
}

/// Turns to the first of these tiles that has something of a rectangle, from a row and a column on.
pub(crate) fn turn_among<'a, V>(
    tiles: &'a [(u32, Tile<V>)],
    area: Rect,
    row: u32,
    column: u32,
) -> Option<Turn<'a, V>>
    requires tiles { AreTiles area tiles.now }
    requires top { row_of area.first ≤ row }
    requires bottom { row ≤ row_of area.last }
    requires left { column_of area.first ≤ column }
    requires right { column ≤ columns }
    ensures some { IfSome result (λ t. (w : Pages V) → AreOfBand w area row tiles.now
        → LeadsOn w area row column t) }
    ensures none { IfNone result ((w : Pages V) → AreOfBand w area row tiles.now
        → HasNoneAbove w area (place row column) (row / 16 * 16 + 16)) }
{
    if tiles.is_empty() {
        return None;
    }
    if is_alone(tiles, area, column) {
        turn_alone(tiles, area, row, column)
    } else {
        turn_beside(tiles, area, row, column, place_from(tiles, column / 4))
    }
}

/// Whether there is one tile, and the column is the first of the rectangle.
fn is_alone<V>(tiles: &[(u32, Tile<V>)], area: Rect, column: u32) -> bool
    ensures { IsTrue result → (length tiles.now ≡ 1) × (column ≡ column_of area.first) }
{
    tiles.len() == 1 && column == area.first().column()
}

/// Turns to the only tile of a band, where it has one alone, and the column is the first of the rectangle.
#[inline(always)]
pub(crate) fn turn_to_only<'a, V>(
    parts: &'a [(u32, Tile<V>)],
    area: Rect,
    row: u32,
    column: u32,
) -> Option<Turn<'a, V>>
    requires rises { Rises parts.now }
    requires top { row_of area.first ≤ row }
    requires bottom { row ≤ row_of area.last }
    ensures { IfSome result (λ t. (w : Pages V) → AreOfBand w area row parts.now
        → LeadsOn w area row column t) }
{
    if column != area.first().column() {
        return None;
    }
    if !is_only(parts, area.first().column() / 4, area.last().column() / 4) {
        return None;
    }
    turn_alone(parts, area, row, column)
}

/// Turns to the only tile, for all of the rectangle's rows from one on at once.
#[inline(always)]
fn turn_alone<'a, V>(
    tiles: &'a [(u32, Tile<V>)],
    area: Rect,
    row: u32,
    column: u32,
) -> Option<Turn<'a, V>>
    requires tiles { AreTiles area tiles.now }
    requires alone { length tiles.now ≡ 1 }
    requires top { row_of area.first ≤ row }
    requires bottom { row ≤ row_of area.last }
    requires first { column ≡ column_of area.first }
    ensures some { IfSome result (λ t. (w : Pages V) → AreOfBand w area row tiles.now
        → LeadsOn w area row column t) }
    ensures none { IfNone result ((w : Pages V) → AreOfBand w area row tiles.now
        → HasNoneAbove w area (place row column) (row / 16 * 16 + 16)) }
{
    let part = &tiles[0];
    let last = area.last().row().min(row / 16 * 16 + 15);
    let mask = bits_in(area, part.0, column, row % 16, last % 16);
    let left = part.1.bits_of(mask);
    if left == 0 {
        return None;
    }
    let all = part.1.bits_of(lines_between(row % 16, last % 16));
    Some(Turn {
        tile: &part.1,
        corner: Address::at(row, part.0 * 4),
        left,
        before: part.1.count_before(left.trailing_zeros()),
        whole: all == left,
        row: last + 1,
        column,
        tiles: None,
        first: 0,
    })
}
