//! The next tile of which a rectangle has something, and the first cell of a rectangle that has something.

ghost use Rattle.std.specs.Prelude.{◌≡◌, ◌<◌, ◌≤◌, Some, IfSome, IfNone, IfOk, IfErr};
ghost use Rattle.wi_values.specs.Address.{rows, columns, place, row_of, column_of};
ghost use Rattle.wi_tiles.specs.Inner.Cells.{at_cell};
ghost use Rattle.wi_tiles.specs.Inner.Next.{HasNoneFrom, HasNoneAbove, IsNext};
ghost use Rattle.wi_tiles.specs.Inner.Turns.{LeadsOn};
ghost use Rattle.wi_tiles.specs.Inner.Within.{GoesOn, AreBeside};

use crate::band::{Tiles, Turn, tiles_in, turn_among, turn_beside, turn_to_only};
use crate::bare::past_bare;
use crate::masks::cell_in;
use crate::pages::{Pages, band_of, past_gap, start};
use wi_values::{Address, Rect};

/// The first cell of a rectangle, at a cell or after it, that has something, with what it has.
pub(crate) fn found_from<V>(pages: &Pages<V>, area: Rect, from: Address) -> Option<(Address, &V)>
    ensures some { IfSome result (λ x. IsNext pages.now area from x.0
        × (at_cell pages.now x.0 ≡ Some x.1.now)) }
    ensures sheet { IfSome result (λ x. x.0 < 17179869184) }
    ensures none { IfNone result (HasNoneFrom pages.now area from) }
{
    let begin = start(area, from);
    match turn_below(pages, area, begin.0, begin.1) {
        Some(turn) => {
            let bit = turn.left.trailing_zeros();
            Some((cell_in(turn.corner, bit), turn.tile.value_at(turn.before)))
        }
        None => None,
    }
}

/// Turns to the next tile of which a rectangle has something, from a row and a column on, where tiles of the row's band
/// may be at hand: those before a first place lie left of the column.
#[inline(always)]
pub(crate) fn turn_on<'a, V>(
    pages: &'a Pages<V>,
    area: Rect,
    row: u32,
    column: u32,
    tiles: Option<Tiles<'a, V>>,
    first: usize,
) -> Option<Turn<'a, V>>
    requires goes { GoesOn area row column tiles first }
    requires band { AreBeside pages.now area row tiles }
    ensures some { IfSome result (λ t. LeadsOn pages.now area row column t) }
    ensures none { IfNone result (HasNoneFrom pages.now area (place row column)) }
{
    match turn_down(pages, area, row, column, tiles) {
        Some(turn) => Some(turn),
        None => turn_apart(pages, area, row, column, tiles, first),
    }
}

/// Turns to the tile that the band of a row has, where it has one alone and no tiles are at hand: so a turn to the next
/// tile of a column takes no call. It may find none where there is one.
#[inline(always)]
fn turn_down<'a, V>(
    pages: &'a Pages<V>,
    area: Rect,
    row: u32,
    column: u32,
    tiles: Option<Tiles<'a, V>>,
) -> Option<Turn<'a, V>>
    requires top { row_of area.first ≤ row }
    requires left { column_of area.first ≤ column }
    requires right { column ≤ columns }
    ensures { IfSome result (λ t. LeadsOn pages.now area row column t) }
{
    if tiles.is_some() || area.last().row() < row {
        return None;
    }
    match band_of(pages, row) {
        Some(band) => turn_to_only(band.parts(), area, row, column),
        None => None,
    }
}

/// As `turn_on`, of any tiles.
#[inline(never)]
fn turn_apart<'a, V>(
    pages: &'a Pages<V>,
    area: Rect,
    row: u32,
    column: u32,
    tiles: Option<Tiles<'a, V>>,
    first: usize,
) -> Option<Turn<'a, V>>
    requires goes { GoesOn area row column tiles first }
    requires band { AreBeside pages.now area row tiles }
    ensures some { IfSome result (λ t. LeadsOn pages.now area row column t) }
    ensures none { IfNone result (HasNoneFrom pages.now area (place row column)) }
{
    match tiles {
        Some(tiles) => match turn_beside(tiles, area, row, column, first) {
            Some(turn) => Some(turn),
            None => turn_below(pages, area, row / 16 * 16 + 16, area.first().column()),
        },
        None => turn_below(pages, area, row, column),
    }
}

/// Turns to the next tile of which a rectangle has something, from a row and a column on, where no tiles are at hand:
/// one search for each band. It is never inlined, so that a turn to the tile beside takes little.
#[inline(never)]
fn turn_below<'a, V>(pages: &'a Pages<V>, area: Rect, from: u32, side: u32) -> Option<Turn<'a, V>>
    requires top { row_of area.first ≤ from }
    requires sheet { from ≤ rows }
    requires left { column_of area.first ≤ side }
    requires right { side ≤ columns }
    ensures some { IfSome result (λ t. LeadsOn pages.now area from side t) }
    ensures none { IfNone result (HasNoneFrom pages.now area (place from side)) }
{
    let left = area.first().column();
    let last = area.last().row();
    let mut row = from;
    let mut column = side;
    while row <= last {
        match turn_into(pages, area, row, column) {
            Ok(turn) => return Some(turn),
            Err(next) => {
                row = next;
                column = left;
            }
        }
    }
    None
}

/// Turns to the next tile of which a rectangle has something, from a row and a column on, where the band of that row
/// has one; else the row to go on with.
fn turn_into<'a, V>(
    pages: &'a Pages<V>,
    area: Rect,
    row: u32,
    column: u32,
) -> Result<Turn<'a, V>, u32>
    requires top { row_of area.first ≤ row }
    requires bottom { row ≤ row_of area.last }
    requires left { column_of area.first ≤ column }
    requires right { column ≤ columns }
    ensures found { IfOk result (λ t. LeadsOn pages.now area row column t) }
    ensures none { IfErr result (λ next. (row < next) × (next ≤ rows)
        × HasNoneAbove pages.now area (place row column) next) }
{
    match band_of(pages, row) {
        Some(band) => match turn_among(tiles_in(band.parts(), area), area, row, column) {
            Some(turn) => Ok(turn),
            None => Err(past_bare(pages, area, row)),
        },
        None => Err(past_gap(pages, row)),
    }
}
