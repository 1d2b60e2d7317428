//! Pages of bands of tiles, and where a cell stands in them.

ghost use Rattle.std.specs.Prelude.{◌≡◌, ◌<◌, ◌≤◌, ◌*◌, ℕ, None, option_copied};
ghost use Rattle.wi_values.specs.Address.{rows};
ghost use Rattle.wi_tiles.specs.Inner.Cells.{path_of};
ghost use Rattle.wi_tiles.specs.Inner.Next.{band_at, IsStart};

use crate::page::Page;
use crate::sorted::Band;
use crate::window::Window;
use wi_values::{Address, Rect};

/// Tiles of 16 rows by 4 columns, in order of their columns in a band of 16 rows; 256 bands are a page.
pub(crate) type Pages<V> = Window<Page<V>>;

/// The digits of a cell: its page, its band, its group of columns, and its place in a tile.
pub(crate) fn path_of(cell: Address) -> u64
    ensures value { result ≡ path_of cell }
    ensures within { result < 256 * (256 * (4096 * 64)) }
    ensures cell { cell < 17179869184 }
{
    let row = cell.row();
    let column = cell.column();
    let bit = row % 16 * 4 + column % 4;
    let group = u64::from(column / 4) + 4_096 * u64::from(bit);
    let band = u64::from(row / 16 % 256) + 256 * group;
    // A page is one of 256: said so, its digit comes off the path for nothing.
    u64::from(row / 4_096 % 256) + 256 * band
}

/// The band of a row.
pub(crate) fn band_of<V>(pages: &Pages<V>, row: u32) -> Option<&Band<V>>
    ensures { option_copied result ≡ band_at pages.now row }
{
    match pages.part((row / 4_096) as usize) {
        Some(page) => page.band((row / 16 % 256) as usize),
        None => None,
    }
}

/// A row up to which none has a band, where this one has none; it is found without a search.
pub(crate) fn past_gap<V>(pages: &Pages<V>, row: u32) -> u32
    requires row { row < rows }
    requires bare { band_at pages.now row ≡ None }
    ensures later { row < result }
    ensures within { result ≤ rows }
    ensures gap { (r : ℕ) → row ≤ r → r < result → band_at pages.now r ≡ None }
{
    match pages.part((row / 4_096) as usize) {
        Some(page) => row / 4_096 * 4_096 + 16 * page.past_gap((row / 16 % 256) as usize) as u32,
        None => 4_096 * pages.past_gap((row / 4_096) as usize) as u32,
    }
}

/// The row and the column of a rectangle's first cell at a cell or after it, or a row below the rectangle.
pub(crate) fn start(area: Rect, from: Address) -> (u32, u32)
    ensures start { IsStart area from result.0 result.1 }
    ensures sheet { result.0 ≤ rows }
{
    let left = area.first().column();
    let top = area.first().row();
    if from.row() < top {
        return (top, left);
    }
    if area.last().column() < from.column() {
        return (from.row() + 1, left);
    }
    (from.row(), from.column().max(left))
}
