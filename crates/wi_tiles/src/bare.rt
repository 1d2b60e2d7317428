//! Rows of a page in which a rectangle has nothing.

ghost use Rattle.std.specs.Prelude.{◌<◌, ◌≤◌, ◌+◌, ◌*◌, ◌/◌, ℕ, Some, IsTrue};
ghost use Rattle.wi_values.specs.Address.{rows};
ghost use Rattle.wi_tiles.specs.Inner.Columns.{HasLast, IsBare};
ghost use Rattle.wi_tiles.specs.Inner.Next.{HasNoneBetween};
ghost use Rattle.wi_tiles.specs.Inner.Parts.{part_from};
ghost use Rattle.wi_tiles.specs.Inner.Sorted.{Rises};

use crate::masks::{bits_in, columns_of};
use crate::page::Page;
use crate::pages::Pages;
use crate::sorted::place_from;
use crate::tile::Tile;
use wi_values::Rect;

/// The row behind a row's band, and behind those below it in its page in which a rectangle has nothing: all, if none of
/// the page's tiles has anything in its columns. It stands apart, so that a turn from one band to the next takes
/// little.
#[inline(never)]
pub(crate) fn past_bare<V>(pages: &Pages<V>, area: Rect, row: u32) -> u32
    requires { row < rows }
    ensures later { row < result }
    ensures sheet { result ≤ rows }
    ensures bare { HasNoneBetween pages.now area (row / 16 * 16 + 16) result }
{
    match pages.part((row / 4_096) as usize) {
        Some(page) => { row / 4_096 * 4_096 + 16 * past_bands(page, area, row / 16 % 256 + 1) }
        None => row / 16 * 16 + 16,
    }
}

/// The index behind those, from one on, of bands in which a rectangle has nothing.
fn past_bands<V>(page: &Page<V>, area: Rect, from: u32) -> u32
    requires { from ≤ 256 }
    ensures later { from ≤ result }
    ensures within { result ≤ 256 }
    ensures bare { (i : ℕ) → from ≤ i → i < result → IsBare area (part_from page.now i) }
{
    if page.lacks(columns_of(area)) {
        return 256;
    }
    let mask = bits_in(area, area.last().column() / 4, area.first().column(), 0, 15);
    let mut index = from;
    while index < 256 {
        if !is_bare(page, index as usize, area, mask) {
            return index;
        }
        index += 1;
    }
    index
}

/// Whether there is a band at an index, and a rectangle has nothing in it; it may not know.
fn is_bare<V>(page: &Page<V>, index: usize, area: Rect, mask: u64) -> bool
    requires { HasLast area mask }
    ensures { IsTrue result → IsBare area (part_from page.now index) }
{
    match page.band(index) {
        Some(band) => are_bare(band.parts(), area, mask),
        None => false,
    }
}

/// Whether a rectangle has nothing among a band's tiles; it may not know. The bits of the rectangle's last columns are
/// told.
fn are_bare<V>(parts: &[(u32, Tile<V>)], area: Rect, mask: u64) -> bool
    requires rises { Rises parts.now }
    requires mask { HasLast area mask }
    ensures { IsTrue result → IsBare area (Some parts.now) }
{
    let place = place_from(parts, area.first().column() / 4);
    if parts.len() <= place {
        return true;
    }
    let part = &parts[place];
    let group = area.last().column() / 4;
    if group < part.0 {
        return true;
    }
    if part.0 < group {
        return false;
    }
    part.1.bits_of(mask) == 0
}
