//! The bits of a tile whose cells lie in a rectangle.

ghost use Rattle.std.specs.Prelude.{◌≡◌, ◌<◌, ◌≤◌, ◌/◌, ◌==◌, ◌&&◌, ℕ, nat_le};
ghost use Rattle.std.specs.Int.{bit_at};
ghost use Rattle.wi_values.specs.Address.{column_of};
ghost use Rattle.wi_tiles.specs.Inner.Columns.{HasEach};
ghost use Rattle.wi_tiles.specs.Inner.Within.{cell_in, line_of, lines_of, IsInside};

use wi_values::{Address, Rect};

/// The cell of a bit of the tile in which a cell stands.
pub(crate) fn cell_in(corner: Address, bit: u32) -> Address
    requires { bit < 64 }
    ensures { result ≡ cell_in corner bit }
{
    Address::at(
        corner.row() / 16 * 16 + bit / 4,
        corner.column() / 4 * 4 + bit % 4,
    )
}

/// The bits of a group of columns that stand in a band's lines from one to another, from a column on, and in a
/// rectangle's columns.
#[inline(always)]
pub(crate) fn bits_in(area: Rect, group: u32, column: u32, top: u32, bottom: u32) -> u64
    requires left { column / 4 ≤ group }
    requires right { group ≤ column_of area.last / 4 }
    requires top { top < 16 }
    requires bottom { bottom < 16 }
    ensures sound { (i : ℕ) → i < 64 → bit_at result i ≡ 1
        → IsInside area group column top bottom i }
    ensures whole { (i : ℕ) → i < 64 → IsInside area group column top bottom i
        → bit_at result i ≡ 1 }
{
    let left = group * 4;
    let low = left.max(column) - left;
    let high = (left + 4).min(area.last().column() + 1) - left;
    lines_of(line_of(low, high)) & lines_between(top, bottom)
}

/// The bits from one of a line up to another.
#[tactic(auto, using(crate::proofs::MaskLemmas::line_within))]
fn line_of(low: u32, high: u32) -> u64
    requires low { low < 4 }
    requires high { high ≤ 4 }
    ensures value { result ≡ line_of low high }
    ensures within { result ≤ 15 }
{
    (15 >> (4 - high)) & (15 << low)
}

/// The bits of one line, once in each of the 16 lines.
fn lines_of(line: u64) -> u64
    requires { line ≤ 15 }
    ensures { result ≡ lines_of line }
{
    line * 0x1111_1111_1111_1111
}

/// The bits of the lines from one to another.
pub(crate) fn lines_between(top: u32, bottom: u32) -> u64
    requires top { top < 16 }
    requires bottom { bottom < 16 }
    ensures { (i : ℕ) → i < 64 → (bit_at result i == 1)
        ≡ (nat_le top (i / 4) && nat_le (i / 4) bottom) }
{
    (u64::MAX << (4 * top)) & (u64::MAX >> (60 - 4 * bottom))
}

/// A bit for each column of a rectangle, by its remainder, and maybe for others.
pub(crate) fn columns_of(area: Rect) -> u64
    ensures { HasEach area result }
{
    let left = area.first().column();
    let right = area.last().column();
    if left / 64 < right / 64 {
        return u64::MAX;
    }
    (u64::MAX << (left % 64)) & (u64::MAX >> (63 - right % 64))
}
