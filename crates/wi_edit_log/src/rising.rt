//! Rectangles of which each lies below the one before, as an import names them.

ghost use Rattle.std.specs.Prelude.{◌≡◌, ◌≤◌, ℕ, drop, length, true};
ghost use Rattle.wi_values.specs.Address.{is_within_one, row_of};
ghost use Rattle.wi_edit_log.specs.Inner.First.{IsFirst, in_one};
ghost use Rattle.wi_edit_log.specs.Inner.Rising.{are_rising, begins_from};

use crate::search::first_in_both;
use wi_values::{Address, Rect};

/// Whether a rectangle begins at a row or below, and ends no earlier than it begins.
fn begins_from(area: Rect, row: u32) -> bool
    ensures { result ≡ begins_from row area }
{
    row <= area.first().row() && area.first().row() <= area.last().row()
}

/// Whether each lies below the one before.
pub(crate) fn are_rising(areas: &[Rect]) -> bool
    ensures { result ≡ are_rising areas.now }
{
    let mut next = 0;
    for area in areas {
        if !begins_from(*area, next) {
            return false;
        }
        next = area.last().row() + 1;
    }
    true
}

/// How many of rising rectangles end above a row.
fn count_above(areas: &[Rect], row: u32) -> usize
    requires { are_rising areas.now ≡ true }
    ensures within { result ≤ length areas.now }
    ensures rest { (a : ℕ) → row ≤ row_of a
        → is_within_one areas.now a ≡ is_within_one (drop result areas.now) a }
{
    areas.partition_point(|area| area.last().row() < row)
}

/// The first cell of a rectangle that one of rising ones has too. The work grows with how many of them meet its rows.
fn first_met(one: Rect, areas: &[Rect]) -> Option<Address>
    requires { are_rising areas.now ≡ true }
    ensures { IsFirst (in_one one areas.now) result }
{
    for area in areas {
        if one.last().row() < area.first().row() {
            return None;
        }
        if let Some(at) = first_in_both(one, *area) {
            return Some(at);
        }
    }
    None
}

/// The first cell of a rectangle that one of rising ones has too. The work grows with the logarithm of their count, and
/// with how many of them meet its rows.
pub(crate) fn first_in_rising(one: Rect, areas: &[Rect]) -> Option<Address>
    requires { are_rising areas.now ≡ true }
    ensures { IsFirst (in_one one areas.now) result }
{
    let above = count_above(areas, one.first().row());
    first_met(one, &areas[above..])
}
