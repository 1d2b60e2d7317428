//! The first cell that rectangles share.

ghost use Rattle.std.specs.Prelude.{◌≡◌, true};
ghost use Rattle.wi_edit_log.specs.Inner.First.{IsFirst, in_both, in_each, in_one};
ghost use Rattle.wi_edit_log.specs.Inner.Rising.{are_rising};

use crate::rising::first_in_rising;
use wi_values::{Address, Rect, sooner};

/// The first cell that two rectangles share.
pub(crate) fn first_in_both(one: Rect, other: Rect) -> Option<Address>
    ensures { IsFirst (in_both one other) result }
{
    let row = one.first().row().max(other.first().row());
    let column = one.first().column().max(other.first().column());
    let at = Address::at(row, column);
    let is_shared = one.contains(at) && other.contains(at);
    is_shared.then_some(at)
}

/// The first cell of a rectangle that one of the others has too. The work grows with their count.
fn first_in_any(one: Rect, others: &[Rect]) -> Option<Address>
    ensures { IsFirst (in_one one others.now) result }
{
    let mut first = None;
    for other in others {
        first = sooner(first, first_in_both(one, *other));
    }
    first
}

/// The first cell of a rectangle that one of the others has too, which may be told to rise.
fn first_in_others(one: Rect, others: &[Rect], they_rise: bool) -> Option<Address>
    requires { they_rise ≡ true → are_rising others.now ≡ true }
    ensures { IsFirst (in_one one others.now) result }
{
    if they_rise {
        first_in_rising(one, others)
    } else {
        first_in_any(one, others)
    }
}

/// The first cell that rectangles of two lists share: each of the few is looked for among the many.
fn first_in_each(few: &[Rect], many: &[Rect], many_rise: bool) -> Option<Address>
    requires { many_rise ≡ true → are_rising many.now ≡ true }
    ensures { IsFirst (in_each few.now many.now) result }
{
    let mut first = None;
    for one in few {
        first = sooner(first, first_in_others(*one, many, many_rise));
    }
    first
}

/// The first cell that rectangles of two lists share, which may be told to rise. Each rectangle of the shorter list is
/// looked for in the longer. Where that rises, the work for each is that of `first_in_rising`, and else it grows with
/// the longer's length.
pub(crate) fn first_between(
    areas: &[Rect],
    they_rise: bool,
    others: &[Rect],
    others_rise: bool,
) -> Option<Address>
    requires areas { they_rise ≡ true → are_rising areas.now ≡ true }
    requires others { others_rise ≡ true → are_rising others.now ≡ true }
    ensures { IsFirst (in_each areas.now others.now) result }
{
    if areas.len() <= others.len() {
        first_in_each(areas, others, others_rise)
    } else {
        first_in_each(others, areas, they_rise)
    }
}
