//! The places of rectangles of one size, each told by the cell of the first that stands there.

ghost use Rattle.std.specs.Prelude.{◌≡◌, true, [], ◌∷◌, IfSome, option_map};
ghost use Rattle.std.specs.List.{list_all};
ghost use Rattle.wi_values.specs.Address.{is_within};
ghost use Rattle.wi_lookup_functions.specs.Inner.Places.{IsNextPlace};
ghost use Rattle.wi_lookup_functions.specs.Inner.Sums.{same_extent, same_place};

use crate::cells::next_after;
use crate::extent::{same_extent, same_place};
use wi_arguments::Lookup;
use wi_values::{Address, Rect, sooner};

/// Whether rectangles have as many rows and columns as the first.
pub(crate) fn have_one_size(first: Rect, areas: &[Rect]) -> bool
    ensures { result ≡ list_all (same_extent first) areas.now }
{
    areas.iter().all(|area| same_extent(first, *area))
}

/// The first place, after one that was passed where there is one, at which a cell of one of the rectangles is filled.
/// The work is that of `next_filled` for each of them.
#[tactic(auto, using(crate::proofs::InOrder::has_size))]
pub(crate) fn next_place<L: Lookup>(
    first: Rect,
    areas: &[Rect],
    passed: &Option<Address>,
    lookup: &L,
) -> Option<Address>
    requires within { IfSome passed.now (λ at. is_within first at ≡ true) }
    requires size { list_all (same_extent first) areas.now ≡ true }
    ensures { IsNextPlace (L.known_cell lookup.now) first areas.now passed.now result }
{
    let mut found = None;
    for area in areas {
        found = sooner(found, next_in(first, *area, passed, lookup));
    }
    found
}

/// The first place, after one that was passed where there is one, at which a cell of one rectangle is filled. Both
/// places are told by cells of the first rectangle, which has the same size.
fn next_in<L: Lookup>(
    first: Rect,
    area: Rect,
    passed: &Option<Address>,
    lookup: &L,
) -> Option<Address>
    requires within { IfSome passed.now (λ at. is_within first at ≡ true) }
    requires size { same_extent first area ≡ true }
    ensures { IsNextPlace (L.known_cell lookup.now) first (area ∷ []) passed.now result }
{
    match passed {
        Some(at) => {
            let next = next_after(area, same_place(*at, first, area), lookup);
            moved(next, area, first)
        }
        None => {
            let next = lookup.next_filled(area, area.first());
            moved(next, area, first)
        }
    }
}

/// The cell of another rectangle at the place of one that was found.
fn moved(found: Option<Address>, one: Rect, other: Rect) -> Option<Address>
    requires within { IfSome found (λ at. is_within one at ≡ true) }
    requires size { same_extent one other ≡ true }
    ensures { result ≡ option_map (same_place one other) found }
{
    match found {
        Some(at) => Some(same_place(at, one, other)),
        None => None,
    }
}
