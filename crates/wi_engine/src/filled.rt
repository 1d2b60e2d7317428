//! The cells of a rectangle in which something may stand under replacements.

ghost use Rattle.std.specs.Prelude.{◌≡◌, ◌≤◌, ℕ, Some, None, true, IfSome, option_map};
ghost use Rattle.std.specs.Option.{option_copied};
ghost use Rattle.std.specs.List.{find};
ghost use Rattle.std.specs.Map.{keys_of};
ghost use Rattle.wi_values.specs.Address.{is_within};
ghost use Rattle.wi_values.specs.Replacements.{IsInOrder, as_map, replaced};
ghost use Rattle.wi_parser.specs.Sheet.{content_of, put_all};
ghost use Rattle.wi_store.specs.Store.{is_ahead};
ghost use Rattle.wi_arguments.specs.Filled.{ComesBefore};
ghost use Rattle.wi_engine.specs.Inner.ContentRef.{as_content};
ghost use Rattle.wi_engine.specs.Inner.Touched.{earlier};

use crate::content_ref::{ContentRef, constant, content_ref};
use wi_parser::Content;
use wi_store::Store;
use wi_values::{Address, Rect, Replacement};
use wi_worlds::World;

/// The first cell of a rectangle, at a cell or after it, that is occupied or replaced, with what stands there. The work
/// is that of `Store::next_content` and of `next_replaced`.
pub(crate) fn next_touched<'a>(
    store: &'a Store,
    world: &'a World,
    area: Rect,
    from: Address,
) -> Option<(Address, ContentRef<'a>)>
    ensures inside { IfSome result (λ x. (is_within area x.0 ≡ true) × (from ≤ x.0)) }
    ensures seen { IfSome result (λ x.
        as_content x.1 ≡ content_of (put_all store.now.sheet world.now) x.0) }
    ensures nothing_before { (a : ℕ) → is_within area a ≡ true → from ≤ a
        → ComesBefore a (option_map (λ x. x.0) result)
        → content_of (put_all store.now.sheet world.now) a ≡ None }
{
    store.cells_stand_in_order();
    let replaced = next_replaced(world.replacements(), area, from);
    earlier(&store.next_content(area, from), replaced)
}

/// The first replacement of a cell of a rectangle, at a cell or after it. The work grows with the logarithm of the
/// count of replacements, and with the count of replaced cells from there to the one found, or to the rectangle's last
/// cell.
pub(crate) fn next_replaced(
    replacements: &[Replacement],
    area: Rect,
    from: Address,
) -> Option<&Replacement>
    requires { IsInOrder replacements.now }
    ensures cell { option_map (λ r. r.now.at) result
        ≡ find (is_ahead area (Some from)) (keys_of (as_map replacements.now)) }
    ensures value { IfSome result (λ r. replaced replacements.now r.now.at ≡ Some r.now.value) }
{
    let before = replacements.partition_point(|replacement| replacement.at < from);
    first_within(&replacements[before..], area)
}

/// The first replacement of a cell of a rectangle. The work grows with the count of replaced cells up to it, or to the
/// rectangle's last cell.
fn first_within(replacements: &[Replacement], area: Rect) -> Option<&Replacement>
    requires { IsInOrder replacements.now }
    ensures cell { option_map (λ r. r.now.at) result
        ≡ find (is_within area) (keys_of (as_map replacements.now)) }
    ensures value { IfSome result (λ r. replaced replacements.now r.now.at ≡ Some r.now.value) }
{
    for replacement in replacements {
        if area.last() < replacement.at {
            return None;
        }
        if area.contains(replacement.at) {
            return Some(replacement);
        }
    }
    None
}

/// The earlier of two cells, where there are two, with what stands there: where both are one cell, it is replaced.
fn earlier<'a>(
    occupied: &Option<(Address, &'a Content)>,
    replaced: Option<&'a Replacement>,
) -> Option<(Address, ContentRef<'a>)>
    ensures { option_map (λ x. (x.0, as_content x.1)) result
        ≡ earlier (option_map (λ x. (x.0, x.1.now)) occupied.now) (option_copied replaced.entry) }
{
    match (occupied, replaced) {
        (Some((at, content)), Some(replacement)) => {
            if *at < replacement.at {
                Some((*at, content_ref(content)))
            } else {
                Some((replacement.at, constant(&replacement.value)))
            }
        }
        (Some((at, content)), None) => Some((*at, content_ref(content))),
        (None, Some(replacement)) => Some((replacement.at, constant(&replacement.value))),
        (None, None) => None,
    }
}
