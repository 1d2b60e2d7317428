//! Edits apart from watched cells.

ghost use Rattle.std.specs.Prelude.{All, IsTrue};
ghost use Rattle.wi_graph.specs.Inner.Apart.{HasNone, HaveNone, IsApart};
ghost use Rattle.wi_graph.specs.Inner.Rooms.{areas_of, room_at};

use crate::rooms::{Brought, Rooms, rectangles_in};
use crate::watch::Watch;
use wi_values::{Address, Rect};

/// So many cells a rectangle has at most that is looked through for watched ones.
const FEW: u64 = 32;

/// Whether no cell that an edit names reads a watched one, before or after, where none reads a rectangle of more than
/// 32 cells. The work grows with the cells of the rectangles.
pub(crate) fn are_apart<W: Watch>(rooms: &Rooms, next: &[Brought], watch: &W) -> bool
    ensures { IsTrue result → All (IsApart (W.watched watch.now) rooms.now) next.now }
{
    for entry in next {
        if !is_entry_apart(rooms, entry, watch) {
            return false;
        }
    }
    true
}

/// Whether a cell reads no watched one, before or after.
fn is_entry_apart<W: Watch>(rooms: &Rooms, entry: &Brought, watch: &W) -> bool
    ensures { IsTrue result → IsApart (W.watched watch.now) rooms.now entry.now }
{
    have_none(rectangles_in(&entry.1), watch) && stood_apart(rooms, entry.0, watch)
}

/// Whether a cell reads no watched one as it stands.
fn stood_apart<W: Watch>(rooms: &Rooms, cell: Address, watch: &W) -> bool
    ensures { IsTrue result → HaveNone (W.watched watch.now) (areas_of (room_at rooms.now cell)) }
{
    match rooms.get(cell) {
        Some(room) => have_none(rectangles_in(room), watch),
        None => true,
    }
}

/// Whether no cell of some rectangles is watched, where each has few.
fn have_none<W: Watch>(areas: &[Rect], watch: &W) -> bool
    ensures { IsTrue result → HaveNone (W.watched watch.now) areas.now }
{
    for area in areas {
        if !has_none(*area, watch) {
            return false;
        }
    }
    true
}

/// Whether a rectangle has few cells, and none of them is watched.
fn has_none<W: Watch>(area: Rect, watch: &W) -> bool
    ensures { IsTrue result → HasNone (W.watched watch.now) area }
{
    if area.size() > FEW {
        return false;
    }
    // Both are above 0, so the first cell isn't behind the last.
    let _ = area.height();
    let _ = area.width();
    let mut ahead = Some(area.first());
    while let Some(at) = ahead {
        if watch.has(at) {
            return false;
        }
        ahead = area.cell_after(at);
    }
    true
}
