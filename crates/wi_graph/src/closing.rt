//! Whether an edit may close a cycle, or open one: whether what it brings reads a cell of its cone, and whether it
//! meets a circular cell.

ghost use Rattle.std.specs.Prelude.{◌≡◌, ◌||◌, false, IsTrue};
ghost use Rattle.std.specs.List.{list_any};
ghost use Rattle.std.specs.List.Sorted.{IsStrictlyIncreasing};
ghost use Rattle.std.specs.Map.{keys_of};
ghost use Rattle.std.specs.Ordering.{nat_cmp};
ghost use Rattle.std.specs.BTreeSet.{contains};
ghost use Rattle.wi_values.specs.Address.{is_within, is_within_one};
ghost use Rattle.wi_ranges.specs.Inner.Rising.{as_set};
ghost use Rattle.wi_graph.specs.Inner.Bounds.{AreWithin};
ghost use Rattle.wi_graph.specs.Inner.Rooms.{items_of, areas_of};
ghost use Rattle.wi_graph.specs.Inner.Turning.{reads_cell, has_one, reads_one_of, meets_one_of, has_room_in, StandsApart};

use crate::bounds::around;
use crate::cell_set::CellSet;
use crate::rooms::{Brought, Rectangles, Rooms, rectangles_in};
use crate::within::{first_listed, next_within};
use wi_values::{Address, Rect};

/// Whether what is next reads a cell of a cone, which is in row-major order. The work grows with the count of the cone,
/// and is that of `first_listed` for each rectangle that is read; of one cell it is a look at each.
pub(crate) fn closes_cycle(next: &[Brought], cone: &[Address]) -> bool
    requires { IsStrictlyIncreasing cone.now }
    ensures { result ≡ reads_one_of next.now (as_set cone.now) }
{
    if let [cell] = cone {
        return reads_cell(next, *cell);
    }
    let bounds = around(cone);
    next.iter().any(|entry| reads_one(&entry.1, cone, bounds))
}

/// Whether what is next reads a cell.
fn reads_cell(next: &[Brought], cell: Address) -> bool
    ensures { result ≡ reads_cell next.now cell }
{
    next.iter().any(|entry| has_cell(&entry.1, cell))
}

/// Whether the rectangles of a room have a cell.
fn has_cell(room: &Option<Rectangles>, cell: Address) -> bool
    ensures { result ≡ is_within_one (areas_of (items_of room.now)) cell }
{
    rectangles_in(room).iter().any(|area| area.contains(cell))
}

/// Whether the rectangles of a room have one of the cells.
fn reads_one(room: &Option<Rectangles>, cells: &[Address], bounds: Rect) -> bool
    requires order { IsStrictlyIncreasing cells.now }
    requires within { AreWithin bounds (as_set cells.now) }
    ensures { result ≡ list_any (has_one (as_set cells.now)) (areas_of (items_of room.now)) }
{
    rectangles_in(room)
        .iter()
        .any(|area| has_one(*area, cells, bounds))
}

/// Whether a rectangle has one of the cells.
fn has_one(area: Rect, cells: &[Address], bounds: Rect) -> bool
    requires order { IsStrictlyIncreasing cells.now }
    requires within { AreWithin bounds (as_set cells.now) }
    ensures { result ≡ has_one (as_set cells.now) area }
{
    first_listed(cells, bounds, area).is_some()
}

/// Whether what is next is for a circular cell, or reads one. The work for each rectangle that is read grows with the
/// logarithm of the count of circular cells, once and for each of its rows beside which one of them stands; where no
/// cell is circular, it is constant.
#[inline(always)]
pub(crate) fn meets_cyclic(next: &[Brought], cyclic: &CellSet) -> bool
    ensures { result ≡ meets_one_of next.now cyclic.now }
{
    if cyclic.is_empty() {
        return false;
    }
    next.iter().any(|entry| is_met(entry.0, &entry.1, cyclic))
}

/// Whether a cell is circular, or its room reads a circular cell.
fn is_met(cell: Address, room: &Option<Rectangles>, cyclic: &CellSet) -> bool
    ensures { result ≡ (contains nat_cmp cyclic.now cell
        || list_any (has_one cyclic.now) (areas_of (items_of room.now))) }
{
    cyclic.contains(&cell) || reads_cyclic(room, cyclic)
}

/// Whether the rectangles of a room have a circular cell.
fn reads_cyclic(room: &Option<Rectangles>, cyclic: &CellSet) -> bool
    ensures { result ≡ list_any (has_one cyclic.now) (areas_of (items_of room.now)) }
{
    rectangles_in(room)
        .iter()
        .any(|area| has_cyclic(*area, cyclic))
}

/// Whether a rectangle has a circular cell.
fn has_cyclic(area: Rect, cyclic: &CellSet) -> bool
    ensures { result ≡ has_one cyclic.now area }
{
    next_within(cyclic, area, area.first()).is_some()
}

/// Whether what is next is for one cell that isn't circular, and reads neither that cell nor a formula. It takes a
/// search among the rooms for each rectangle that is read.
pub(crate) fn stands_apart(rooms: &Rooms, cyclic: &CellSet, next: &[Brought]) -> bool
    ensures { IsTrue result → StandsApart rooms.now next.now cyclic.now }
{
    if next.len() != 1 {
        return false;
    }
    is_apart(rooms, cyclic, &next[0])
}

/// Whether a cell isn't circular, and is to read neither itself nor a formula. It takes a search among the rooms for
/// each rectangle that is read.
fn is_apart(rooms: &Rooms, cyclic: &CellSet, entry: &Brought) -> bool
    ensures open_cell { IsTrue result → contains nat_cmp cyclic.now entry.now.0 ≡ false }
    ensures reads { IsTrue result
        → list_any (has_room_in rooms.now entry.now.0) (areas_of (items_of entry.now.1)) ≡ false }
{
    if cyclic.contains(&entry.0) {
        return false;
    }
    !reads_room(rooms, entry.0, &entry.1)
}

/// Whether what a cell gets reads the cell, or one that has a room.
fn reads_room(rooms: &Rooms, cell: Address, room: &Option<Rectangles>) -> bool
    ensures { result ≡ list_any (has_room_in rooms.now cell) (areas_of (items_of room.now)) }
{
    rectangles_in(room)
        .iter()
        .any(|area| has_room(rooms, cell, *area))
}

/// Whether a rectangle has a cell, or one that has a room.
fn has_room(rooms: &Rooms, cell: Address, area: Rect) -> bool
    ensures { result ≡ has_room_in rooms.now cell area }
{
    area.contains(cell) || has_rooms(rooms, area)
}

/// Whether a cell of a rectangle has a room.
fn has_rooms(rooms: &Rooms, area: Rect) -> bool
    ensures { result ≡ list_any (is_within area) (keys_of rooms.now.entries) }
{
    rooms.next_in(area, area.first()).is_some()
}
