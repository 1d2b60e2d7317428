//! Rooms for the rectangles that formulas read. An edit first makes its rooms and puts its pairs into the index; to
//! commit it or to cancel it then needs no memory.

ghost use Rattle.std.specs.Prelude.{◌≡◌, ◌==◌, ◌-◌, ℕ, None, false, if◌then◌else◌};
ghost use Rattle.std.specs.Ordering.{nat_cmp};
ghost use Rattle.wi_tiles.specs.Entries.{get, IsOrdered};
ghost use Rattle.wi_ranges.specs.declared.pair.RangePair.{RangePair};
ghost use Rattle.wi_ranges.specs.Bag.{count_of};
ghost use Rattle.wi_graph.specs.Inner.Rooms.{items_of, room_at, room_over, areas_of, times, AreInOrder, HasRooms, HasPairs, HasBoth};

use smallvec::SmallVec;
use wi_ranges::RangeIndex;
use wi_tiles::{CellMap, sweep_one};
use wi_values::{Address, Rect};

/// Rectangles that a formula reads, mostly one.
pub(crate) type Rectangles = SmallVec<Rect, 1>;

/// The rectangles that formulas read, by their cells; a vacant room has no formula.
pub(crate) type Rooms = CellMap<Option<Rectangles>>;

/// A cell, and what an edit brings for it.
pub(crate) type Brought = (Address, Option<Rectangles>);

/// What an edit brings, in row-major order of its cells.
pub(crate) type Coming = SmallVec<Brought, 1>;

/// The rectangles of a room; where there is no formula, none.
pub(crate) fn rectangles_in(room: &Option<Rectangles>) -> &[Rect]
    ensures { result.now ≡ areas_of (items_of room.now) }
{
    match room {
        Some(areas) => areas,
        None => &[],
    }
}

/// Commits what is next: it goes into the rooms, and the pairs of what stood there leave the index.
pub(crate) fn commit_rooms(rooms: &mut Rooms, readers: &mut RangeIndex, next: &mut Coming)
    requires ordered { IsOrdered nat_cmp rooms.old }
    requires order { AreInOrder next.old.items }
    requires has_rooms { HasRooms rooms.old next.old.items }
    requires pairs { HasBoth readers.old rooms.old next.old.items }
    ensures ordered { IsOrdered nat_cmp rooms.new }
    ensures rooms { (c : ℕ) → room_at rooms.new c ≡ room_over next.old.items rooms.old c }
    ensures pairs { HasPairs readers.new rooms.new }
{
    'cells: while let Some(entry) = next.pop() {
        let (cell, coming) = entry;
        let stood = exchange(rooms, cell, coming);
        remove_room(readers, cell, &stood);
    }
}

/// Cancels what is next: its pairs leave the index, and its vacant rooms go.
pub(crate) fn cancel_rooms(rooms: &mut Rooms, readers: &mut RangeIndex, next: &mut Coming)
    requires ordered { IsOrdered nat_cmp rooms.old }
    requires order { AreInOrder next.old.items }
    requires pairs { HasBoth readers.old rooms.old next.old.items }
    ensures ordered { IsOrdered nat_cmp rooms.new }
    ensures rooms { (c : ℕ) → room_at rooms.new c ≡ room_at rooms.old c }
    ensures pairs { HasPairs readers.new rooms.new }
{
    'cells: while let Some(entry) = next.pop() {
        let (cell, room) = entry;
        remove_room(readers, cell, &room);
        sweep_one(rooms, cell);
    }
}

/// Puts rectangles, or none, in the place of what stands in a cell, and gives that. Where none come, the cell is left
/// without a room.
fn exchange(rooms: &mut Rooms, at: Address, room: Option<Rectangles>) -> Option<Rectangles>
    requires ordered { IsOrdered nat_cmp rooms.old }
    requires room { get nat_cmp rooms.old at ≡ None → items_of room ≡ None }
    ensures ordered { IsOrdered nat_cmp rooms.new }
    ensures rooms { (c : ℕ) → room_at rooms.new c
        ≡ (if at == c then items_of room else room_at rooms.old c) }
    ensures others { (c : ℕ) → (at == c) ≡ false
        → get nat_cmp rooms.new c ≡ get nat_cmp rooms.old c }
    ensures stood { items_of result ≡ room_at rooms.old at }
{
    if room.is_none() {
        return take_room(rooms, at);
    }
    rooms.replace(at, room).flatten()
}

/// Takes away the room of a cell, and gives what stood in it.
fn take_room(rooms: &mut Rooms, at: Address) -> Option<Rectangles>
    requires { IsOrdered nat_cmp rooms.old }
    ensures ordered { IsOrdered nat_cmp rooms.new }
    ensures rooms { (c : ℕ) → room_at rooms.new c
        ≡ (if at == c then None else room_at rooms.old c) }
    ensures others { (c : ℕ) → (at == c) ≡ false
        → get nat_cmp rooms.new c ≡ get nat_cmp rooms.old c }
    ensures stood { items_of result ≡ room_at rooms.old at }
{
    rooms.remove(at).flatten()
}

/// Takes the pairs of what stood in a cell out of the index.
pub(crate) fn remove_room(readers: &mut RangeIndex, cell: Address, room: &Option<Rectangles>)
    ensures { (p : RangePair) → count_of readers.new p
        ≡ count_of readers.old p - times cell (areas_of (items_of room.now)) p }
{
    remove_pairs(readers, cell, rectangles_in(room));
}

/// Takes the pairs of some rectangles and a cell out of the index.
pub(crate) fn remove_pairs(readers: &mut RangeIndex, cell: Address, areas: &[Rect])
    ensures { (p : RangePair) → count_of readers.new p
        ≡ count_of readers.old p - times cell areas.now p }
{
    for area in areas {
        readers.remove(*area, cell);
    }
}
