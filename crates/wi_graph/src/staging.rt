//! An edit's rooms and pairs, brought in beside those that stand.

ghost use Rattle.std.specs.Prelude.{◌≡◌, ◌+◌, ℕ, None, OnOk, OnErr};
ghost use Rattle.std.specs.Ordering.{nat_cmp};
ghost use Rattle.wi_tiles.specs.Entries.{get, IsOrdered};
ghost use Rattle.wi_tiles.specs.Rooms.{HasRoomFor};
ghost use Rattle.wi_ranges.specs.declared.pair.RangePair.{RangePair};
ghost use Rattle.wi_ranges.specs.Bag.{count_of};
ghost use Rattle.wi_graph.specs.Inner.Rooms.{items_of, room_at, areas_of, times, AreInOrder, HasRooms, HasPairs, HasBoth};
ghost use Rattle.wi_graph.specs.Inner.Staging.{HasThese};

use crate::rooms::{Brought, Rectangles, Rooms, rectangles_in, remove_pairs, remove_room};
use std::alloc::AllocError;
use wi_ranges::RangeIndex;
use wi_tiles::{make_room, sweep_one};
use wi_values::{Address, Rect};

/// Makes rooms for what is to come, and puts its pairs into the index. If memory runs out, what stands in the rooms and
/// the index is as before.
pub(crate) fn bring_in(
    rooms: &mut Rooms,
    readers: &mut RangeIndex,
    coming: &[Brought],
) -> Result<(), AllocError>
    requires ordered { IsOrdered nat_cmp rooms.old }
    requires order { AreInOrder coming.now }
    requires pairs { HasPairs readers.old rooms.old }
    ensures ordered { IsOrdered nat_cmp rooms.new }
    ensures rooms { (c : ℕ) → room_at rooms.new c ≡ room_at rooms.old c }
    ensures has_rooms { OnOk result (HasRooms rooms.new coming.now) }
    ensures pairs { OnOk result (HasBoth readers.new rooms.new coming.now) }
    ensures err { OnErr result (HasPairs readers.new rooms.new) }
{
    let mut done = 0;
    for entry in coming {
        match bring_one(rooms, readers, entry.0, &entry.1) {
            Ok(()) => done += 1,
            Err(error) => {
                cancel_these(rooms, readers, &coming[..done]);
                return Err(error);
            }
        }
    }
    Ok(())
}

/// Brings in what a cell gets. If memory runs out, it is not in, and no room was made for it.
fn bring_one(
    rooms: &mut Rooms,
    readers: &mut RangeIndex,
    cell: Address,
    room: &Option<Rectangles>,
) -> Result<(), AllocError>
    requires ordered { IsOrdered nat_cmp rooms.old }
    ensures ordered { IsOrdered nat_cmp rooms.new }
    ensures rooms { (c : ℕ) → room_at rooms.new c ≡ room_at rooms.old c }
    ensures room { OnOk result (HasRoomFor None rooms.new.entries (cell, room.now)) }
    ensures stay { OnOk result ((c : ℕ) → get nat_cmp rooms.new c ≡ None
        → get nat_cmp rooms.old c ≡ None) }
    ensures readers { OnOk result ((p : RangePair) → count_of readers.new p
        ≡ count_of readers.old p + times cell (areas_of (items_of room.now)) p) }
    ensures same { OnErr result ((p : RangePair) → count_of readers.new p
        ≡ count_of readers.old p) }
{
    make_room(rooms, cell, room)?;
    match add_room(readers, cell, room) {
        Ok(()) => Ok(()),
        Err(error) => {
            sweep_one(rooms, cell);
            Err(error)
        }
    }
}

/// Takes out again what is in: its pairs leave the index, and its vacant rooms go.
fn cancel_these(rooms: &mut Rooms, readers: &mut RangeIndex, brought: &[Brought])
    requires ordered { IsOrdered nat_cmp rooms.old }
    requires pairs { HasThese readers.old rooms.old brought.now }
    ensures ordered { IsOrdered nat_cmp rooms.new }
    ensures rooms { (c : ℕ) → room_at rooms.new c ≡ room_at rooms.old c }
    ensures pairs { HasPairs readers.new rooms.new }
{
    for entry in brought {
        remove_room(readers, entry.0, &entry.1);
        sweep_one(rooms, entry.0);
    }
}

/// Puts the pairs of what a cell gets into the index. On an error the index has those that it had.
fn add_room(
    readers: &mut RangeIndex,
    cell: Address,
    room: &Option<Rectangles>,
) -> Result<(), AllocError>
    ensures ok { OnOk result ((p : RangePair) → count_of readers.new p
        ≡ count_of readers.old p + times cell (areas_of (items_of room.now)) p) }
    ensures err { OnErr result ((p : RangePair) → count_of readers.new p ≡ count_of readers.old p) }
{
    add_pairs(readers, cell, rectangles_in(room))
}

/// Puts the pairs of some rectangles and a cell into the index. On an error the index has those that it had.
fn add_pairs(readers: &mut RangeIndex, cell: Address, areas: &[Rect]) -> Result<(), AllocError>
    ensures ok { OnOk result ((p : RangePair) → count_of readers.new p
        ≡ count_of readers.old p + times cell areas.now p) }
    ensures err { OnErr result ((p : RangePair) → count_of readers.new p ≡ count_of readers.old p) }
{
    let mut added = 0;
    for area in areas {
        match readers.add(*area, cell) {
            Ok(()) => added += 1,
            Err(_) => {
                remove_pairs(readers, cell, &areas[..added]);
                return Err(AllocError);
            }
        }
    }
    Ok(())
}
