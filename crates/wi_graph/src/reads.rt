//! What the cells of a cone read once an edit is in.

ghost use Rattle.std.specs.Prelude.{◌≡◌, ℕ, true, IfOk};
ghost use Rattle.std.specs.Ordering.{nat_cmp};
ghost use Rattle.std.specs.BTreeMap.{get};
ghost use Rattle.wi_values.specs.Address.{is_one_of};
ghost use Rattle.wi_graph.specs.Inner.Rooms.{room_at, room_over, areas_of, items_of, AreInOrder};
ghost use Rattle.wi_graph.specs.Inner.Stripping.{items_there};

use crate::rooms::{Brought, Rectangles, Rooms, rectangles_in};
use crate::stripping::ReadsByCell;
use std::alloc::{AllocError, Global};
use std::collections::BTreeMap;
use wi_values::{Address, Rect};

/// What some cells read once what is next is put in.
pub(crate) fn reads_of(
    alloc: Global,
    rooms: &Rooms,
    next: &[Brought],
    cells: &[Address],
) -> Result<ReadsByCell, AllocError>
    requires { AreInOrder next.now }
    ensures { IfOk result (λ reads. (c : ℕ) → is_one_of cells.now c ≡ true
        → items_there (get nat_cmp reads c) ≡ areas_of (room_over next.now rooms.now c)) }
{
    let mut reads = reads_before(alloc, rooms, cells)?;
    for entry in next {
        let areas = copy_of(alloc, &entry.1)?;
        reads.insert(entry.0, areas)?;
    }
    Ok(reads)
}

/// What some cells read before that.
fn reads_before(alloc: Global, rooms: &Rooms, cells: &[Address]) -> Result<ReadsByCell, AllocError>
    ensures { IfOk result (λ reads. (c : ℕ) → is_one_of cells.now c ≡ true
        → items_there (get nat_cmp reads c) ≡ areas_of (room_at rooms.now c)) }
{
    let mut reads = BTreeMap::new(alloc);
    for cell in cells {
        let areas = areas_before(alloc, rooms, *cell)?;
        reads.insert(*cell, areas)?;
    }
    Ok(reads)
}

/// What a cell reads before that.
fn areas_before(alloc: Global, rooms: &Rooms, cell: Address) -> Result<Vec<Rect>, AllocError>
    ensures { IfOk result (λ v. v.items ≡ areas_of (room_at rooms.now cell)) }
{
    match rooms.get(cell) {
        Some(room) => copy_of(alloc, room),
        None => Ok(Vec::new(alloc)),
    }
}

/// The rectangles of a room once more.
fn copy_of(alloc: Global, room: &Option<Rectangles>) -> Result<Vec<Rect>, AllocError>
    ensures { IfOk result (λ v. v.items ≡ areas_of (items_of room.now)) }
{
    rectangles_in(room).iter().copied().collect(alloc)
}
