//! Whether an edit closes a cycle, asked from both sides: among the dependents of the edited cell, and among what it is
//! to read.

ghost use Rattle.std.specs.Prelude.{◌≡◌, false, IsTrue, IfSome, IfNone, IfOk, length};
ghost use Rattle.std.specs.Map.{keys_of};
ghost use Rattle.std.specs.Ordering.{nat_cmp};
ghost use Rattle.wi_tiles.specs.Entries.{IsOrdered};
ghost use Rattle.wi_graph.specs.Inner.Rooms.{IsGraph, items_of, areas_of, room_at};
ghost use Rattle.wi_graph.specs.Inner.Search.{IsConeOf, IsConeSet};
ghost use Rattle.wi_graph.specs.Inner.Turning.{meets_one_of};
ghost use Rattle.wi_graph.specs.Inner.Below.{ReachesNot, ReadsApart};

use crate::below::{begin_below, go_below, is_clear};
use crate::cell_set::CellSet;
use crate::cells::edited_cells;
use crate::closing::meets_cyclic;
use crate::cone::{enqueue, listed_cone};
use crate::edit::GraphEdit;
use crate::rooms::{Brought, Rooms};
use std::alloc::{AllocError, Global};
use wi_ranges::{RangeIndex, RisingSet};
use wi_values::Address;

/// The cone of an edit; none where one cell gets something and isn't circular, and what it is to read, at any remove,
/// isn't circular and isn't the cell. For such an edit two searches go side by side, among what depends on the cell and
/// among what it is to read at any remove, and the work grows with the shorter one, beside that of listing the readers
/// of a cell. The second passes over cells that a few steps find among what the cell reads before the edit.
pub(crate) fn cone_unless_apart(
    alloc: Global,
    edit: &GraphEdit<'_>,
) -> Result<Option<Vec<Address>>, AllocError>
    requires { IsGraph edit.now.rooms.now edit.now.readers.now edit.now.cyclic.now }
    ensures cone { IfOk result (λ o. IfSome o
        (λ cone. IsConeOf edit.now.readers.now (keys_of edit.now.changes.now) cone.items)) }
    ensures apart { IfOk result (λ o. IfNone o
        (ReadsApart edit.now.rooms.now edit.now.next.now edit.now.cyclic.now)) }
{
    let cells = edited_cells(alloc, edit.changes)?;
    listed_unless_apart(alloc, edit, &cells)
}

/// What `cone_unless_apart` gives, at its cost, where the edited cells are listed.
fn listed_unless_apart(
    alloc: Global,
    edit: &GraphEdit<'_>,
    cells: &[Address],
) -> Result<Option<Vec<Address>>, AllocError>
    requires { IsGraph edit.now.rooms.now edit.now.readers.now edit.now.cyclic.now }
    ensures cone { IfOk result (λ o. IfSome o
        (λ cone. IsConeOf edit.now.readers.now cells.now cone.items)) }
    ensures apart { IfOk result (λ o. IfNone o
        (ReadsApart edit.now.rooms.now edit.now.next.now edit.now.cyclic.now)) }
{
    if !is_for_open_cell(edit.cyclic, edit.next) {
        let own = listed_cone(alloc, edit.readers, cells)?;
        return Ok(Some(own));
    }
    match both_sides(alloc, edit.rooms, edit.readers, cells, &edit.next[0])? {
        Some(found) => {
            let cone = found.into_list()?;
            Ok(Some(cone))
        }
        None => Ok(None),
    }
}

/// Whether what is next is for one cell, and meets no circular cell.
fn is_for_open_cell(cyclic: &CellSet, next: &[Brought]) -> bool
    ensures one { IsTrue result → length next.now ≡ 1 }
    ensures unmet { IsTrue result → meets_one_of next.now cyclic.now ≡ false }
{
    if next.len() != 1 {
        return false;
    }
    !meets_cyclic(next, cyclic)
}

/// The cells that read one of these, at any remove, with themselves; none where what one cell is to read, at any
/// remove, isn't the cell. With each cell found as many steps go the other way as there are readers of it.
fn both_sides(
    alloc: Global,
    rooms: &Rooms,
    readers: &RangeIndex,
    cells: &[Address],
    entry: &Brought,
) -> Result<Option<RisingSet>, AllocError>
    requires order { IsOrdered nat_cmp rooms.now }
    requires open_now { ReachesNot rooms.now entry.now.0
        (areas_of (room_at rooms.now entry.now.0)) }
    ensures cone { IfOk result (λ o. IfSome o (λ found. IsConeSet readers.now cells.now found)) }
    ensures apart { IfOk result (λ o.
        IfNone o (ReachesNot rooms.now entry.now.0 (areas_of (items_of entry.now.1)))) }
{
    let mut found = RisingSet::new(alloc);
    let mut work = Vec::new(alloc);
    enqueue(cells, &mut found, &mut work)?;
    let mut below = begin_below(alloc, rooms, entry.0, &entry.1)?;
    let mut steps = 1;
    'cells: while let Some(cell) = work.pop() {
        go_below(rooms, entry.0, steps, &mut below)?;
        if is_clear(&below) {
            return Ok(None);
        }
        let next = readers.readers_of(cell)?;
        enqueue(&next, &mut found, &mut work)?;
        steps = next.len().max(1);
    }
    Ok(Some(found))
}
