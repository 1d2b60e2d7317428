//! Whether a cell that is to read some rectangles reads itself, at any remove: a search that goes a step at a time.

ghost use Rattle.std.specs.Prelude.{◌≡◌, ◌++◌, ◌∷◌, ℕ, Bool, List, [], true, IsTrue, IfOk, OnOk};
ghost use Rattle.std.specs.Ordering.{nat_cmp};
ghost use Rattle.wi_values.specs.Address.{Area, is_within};
ghost use Rattle.wi_tiles.specs.Entries.{IsOrdered};
ghost use Rattle.wi_graph.specs.Inner.Rooms.{items_of, areas_of, room_at};
ghost use Rattle.wi_graph.specs.Inner.Below.{HasAreas, HasRest, AreFound, IsBelow, IsFinding, IsSearchingBelow, has_visited, is_passed};

use crate::rooms::{Rectangles, Rooms, rectangles_in};
use std::alloc::{AllocError, Global};
use wi_tiles::CellMap;
use wi_values::{Address, Rect};

/// Rectangles that are still to be looked at, each from a cell on.
type Ahead = Vec<(Rect, Address)>;

/// So many steps are taken at most among what a cell reads before an edit of it, whose cells are then passed over.
const FEW_STEPS: usize = 16;

/// How far a search among what a cell is to read has come.
#[derive(Drop)]
pub(crate) struct Below {
    // The cells with a formula that were found.
    pub(crate) visited: CellMap<()>,
    pub(crate) ahead: Ahead,
    // Whether the cell wasn't met. Once it was, the search is over.
    pub(crate) clear: bool,
}

/// A search that begins at the rectangles of a room, for a cell that doesn't read itself now, at any remove. It passes
/// over the cells that a few steps find among what the cell reads now.
pub(crate) fn begin_below(
    alloc: Global,
    rooms: &Rooms,
    cell: Address,
    room: &Option<Rectangles>,
) -> Result<Below, AllocError>
    requires { IsOrdered nat_cmp rooms.now }
    ensures { IfOk result (λ below. (known : ℕ → Bool)
        → IsSearchingBelow rooms.now cell (areas_of (room_at rooms.now cell)) known []
        → IsBelow rooms.now cell (areas_of (items_of room.now)) known below) }
{
    let visited = read_now(alloc, rooms, cell)?;
    let mut ahead = Vec::new(alloc);
    let clear = push_room(room, cell, &mut ahead)?;
    Ok(Below {
        visited,
        ahead,
        clear,
    })
}

/// Cells that a few steps find among what a cell reads now, at any remove.
fn read_now(alloc: Global, rooms: &Rooms, cell: Address) -> Result<CellMap<()>, AllocError>
    requires { IsOrdered nat_cmp rooms.now }
    ensures { IfOk result (λ visited. (known : ℕ → Bool)
        → IsSearchingBelow rooms.now cell (areas_of (room_at rooms.now cell)) known []
        → AreFound rooms.now cell known (has_visited visited) []) }
{
    match rooms.get(cell) {
        Some(_) => few_read_now(alloc, rooms, cell),
        None => Ok(CellMap::new(alloc)),
    }
}

/// The cells that a few steps find among what a cell reads now, at any remove. None where they meet the cell.
fn few_read_now(alloc: Global, rooms: &Rooms, cell: Address) -> Result<CellMap<()>, AllocError>
    requires { IsOrdered nat_cmp rooms.now }
    ensures { IfOk result (λ visited. (known : ℕ → Bool)
        → IsSearchingBelow rooms.now cell (areas_of (room_at rooms.now cell)) known []
        → AreFound rooms.now cell known (has_visited visited) []) }
{
    let mut below = begin_now(alloc, rooms, cell)?;
    go_below(rooms, cell, FEW_STEPS, &mut below)?;
    if below.clear {
        return Ok(below.visited);
    }
    Ok(CellMap::new(alloc))
}

/// A search that begins at the rectangles that a cell reads now.
fn begin_now(alloc: Global, rooms: &Rooms, cell: Address) -> Result<Below, AllocError>
    ensures { IfOk result (λ below. (known : ℕ → Bool)
        → IsSearchingBelow rooms.now cell (areas_of (room_at rooms.now cell)) known []
        → IsFinding rooms.now cell known below) }
{
    let visited = CellMap::new(alloc);
    let mut ahead = Vec::new(alloc);
    let clear = push_read(rooms, cell, cell, &mut ahead)?;
    Ok(Below {
        visited,
        ahead,
        clear,
    })
}

/// Whether all was looked at, and the cell wasn't met.
pub(crate) fn is_clear(below: &Below) -> bool
    ensures clear { IsTrue result → below.now.clear ≡ true }
    ensures done { IsTrue result → below.now.ahead.items ≡ [] }
{
    if !below.clear {
        return false;
    }
    below.ahead.is_empty()
}

/// Goes on by so many steps at most. The work of a step is that of a search among the rooms, and grows with the
/// rectangles of a formula that is found.
pub(crate) fn go_below(
    rooms: &Rooms,
    cell: Address,
    steps: usize,
    below: &mut Below,
) -> Result<(), AllocError>
    requires { IsOrdered nat_cmp rooms.now }
    ensures below { OnOk result ((areas : List Area) (known : ℕ → Bool)
        → IsBelow rooms.now cell areas known below.old
        → IsBelow rooms.now cell areas known below.new) }
    ensures finding { OnOk result ((known : ℕ → Bool)
        → IsSearchingBelow rooms.now cell (areas_of (room_at rooms.now cell)) known []
        → IsFinding rooms.now cell known below.old
        → IsFinding rooms.now cell known below.new) }
{
    for _ in 0..steps {
        step_below(rooms, cell, below)?;
    }
    Ok(())
}

/// Goes on by a step, if one is left.
fn step_below(rooms: &Rooms, cell: Address, below: &mut Below) -> Result<(), AllocError>
    requires { IsOrdered nat_cmp rooms.now }
    ensures below { OnOk result ((areas : List Area) (known : ℕ → Bool)
        → IsBelow rooms.now cell areas known below.old
        → IsBelow rooms.now cell areas known below.new) }
    ensures finding { OnOk result ((known : ℕ → Bool)
        → IsSearchingBelow rooms.now cell (areas_of (room_at rooms.now cell)) known []
        → IsFinding rooms.now cell known below.old
        → IsFinding rooms.now cell known below.new) }
{
    if !below.clear {
        return Ok(());
    }
    let Some(entry) = below.ahead.pop() else {
        return Ok(());
    };
    look(rooms, cell, entry.0, entry.1, below)
}

/// Finds the first cell of a rectangle that has a room, from a cell on.
fn look(
    rooms: &Rooms,
    cell: Address,
    area: Rect,
    from: Address,
    below: &mut Below,
) -> Result<(), AllocError>
    requires { IsOrdered nat_cmp rooms.now }
    ensures below { OnOk result ((areas : List Area) (known : ℕ → Bool)
        → IsSearchingBelow rooms.now cell areas (is_passed below.old.visited known)
        (below.old.ahead.items ++ (area, from) ∷ [])
        → IsBelow rooms.now cell areas known below.new) }
    ensures finding { OnOk result ((known : ℕ → Bool)
        → IsSearchingBelow rooms.now cell (areas_of (room_at rooms.now cell)) known []
        → AreFound rooms.now cell known (has_visited below.old.visited)
        (below.old.ahead.items ++ (area, from) ∷ [])
        → IsFinding rooms.now cell known below.new) }
{
    let Some(read) = rooms.next_in(area, from) else {
        return Ok(());
    };
    go_on(area, read, &mut below.ahead)?;
    if below.visited.put_new(read, ())? {
        below.clear = push_read(rooms, read, cell, &mut below.ahead)?;
    }
    Ok(())
}

/// Puts ahead what of a rectangle comes after one of its cells.
fn go_on(area: Rect, read: Address, ahead: &mut Ahead) -> Result<(), AllocError>
    requires { is_within area read ≡ true }
    ensures { OnOk result (HasRest area read ahead.old.items ahead.new.items) }
{
    if let Some(on) = area.cell_after(read) {
        ahead.push((area, on))?;
    }
    Ok(())
}

/// Puts ahead what a cell reads, and answers whether another cell isn't in that.
fn push_read(
    rooms: &Rooms,
    read: Address,
    cell: Address,
    ahead: &mut Ahead,
) -> Result<bool, AllocError>
    ensures { IfOk result (λ clear. IsTrue clear
        → HasAreas cell (areas_of (room_at rooms.now read)) ahead.old.items ahead.new.items) }
{
    match rooms.get(read) {
        Some(room) => push_room(room, cell, ahead),
        None => Ok(true),
    }
}

/// Puts ahead the rectangles of a room, up to one that has a cell, and answers whether none has it.
fn push_room(
    room: &Option<Rectangles>,
    cell: Address,
    ahead: &mut Ahead,
) -> Result<bool, AllocError>
    ensures { IfOk result (λ clear. IsTrue clear
        → HasAreas cell (areas_of (items_of room.now)) ahead.old.items ahead.new.items) }
{
    push_areas(rectangles_in(room), cell, ahead)
}

/// Puts ahead rectangles, each from its first cell on, up to one that has a cell, and answers whether none has it.
fn push_areas(areas: &[Rect], cell: Address, ahead: &mut Ahead) -> Result<bool, AllocError>
    ensures { IfOk result (λ clear. IsTrue clear
        → HasAreas cell areas.now ahead.old.items ahead.new.items) }
{
    for area in areas {
        if area.contains(cell) {
            return Ok(false);
        }
        ahead.push((*area, area.first()))?;
    }
    Ok(true)
}
