//! What an edit brings, by its cells.

ghost use Rattle.std.specs.Prelude.{◌≡◌, ◌↔◌, ◌==◌, ◌∷◌, ℕ, [], if◌then◌else◌, IsTrue, IfOk, OnOk};
ghost use Rattle.wi_graph.specs.Edges.{areas_in};
ghost use Rattle.wi_graph.specs.Inner.Rooms.{items_of, room_at, room_over, AreInOrder, HasNoIdle};
ghost use Rattle.wi_graph.specs.Inner.Changes.{Brings};

use crate::rooms::{Coming, Rectangles, Rooms};
use std::alloc::{AllocError, Global};
use std::collections::BTreeMap;
use wi_parser::{Content, NewContent};
use wi_values::Address;

/// What an edit brings, by its cells.
type Sorted = BTreeMap<Address, Option<Rectangles>>;

/// What an edit brings beside what stands in the rooms; of two for one cell the later counts. A cell that goes on
/// reading what it reads isn't named. The work grows with what the edited cells are to read, and their count times its
/// logarithm.
pub(crate) fn rooms_of(
    alloc: Global,
    rooms: &Rooms,
    changes: &[NewContent],
) -> Result<Coming, AllocError>
    ensures brings { IfOk result (λ next. Brings rooms.now next.items changes.now) }
    ensures no_idle { IfOk result (λ next. HasNoIdle rooms.now next.items) }
    ensures order { IfOk result (λ next. AreInOrder next.items) }
{
    if changes.len() == 1 {
        let change = &changes[0];
        return room_of(alloc, rooms, change.0, &change.1);
    }
    let next = sorted_rooms(alloc, rooms, changes)?;
    next.into_iter().collect(alloc)
}

/// What an edit of one cell brings beside what stands in the rooms. A cell that goes on reading what it reads isn't
/// named.
fn room_of(
    alloc: Global,
    rooms: &Rooms,
    cell: Address,
    content: &Option<Content>,
) -> Result<Coming, AllocError>
    ensures brings { IfOk result (λ next. Brings rooms.now next.items ((cell, content.now) ∷ [])) }
    ensures no_idle { IfOk result (λ next. HasNoIdle rooms.now next.items) }
    ensures order { IfOk result (λ next. AreInOrder next.items) }
{
    let room = room_for(alloc, content)?;
    if reads_this(rooms, cell, &room) {
        return Ok(Coming::new(alloc));
    }
    Ok(Coming::from_buf(alloc, [(cell, room)]))
}

/// What an edit of more cells, in any order, brings beside what stands in the rooms, by the cells; of two for one cell
/// the later counts. A cell that goes on reading what it reads isn't named.
fn sorted_rooms(alloc: Global, rooms: &Rooms, changes: &[NewContent]) -> Result<Sorted, AllocError>
    ensures brings { IfOk result (λ next. Brings rooms.now next.entries changes.now) }
    ensures no_idle { IfOk result (λ next. HasNoIdle rooms.now next.entries) }
{
    let mut next = BTreeMap::new(alloc);
    for change in changes {
        let room = room_for(alloc, &change.1)?;
        put_next(rooms, &mut next, change.0, room)?;
    }
    Ok(next)
}

/// Puts what a cell is to read into what is next. Where it reads that already, nothing is next for it.
fn put_next(
    rooms: &Rooms,
    next: &mut Sorted,
    cell: Address,
    room: Option<Rectangles>,
) -> Result<(), AllocError>
    ensures puts { OnOk result ((c : ℕ) → room_over next.new.entries rooms.now c
        ≡ (if cell == c then items_of room else room_over next.old.entries rooms.now c)) }
    ensures no_idle { HasNoIdle rooms.now next.old.entries
        → OnOk result (HasNoIdle rooms.now next.new.entries) }
{
    if reads_this(rooms, cell, &room) {
        let _ = next.remove(&cell);
        return Ok(());
    }
    next.insert(cell, room)?;
    Ok(())
}

/// What a content reads.
fn room_for(alloc: Global, content: &Option<Content>) -> Result<Option<Rectangles>, AllocError>
    ensures { IfOk result (λ room. items_of room ≡ areas_in content.now) }
{
    match content {
        Some(Content::Formula(formula)) => {
            let areas = Rectangles::from_slice(alloc, formula.rectangles())?;
            Ok(Some(areas))
        }
        _ => Ok(None),
    }
}

/// Whether these are the rectangles that a cell reads, if it has a formula.
fn reads_this(rooms: &Rooms, cell: Address, room: &Option<Rectangles>) -> bool
    ensures { IsTrue result ↔ (items_of room.now ≡ room_at rooms.now cell) }
{
    match rooms.get(cell) {
        Some(stood) => room == stood,
        None => room.is_none(),
    }
}
