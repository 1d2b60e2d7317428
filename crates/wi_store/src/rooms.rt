//! Rooms for contents, and those that an edit brings.

ghost use Rattle.std.specs.Prelude.{◌≡◌, map, IfOk};
ghost use Rattle.wi_store.specs.Store.{change_without_empty};

use crate::room::Room;
use std::alloc::{AllocError, Global};
use wi_parser::NewContent;
use wi_tiles::CellMap;
use wi_values::Address;

/// The rooms by their cells.
pub(crate) type Rooms = CellMap<Room>;

/// A cell, and the room that it gets, vacant where it gets no content.
pub(crate) type NewRoom = (Address, Room);

/// The room that a change brings, by its content, which it takes; the constant Empty is no content.
pub(crate) fn room_for(alloc: Global, change: &mut NewContent) -> Result<NewRoom, AllocError>
    ensures { IfOk result (λ made. made ≡ change_without_empty change.old) }
{
    Ok((change.0, Room::new(alloc, change.1.take())?))
}

/// The rooms that some changes bring, in their order, by their contents, which it takes; the constant Empty is no
/// content.
pub(crate) fn prepare(alloc: Global, changes: &mut [NewContent]) -> Result<Vec<NewRoom>, AllocError>
    ensures { IfOk result (λ made. made.items ≡ map change_without_empty changes.old) }
{
    let mut made = Vec::with_capacity(alloc, changes.len())?;
    for change in changes.iter_mut() {
        made.push(room_for(alloc, change)?)?;
    }
    Ok(made)
}
