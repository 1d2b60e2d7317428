//! Rooms: cells of a map with something, or vacant. An edit first makes a vacant room in each of its cells that gets
//! something and has none. Then it exchanges what is in the rooms, which takes no memory and can be taken back. At the
//! end the vacant rooms go.

ghost use Rattle.std.specs.Prelude.{◌≡◌, ◌≢◌, ◌+◌, ◌⊎◌, ℕ, Some, None, length, IsTrue, OnOk, OnErr, ◌↔◌};
ghost use Rattle.std.specs.Int.{from_bool};
ghost use Rattle.std.specs.Map.{keys_of};
ghost use Rattle.wi_tiles.specs.Rooms.{room_of, RoomsAreInOrder, taken, held_at, HoldsTheSame, HasRoomFor, AreBetweenEdits, AreInEdit, AreReadyFor, with_one, with_all, stood, with_all_back};

use crate::cell_map::CellMap;
use crate::vacant::MayBeVacant;
use std::alloc::AllocError;
use std::mem;
use wi_values::Address;

/// Makes a vacant room in a cell that gets something and has none. One search; none for a cell that gets nothing.
pub fn make_room<V: MayBeVacant + Drop>(
    rooms: &mut CellMap<V>,
    at: Address,
    new: &V,
) -> Result<(), AllocError>
    ensures same { HoldsTheSame V.vacant rooms.old.entries rooms.new.entries }
    ensures order { RoomsAreInOrder rooms.old.entries → RoomsAreInOrder rooms.new.entries }
    ensures vacant { (c : ℕ) → room_of rooms.new.entries c ≡ Some V.vacant
        → (c ≡ at) ⊎ (room_of rooms.old.entries c ≡ Some V.vacant) }
    ensures kept { (c : ℕ) → room_of rooms.new.entries c ≡ None
        → room_of rooms.old.entries c ≡ None }
    ensures room { OnOk result (HasRoomFor V.vacant rooms.new.entries (at, new.now)) }
{
    if new.is_taken() {
        let _ = rooms.put_new(at, V::vacant())?;
    }
    Ok(())
}

/// Makes a vacant room in each cell that gets something and has none. One search for each cell that gets something. If
/// memory runs out, the rooms made so far stay.
pub fn make_rooms<V: MayBeVacant + Drop>(
    rooms: &mut CellMap<V>,
    changes: &[(Address, V)],
) -> Result<(), AllocError>
    requires { AreBetweenEdits V.vacant rooms.old.entries }
    ensures same { HoldsTheSame V.vacant rooms.old.entries rooms.new.entries }
    ensures occupied { length (taken V.is_taken rooms.new.entries) ≡ length rooms.old.entries }
    ensures ready { OnOk result (AreReadyFor V.vacant changes.now rooms.new.entries) }
    ensures edit { OnErr result (AreInEdit V.vacant (keys_of changes.now) rooms.new.entries) }
{
    for (at, new) in changes {
        make_room(rooms, *at, new)?;
    }
    Ok(())
}

/// Exchanges what a cell's room has, or gives nothing up where the cell has no room. One search.
#[inline(always)]
fn exchange<V: MayBeVacant + Drop>(rooms: &mut CellMap<V>, at: Address, new: &mut V)
    requires { HasRoomFor V.vacant rooms.old.entries (at, new.old) }
    ensures after { (c : ℕ) → held_at V.vacant rooms.new.entries c
        ≡ with_one (held_at V.vacant rooms.old.entries) (at, new.old) c }
    ensures stood { new.new ≡ held_at V.vacant rooms.old.entries at }
    ensures occupied { length (taken V.is_taken rooms.new.entries)
        + from_bool (V.is_taken new.new)
        ≡ length (taken V.is_taken rooms.old.entries)
        + from_bool (V.is_taken new.old) }
    ensures cells { keys_of rooms.new.entries ≡ keys_of rooms.old.entries }
    ensures others { (c : ℕ) → c ≢ at → room_of rooms.new.entries c ≡ room_of rooms.old.entries c }
{
    let given = mem::replace(new, V::vacant());
    if let Some(stood) = rooms.replace(at, given) {
        // Nothing was there meanwhile, so there is nothing to drop.
        mem::forget(mem::replace(new, stood));
    }
}

/// Exchanges what the rooms have with what the changes bring, one after another. Answers how many cells have something
/// then; `occupied` is how many had before. Takes no memory. One search for each change.
pub fn exchange_all<V: MayBeVacant + Drop>(
    rooms: &mut CellMap<V>,
    changes: &mut [(Address, V)],
    mut occupied: u64,
) -> u64
    requires ready { AreReadyFor V.vacant changes.old rooms.old.entries }
    requires occupied { occupied ≡ length (taken V.is_taken rooms.old.entries) }
    ensures after { (c : ℕ) → held_at V.vacant rooms.new.entries c
        ≡ with_all (held_at V.vacant rooms.old.entries) changes.old c }
    ensures stood { changes.new ≡ stood (held_at V.vacant rooms.old.entries) changes.old }
    ensures occupied { result ≡ length (taken V.is_taken rooms.new.entries) }
    ensures ready { AreReadyFor V.vacant changes.new rooms.new.entries }
{
    let _ = rooms.len();
    for change in changes.iter_mut() {
        occupied += u64::from(change.1.is_taken());
        exchange(rooms, change.0, &mut change.1);
        occupied -= u64::from(change.1.is_taken());
    }
    occupied
}

/// Exchanges the same, the last first: what `exchange_all` did is taken back. Takes no memory. One search for each
/// change.
pub fn exchange_back<V: MayBeVacant + Drop>(rooms: &mut CellMap<V>, changes: &mut [(Address, V)])
    requires { AreReadyFor V.vacant changes.old rooms.old.entries }
    ensures after { (c : ℕ) → held_at V.vacant rooms.new.entries c
        ≡ with_all_back (held_at V.vacant rooms.old.entries) changes.old c }
    ensures ready { AreReadyFor V.vacant changes.new rooms.new.entries }
{
    for i in (0..changes.len()).rev() {
        let change = &mut changes[i];
        exchange(rooms, change.0, &mut change.1);
    }
}

/// Whether a cell has a vacant room.
fn has_vacant<V: MayBeVacant + Drop>(rooms: &CellMap<V>, at: Address) -> bool
    ensures { IsTrue result ↔ (room_of rooms.now.entries at ≡ Some V.vacant) }
{
    match rooms.get(at) {
        Some(room) => !room.is_taken(),
        None => false,
    }
}

/// Takes away the room of a cell if it is vacant. One search, and one more for a room that goes.
pub fn sweep_one<V: MayBeVacant + Drop>(rooms: &mut CellMap<V>, at: Address)
    requires { RoomsAreInOrder rooms.old.entries }
    ensures same { HoldsTheSame V.vacant rooms.old.entries rooms.new.entries }
    ensures order { RoomsAreInOrder rooms.new.entries }
    ensures swept { room_of rooms.new.entries at ≢ Some V.vacant }
    ensures vacant { (c : ℕ) → room_of rooms.new.entries c ≡ Some V.vacant
        → room_of rooms.old.entries c ≡ Some V.vacant }
{
    if has_vacant(rooms, at) {
        let _ = rooms.remove(at);
    }
}

/// Takes away the vacant rooms. One search for each change, and one more for each room that goes.
fn sweep_each<V: MayBeVacant + Drop>(rooms: &mut CellMap<V>, changes: &[(Address, V)])
    requires { AreInEdit V.vacant (keys_of changes.now) rooms.old.entries }
    ensures same { HoldsTheSame V.vacant rooms.old.entries rooms.new.entries }
    ensures between { AreBetweenEdits V.vacant rooms.new.entries }
{
    for (at, _) in changes {
        sweep_one(rooms, *at);
    }
}

/// Takes away the vacant rooms; `occupied` is how many cells have something. No search where no room is vacant; or else
/// one for each change, and one more for each room that goes.
pub fn sweep<V: MayBeVacant + Drop>(rooms: &mut CellMap<V>, changes: &[(Address, V)], occupied: u64)
    requires edit { AreInEdit V.vacant (keys_of changes.now) rooms.old.entries }
    requires occupied { occupied ≡ length (taken V.is_taken rooms.old.entries) }
    ensures same { HoldsTheSame V.vacant rooms.old.entries rooms.new.entries }
    ensures between { AreBetweenEdits V.vacant rooms.new.entries }
{
    if occupied < rooms.len() as u64 {
        sweep_each(rooms, changes);
    }
}
