//! The command `as`: makes a session current.

ghost use Rattle.std.specs.Prelude.{◌≡◌, ◌<◌, ◌∷◌, ◌++◌, ℕ, List, [], length, IfOk, OnOk, OnErr};
ghost use Rattle.wi_values.specs.Address.{is_one_of};
ghost use Rattle.wi_sessions.specs.Sessions.{new_session, max_sessions};
ghost use Rattle.wi_sessions.specs.Roster.{SameCells};
ghost use Rattle.wi_scenarios.specs.State.{state_over};
ghost use Rattle.wi_scenarios.specs.Pending.{HasNewSession, occupied_cells};
ghost use Rattle.wi_scenarios.specs.Inner.Calls.{IsAs};
ghost use Rattle.wi_scenarios.specs.Inner.Sound.{book_by, state_of, pending_in, IsClosed, IsSound};

use crate::desk::Desk;
use crate::refusal::Refusal;
use std::alloc::{AllocError, Global};
use wi_edit_log::EditLog;
use wi_propagate::{Calculator, occupied_in};
use wi_scenario_list::Scenarios;
use wi_sessions::{MAX_SESSIONS, Sessions};
use wi_values::{Address, COLUMNS, ROWS, Rect};

/// Makes a session current, a new one if need be. Takes no memory where the session is there. For a new one the work
/// grows with the occupied cells.
pub(crate) fn session<C: Calculator>(
    alloc: Global,
    calculator: &C,
    desk: &mut Desk,
    name: &str,
) -> Result<(), Refusal>
    requires { IsSound C.marked (C.stored calculator.now) desk.old }
    ensures current { let book = book_by C.stored C.evaluated C.restarted calculator.now in
        IsAs name.now result (book desk.old) (book desk.new) }
    ensures sound { IsSound C.marked (C.stored calculator.now) desk.new }
{
    if let Some(place) = desk.sessions.find(name) {
        desk.current = place;
        return Ok(());
    }
    if desk.sessions.len() >= MAX_SESSIONS {
        return Err(Refusal::TooMany);
    }
    add(alloc, calculator, desk, name)?;
    Ok(())
}

/// Adds a session and makes it current. On an error all is as before.
fn add<C: Calculator>(
    alloc: Global,
    calculator: &C,
    desk: &mut Desk,
    name: &str,
) -> Result<(), AllocError>
    requires sound { IsSound C.marked (C.stored calculator.now) desk.old }
    requires few { length desk.old.sessions.sessions < max_sessions }
    ensures state { let old = state_of (C.stored calculator.now) desk.old in
        OnOk result (state_of (C.stored calculator.now) desk.new
        ≡ record old {
          sessions = old.sessions ++ new_session name.now ∷ [];
          current = length old.sessions;
        }) }
    ensures kept { OnErr result (desk.new ≡ desk.old) }
    ensures made { OnOk result (HasNewSession (C.stored calculator.now).sheet
        (pending_in desk.old) (pending_in desk.new)) }
    ensures sound { IsSound C.marked (C.stored calculator.now) desk.new }
{
    let cells = occupied(alloc, calculator)?;
    let place = desk.sessions.len();
    desk.sessions.push(name, &cells)?;
    desk.current = place;
    Ok(())
}

/// The occupied cells of the sheet, among which is each that one of them marks.
fn occupied<C: Calculator>(alloc: Global, calculator: &C) -> Result<Vec<Address>, AllocError>
    ensures cells { IfOk result (λ cells.
        cells.items ≡ occupied_cells (C.stored calculator.now).sheet) }
    ensures closed { let sheet = (C.stored calculator.now).sheet in
        IsClosed C.marked sheet (is_one_of (occupied_cells sheet)) }
{
    calculator.cells_lie_in_the_sheet();
    let first = Address::at(0, 0);
    let last = Address::at(ROWS - 1, COLUMNS - 1);
    occupied_in(alloc, calculator, Rect::new(first, last))
}

/// What stands beside a sheet in a new workbook: the one session `main`, for which the occupied cells are pending. The
/// work grows with them.
pub(crate) fn new_desk<C: Calculator>(alloc: Global, calculator: &C) -> Result<Desk, AllocError>
    ensures state { let stored = C.stored calculator.now in
        IfOk result (λ desk. state_of stored desk ≡ state_over stored) }
    ensures pending { let sheet = (C.stored calculator.now).sheet in
        IfOk result (λ desk. (cells : List ℕ)
        × (pending_in desk ≡ cells ∷ []) × SameCells cells (occupied_cells sheet)) }
    ensures sound { IfOk result (λ desk. IsSound C.marked (C.stored calculator.now) desk) }
{
    let cells = occupied(alloc, calculator)?;
    let sessions = Sessions::new(alloc, "main", &cells)?;
    sessions.each_has_pending_cells();
    Ok(Desk {
        scenarios: Scenarios::new(alloc),
        sessions,
        current: 0,
        log: EditLog::new(alloc),
    })
}
