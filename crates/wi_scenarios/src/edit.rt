//! One edit of the sheet, by whichever command.

ghost use Rattle.std.specs.Prelude.{◌≡◌, ◌<◌, ◌≤◌, ℕ, [], ◌∷◌, length, IfOk, OnOk};
ghost use Rattle.wi_store.specs.Store.{applied};
ghost use Rattle.wi_sessions.specs.Roster.{vacant_of, is_pending_for_all};
ghost use Rattle.wi_sessions.specs.Sessions.{max_sessions};
ghost use Rattle.wi_scenarios.specs.Inner.Calls.{IsMade};
ghost use Rattle.wi_scenarios.specs.Inner.Sound.{book_by, IsClosed, IsSound};
ghost use Rattle.wi_scenarios.specs.Inner.Editing.{stale_on, AreMarked, HasRooms, SameBeside, Commits};

use crate::desk::Desk;
use crate::refusal::Refusal;
use std::alloc::{AllocError, Global};
use wi_edit_log::{EditLog, Named};
use wi_parser::NewContent;
use wi_propagate::{Calculator, Cells, Watch, edited_cells};
use wi_sessions::Sessions;
use wi_values::{Address, Rect};

/// Edits the sheet, where each of some cells gets a content or none, and notes in the log which rectangles the edit
/// names; the cells that may show something else then are pending for all sessions. The contents are taken out of their
/// list. An edit that isn't forced is refused as `Stale` where it names a cell that another session has edited since
/// the current one was last shown what has changed. The work grows with the edits that the log hasn't noted, up to the
/// last one of another session, with those of others that the current session hasn't seen yet, and with the rectangles
/// that these name; with the edited cells, what they read and who reads them; with those that depend on the edited ones
/// and aren't pending for all sessions; where several cells read something new, or a cycle may be closed or opened,
/// with all that depend on them, what these read and who reads them.
pub(crate) fn apply_edit<C: Calculator>(
    alloc: Global,
    calculator: &mut C,
    desk: &mut Desk,
    named: Named,
    contents: &mut [NewContent],
    force: bool,
) -> Result<(), Refusal>
    requires { IsSound C.marked (C.stored calculator.old) desk.old }
    ensures edit { let book = book_by C.stored C.evaluated C.restarted in
        IsMade C.marked force (record { named = named; contents = contents.old })
        result (book calculator.old desk.old) (book calculator.new desk.new) }
    ensures sound { IsSound C.marked (C.stored calculator.new) desk.new }
{
    let session = desk.session();
    desk.log.catch_up(session)?;
    edit_caught_up(alloc, calculator, desk, named, contents, force)
}

/// Does an edit or refuses it, as `apply_edit` does, once the log has noted for the current session who edited which
/// cell, so that it takes one look whether a cell is stale.
fn edit_caught_up<C: Calculator>(
    alloc: Global,
    calculator: &mut C,
    desk: &mut Desk,
    named: Named,
    contents: &mut [NewContent],
    force: bool,
) -> Result<(), Refusal>
    requires { IsSound C.marked (C.stored calculator.old) desk.old }
    ensures edit { let book = book_by C.stored C.evaluated C.restarted in
        IsMade C.marked force (record { named = named; contents = contents.old })
        result (book calculator.old desk.old) (book calculator.new desk.new) }
    ensures sound { IsSound C.marked (C.stored calculator.new) desk.new }
{
    if let Some(at) = first_stale(desk, named.areas(), force) {
        return Err(Refusal::Stale(at));
    }
    let marked = marked_by(alloc, calculator, &desk.sessions, contents)?;
    match edit_with_rooms(calculator, desk, named, contents, &marked) {
        Ok(()) => {
            desk.sessions.commit_all();
            Ok(())
        }
        Err(refusal) => {
            desk.sessions.cancel_all();
            Err(refusal)
        }
    }
}

/// Does an edit that names one rectangle, or refuses it: as `apply_edit` does, and at its cost.
pub(crate) fn edit_area<C: Calculator>(
    alloc: Global,
    calculator: &mut C,
    desk: &mut Desk,
    area: Rect,
    contents: &mut [NewContent],
    force: bool,
) -> Result<(), Refusal>
    requires { IsSound C.marked (C.stored calculator.old) desk.old }
    ensures edit { let book = book_by C.stored C.evaluated C.restarted in
        IsMade C.marked force (record { named = area ∷ []; contents = contents.old })
        result (book calculator.old desk.old) (book calculator.new desk.new) }
    ensures sound { IsSound C.marked (C.stored calculator.new) desk.new }
{
    apply_edit(alloc, calculator, desk, Named::one(area), contents, force)
}

/// The first cell named that is stale for the current session; none for an edit that is forced.
fn first_stale(desk: &Desk, named: &[Rect], force: bool) -> Option<Address>
    requires within { desk.now.current < length desk.now.sessions.sessions }
    requires few { length desk.now.sessions.sessions ≤ max_sessions }
    ensures { result ≡ stale_on desk.now force named.now }
{
    if force {
        return None;
    }
    let seen = desk.sessions.seen(desk.current);
    desk.log.first_stale(desk.session(), seen, named)
}

/// Cells that may show something else once these contents are in. Those that are pending for all sessions already may
/// be left out. Without contents there is none.
fn marked_by<C: Calculator>(
    alloc: Global,
    calculator: &C,
    sessions: &Sessions,
    contents: &[NewContent],
) -> Result<Cells, AllocError>
    requires { IsClosed C.marked (C.stored calculator.now).sheet
        (is_pending_for_all sessions.now) }
    ensures { let sheet = (C.stored calculator.now).sheet in
        IfOk result (λ found. AreMarked C.marked sheet (is_pending_for_all sessions.now)
        contents.now found.items) }
{
    if contents.is_empty() {
        return Ok(Cells::new(alloc));
    }
    let cells = edited_cells(alloc, contents)?;
    calculator.mark_beyond(cells.as_slice(), &PendingForAll { sessions })
}

/// The cells that are pending for all sessions.
#[derive(Drop)]
struct PendingForAll<'a> {
    sessions: &'a Sessions,
}

impl<'a> Watch for PendingForAll<'a> {
    ghost use Rattle.wi_sessions.specs.Roster.{is_pending_for_all};

    ghost watched = { λ w. is_pending_for_all w.sessions.now };

    fn has(&self, at: Address) -> bool {
        self.sessions.all_have(at)
    }
}

/// Makes room for marked cells and edits the sheet. On an error there may be rooms that are vacant still.
fn edit_with_rooms<C: Calculator>(
    calculator: &mut C,
    desk: &mut Desk,
    named: Named,
    contents: &mut [NewContent],
    marked: &[Address],
) -> Result<(), Refusal>
    requires within { desk.old.current < length desk.old.sessions.sessions }
    requires few { length desk.old.sessions.sessions ≤ max_sessions }
    requires full { (i : ℕ) → vacant_of desk.old.sessions i ≡ [] }
    ensures beside { SameBeside desk.old desk.new }
    ensures rooms { OnOk result (HasRooms marked.now desk.new.sessions) }
    ensures edit { Commits (applied (C.stored calculator.old) contents.old)
        (record { session = desk.old.current; areas = named })
        result (C.stored calculator.old) (C.stored calculator.new) desk.old.log desk.new.log }
    ensures counts { (C.evaluated calculator.new ≡ C.evaluated calculator.old)
        × (C.restarted calculator.new ≡ C.restarted calculator.old) }
{
    let session = desk.session();
    make_rooms(&mut desk.sessions, marked)?;
    commit(calculator, &mut desk.log, session, named, contents)
}

/// Makes room for cells in the list of each session for which they aren't pending. On an error a part of the rooms may
/// be there.
fn make_rooms(sessions: &mut Sessions, cells: &[Address]) -> Result<(), AllocError>
    requires { (i : ℕ) → vacant_of sessions.old i ≡ [] }
    ensures sessions { sessions.new.sessions ≡ sessions.old.sessions }
    ensures pending { sessions.new.pending ≡ sessions.old.pending }
    ensures rooms { OnOk result (HasRooms cells.now sessions.new) }
{
    sessions.make_room_all(cells)
}

/// Edits the sheet and notes it in the log. On an error both are as before.
fn commit<C: Calculator>(
    calculator: &mut C,
    log: &mut EditLog,
    session: u32,
    named: Named,
    contents: &mut [NewContent],
) -> Result<(), Refusal>
    ensures edit { Commits (applied (C.stored calculator.old) contents.old)
        (record { session = session; areas = named })
        result (C.stored calculator.old) (C.stored calculator.new) log.old log.new }
    ensures counts { (C.evaluated calculator.new ≡ C.evaluated calculator.old)
        × (C.restarted calculator.new ≡ C.restarted calculator.old) }
{
    log.add_named(session, named)?;
    let done = calculator.apply_slice(contents);
    if done.is_err() {
        log.take_back();
    }
    Ok(done?)
}
