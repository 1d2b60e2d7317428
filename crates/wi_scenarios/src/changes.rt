//! The command `changes`: what has changed since the current session was last shown it.

ghost use Rattle.std.specs.Prelude.{◌≡◌, ◌<◌, ◌++◌, [], true, length, is_ok, IfOk, MatchResult, OnOk, OnErr};
ghost use Rattle.wi_sessions.specs.Roster.{pending_of, vacant_of};
ghost use Rattle.wi_reports.specs.Changes.{change_records};
ghost use Rattle.wi_reports.specs.Looks.{Costs};
ghost use Rattle.wi_scenarios.specs.Views.{change_list};
ghost use Rattle.wi_scenarios.specs.Pending.{pending_for, asked_by_changes};
ghost use Rattle.wi_scenarios.specs.Inner.Calls.{IsChanges};
ghost use Rattle.wi_scenarios.specs.Inner.Sound.{book_by, state_of, pending_in, IsSound};
ghost use Rattle.wi_scenarios.specs.Inner.Editing.{IsTold};

use crate::desk::Desk;
use crate::refusal::Refusal;
use crate::views::replacements_for;
use std::alloc::{AllocError, Global};
use wi_propagate::Calculator;
use wi_reports::{find_changes, push_changes};
use wi_sessions::Change;

/// Appends a record for each cell that has changed since the current session was last shown what has. Only its pending
/// cells are looked at. The calculator is asked once for each of them; beside that the work grows with what the
/// session's scenario puts in, with the length of the records, and with the changes, some look-ups in the picture for
/// each. Where no cell is pending, none of this is done, and no memory is taken.
pub(crate) fn changes<C: Calculator>(
    alloc: Global,
    calculator: &mut C,
    desk: &mut Desk,
    out: &mut Vec<u8>,
) -> Result<(), Refusal>
    requires { IsSound C.marked (C.stored calculator.old) desk.old }
    ensures told { let book = book_by C.stored C.evaluated C.restarted in
        IsChanges result (book calculator.old desk.old) (book calculator.new desk.new)
        out.old.items out.new.items }
    ensures same { C.stored calculator.new ≡ C.stored calculator.old }
    ensures sound { IsSound C.marked (C.stored calculator.new) desk.new }
{
    let found = find(alloc, calculator, desk)?;
    tell(alloc, desk, found, out)?;
    Ok(())
}

/// What has changed since the current session was last shown it. The calculator is asked for its pending cells alone;
/// where there are none, nothing is listed.
fn find<C: Calculator>(
    alloc: Global,
    calculator: &mut C,
    desk: &Desk,
) -> Result<Vec<Change>, AllocError>
    requires { IsSound C.marked (C.stored calculator.old) desk.now }
    ensures list { let state = state_of (C.stored calculator.old) desk.now in
        IfOk result (λ found. found.items ≡ change_list state) }
    ensures same { C.stored calculator.new ≡ C.stored calculator.old }
    ensures quiet { pending_for (pending_in desk.now) desk.now.current ≡ []
        → (C.evaluated calculator.new ≡ C.evaluated calculator.old)
        × (C.restarted calculator.new ≡ C.restarted calculator.old) }
    ensures cost { let old = state_of (C.stored calculator.old) desk.now in
        Costs old.stored.sheet (asked_by_changes old (pending_in desk.now))
        (C.evaluated calculator.old, C.restarted calculator.old)
        (C.evaluated calculator.new, C.restarted calculator.new) }
    ensures none { pending_for (pending_in desk.now) desk.now.current ≡ []
        → MatchResult result (λ found. found.items ≡ []) (λ error. ⊥) }
{
    let cells = desk.sessions.pending_cells(desk.current)?;
    if cells.is_empty() {
        return Ok(Vec::new(alloc));
    }
    let put = replacements_for(desk, desk.current)?;
    let picture = desk.sessions.picture(desk.current);
    find_changes(alloc, calculator, &put, picture, &cells)
}

/// Appends the records of changes, and puts them into the picture of the current session, or leaves all as it was.
fn tell(
    alloc: Global,
    desk: &mut Desk,
    changes: Vec<Change>,
    out: &mut Vec<u8>,
) -> Result<(), AllocError>
    requires { desk.old.current < length desk.old.sessions.sessions }
    ensures told { OnOk result (IsTold desk.old changes.items desk.new) }
    ensures records { OnOk result (out.new.items ≡ out.old.items ++ change_records changes.items) }
    ensures refused { OnErr result (desk.new ≡ desk.old) }
    ensures unwritten { OnErr result (out.new.items ≡ out.old.items) }
    ensures none { let current = desk.old.current in
        pending_of desk.old.sessions current ≡ [] → vacant_of desk.old.sessions current ≡ []
        → changes.items ≡ [] → is_ok result ≡ true }
{
    let before = out.len();
    push_changes(alloc, &changes, out)?;
    let told = desk.sessions.tell(desk.current, changes, desk.log.len());
    if told.is_err() {
        out.truncate(before);
    }
    told
}
