//! One edit of the log.

ghost use Rattle.std.specs.Prelude.{◌≡◌, ◌≤◌, ◌<◌, ◌+◌, ℕ, drop, length, slice_index_or};
ghost use Rattle.wi_edit_log.specs.Inner.Edits.{AreCounted, AreInRuns, IsInRun, entry_in, is_wanted_of_others};
ghost use Rattle.wi_edit_log.specs.Inner.First.{IsFirst};
ghost use Rattle.wi_edit_log.specs.Inner.Narrow.{are_narrow};
ghost use Rattle.wi_edit_log.specs.Inner.Noted.{is_wanted_widely};
ghost use Rattle.wi_edit_log.specs.declared.edit.Edit.{Edit};

use crate::named::{Named, are_narrow};
use crate::rising::are_rising;
use wi_values::{Address, Rect, sooner};

/// An edit: its session, what it named, and its run: how many edits in a row, up to this one and with it, are its
/// session's, as far as 32 bits count.
#[derive(Drop)]
pub(crate) struct Edit {
    named: Named,
    session: u32,
    run: u32,
}

impl Edit {
    /// The edit that comes after those.
    pub(crate) fn after(edits: &[Edit], session: u32, named: Named) -> Edit
        requires { AreInRuns edits.now }
        ensures entry { entry_in result ≡ record { session = session; areas = named } }
        ensures run { IsInRun edits.now (length edits.now) result }
    {
        let run = own_before(edits, session).saturating_add(1);
        Edit {
            named,
            session,
            run,
        }
    }

    /// Its session.
    pub(crate) fn session(&self) -> u32
        ensures { result ≡ self.now.session }
    {
        self.session
    }

    /// The rectangles that it named.
    pub(crate) fn areas(&self) -> &[Rect]
        ensures { result.now ≡ self.now.named }
    {
        self.named.areas()
    }

    /// Whether each of them has few cells.
    pub(crate) fn is_narrow(&self) -> bool
        ensures { result ≡ are_narrow self.now.named }
    {
        are_narrow(self.areas())
    }
}

/// How many of the last edits, one after another, are the session's, as far as 32 bits count.
fn own_before(edits: &[Edit], session: u32) -> u32
    requires { AreInRuns edits.now }
    ensures within { result ≤ length edits.now }
    ensures one_session { (k : ℕ) (d : Edit) → length edits.now ≤ k + result
        → k < length edits.now → (slice_index_or edits.now k d).session ≡ session }
{
    match edits.last() {
        Some(last) if last.session == session => last.run,
        _ => 0,
    }
}

/// Where the run of an edit of the session after those begins, or later where it is longer than 32 bits count.
pub(crate) fn run_after(edits: &[Edit], session: u32) -> usize
    requires { AreInRuns edits.now }
    ensures within { result ≤ length edits.now }
    ensures one_session { (k : ℕ) (d : Edit) → result ≤ k
        → k < length edits.now → (slice_index_or edits.now k d).session ≡ session }
{
    edits.len() - own_before(edits, session) as usize
}

/// The first of the wanted cells that an edit of another session, from a place on, names. It goes from the last edit to
/// earlier ones, and over each of the session's own runs in one step.
pub(crate) fn first_of_others(
    edits: &[Edit],
    session: u32,
    from: usize,
    wanted: &[Rect],
) -> Option<Address>
    requires runs { AreInRuns edits.now }
    requires from { from ≤ length edits.now }
    ensures { IsFirst (is_wanted_of_others (drop from edits.now) session wanted.now) result }
{
    let they_rise = are_rising(wanted);
    let mut first = None;
    let mut place = edits.len();
    while from < place {
        let edit = &edits[place - 1];
        if edit.session == session {
            place = (place - edit.run as usize).max(from);
        } else {
            place -= 1;
            first = sooner(first, edit.named.first_shared(wanted, they_rise));
        }
    }
    first
}

/// The first of the wanted cells that an edit of another session, from a place on, names, where only edits that name a
/// wider rectangle count. It goes from the last edit to earlier ones, and over each of the session's own runs in one
/// step. The counts tell for each edit how many in a row, up to it and with it, named narrow rectangles alone; such a
/// row is one step too.
pub(crate) fn first_of_wide(
    edits: &[Edit],
    counts: &[u32],
    session: u32,
    from: usize,
    wanted: &[Rect],
) -> Option<Address>
    requires runs { AreInRuns edits.now }
    requires counts { AreCounted edits.now counts.now }
    requires from { from ≤ length edits.now }
    ensures { IsFirst (is_wanted_widely (drop from edits.now) session wanted.now) result }
{
    let wanted_rise = are_rising(wanted);
    let mut first = None;
    let mut place = edits.len();
    while from < place {
        let edit = &edits[place - 1];
        let narrow = counts[place - 1];
        if narrow > 0 {
            place = place.saturating_sub(narrow as usize).max(from);
        } else if edit.session == session {
            place = (place - edit.run as usize).max(from);
        } else {
            place -= 1;
            first = sooner(first, edit.named.first_shared(wanted, wanted_rise));
        }
    }
    first
}
