//! The log of edits.

ghost use Rattle.std.specs.Prelude.{◌≡◌, ◌-◌, ◌<◌, ◌↔◌, ◌++◌, ◌∷◌, IsTrue, OnErr, OnOk, [], length, take};
ghost use Rattle.wi_edit_log.specs.EditLog.{first_stale};

use crate::edit::{Edit, first_of_others, run_after};
use crate::named::{Named, are_narrow};
use crate::noted::Noted;
use std::alloc::{AllocError, Global};
use std::marker::Model;
use wi_values::{Address, Rect};

/// From so many edits on, their list grows by a sixteenth.
const MANY: usize = 16_384;

/// The edits in their order, each with its session, and the rectangles that it named as they were given. An edit takes
/// 32 bytes, and where it named another number of rectangles than one 24 more, and 16 for each. Once a session has
/// asked (`catch_up`), each edit up to the last one of another session takes 4 more, and each cell that one of them
/// named, if it named rectangles of 32 cells at most alone, some 36. The list of 16,384 edits or more has room for a
/// sixteenth more at most, and what else grows for twice as much.
#[derive(Drop)]
pub struct EditLog {
    edits: Vec<Edit>,
    noted: Noted,
}

impl Model for EditLog {
    ghost use Rattle.std.specs.Prelude.{List};
    ghost use Rattle.wi_edit_log.specs.EditLog.{Entry};

    ghost Value = { List Entry };

    ghost use Rattle.wi_edit_log.specs.Inner.Edits.{entries_in};
    ghost use Rattle.wi_edit_log.specs.Inner.Noted.{IsKept};

    ghost view = { λ log. entries_in log.edits.items };

    ghost invariant = { λ log. IsKept log.edits.items log.noted.narrow.items log.noted.notes.entries };
}

impl EditLog {
    /// No edits. Takes no memory.
    pub fn new(alloc: Global) -> EditLog
        ensures { result ≡ [] }
    {
        EditLog {
            edits: Vec::new(alloc),
            noted: Noted::new(alloc),
        }
    }

    /// Puts an edit at the end. On an error all is as before. The work grows with the rectangles.
    pub fn add(&mut self, session: u32, cells: Vec<Rect>) -> Result<(), AllocError>
        ensures ok { OnOk result (self.new
            ≡ self.old ++ record { session = session; areas = cells.items } ∷ []) }
        ensures err { OnErr result (self.new ≡ self.old) }
    {
        let named = Named::new(cells)?;
        self.add_named(session, named)
    }

    /// Puts an edit at the end, of rectangles that are named already. On an error all is as before. The work doesn't
    /// grow with the rectangles.
    pub fn add_named(&mut self, session: u32, named: Named) -> Result<(), AllocError>
        ensures ok { OnOk result (self.new
            ≡ self.old ++ record { session = session; areas = named } ∷ []) }
        ensures err { OnErr result (self.new ≡ self.old) }
    {
        let edit = Edit::after(&self.edits, session, named);
        push_edit(&mut self.edits, edit)?;
        Ok(())
    }

    /// Takes the last edit away if there is one, and tells whether there was. Takes no memory.
    pub fn take_back(&mut self) -> bool
        ensures was { IsTrue result ↔ (0 < length self.old) }
        ensures rest { self.new ≡ take (length self.old - 1) self.old }
    {
        let was = self.edits.pop().is_some();
        self.noted.forget_beyond(self.edits.len());
        was
    }

    /// Notes who edited which cell of narrow rectangles, as far as others than the session did, so that `first_stale`
    /// finds that in one look for each cell. It is for the callers of `first_stale`, which answers the same without it.
    /// If memory runs out, nothing is noted. The work grows with the cells of the edits that aren't noted yet, so that
    /// each is noted once; where they are the session's own there is none.
    pub fn catch_up(&mut self, session: u32) -> Result<(), AllocError>
        ensures { self.new ≡ self.old }
    {
        self.noted.catch_up(&self.edits, session)
    }

    /// How many edits there are.
    pub fn len(&self) -> u64
        ensures { result ≡ length self.now }
    {
        self.edits.len() as u64
    }

    /// The first of the cells, in row-major order, that an edit of another session names, not counting the first
    /// `since` edits of the log. Takes no memory.
    ///
    /// Where each of the rectangles has 32 cells at most, or they have no more cells than the last noted edits in a row
    /// that named such rectangles alone, each cell is one look for the edits of such rectangles, as far as `catch_up`
    /// has noted them. The others are gone through from the last on, and each run of the session's own is one step, as
    /// is each row of noted edits of such rectangles. For each other edit of another session every rectangle of the
    /// shorter of its list and `cells` is looked for in the longer one. Where the longer rises, each rectangle below
    /// the one before, as an import names them, that takes the logarithm of its length, and a step for each of its
    /// rectangles in the rows of the one that is looked for, at most; where it doesn't, a step for each.
    pub fn first_stale(&self, session: u32, since: u64, cells: &[Rect]) -> Option<Address>
        ensures { result ≡ first_stale self.now session since cells.now }
    {
        let since = (since as usize).min(self.edits.len());
        let end = run_after(&self.edits, session);
        if end <= since {
            return None;
        }
        if are_looked_up(cells, self.noted.last_row().min(end - since)) {
            self.noted.first_named(&self.edits, session, since, cells)
        } else {
            first_of_others(&self.edits, session, since, cells)
        }
    }
}

/// Whether cells of rectangles are to be looked up one by one: where each rectangle is narrow, or the cells are no more
/// than the edits that this spares.
fn are_looked_up(areas: &[Rect], spared: usize) -> bool {
    are_narrow(areas) || are_no_more(areas, spared as u64)
}

/// Whether rectangles have so many cells together at most.
fn are_no_more(areas: &[Rect], most: u64) -> bool {
    let mut left = most;
    for area in areas {
        let Some(rest) = left.checked_sub(area.size()) else {
            return false;
        };
        left = rest;
    }
    true
}

/// Puts an edit at the end. Where there are many and no room is left, it makes room for a sixteenth more, since an edit
/// takes 32 bytes. On an error all is as before.
fn push_edit(edits: &mut Vec<Edit>, edit: Edit) -> Result<(), AllocError>
    ensures ok { OnOk result (edits.new.items ≡ edits.old.items ++ edit ∷ []) }
    ensures err { OnErr result (edits.new.items ≡ edits.old.items) }
{
    if edits.len() >= MANY && edits.len() == edits.capacity() {
        edits.reserve_exact(edits.len() / 16)?;
    }
    edits.push(edit)?;
    Ok(())
}
