//! Who edited a cell: one look tells whether others did.

ghost use Rattle.std.specs.Prelude.{◌≡◌, ◌==◌, ◌<◌, ◌≤◌, ◌+◌, ◌++◌, ◌∷◌, ℕ, List, [], OnOk, Some, drop, if◌then◌else◌, length, take};
ghost use Rattle.wi_values.specs.Address.{is_within, is_within_one};
ghost use Rattle.wi_edit_log.specs.Inner.Edits.{AreCounted, AreInRuns, IsCount, is_wanted_of_others};
ghost use Rattle.wi_edit_log.specs.Inner.First.{IsFirst};
ghost use Rattle.wi_edit_log.specs.Inner.Noted.{AreNoted, NotesEdit, NotesMore, after_others, is_noted_stale_in, is_wanted_noted_stale, last_after, last_of, is_noted_stale};
ghost use Rattle.wi_edit_log.specs.declared.edit.Edit.{Edit};

use crate::cells::first_cell;
use crate::edit::{Edit, first_of_others, first_of_wide, run_after};
use std::alloc::{AllocError, Global};
use std::collections::HashMap;
use wi_values::{Address, Rect, sooner};

/// What is noted of a cell, over the edits of narrow rectangles that named it: how long the log was after the last of
/// them, whose that one was, and how long the log was after the last of any other session, 0 where there is none.
#[derive(Clone, Copy)]
pub(crate) struct Last {
    length: u32,
    session: u32,
    before: u32,
}

type Notes = HashMap<Address, Last>;

/// What is noted of the first edits of a log, as many as `narrow` has entries. `notes`: for each cell that an edit of
/// narrow rectangles alone named, the last one that did. `narrow`: for each edit, how many in a row, up to it and with
/// it, named narrow rectangles alone.
#[derive(Drop)]
pub(crate) struct Noted {
    notes: Notes,
    narrow: Vec<u32>,
}

impl Noted {
    /// Nothing noted. Takes no memory.
    pub(crate) fn new(alloc: Global) -> Noted
        ensures notes { result.notes.entries ≡ [] }
        ensures narrow { result.narrow.items ≡ [] }
    {
        Noted {
            notes: HashMap::new(alloc),
            narrow: Vec::new(alloc),
        }
    }

    /// Forgets all.
    fn forget(&mut self)
        ensures notes { self.new.notes.entries ≡ [] }
        ensures narrow { self.new.narrow.items ≡ [] }
    {
        self.notes.clear();
        self.narrow.clear();
    }

    /// How many of the last noted edits, one after another, named narrow rectangles alone.
    pub(crate) fn last_row(&self) -> usize {
        match self.narrow.last() {
            Some(count) => *count as usize,
            None => 0,
        }
    }

    /// Forgets all if more edits are noted than are left.
    pub(crate) fn forget_beyond(&mut self, left: usize)
        ensures { (es : List Edit) → AreNoted es self.old.narrow.items self.old.notes.entries
            → AreNoted (take left es) self.new.narrow.items self.new.notes.entries }
    {
        if left < self.narrow.len() {
            self.forget();
        }
    }

    /// Notes edits until all that are left are the session's own. If memory runs out, nothing is noted any more.
    pub(crate) fn catch_up(&mut self, edits: &[Edit], session: u32) -> Result<(), AllocError>
        requires runs { AreInRuns edits.now }
        requires noted { AreNoted edits.now self.old.narrow.items self.old.notes.entries }
        ensures { AreNoted edits.now self.new.narrow.items self.new.notes.entries }
    {
        let end = run_after(edits, session).min(u32::MAX as usize);
        for place in self.narrow.len()..end {
            self.note_next(edits, place)?;
        }
        Ok(())
    }

    /// Notes the edit at this place, the first that isn't noted. If memory runs out, nothing is noted any more.
    fn note_next(&mut self, edits: &[Edit], place: usize) -> Result<(), AllocError>
        requires within { place < length edits.now }
        requires counts { place < 4294967295 }
        requires next { place ≡ length self.old.narrow.items }
        requires noted { AreNoted edits.now self.old.narrow.items self.old.notes.entries }
        ensures noted { AreNoted edits.now self.new.narrow.items self.new.notes.entries }
        ensures next { OnOk result (length self.new.narrow.items ≡ place + 1) }
    {
        if let Err(refused) = self.note_counted(&edits[place], place as u32 + 1) {
            self.forget();
            return Err(refused);
        }
        Ok(())
    }

    /// Notes an edit after which the log had so many, and counts it. If memory runs out, a part of it may be noted.
    fn note_counted(&mut self, edit: &Edit, count: u32) -> Result<(), AllocError>
        ensures notes { OnOk result
            (NotesEdit edit.now count self.old.notes.entries self.new.notes.entries) }
        ensures narrow { OnOk result ((es : List Edit) → AreCounted es self.old.narrow.items
            → AreCounted (es ++ edit.now ∷ []) self.new.narrow.items) }
    {
        note_edit(&mut self.notes, edit, count)?;
        self.narrow.push(narrow_after(&self.narrow, edit))?;
        Ok(())
    }

    /// Whether an edit of another session that isn't among the first `since` ones named the cell, as far as edits are
    /// noted. One look.
    fn is_noted_stale(&self, at: Address, session: u32, since: usize) -> bool
        ensures { result ≡ is_noted_stale (last_of self.now.notes.entries at) session since }
    {
        match self.notes.get(&at) {
            Some(last) => since < after_others(*last, session) as usize,
            None => false,
        }
    }

    /// The first cell of a rectangle of which that is so. One look for each cell.
    fn first_noted_stale_in(&self, area: Rect, session: u32, since: usize) -> Option<Address>
        ensures { IsFirst (is_noted_stale_in area self.now.notes.entries session since) result }
    {
        let mut ahead = Some(first_cell(area));
        while let Some(at) = ahead {
            if self.is_noted_stale(at, session, since) {
                return Some(at);
            }
            ahead = area.cell_after(at);
        }
        None
    }

    /// The first of the wanted cells of which that is so.
    fn first_noted_stale(&self, wanted: &[Rect], session: u32, since: usize) -> Option<Address>
        ensures { IsFirst (is_wanted_noted_stale wanted.now self.now.notes.entries session since)
            result }
    {
        let mut first = None;
        for area in wanted {
            first = sooner(first, self.first_noted_stale_in(*area, session, since));
        }
        first
    }

    /// The first of the wanted cells that an edit of another session, from a place on, names. It takes one look for
    /// each of them for what is noted, and goes through the edits of wider rectangles, and through those that aren't
    /// noted.
    pub(crate) fn first_named(
        &self,
        edits: &[Edit],
        session: u32,
        from: usize,
        wanted: &[Rect],
    ) -> Option<Address>
        requires runs { AreInRuns edits.now }
        requires from { from ≤ length edits.now }
        requires noted { AreNoted edits.now self.now.narrow.items self.now.notes.entries }
        ensures { IsFirst (is_wanted_of_others (drop from edits.now) session wanted.now) result }
    {
        let noted = &edits[..self.narrow.len()];
        let by_notes = self.first_noted_stale(wanted, session, from);
        let wide = first_of_wide(noted, &self.narrow, session, from.min(noted.len()), wanted);
        let left = first_of_others(edits, session, from.max(noted.len()), wanted);
        sooner(sooner(by_notes, wide), left)
    }
}

/// The length of the log after the last edit that another session made.
fn after_others(last: Last, session: u32) -> u32
    ensures { result ≡ after_others last session }
{
    if last.session == session {
        last.before
    } else {
        last.length
    }
}

/// What is noted of a cell after one edit more.
fn last_after(old: Option<Last>, session: u32, count: u32) -> Last
    ensures { result ≡ last_after old session count }
{
    let before = match old {
        Some(last) => after_others(last, session),
        None => 0,
    };
    Last {
        length: count,
        session,
        before,
    }
}

/// Notes that of so many edits the last, of that session, named the cell.
fn note(notes: &mut Notes, at: Address, session: u32, count: u32) -> Result<(), AllocError>
    ensures { OnOk result ((a : ℕ) → last_of notes.new.entries a
        ≡ (if at == a then Some (last_after (last_of notes.old.entries at) session count)
        else last_of notes.old.entries a)) }
{
    let last = last_after(notes.get(&at).copied(), session, count);
    notes.insert(at, last)?;
    Ok(())
}

/// Notes, for each cell of a rectangle, that of so many edits the last, of that session, named it. If memory runs out,
/// a part is noted.
fn note_area(notes: &mut Notes, area: Rect, session: u32, count: u32) -> Result<(), AllocError>
    ensures { OnOk result
        (NotesMore (is_within area) session count notes.old.entries notes.new.entries) }
{
    let mut ahead = Some(first_cell(area));
    while let Some(at) = ahead {
        note(notes, at, session, count)?;
        ahead = area.cell_after(at);
    }
    Ok(())
}

/// Notes, for each cell of some rectangles, that of so many edits the last, of that session, named it. If memory runs
/// out, a part is noted.
fn note_areas(notes: &mut Notes, areas: &[Rect], session: u32, count: u32) -> Result<(), AllocError>
    ensures { OnOk result
        (NotesMore (is_within_one areas.now) session count notes.old.entries notes.new.entries) }
{
    for area in areas {
        note_area(notes, *area, session, count)?;
    }
    Ok(())
}

/// Notes the last of so many edits for each cell that it named, where it named narrow rectangles alone; of another edit
/// it notes nothing. If memory runs out, a part is noted.
fn note_edit(notes: &mut Notes, edit: &Edit, count: u32) -> Result<(), AllocError>
    ensures { OnOk result (NotesEdit edit.now count notes.old.entries notes.new.entries) }
{
    if edit.is_narrow() {
        note_areas(notes, edit.areas(), edit.session(), count)?;
    }
    Ok(())
}

/// The count of an edit that comes after those that are counted: how many in a row, up to it and with it, named narrow
/// rectangles alone.
fn narrow_after(counts: &[u32], edit: &Edit) -> u32
    ensures { (es : List Edit) → AreCounted es counts.now
        → IsCount (es ++ edit.now ∷ []) (length es) result }
{
    if !edit.is_narrow() {
        return 0;
    }
    match counts.last() {
        Some(last) => last.saturating_add(1),
        None => 1,
    }
}
