//! Which cells may differ from which pictures.

ghost use Rattle.std.specs.Prelude.{◌≡◌, ◌≢◌, ◌<◌, ◌≤◌, ◌||◌, ◌&&◌, ◌++◌, ◌∷◌, ℕ, List, not, length, [], IfOk, MatchResult, OnOk, OnErr, true, false, nat_lt, filter, ◌==◌};
ghost use Rattle.std.specs.List.{list_all, slice_set};
ghost use Rattle.wi_sessions.specs.Pictures.{sheet_size};
ghost use Rattle.wi_values.specs.Address.{is_one_of};
ghost use Rattle.wi_sessions.specs.Pictures.Laws.{Rises};
ghost use Rattle.wi_sessions.specs.Pending.{list_at};
ghost use Rattle.std.specs.List.Sorted.{IsStrictlyIncreasing};
ghost use Rattle.std.specs.Ordering.{nat_cmp};
ghost use Rattle.wi_tiles.specs.Entries.{IsOrdered};
ghost use Rattle.wi_sessions.specs.Roster.{SameCells};
ghost use Rattle.wi_sessions.specs.Inner.Cells.{is_in, is_staged, cells_with, at_cells, SamePending, HasMade, HasCleared, MakesRooms, GetsRoom, GetRooms};
ghost use Rattle.wi_sessions.specs.Inner.Unread.{is_unread, HasPlace, HavePlaces, AreLookedAt};

use crate::bits::{are_alike, bit_of, bits_of, without};
use crate::cells::{
    StagedBits, Words, cancel, clear_each, drop_rooms, found, is_staged, push_those, put_in_order,
    stage, stage_each, staged_of, walked,
};
use crate::unread::{Unread, track};
use std::alloc::{AllocError, Global};
use std::marker::Model;
use wi_tiles::CellMap;
use wi_values::Address;

/// The cells that are pending for each session: of all others its picture has the value. An edit first makes room for
/// the cells that it may change, and lets them take it once it is done, which takes no memory.
#[derive(Drop)]
pub(crate) struct Pending {
    words: Words,
    // Rooms only.
    staged: Vec<StagedBits>,
    // Cells that edits changed, in turn, as far as a session may have to look for them here.
    changed: Vec<Address>,
    // Where the cells of each session stand.
    unread: Vec<Unread>,
    alloc: Global,
}

impl Model for Pending {
    ghost use Rattle.wi_sessions.specs.Pending.{AllPending};
    ghost use Rattle.std.specs.Coded.{codes};
    ghost use Rattle.std.specs.Prelude.{length};
    ghost use Rattle.wi_sessions.specs.Inner.Cells.{pending_in};
    ghost use Rattle.wi_sessions.specs.Inner.Unread.{AreKept};

    ghost Value = { AllPending };

    ghost coded = { Prim.hlevel codes };

    ghost view = { λ p. pending_in p.words.entries p.staged.items (length p.unread.items) };

    ghost invariant = { λ p.
        AreKept p.words.entries p.staged.items p.changed.items p.unread.items };
}

impl Pending {
    /// Of no session. Takes no memory.
    pub(crate) fn new(alloc: Global) -> Pending
        ensures pending { result.pending ≡ [] }
        ensures vacant { result.vacant ≡ [] }
    {
        let words = CellMap::new(alloc);
        let staged = Vec::new(alloc);
        let changed = Vec::new(alloc);
        let unread = Vec::new(alloc);
        Pending {
            words,
            staged,
            changed,
            unread,
            alloc,
        }
    }

    /// One session more, for which these cells are pending. On an error all is as before. It is an error too where
    /// there are 64. For each cell it takes two look-ups, and puts it in where it stands for no session.
    pub(crate) fn push(&mut self, cells: &[Address]) -> Result<(), AllocError>
        ensures pending { OnOk result ((new : List ℕ)
            × (self.new.pending ≡ self.old.pending ++ new ∷ []) × SameCells new cells.now) }
        ensures vacant { OnOk result (self.new.vacant ≡ self.old.vacant ++ [] ∷ []) }
        ensures refused { OnErr result (self.new ≡ self.old) }
    {
        let i = self.unread.len();
        if i >= 64 {
            return Err(AllocError);
        }
        self.unread.reserve(1)?;
        let limit = self.words.len() / 16 + 64;
        let unread = begun(self.alloc, self.changed.len(), cells, limit)?;
        add_bits(self.alloc, &mut self.words, cells, bit_of(i))?;
        self.unread.push(unread).unwrap();
        Ok(())
    }

    /// Makes room for each of the cells that isn't pending for a session; none is pending yet. On an error its rooms
    /// go. The work for each cell is that of two look-ups, and of putting it in where it stands for no session: the
    /// same however many cells there are, but for a search among the tiles of 16 rows.
    pub(crate) fn make_room(&mut self, i: usize, cells: &[Address]) -> Result<(), AllocError>
        requires { i < length self.old.pending }
        ensures { GetsRoom cells.now i result self.old self.new }
    {
        let limit = self.words.len() / 16 + 64;
        let bit = bit_of(i);
        match stage_own(
            &mut self.words,
            &mut self.staged,
            &mut self.unread[i],
            cells,
            bit,
            limit,
        ) {
            Ok(()) => Ok(()),
            Err(error) => {
                drop_rooms(&mut self.words, &self.staged, bit);
                Err(error)
            }
        }
    }

    /// Makes room, for each session, for each of the cells that isn't pending for it, in one walk through the cells;
    /// none is pending yet. On an error the rooms of all go. For each cell it costs what `make_room` does, however many
    /// sessions there are.
    pub(crate) fn make_room_all(&mut self, cells: &[Address]) -> Result<(), AllocError>
        ensures { GetRooms cells.now result self.old self.new }
    {
        let limit = self.words.len() / 2 + 64;
        match stage_all(
            &mut self.words,
            &mut self.staged,
            &mut self.changed,
            &mut self.unread,
            cells,
            limit,
        ) {
            Ok(()) => Ok(()),
            Err(error) => {
                cancel(&mut self.words, &mut self.staged);
                Err(error)
            }
        }
    }

    /// The cells for which there is room are pending now. Takes no memory, and no search.
    pub(crate) fn commit(&mut self)
        ensures lists { length self.new.pending ≡ length self.old.pending }
        ensures pending { (i a : ℕ) → is_one_of (list_at self.new.pending i) a
            ≡ (is_one_of (list_at self.old.pending i) a
            || is_one_of (list_at self.old.vacant i) a) }
        ensures vacant { (i : ℕ) → list_at self.new.vacant i ≡ [] }
    {
        self.staged.clear();
    }

    /// All rooms go, at two look-ups each. Takes no memory.
    pub(crate) fn cancel(&mut self)
        ensures pending { self.new.pending ≡ self.old.pending }
        ensures vacant { (i : ℕ) → list_at self.new.vacant i ≡ [] }
    {
        cancel(&mut self.words, &mut self.staged);
    }

    /// Whether a cell is pending for each session. One look-up.
    pub(crate) fn all_have(&self, at: Address) -> bool
        ensures { result ≡ list_all (λ cells. is_one_of cells at) self.now.pending }
    {
        match found(&self.words, at) {
            Some(bits) => {
                let word = without(bits, staged_of(&self.staged, at));
                are_alike(word, bits_of(self.unread.len()))
            }
            None => self.unread.is_empty(),
        }
    }

    /// The cells that are pending for a session or have room only, in row-major order, at the cost of `cells`. Where
    /// there are none, it takes no memory.
    pub(crate) fn all(&self, i: usize) -> Result<Vec<Address>, AllocError>
        requires { i < length self.now.pending }
        ensures { MatchResult result (λ found.
            (a : ℕ) → is_one_of found.items a ≡ (is_one_of (list_at self.now.pending i) a
            || is_one_of (list_at self.now.vacant i) a))
            (λ error. (list_at self.now.pending i ++ list_at self.now.vacant i) ≢ []) }
    {
        all_of(self.alloc, &self.words, &self.changed, &self.unread[i], i)
    }

    /// The cells that are pending for a session, in row-major order. It takes a look-up for each cell that was marked
    /// since it was last told, and a sort where they were marked by several edits; or a step for each cell that is
    /// pending for any session, where these are no more, or where too many were marked to be listed. Where there are
    /// none, it takes no memory.
    pub(crate) fn cells(&self, i: usize) -> Result<Vec<Address>, AllocError>
        requires { i < length self.now.pending }
        ensures list { IfOk result (λ found. found.items ≡ list_at self.now.pending i) }
        ensures order { OnOk result (Rises 0 sheet_size (list_at self.now.pending i)) }
        ensures some { OnErr result
            ((list_at self.now.pending i ++ list_at self.now.vacant i) ≢ []) }
    {
        self.cells_rise(i);
        let all = all_of(self.alloc, &self.words, &self.changed, &self.unread[i], i)?;
        if self.staged.is_empty() {
            return Ok(all);
        }
        without_rooms(self.alloc, &self.staged, &all, i)
    }

    /// The cells rise. This is a law: the call does nothing.
    fn cells_rise(&self, i: usize)
        requires { i < length self.now.pending }
        ensures { Rises 0 sheet_size (list_at self.now.pending i) }
    {
        let _ = self.words.len();
    }

    /// No cell is pending for a session any more, nor has room; these are all of them. Takes no memory. Each is looked
    /// up; where there is one session, each is dropped instead.
    pub(crate) fn clear(&mut self, i: usize, all: &[Address])
        requires within { i < length self.old.pending }
        requires all { (a : ℕ) → is_one_of all.now a ≡ (is_one_of (list_at self.old.pending i) a
            || is_one_of (list_at self.old.vacant i) a) }
        ensures pending { self.new.pending ≡ slice_set self.old.pending i [] }
        ensures vacant { self.new.vacant ≡ slice_set self.old.vacant i [] }
    {
        forget(&mut self.words, all, i, self.unread.len());
        let length = self.changed.len();
        self.unread[i].read(length);
    }
}

/// The cells with a session's bit, where they stand. Where there are none, it takes no memory.
fn all_of(
    alloc: Global,
    words: &Words,
    changed: &[Address],
    unread: &Unread,
    i: usize,
) -> Result<Vec<Address>, AllocError>
    requires order { IsOrdered nat_cmp words.now }
    requires few { i < 64 }
    requires place { HasPlace words.now.entries changed.now i unread.now }
    ensures { MatchResult result (λ found. found.items ≡ cells_with words.now.entries i)
        (λ error. cells_with words.now.entries i ≢ []) }
{
    let behind = &changed[unread.from..];
    if looks_anywhere(words, behind, unread) {
        return walked(alloc, words, i);
    }
    looked_up(alloc, words, behind, &unread.own, i)
}

/// Whether a walk through all cells is less than to look for those of a session, or it must be.
fn looks_anywhere(words: &Words, behind: &[Address], unread: &Unread) -> bool
    ensures { result ≡ false → unread.now.anywhere ≡ false }
{
    unread.anywhere || behind.len().saturating_add(unread.own.len()) >= words.len()
}

/// Those of two lists of cells that have a session's bit, in row-major order.
fn looked_up(
    alloc: Global,
    words: &Words,
    behind: &[Address],
    own: &[Address],
    i: usize,
) -> Result<Vec<Address>, AllocError>
    requires { i < 64 }
    ensures order { IfOk result (λ found. IsStrictlyIncreasing found.items) }
    ensures same { IfOk result (λ found. (c : ℕ) → is_one_of found.items c
        ≡ is_one_of (filter (is_in words.now.entries i) behind.now
        ++ filter (is_in words.now.entries i) own.now) c) }
    ensures some { OnErr result ((filter (is_in words.now.entries i) behind.now
        ++ filter (is_in words.now.entries i) own.now) ≢ []) }
{
    let mut found = Vec::new(alloc);
    push_those(&mut found, words, behind, i)?;
    push_those(&mut found, words, own, i)?;
    put_in_order(&mut found);
    Ok(found)
}

/// Cells but for those with room only.
fn without_rooms(
    alloc: Global,
    staged: &[StagedBits],
    cells: &[Address],
    i: usize,
) -> Result<Vec<Address>, AllocError>
    requires { i < 64 }
    ensures { MatchResult result
        (λ found. found.items ≡ filter (λ c. not (is_staged staged.now i c)) cells.now)
        (λ error. cells.now ≢ []) }
{
    let mut found = Vec::new(alloc);
    for at in cells {
        if !is_staged(staged, i, *at) {
            found.push(*at)?;
        }
    }
    Ok(found)
}

/// Takes a session's bit from all its cells, where there are so many sessions.
fn forget(words: &mut Words, all: &[Address], i: usize, count: usize)
    requires order { IsOrdered nat_cmp words.old }
    requires within { i < count }
    requires few { count ≤ 64 }
    requires all { (c : ℕ) → is_one_of all.now c ≡ is_in words.old.entries i c }
    requires none { (j c : ℕ) → count ≤ j → is_in words.old.entries j c ≡ false }
    ensures order { IsOrdered nat_cmp words.new }
    ensures less { HasCleared (λ j c. is_one_of all.now c && j == i)
        words.old.entries words.new.entries }
{
    if count == 1 {
        words.clear();
        return;
    }
    clear_each(words, all, bit_of(i));
}

/// Where the cells of a new session stand, which are tracked as its own.
fn begun(alloc: Global, from: usize, cells: &[Address], limit: usize) -> Result<Unread, AllocError>
    ensures from { IfOk result (λ u. u.from ≡ from) }
    ensures own { IfOk result (λ u. (changed : List ℕ) (c : ℕ) → is_one_of cells.now c ≡ true
        → is_unread changed u c ≡ true) }
{
    let mut unread = Unread::new(alloc, from);
    unread.track(cells, limit)?;
    Ok(unread)
}

/// Puts bits into cells. If memory runs out, all is as before.
fn add_bits(
    alloc: Global,
    words: &mut Words,
    cells: &[Address],
    bits: u64,
) -> Result<(), AllocError>
    requires { IsOrdered nat_cmp words.old }
    ensures order { IsOrdered nat_cmp words.new }
    ensures put { OnOk result ((i c : ℕ) → is_in words.new.entries i c
        ≡ (is_in words.old.entries i c || at_cells cells.now bits i c)) }
    ensures refused { OnErr result ((i c : ℕ) → is_in words.new.entries i c
        ≡ is_in words.old.entries i c) }
{
    let mut rooms = Vec::new(alloc);
    stage(words, &mut rooms, cells, bits)
}

/// Tracks cells as a session's own, and makes room for them. If memory runs out, there is room for a part of them.
fn stage_own(
    words: &mut Words,
    staged: &mut Vec<StagedBits>,
    own: &mut Unread,
    cells: &[Address],
    bit: u64,
    limit: usize,
) -> Result<(), AllocError>
    requires { IsOrdered nat_cmp words.old }
    ensures order { IsOrdered nat_cmp words.new }
    ensures rooms { MakesRooms (is_one_of cells.now) bit result
        words.old.entries staged.old.items words.new.entries staged.new.items }
    ensures from { own.new.from ≡ own.old.from }
    ensures stay { (changed : List ℕ) (c : ℕ) → is_unread changed own.old c ≡ true
        → is_unread changed own.new c ≡ true }
    ensures own { OnOk result ((changed : List ℕ) (c : ℕ) → is_one_of cells.now c ≡ true
        → is_unread changed own.new c ≡ true) }
{
    own.track(cells, limit)?;
    stage_each(words, staged, cells, bit)?;
    Ok(())
}

/// Tracks cells that an edit may change, and makes room for them for each session. If memory runs out, there is room
/// for a part of them.
fn stage_all(
    words: &mut Words,
    staged: &mut Vec<StagedBits>,
    changed: &mut Vec<Address>,
    unread: &mut Vec<Unread>,
    cells: &[Address],
    limit: usize,
) -> Result<(), AllocError>
    requires order { IsOrdered nat_cmp words.old }
    requires few { length unread.old.items ≤ 64 }
    ensures order { IsOrdered nat_cmp words.new }
    ensures pending { SamePending words.old.entries staged.old.items
        words.new.entries staged.new.items }
    ensures lists { length unread.new.items ≡ length unread.old.items }
    ensures places { (all : List (ℕ × ℕ)) → HavePlaces all changed.old.items unread.old.items
        → HavePlaces all changed.new.items unread.new.items }
    ensures room { OnOk result
        (HasMade (λ i c. is_one_of cells.now c && nat_lt i (length unread.old.items))
        words.old.entries staged.old.items words.new.entries staged.new.items) }
    ensures looked { OnOk result
        ((all : List (ℕ × ℕ)) → HavePlaces all changed.old.items unread.old.items
        → AreLookedAt cells.now changed.new.items unread.new.items) }
{
    track(changed, unread, cells, limit)?;
    let bits = bits_of(unread.len());
    stage_each(words, staged, cells, bits)?;
    Ok(())
}
