//! A sheet within limits.

ghost use Rattle.std.specs.Prelude.{◌≡◌, ◌⊎◌, ◌<◌, ◌*◌, [], All, nat_le, filter, length, option_map, Some, None, IfOk, IfSome, OnOk, OnErr};
ghost use Rattle.std.specs.Option.{option_copied};
ghost use Rattle.std.specs.List.{find};
ghost use Rattle.std.specs.List.Sorted.{IsStrictlyIncreasing};
ghost use Rattle.std.specs.Map.{keys_of};
ghost use Rattle.wi_values.specs.Address.{is_within, rows, columns};
ghost use Rattle.wi_parser.specs.Sheet.{content_of, cells_with_formula, has_formula};
ghost use Rattle.wi_store.specs.Store.{edited, accepted, applied, Applies, IsFirstNumber, contents_in, is_ahead};
ghost use Rattle.wi_tiles.specs.Rooms.{AreBetweenEdits, AreInEdit};
ghost use Rattle.wi_store.specs.Inner.Rooms.{sheet_in, formula_cells};
ghost use Rattle.wi_store.specs.Inner.Admission.{admitted};

use crate::contents::Contents;
use crate::fault::StoreFault;
use crate::indexes::Indexes;
use crate::limits::Limits;
use crate::rooms::{NewRoom, Rooms, prepare, room_for};
use std::alloc::{AllocError, Global};
use std::marker::Model;
use wi_fraction::Fraction;
use wi_parser::{Content, NewContent};
use wi_tiles::{CellMap, exchange_all, exchange_back, make_rooms, sweep};
use wi_values::{Address, Rect};

/// The contents of a sheet, with the count of accepted edits and the limits of both.
#[derive(Drop)]
pub struct Store {
    // None of them is vacant but while an edit goes on.
    rooms: Rooms,
    edits: u64,
    limits: Limits,
    // Of rows and columns that are searched again and again. An edit lets all go.
    indexes: Indexes,
    alloc: Global,
}

impl Model for Store {
    ghost use Rattle.wi_store.specs.Store.{Stored};

    ghost Value = { Stored };

    ghost use Rattle.std.specs.Coded.{codes};
    ghost use Rattle.wi_parser.specs.contracts.content.Content as content;

    ghost coded = { Prim.hlevel (codes, content.the_row.coded) };

    ghost use Rattle.std.specs.Prelude.{None};
    ghost use Rattle.wi_tiles.specs.Rooms.{AreBetweenEdits};
    ghost use Rattle.wi_store.specs.Inner.Indexes.{AreIndexesOf};
    ghost use Rattle.wi_store.specs.Inner.Rooms.{sheet_in};

    ghost view = { λ s. record {
      sheet = sheet_in s.rooms.entries;
      edits = s.edits;
      limits = s.limits;
    } };

    ghost invariant = { λ s. AreBetweenEdits None s.rooms.entries
        × AreIndexesOf (sheet_in s.rooms.entries) s.indexes };
}

impl Store {
    /// An empty sheet, with no edits yet. Takes no memory.
    pub fn new(alloc: Global, limits: Limits) -> Store
        ensures sheet { result.sheet ≡ [] }
        ensures edits { result.edits ≡ 0 }
        ensures limits { result.limits ≡ limits }
    {
        Store {
            rooms: CellMap::new(alloc),
            edits: 0,
            limits,
            indexes: Indexes::new(alloc),
            alloc,
        }
    }

    /// What stands in a cell. Logarithmic in the tiles of its 16 rows that have something, and else constant.
    pub fn get(&self, at: Address) -> Option<&Content>
        ensures { option_copied result ≡ content_of self.now.sheet at }
    {
        match self.rooms.get(at) {
            Some(room) => room.content(),
            None => None,
        }
    }

    /// How many cells have a content.
    pub fn occupied(&self) -> u64
        ensures { result ≡ length self.now.sheet }
    {
        self.rooms.len() as u64
    }

    /// How many edits were accepted.
    pub fn edits(&self) -> u64
        ensures { result ≡ self.now.edits }
    {
        self.edits
    }

    /// The limits that it was made with.
    pub fn limits(&self) -> Limits
        ensures { result ≡ self.now.limits }
    {
        self.limits
    }

    /// The cells that have a content stand in row-major order, each once. This is a law: the call does nothing.
    pub fn cells_stand_in_order(&self)
        ensures { IsStrictlyIncreasing (keys_of self.now.sheet) }
    {
        let _ = &self.rooms;
    }

    /// The cells that have a content lie in the sheet. This is a law: the call does nothing.
    pub fn cells_lie_in_the_sheet(&self)
        ensures { All (λ a. a < rows * columns) (keys_of self.now.sheet) }
    {
        let _ = self.rooms.len();
    }

    /// One edit, which gives each named cell a content or none; the constant Empty is none. Of two pairs for one cell
    /// the later counts. `Full` if the sheet would then have more occupied cells than the limit, or else `EditLimit` if
    /// no more edits are accepted; `Memory` if memory runs out. After each of them all is as before. The work for each
    /// pair is the same whatever the count of occupied cells, but for the searches among the tiles of 16 rows: two for
    /// a content, and one for none; up to two more for each pair where a cell loses its content, and up to three where
    /// the edit is refused.
    pub fn apply(&mut self, mut changes: Vec<NewContent>) -> Result<(), StoreFault>
        ensures { Applies (applied self.old changes.items) result self.old self.new }
    {
        self.apply_slice(&mut changes)
    }

    /// One edit of changes that are lent, which gives each named cell a content or none, with the errors of `apply` and
    /// at its cost. It takes the contents out of the changes, so they are not to be used again.
    pub fn apply_slice(&mut self, changes: &mut [NewContent]) -> Result<(), StoreFault>
        ensures { Applies (applied self.old changes.old) result self.old self.new }
    {
        if changes.len() == 1 {
            let mut brought = [room_for(self.alloc, &mut changes[0])?];
            return self.bring(&mut brought);
        }
        let mut brought = prepare(self.alloc, changes)?;
        self.bring(&mut brought)
    }

    /// One edit, by the rooms that its changes bring: each named cell gets its room, or loses its own where that one is
    /// vacant. Of two for one cell the later counts. On an error all is as before.
    fn bring(&mut self, brought: &mut [NewRoom]) -> Result<(), StoreFault>
        ensures { Applies (accepted self.old brought.old) result self.old self.new }
    {
        let before = self.occupied();
        self.indexes.clear();
        let answer = edit(&mut self.rooms, before, &self.limits, self.edits, brought);
        let occupied = answer.unwrap_or(before);
        sweep(&mut self.rooms, brought, occupied);
        answer?;
        self.edits += 1;
        Ok(())
    }

    /// The cells that have a formula, in row-major order. The work grows with the count of occupied cells.
    pub fn formulas(&self) -> Result<Vec<Address>, AllocError>
        ensures { IfOk result (λ found. found.items ≡ cells_with_formula self.now.sheet) }
    {
        formula_cells(self.alloc, Contents::all(&self.rooms))
    }

    /// The cells of a rectangle that have a formula, in row-major order. It takes all steps of `contents_from`, one for
    /// each occupied cell of the rectangle.
    pub fn formulas_in(&self, area: Rect) -> Result<Vec<Address>, AllocError>
        ensures { IfOk result (λ found.
            found.items ≡ filter (is_within area) (cells_with_formula self.now.sheet)) }
    {
        formula_cells(self.alloc, self.contents_from(area, area.first()))
    }

    /// The first occupied cell of a rectangle, in row-major order, at a cell or after it, at the cost of
    /// `next_content`: searches among the tiles of 16 rows up to it.
    pub fn next_occupied(&self, area: Rect, from: Address) -> Option<Address>
        ensures { result ≡ find
            (λ a. nat_le from a) (filter (is_within area) (keys_of self.now.sheet)) }
    {
        self.rooms.next_in(area, from)
    }

    /// The first occupied cell of a rectangle, in row-major order, at a cell or after it, with what stands there. One
    /// search among the tiles of 16 rows for these, and if more than one of them lie in the rectangle, one step for
    /// each in each row up to it; rows where nothing stands are passed at once.
    pub fn next_content(&self, area: Rect, from: Address) -> Option<(Address, &Content)>
        ensures cell { option_map (λ x. x.0) result
            ≡ find (λ a. nat_le from a) (filter (is_within area) (keys_of self.now.sheet)) }
        ensures content { IfSome result (λ x. content_of self.now.sheet x.0 ≡ Some x.1.now) }
    {
        match self.rooms.first_in(area, from) {
            Some((cell, room)) => match room.content() {
                Some(content) => Some((cell, content)),
                None => unreachable!(),
            },
            None => None,
        }
    }

    /// The first cell of a row or column with a number, in row-major order, where only constants stand in it and an
    /// index tells it. Else the search is noted. The work grows with the count of indexes alone.
    pub fn first_with(&self, line: Rect, number: Fraction) -> Option<Option<Address>>
        ensures { IfSome result (IsFirstNumber (contents_in line self.now.sheet) number) }
    {
        self.indexes.first_with(line, number)
    }

    /// Lets all indexes go, with their memory.
    pub fn forget_indexes(&mut self)
        ensures { self.new ≡ self.old }
    {
        self.indexes = Indexes::new(self.alloc);
    }

    /// Makes the index of the row or column that was searched last without one, where it was searched so often that it
    /// pays. The work is that of `contents_from`, with a hash for each number. If memory runs out, there is none.
    pub fn index_searched(&mut self)
        ensures { self.new ≡ self.old }
    {
        self.indexes.make(self.alloc, &self.rooms);
    }

    /// The contents of a rectangle with their cells, in row-major order, at a cell or after it. Made in constant time;
    /// a step for each of them, one search for each 16 rows, and where more than one of their tiles lie in the
    /// rectangle, one step more for each tile of each row.
    pub fn contents_from(&self, area: Rect, from: Address) -> Contents<'_>
        ensures { result ≡ filter (λ e. is_ahead area (Some from) e.0) self.now.sheet }
    {
        Contents::new(&self.rooms, area, from)
    }
}

/// The cells of the contents that are a formula.
fn formula_cells(alloc: Global, contents: Contents<'_>) -> Result<Vec<Address>, AllocError>
    ensures { IfOk result (λ found. found.items ≡ formula_cells contents.entry) }
{
    let mut found = Vec::new(alloc);
    for (cell, content) in contents {
        if is_formula(content) {
            found.push(cell)?;
        }
    }
    Ok(found)
}

/// Whether a content is a formula.
fn is_formula(content: &Content) -> bool
    ensures { result ≡ has_formula (Some content.now) }
{
    matches!(content, Content::Formula(_))
}

/// Does an edit, and answers how many cells have a content then, or refuses it and leaves the sheet as it was; `before`
/// is how many have one before. Rooms of the changed cells may be vacant after either.
fn edit(
    rooms: &mut Rooms,
    before: u64,
    limits: &Limits,
    edits: u64,
    changes: &mut [NewRoom],
) -> Result<u64, StoreFault>
    requires between { AreBetweenEdits None rooms.old.entries }
    requires before { before ≡ length (sheet_in rooms.old.entries) }
    ensures done { OnOk result (sheet_in rooms.new.entries
        ≡ edited (sheet_in rooms.old.entries) changes.old) }
    ensures refused { OnErr result (sheet_in rooms.new.entries ≡ sheet_in rooms.old.entries) }
    ensures cause { (result ≡ Err StoreFault.Memory)
        ⊎ (result ≡ admitted limits.now
        (length (edited (sheet_in rooms.old.entries) changes.old)) edits) }
    ensures edit { AreInEdit None (keys_of changes.new) rooms.new.entries }
{
    make_rooms(rooms, changes)?;
    let occupied = exchange_all(rooms, changes, before);
    let answer = limits.admit(occupied, edits);
    if answer.is_err() {
        exchange_back(rooms, changes);
    }
    answer
}
