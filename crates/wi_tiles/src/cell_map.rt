//! A map by cell address.

ghost use Rattle.std.specs.Prelude.{◌≡◌, ◌↔◌, ◌&&◌, ◌<◌, ◌≤◌, ◌*◌, [], Some, nat_le, filter, length, is_some, not, IsTrue, IfSome, IfOk, OnOk, OnErr, option_copied, option_map, if◌then◌else◌};
ghost use Rattle.std.specs.Ordering.{nat_cmp};
ghost use Rattle.std.specs.List.{find, All};
ghost use Rattle.std.specs.Map.{keys_of, remove_entry, set_value};
ghost use Rattle.std.specs.BTreeMap.{is_at, insert_entry};
ghost use Rattle.wi_tiles.specs.Entries.{get, IsOrdered};
ghost use Rattle.wi_values.specs.Address.{rows, columns, is_within};

use crate::found::found_from;
use crate::pages::{Pages, path_of};
use crate::window::Window;
use crate::within::Within;
use std::alloc::{AllocError, Global};
use std::marker::Model;
use wi_values::{Address, COLUMNS, ROWS, Rect};

/// A map by cell address, in row-major order. It is seen as the kit's `BTreeMap` is.
#[derive(Drop)]
pub struct CellMap<V> {
    pages: Pages<V>,
    occupied: u64,
    alloc: Global,
}

impl<V> Model for CellMap<V> {
    ghost use Rattle.std.specs.Prelude.{◌≡◌, length};
    ghost use Rattle.wi_tiles.specs.Entries.{CellEntries};
    ghost use Rattle.wi_tiles.specs.Inner.Entries.{map_of, entries_of};
    ghost use Rattle.wi_tiles.specs.Inner.Lines.{slot};
    ghost use Rattle.wi_tiles.specs.Inner.Parts.{at_window, IsTrimmed};
    ghost use Rattle.wi_tiles.specs.Inner.Sorted.{at_sorted};

    ghost Value = { CellEntries V };

    ghost view = { λ m. map_of (entries_of m.pages) };

    ghost invariant = { λ m. (m.occupied ≡ length (entries_of m.pages))
        × IsTrimmed (at_window (at_sorted slot)) m.pages.1 };
}

impl<V: Drop> CellMap<V> {
    /// Nothing. Takes no memory.
    pub fn new(alloc: Global) -> CellMap<V>
        ensures { result.entries ≡ [] }
    {
        CellMap {
            pages: Window::new(alloc),
            occupied: 0,
            alloc,
        }
    }

    /// How many cells have something.
    pub fn len(&self) -> usize
        ensures len { result ≡ length self.now.entries }
        ensures ordered { IsOrdered nat_cmp self.now }
        ensures sheet { All (λ e. e.0 < rows * columns) self.now.entries }
        ensures small { result ≤ rows * columns }
    {
        self.occupied as usize
    }

    /// Whether no cell has anything.
    pub fn is_empty(&self) -> bool
        ensures { IsTrue result ↔ (self.now.entries ≡ []) }
    {
        self.occupied == 0
    }

    /// What a cell has. Logarithmic in the tiles of its 16 rows that have something, and else constant.
    #[inline(always)]
    pub fn get(&self, cell: Address) -> Option<&V>
        ensures { option_copied result ≡ get nat_cmp self.now cell }
    {
        self.pages.get(path_of(cell))
    }

    /// Puts a value into a cell that has nothing, and answers whether it had nothing. If memory runs out, all is as
    /// before. Logarithmic in the tiles of its 16 rows, beside moving up to 63 values; linear in these tiles where one
    /// is new.
    pub fn put_new(&mut self, cell: Address, value: V) -> Result<bool, AllocError>
        ensures new { IfOk result (λ new. new ≡ not (is_some (get nat_cmp self.old cell))) }
        ensures entries { OnOk result (self.new.entries ≡ (if is_some (get nat_cmp self.old cell)
            then self.old.entries else insert_entry nat_cmp self.old.entries cell value)) }
        ensures err { OnErr result (self.new ≡ self.old) }
    {
        let new = self.pages.put_new(path_of(cell), value, self.alloc)?;
        self.occupied += u64::from(new);
        Ok(new)
    }

    /// Puts a value in the place of what a cell has, and gives that; a cell that has nothing gets nothing. Takes no
    /// memory. Logarithmic in the tiles of its 16 rows, as `get`.
    pub fn replace(&mut self, cell: Address, value: V) -> Option<V>
        ensures stood { result ≡ get nat_cmp self.old cell }
        ensures entries { self.new.entries
            ≡ set_value (is_at (nat_cmp cell)) self.old.entries value }
    {
        self.pages.replace(path_of(cell), value)
    }

    /// Takes away what a cell has, and gives that. Takes no memory. A tile that has nothing then goes, and 16 or 4,096
    /// rows that have nothing go where none before them, or none behind them, have anything. Logarithmic in the tiles
    /// of its 16 rows, beside moving up to 63 values, and where the first rows go up to 255 others; linear in these
    /// tiles where one goes.
    pub fn remove(&mut self, cell: Address) -> Option<V>
        ensures stood { result ≡ get nat_cmp self.old cell }
        ensures entries { self.new.entries ≡ remove_entry (is_at (nat_cmp cell)) self.old.entries }
    {
        match self.pages.remove(path_of(cell), self.alloc) {
            Some(value) => {
                self.occupied -= 1;
                Some(value)
            }
            None => None,
        }
    }

    /// Takes away what all cells have. Linear in the values, the tiles and the bands of 16 rows that go.
    pub fn clear(&mut self)
        ensures { self.new.entries ≡ [] }
    {
        self.pages.clear();
        self.occupied = 0;
    }

    /// The first cell of a rectangle, in row-major order, at a cell or after it, that has something. One search among
    /// the tiles of 16 rows for these, and if more than one of them lie in the rectangle, one step for each in each row
    /// up to it. Rows where nothing stands are passed at once, and so are 4,096 rows where nothing has stood in its
    /// columns, nor in any with the same remainder by 64.
    pub fn next_in(&self, area: Rect, from: Address) -> Option<Address>
        ensures { result
            ≡ find (λ a. nat_le from a) (filter (is_within area) (keys_of self.now.entries)) }
    {
        match self.first_in(area, from) {
            Some(found) => Some(found.0),
            None => None,
        }
    }

    /// What the cells of a rectangle have, with the cells, in row-major order, at a cell or after it. Takes no memory.
    /// Made in constant time; a step among the bits of a tile for each cell, one search for each 16 rows, and where
    /// more than one of their tiles lie in the rectangle, one step more for each tile of each row.
    pub fn within(&self, area: Rect, from: Address) -> Within<'_, V>
        ensures { result ≡ filter (λ e. nat_le from e.0 && is_within area e.0) self.now.entries }
    {
        Within::new(&self.pages, area, from)
    }

    /// The cell that `next_in` gives, with what it has, at the cost of `next_in`: one search among the tiles of 16
    /// rows, for those that aren't passed at once, and steps among these tiles.
    pub fn first_in(&self, area: Rect, from: Address) -> Option<(Address, &V)>
        ensures cell { option_map (λ x. x.0) result
            ≡ find (λ a. nat_le from a) (filter (is_within area) (keys_of self.now.entries)) }
        ensures value { IfSome result (λ x. get nat_cmp self.now x.0 ≡ Some x.1.now) }
    {
        found_from(&self.pages, area, from)
    }

    /// What all cells have, with the cells, in row-major order. Takes no memory. Made in constant time; its steps cost
    /// as those of `within`.
    pub fn iter(&self) -> Within<'_, V>
        ensures entries { result ≡ self.now.entries }
        ensures sheet { All (λ e. e.0 < rows * columns) self.now.entries }
    {
        Within::new(&self.pages, sheet(), Address::at(0, 0))
    }
}

/// All cells.
fn sheet() -> Rect
    ensures first { result.first ≡ 0 }
    ensures last { result.last ≡ 17179869183 }
{
    Rect::new(Address::at(0, 0), Address::at(ROWS - 1, COLUMNS - 1))
}
