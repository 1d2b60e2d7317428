//! Indexes of rows and columns that are searched again and again.

ghost use Rattle.std.specs.Prelude.{◌≡◌, [], None, IfOk, IfSome, IsTrue, OnOk};
ghost use Rattle.wi_parser.specs.Sheet.{Sheet};
ghost use Rattle.wi_tiles.specs.Rooms.{AreBetweenEdits};
ghost use Rattle.wi_store.specs.Store.{IsFirstNumber, contents_in};
ghost use Rattle.wi_store.specs.Inner.Indexes.{AreIndexesOf, IsIndexOf, IsLineIndexOf, TakesIn};
ghost use Rattle.wi_store.specs.Inner.Rooms.{sheet_in};

use crate::contents::Contents;
use crate::rooms::Rooms;
use std::alloc::{AllocError, Global};
use std::cell::Cell;
use std::collections::HashMap;
use wi_fraction::Fraction;
use wi_parser::Content;
use wi_values::{Address, Rect, Value};

/// How many indexes are kept. Each has no more entries than the sheet has cells.
const MAX_INDEXES: usize = 16;

/// How many searches are noted.
const MAX_SEARCHES: usize = 256;

/// How many searches through a row or column come before its index, which takes about as long to make.
const SEARCHES: usize = 12;

/// How many cells a row or column has at least that gets an index.
const MIN_CELLS: u64 = 32;

/// The first cell with each number.
type FirstCells = HashMap<Fraction, Address>;

/// The index of a row or column. It has no cells where a formula stands there, or memory ran out.
#[derive(Drop)]
pub(crate) struct LineIndex {
    pub line: Rect,
    pub cells: Option<FirstCells>,
}

/// Indexes of rows and columns, and notes of which may get one.
#[derive(Drop)]
pub(crate) struct Indexes {
    pub made: Vec<LineIndex>,
    searches: Vec<Rect>,
    // The last search for which there was no index.
    searched: Cell<Option<Rect>>,
}

impl Indexes {
    /// None yet. Takes no memory.
    pub(crate) fn new(alloc: Global) -> Indexes
        ensures { (s : Sheet) → AreIndexesOf s result }
    {
        Indexes {
            made: Vec::new(alloc),
            searches: Vec::new(alloc),
            searched: Cell::new(None),
        }
    }

    /// All go, with what is noted of searches.
    pub(crate) fn clear(&mut self)
        ensures { (s : Sheet) → AreIndexesOf s self.new }
    {
        if self.is_empty() {
            return;
        }
        self.made.clear();
        self.searches.clear();
    }

    /// Whether there is none, and no search is noted.
    fn is_empty(&self) -> bool
        ensures { IsTrue result → self.now.made.items ≡ [] }
    {
        self.made.is_empty() && self.searches.is_empty()
    }

    /// The first cell of a row or column with a number, where it has an index. Else the search is noted. The work grows
    /// with the count of indexes, beside the hash of the number.
    pub(crate) fn first_with(&self, line: Rect, number: Fraction) -> Option<Option<Address>>
        ensures { (s : Sheet) → AreIndexesOf s self.now
            → IfSome result (IsFirstNumber (contents_in line s) number) }
    {
        match self.find(line) {
            Some(index) => index.first_with(number),
            None => {
                self.searched.set(Some(line));
                None
            }
        }
    }

    /// The index of a row or column.
    fn find(&self, line: Rect) -> Option<&LineIndex>
        ensures line { IfSome result (λ i. i.now.line ≡ line) }
        ensures index { (s : Sheet) → AreIndexesOf s self.now
            → IfSome result (λ i. IsLineIndexOf s i.now) }
    {
        for index in &self.made {
            if index.line == line {
                return Some(index);
            }
        }
        None
    }

    /// Makes the index of the row or column that was searched last without one, where it was searched so often that it
    /// pays. The work is that of `Store::contents_from`, with a hash for each number. If memory runs out, none is made.
    pub(crate) fn make(&mut self, alloc: Global, rooms: &Rooms)
        requires { AreBetweenEdits None rooms.now.entries }
        ensures { AreIndexesOf (sheet_in rooms.now.entries) self.old
            → AreIndexesOf (sheet_in rooms.now.entries) self.new }
    {
        let Some(line) = self.searched.take() else {
            return;
        };
        if line.size() < MIN_CELLS || self.searches_through(line) < SEARCHES {
            return;
        }
        self.add(LineIndex::new(alloc, line, rooms));
    }

    /// Notes a search through a row or column, and tells how many are noted. Where there are many, the others go.
    fn searches_through(&mut self, line: Rect) -> usize
        ensures { self.new.made ≡ self.old.made }
    {
        if self.searches.len() >= MAX_SEARCHES {
            self.searches.clear();
        }
        let _ = self.searches.push(line);
        self.searches
            .iter()
            .filter(|searched| **searched == line)
            .count()
    }

    /// Adds an index. Where there are many, the others go.
    fn add(&mut self, index: LineIndex)
        ensures { (s : Sheet) → AreIndexesOf s self.old
            → IsLineIndexOf s index → AreIndexesOf s self.new }
    {
        self.make_space();
        if self.made.reserve(1).is_ok() {
            self.made.push_reserved(index);
        }
    }

    /// Lets all indexes go where there are many.
    fn make_space(&mut self)
        ensures { (s : Sheet) → AreIndexesOf s self.old → AreIndexesOf s self.new }
    {
        if self.made.len() >= MAX_INDEXES {
            self.made.clear();
        }
    }
}

impl LineIndex {
    /// The index of a row or column.
    fn new(alloc: Global, line: Rect, rooms: &Rooms) -> LineIndex
        requires { AreBetweenEdits None rooms.now.entries }
        ensures { IsLineIndexOf (sheet_in rooms.now.entries) result }
    {
        let cells = first_cells(alloc, Contents::new(rooms, line, line.first()));
        LineIndex {
            line,
            cells: cells.unwrap_or(None),
        }
    }

    /// The first cell with a number, where that is told.
    fn first_with(&self, number: Fraction) -> Option<Option<Address>>
        ensures { (s : Sheet) → IsLineIndexOf s self.now
            → IfSome result (IsFirstNumber (contents_in self.now.line s) number) }
    {
        match &self.cells {
            Some(cells) => Some(cells.get(&number).copied()),
            None => None,
        }
    }
}

/// The first cell with each number among contents, where none of them is a formula.
fn first_cells(alloc: Global, contents: Contents<'_>) -> Result<Option<FirstCells>, AllocError>
    ensures { IfOk result (λ o. IfSome o (IsIndexOf contents.entry)) }
{
    let mut cells = HashMap::new(alloc);
    for (at, content) in contents {
        match content {
            Content::Constant(value) => take_in(&mut cells, at, value)?,
            Content::Formula(_) => return Ok(None),
        }
    }
    Ok(Some(cells))
}

/// Takes in a cell with a value, behind the others.
fn take_in(cells: &mut FirstCells, at: Address, value: &Value) -> Result<(), AllocError>
    ensures { OnOk result (TakesIn at value.now cells.old cells.new) }
{
    if let Value::Number(number) = value {
        if cells.get(number).is_none() {
            cells.insert(*number, at)?;
        }
    }
    Ok(())
}
