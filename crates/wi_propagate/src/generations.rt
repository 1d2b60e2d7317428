//! Generations of cells: the numbers of the last accepted edits in whose cones they were. An edit stamps the cells that
//! it names at once, and those that reach them when a question asks.

ghost use Rattle.std.specs.Prelude.{◌≡◌, ◌⊎◌, ℕ, [], max, true, None, if◌then◌else◌, IfSome, OnOk};
ghost use Rattle.std.specs.Map.{keys_of};
ghost use Rattle.wi_values.specs.Address.{is_one_of};
ghost use Rattle.wi_parser.specs.Sheet.{Sheet};
ghost use Rattle.wi_graph.specs.Edges.{AreEdgesOf};
ghost use Rattle.wi_graph.specs.Latest.{IsUnread};
ghost use Rattle.wi_propagate.specs.KeptSheet.{generation_in};
ghost use Rattle.wi_propagate.specs.Inner.Keeping.{HasGeneration};
ghost use Rattle.wi_propagate.specs.Inner.Stamps.{stamped_in, AreStamped, IsHeadOf};

use crate::flushing::{flush_all, flush_cell};
use crate::late_stamps::LateStamps;
use std::alloc::{AllocError, Global};
use std::marker::Model;
use wi_graph::Graph;
use wi_tiles::CellMap;
use wi_values::Address;

/// Numbers of edits, by cells. Any other cell has 0.
pub type Numbers = CellMap<u64>;

/// The generations of cells.
#[derive(Drop)]
pub struct Generations {
    // The number of the last edit that named a cell.
    edited_at: Numbers,
    // The number of the last edit that named what a cell reaches, as far as it is stamped.
    valid_since: LateStamps,
    // The cells whose dependents aren't stamped with their last edits yet, each with 0.
    dirty: Numbers,
    alloc: Global,
}

impl Model for Generations {
    ghost use Rattle.std.specs.Coded.{codes};
    ghost use Rattle.std.specs.Map.{keys_of};
    ghost use Rattle.wi_propagate.specs.Inner.Stamps.{Stamps};

    ghost Value = { Stamps };

    ghost coded = { Prim.hlevel codes };

    ghost view = { λ g. record {
      edited_at = g.edited_at.entries;
      valid_since = g.valid_since.numbers;
      head = g.valid_since.head;
      cone = g.valid_since.cone;
      dirty = keys_of g.dirty.entries;
    } };
}

impl Generations {
    /// No edits yet. Takes no memory.
    pub(crate) fn new(alloc: Global) -> Generations
        ensures { result
            ≡ record { edited_at = []; valid_since = []; head = None; cone = []; dirty = [] } }
    {
        Generations {
            edited_at: Numbers::new(alloc),
            valid_since: LateStamps::new(alloc),
            dirty: Numbers::new(alloc),
            alloc,
        }
    }

    /// What a cell is stamped with: its generation, where none is dirty.
    #[inline(always)]
    pub(crate) fn generation_of(&self, at: Address) -> u64
        ensures { result ≡ stamped_in self.now.edited_at self.now.valid_since at }
    {
        greater(
            number_at(&self.edited_at, at),
            self.valid_since.number_of(at),
        )
    }

    /// Makes an entry for each of these cells, and marks them dirty where some formula reads one of them. The work is
    /// that of `any_is_read`. If memory runs out, some may be dirty; after an edit that is refused, its cells stay
    /// dirty.
    pub(crate) fn mark_dirty(&mut self, graph: &Graph, cells: &[Address]) -> Result<(), AllocError>
        requires { graph.now.staged ≡ None }
        ensures edited_at { (c : ℕ) → generation_in self.new.edited_at c
            ≡ generation_in self.old.edited_at c }
        ensures valid_since { self.new.valid_since ≡ self.old.valid_since }
        ensures head { (self.new.head ≡ self.old.head) × (self.new.cone ≡ self.old.cone) }
        ensures stays { (c : ℕ) → is_one_of self.old.dirty c ≡ true
            → is_one_of self.new.dirty c ≡ true }
        ensures there { OnOk result ((c : ℕ) → is_one_of cells.now c ≡ true
            → HasGeneration self.new.edited_at c) }
        ensures dirty { OnOk result ((s : Sheet) → AreEdgesOf graph.now.now s
            → (x : ℕ) → is_one_of cells.now x ≡ true
            → (is_one_of self.new.dirty x ≡ true) ⊎ IsUnread s x) }
    {
        mark_read(&mut self.dirty, graph, cells)?;
        reserve(&mut self.edited_at, cells)
    }

    /// An edit of this number named these cells. Takes no memory.
    pub(crate) fn stamp(&mut self, cells: &[Address], edit: u64)
        requires { (c : ℕ) → is_one_of cells.now c ≡ true → HasGeneration self.old.edited_at c }
        ensures edited_at { (c : ℕ) → generation_in self.new.edited_at c
            ≡ (if is_one_of cells.now c then edit else generation_in self.old.edited_at c) }
        ensures valid_since { self.new.valid_since ≡ self.old.valid_since }
        ensures head { (self.new.head ≡ self.old.head) × (self.new.cone ≡ self.old.cone) }
        ensures dirty { self.new.dirty ≡ self.old.dirty }
    {
        raise(&mut self.edited_at, cells, edit);
    }

    /// Lets the head go if after the edit that is staged some cell reads other cells than before. Takes no memory. The
    /// work is that of `forget_head`.
    pub(crate) fn keep_over_edit(&mut self, graph: &Graph)
        ensures edited_at { self.new.edited_at ≡ self.old.edited_at }
        ensures valid_since { (c : ℕ) → generation_in self.new.valid_since c
            ≡ generation_in self.old.valid_since c }
        ensures dirty { self.new.dirty ≡ self.old.dirty }
        ensures head { (s t : Sheet) → AreEdgesOf graph.now.now s
            → IfSome graph.now.staged (λ es. AreEdgesOf es t)
            → IsHeadOf s self.old.head self.old.cone → IsHeadOf t self.new.head self.new.cone }
    {
        if !graph.reads_stay() {
            self.valid_since.forget_head();
        }
    }

    /// Stamps the dependents of dirty cells. Where the only one is that whose dependents were stamped last, the work is
    /// constant. Else it grows with their cone, beside a sort and a search for the readers of each dirty cell. If
    /// memory runs out, all are dirty still.
    pub(crate) fn flush(&mut self, graph: &Graph) -> Result<(), AllocError>
        requires staged { graph.now.staged ≡ None }
        requires stamped { (s : Sheet) → AreEdgesOf graph.now.now s → AreStamped s self.old }
        ensures edited_at { self.new.edited_at ≡ self.old.edited_at }
        ensures stamped { (s : Sheet) → AreEdgesOf graph.now.now s → AreStamped s self.new }
        ensures clean { OnOk result (self.new.dirty ≡ []) }
    {
        if self.dirty.is_empty() {
            return Ok(());
        }
        match only_cell(&self.dirty) {
            Some(cell) => flush_cell(
                graph,
                &self.edited_at,
                &mut self.valid_since,
                &mut self.dirty,
                cell,
            ),
            None => flush_all(
                self.alloc,
                graph,
                &self.edited_at,
                &mut self.valid_since,
                &mut self.dirty,
            ),
        }
    }
}

/// The only cell that has a number, if there is just one.
fn only_cell(numbers: &Numbers) -> Option<Address>
    ensures { IfSome result (λ cell.
        (x : ℕ) → is_one_of (keys_of numbers.now.entries) x ≡ true → cell ≡ x) }
{
    if numbers.len() != 1 {
        return None;
    }
    let mut rest = numbers.iter();
    let Some(entry) = rest.next() else {
        return None;
    };
    Some(entry.0)
}

/// Marks these cells dirty where some formula reads one of them.
fn mark_read(generations: &mut Numbers, graph: &Graph, cells: &[Address]) -> Result<(), AllocError>
    requires { graph.now.staged ≡ None }
    ensures stay { (c : ℕ) → HasGeneration generations.old.entries c
        → HasGeneration generations.new.entries c }
    ensures dirty { OnOk result ((s : Sheet) → AreEdgesOf graph.now.now s
        → (x : ℕ) → is_one_of cells.now x ≡ true
        → HasGeneration generations.new.entries x ⊎ IsUnread s x) }
{
    if !graph.any_is_read(cells) {
        return Ok(());
    }
    reserve(generations, cells)
}

/// The number of a cell.
#[inline(always)]
pub(crate) fn number_at(numbers: &Numbers, at: Address) -> u64
    ensures { result ≡ generation_in numbers.now.entries at }
{
    numbers.get(at).copied().unwrap_or(0)
}

/// The greater of two numbers.
pub(crate) fn greater(a: u64, b: u64) -> u64
    ensures { result ≡ max a b }
{
    if a < b { b } else { a }
}

/// Makes an entry for each of these cells: one that has none gets 0. If memory runs out, the entries made so far stay.
#[inline(always)]
pub(crate) fn reserve(generations: &mut Numbers, cells: &[Address]) -> Result<(), AllocError>
    ensures same { (c : ℕ)
        → generation_in generations.new.entries c ≡ generation_in generations.old.entries c }
    ensures stay { (c : ℕ) → HasGeneration generations.old.entries c
        → HasGeneration generations.new.entries c }
    ensures there { OnOk result ((c : ℕ) → is_one_of cells.now c ≡ true
        → HasGeneration generations.new.entries c) }
{
    for cell in cells {
        generations.put_new(*cell, 0)?;
    }
    Ok(())
}

/// Raises the numbers of these cells to that of an edit. Takes no memory.
pub(crate) fn raise(generations: &mut Numbers, cells: &[Address], edit: u64)
    requires { (c : ℕ) → is_one_of cells.now c ≡ true → HasGeneration generations.old.entries c }
    ensures { (c : ℕ) → generation_in generations.new.entries c
        ≡ (if is_one_of cells.now c then edit else generation_in generations.old.entries c) }
{
    for cell in cells {
        generations.replace(*cell, edit);
    }
}
