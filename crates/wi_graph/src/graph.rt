//! The graph of references.

ghost use Rattle.std.specs.Prelude.{◌≡◌, ◌↔◌, ◌&&◌, [], ℕ, true, false, not, Some, None, IsTrue, IfOk, IfSome, OnOk, OnErr};
ghost use Rattle.std.specs.List.Sorted.{IsStrictlyIncreasing};
ghost use Rattle.std.specs.Option.{unwrap_or};
ghost use Rattle.std.specs.Ordering.{nat_cmp};
ghost use Rattle.wi_tiles.specs.Entries.{IsOrdered};
ghost use Rattle.wi_parser.specs.Sheet.{Sheet, content_of};
ghost use Rattle.wi_parser.specs.Reads.{content_reads};
ghost use Rattle.wi_graph.specs.Circular.{circular};
ghost use Rattle.wi_values.specs.Address.{is_one_of};
ghost use Rattle.wi_graph.specs.Reach.{in_cone};
ghost use Rattle.wi_graph.specs.Watched.{AreReadAlike, IsClosedUp};
ghost use Rattle.wi_graph.specs.Latest.{IsUnread};
ghost use Rattle.wi_graph.specs.Edges.{AreEdgesOf, edges_after, staging};
ghost use Rattle.wi_graph.specs.Inner.Changes.{Brings};
ghost use Rattle.wi_graph.specs.Inner.Rooms.{room_at, AreInOrder, HasNoIdle, IsGraph, IsStaged};
ghost use Rattle.wi_graph.specs.Inner.Turning.{AreTurns};

use crate::apart::are_apart;
use crate::beyond::listed_beyond;
use crate::cell_set::CellSet;
use crate::cells::Cells;
use crate::changes::rooms_of;
use crate::cone::{any_is_read, listed_cone};
use crate::edit::GraphEdit;
use crate::rooms::{Coming, Rooms, cancel_rooms, commit_rooms};
use crate::sets::take_away;
use crate::staging::bring_in;
use crate::turning::{Turns, bring_cyclic, turns_of};
use crate::watch::Watch;
use std::alloc::{AllocError, Global};
use std::marker::Model;
use wi_parser::NewContent;
use wi_ranges::RangeIndex;
use wi_tiles::CellMap;
use wi_values::Address;

/// An edit that is neither committed nor rolled back yet. Its rooms are made, its pairs are in the index, and what it
/// makes circular is in the set.
#[derive(Drop)]
struct Staged {
    next: Coming,
    turns: Turns,
}

/// Which cells the formulas of a sheet read. It is seen as their edges, and those of an edit that is staged.
#[derive(Drop)]
pub struct Graph {
    rooms: Rooms,
    readers: RangeIndex,
    cyclic: CellSet,
    staged: Option<Staged>,
    alloc: Global,
}

impl Model for Graph {
    ghost use Rattle.wi_graph.specs.Edges.{Staging, staging};

    ghost Value = { Staging };

    ghost use Rattle.std.specs.Prelude.{option_map, IfSome, IfNone};
    ghost use Rattle.wi_graph.specs.Inner.Rooms.{edges_in, edges_over, IsGraph, IsStaged};

    ghost view = { λ g. staging (edges_in g.rooms.entries)
        (option_map (λ x. edges_over (edges_in g.rooms.entries) x.next.items) g.staged) };

    ghost invariant = { λ g. IfNone g.staged (IsGraph g.rooms g.readers g.cyclic)
        × IfSome g.staged (λ x. IsStaged g.rooms x.next.items g.readers g.cyclic x.turns) };
}

impl Graph {
    /// No formulas. Takes no memory.
    pub fn new(alloc: Global) -> Graph
        ensures { result ≡ staging [] None }
    {
        Graph {
            rooms: CellMap::new(alloc),
            readers: RangeIndex::new(alloc),
            cyclic: CellSet::new(alloc),
            staged: None,
            alloc,
        }
    }

    /// Makes ready an edit, which gives each named cell a content or none; of two for one cell the later counts. If
    /// memory runs out, all is as before. The cone is searched for only where a cycle may be closed or opened: not
    /// where each cell reads what it read, nor where one cell that isn't circular gets something that reads neither it
    /// nor a formula. Where it reads formulas, but no circular cell, what it reads at any remove is searched for it at
    /// the same time, so that the work grows with the shorter of the two searches.
    #[inline(always)]
    pub fn stage(&mut self, changes: &[NewContent]) -> Result<(), AllocError>
        requires { self.old.staged ≡ None }
        ensures ok { OnOk result (self.new
            ≡ staging self.old.now (Some (edges_after self.old.now changes.now))) }
        ensures err { OnErr result (self.new ≡ self.old) }
    {
        let staged = make_ready(
            self.alloc,
            &mut self.rooms,
            &mut self.readers,
            &mut self.cyclic,
            changes,
        )?;
        self.staged = Some(staged);
        Ok(())
    }

    /// Whether an edit is staged after which each cell reads what it read before.
    pub fn reads_stay(&self) -> bool
        ensures { IsTrue result ↔ (self.now.staged ≡ Some self.now.now) }
    {
        match &self.staged {
            Some(staged) => staged.next.is_empty(),
            None => false,
        }
    }

    /// Whether an edit is staged after which each watched cell is read by the same cells as before, as far as few steps
    /// tell: where a cell that it names reads a rectangle of more than 32 cells, it answers no. The work grows with the
    /// cells of the rectangles that the named cells read, before and after.
    pub fn readers_stay<W: Watch>(&self, watch: &W) -> bool
        ensures { IsTrue result → (s t : Sheet) → AreEdgesOf self.now.now s
            → IfSome self.now.staged (λ es. AreEdgesOf es t)
            → AreReadAlike (W.watched watch.now) s t }
    {
        match &self.staged {
            Some(staged) => are_apart(&self.rooms, &staged.next, watch),
            None => false,
        }
    }

    /// Commits the edit that was staged, if one was. Takes no memory.
    pub fn commit(&mut self)
        ensures { self.new ≡ staging (unwrap_or self.old.staged self.old.now) None }
    {
        let Some(staged) = &mut self.staged else {
            return;
        };
        commit_rooms(&mut self.rooms, &mut self.readers, &mut staged.next);
        take_away(&mut self.cyclic, &staged.turns.ceased);
        self.staged = None;
    }

    /// Rolls back the edit that was staged, if one was. Takes no memory.
    pub fn rollback(&mut self)
        ensures { self.new ≡ staging self.old.now None }
    {
        if let Some(mut staged) = self.staged.take() {
            cancel_rooms(&mut self.rooms, &mut self.readers, &mut staged.next);
            take_away(&mut self.cyclic, &staged.turns.became);
        }
    }

    /// Whether a cell is on or above a cycle of references. The work grows with the logarithm of the count of such
    /// cells.
    pub fn is_circular(&self, at: Address) -> bool
        requires { self.now.staged ≡ None }
        ensures { (s : Sheet) → AreEdgesOf self.now.now s → result ≡ circular s at }
    {
        self.cyclic.contains(&at)
    }

    /// The cells that read one of these, at any remove, with themselves: each once, in row-major order. The work grows
    /// with their count and that of their readers, times logarithms.
    pub fn cone(&self, cells: &[Address]) -> Result<Vec<Address>, AllocError>
        requires { self.now.staged ≡ None }
        ensures order { IfOk result (λ cone. IsStrictlyIncreasing cone.items) }
        ensures cells { IfOk result (λ cone. (s : Sheet) → AreEdgesOf self.now.now s
            → (c : ℕ) → is_one_of cone.items c ≡ in_cone s cells.now c) }
    {
        listed_cone(self.alloc, &self.readers, cells)
    }

    /// Whether some formula reads one of these cells. The index is asked for each (`has_readers`), up to the first that
    /// is read: by the cell alone where it lies apart from all that is read by rectangles, and else by the blocks that
    /// hold its row too.
    pub fn any_is_read(&self, cells: &[Address]) -> bool
        requires { self.now.staged ≡ None }
        ensures unread { result ≡ false → (s : Sheet) → AreEdgesOf self.now.now s
            → (x : ℕ) → is_one_of cells.now x ≡ true → IsUnread s x }
        ensures read { IsTrue result → (s : Sheet) → AreEdgesOf self.now.now s
            → (x : ℕ) × (is_one_of cells.now x ≡ true)
            × (c : ℕ) × (content_reads (content_of s c) x ≡ true) }
    {
        any_is_read(&self.readers, cells)
    }

    /// What `cone` answers but for cells that are watched, where each that reads a watched cell is watched. The work
    /// grows with the count of the cells that it tells and that of their readers, times logarithms.
    pub fn cone_beyond<W: Watch>(&self, cells: &[Address], watch: &W) -> Result<Cells, AllocError>
        requires staged { self.now.staged ≡ None }
        requires closed { (s : Sheet) → AreEdgesOf self.now.now s
            → IsClosedUp s (W.watched watch.now) }
        ensures order { IfOk result (λ cone. IsStrictlyIncreasing cone.items) }
        ensures cells { IfOk result (λ cone. (s : Sheet) → AreEdgesOf self.now.now s
            → (c : ℕ) → is_one_of cone.items c
            ≡ (in_cone s cells.now c && not (W.watched watch.now c))) }
    {
        listed_beyond(self.alloc, &self.readers, cells, watch)
    }
}

/// Makes ready an edit. If memory runs out, all is as before.
#[inline(always)]
fn make_ready(
    alloc: Global,
    rooms: &mut Rooms,
    readers: &mut RangeIndex,
    cyclic: &mut CellSet,
    changes: &[NewContent],
) -> Result<Staged, AllocError>
    requires { IsGraph rooms.old readers.old cyclic.old }
    ensures ordered { IsOrdered nat_cmp rooms.new }
    ensures rooms { (c : ℕ) → room_at rooms.new c ≡ room_at rooms.old c }
    ensures brings { IfOk result (λ staged. Brings rooms.old staged.next.items changes.now) }
    ensures staged { IfOk result (λ staged.
        IsStaged rooms.new staged.next.items readers.new cyclic.new staged.turns) }
    ensures err { OnErr result (IsGraph rooms.new readers.new cyclic.new) }
{
    let next = rooms_of(alloc, rooms, changes)?;
    let edit = GraphEdit {
        rooms,
        readers,
        cyclic,
        next: &next,
        changes,
    };
    let turns = turns_of(alloc, &edit)?;
    bring(rooms, readers, cyclic, next, turns)
}

/// Brings in what is next, with the cells that it turns. If memory runs out, all is as before.
fn bring(
    rooms: &mut Rooms,
    readers: &mut RangeIndex,
    cyclic: &mut CellSet,
    next: Coming,
    turns: Turns,
) -> Result<Staged, AllocError>
    requires graph { IsGraph rooms.old readers.old cyclic.old }
    requires order { AreInOrder next.items }
    requires no_idle { HasNoIdle rooms.old next.items }
    requires turns { AreTurns rooms.old next.items cyclic.old turns }
    ensures ordered { IsOrdered nat_cmp rooms.new }
    ensures rooms { (c : ℕ) → room_at rooms.new c ≡ room_at rooms.old c }
    ensures next { IfOk result (λ staged. staged.next ≡ next) }
    ensures staged { IfOk result (λ staged.
        IsStaged rooms.new staged.next.items readers.new cyclic.new staged.turns) }
    ensures err { OnErr result (IsGraph rooms.new readers.new cyclic.new) }
{
    bring_cyclic(cyclic, &turns.became)?;
    match bring_in(rooms, readers, &next) {
        Ok(()) => Ok(Staged { next, turns }),
        Err(error) => {
            take_away(cyclic, &turns.became);
            Err(error)
        }
    }
}
