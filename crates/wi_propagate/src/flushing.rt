//! Stamps of the cells that reach what was edited.

ghost use Rattle.std.specs.Prelude.{◌≡◌, ◌&&◌, ◌||◌, ◌∷◌, ℕ, [], max, nat_lt, not, None, true, false, if◌then◌else◌, IfOk, OnOk, OnErr};
ghost use Rattle.std.specs.Map.{keys_of};
ghost use Rattle.wi_values.specs.Address.{is_one_of};
ghost use Rattle.wi_parser.specs.Sheet.{Sheet};
ghost use Rattle.wi_graph.specs.Reach.{in_cone};
ghost use Rattle.wi_graph.specs.Edges.{AreEdgesOf};
ghost use Rattle.wi_graph.specs.Watched.{IsClosedUp};
ghost use Rattle.wi_graph.specs.Latest.{AreDirty};
ghost use Rattle.wi_graph.specs.Inner.Below.{has_visited};
ghost use Rattle.wi_propagate.specs.KeptSheet.{generation_in};
ghost use Rattle.wi_propagate.specs.Inner.Stamps.{stamped_in, IsHeadOf};
ghost use Rattle.wi_propagate.specs.Inner.Flushing.{second_cells};

use crate::generations::{Numbers, number_at};
use crate::late_stamps::LateStamps;
use std::alloc::{AllocError, Global};
use wi_graph::{Cells, Graph, Watch};
use wi_tiles::CellMap;
use wi_values::Address;

/// Cells that were visited.
#[derive(Drop)]
struct Visited<'a> {
    cells: &'a CellMap<()>,
}

impl<'a> Watch for Visited<'a> {
    ghost use Rattle.wi_graph.specs.Inner.Below.{has_visited};

    ghost watched = { λ w. has_visited w.cells.now };

    fn has(&self, at: Address) -> bool {
        self.cells.get(at).is_some()
    }
}

/// Stamps each cell that reaches the only dirty one with its number, and none is dirty then. If memory runs out, it is
/// dirty still.
pub(crate) fn flush_cell(
    graph: &Graph,
    edited_at: &Numbers,
    valid_since: &mut LateStamps,
    dirty: &mut Numbers,
    cell: Address,
) -> Result<(), AllocError>
    requires staged { graph.now.staged ≡ None }
    requires dirty { (s : Sheet) → AreEdgesOf graph.now.now s
        → AreDirty s (generation_in edited_at.now.entries)
        (keys_of dirty.old.entries) (stamped_in edited_at.now.entries valid_since.old.numbers) }
    requires head { (s : Sheet) → AreEdgesOf graph.now.now s
        → IsHeadOf s valid_since.old.head valid_since.old.cone }
    requires only { (x : ℕ) → is_one_of (keys_of dirty.old.entries) x ≡ true → cell ≡ x }
    ensures dirty { (s : Sheet) → AreEdgesOf graph.now.now s
        → AreDirty s (generation_in edited_at.now.entries)
        (keys_of dirty.new.entries) (stamped_in edited_at.now.entries valid_since.new.numbers) }
    ensures head { (s : Sheet) → AreEdgesOf graph.now.now s
        → IsHeadOf s valid_since.new.head valid_since.new.cone }
    ensures clean { OnOk result (keys_of dirty.new.entries ≡ []) }
{
    let number = number_at(edited_at, cell);
    if !valid_since.raise_cone(cell, number) {
        let cone = graph.cone(&[cell])?;
        valid_since.lift_cone(cell, cone, number)?;
    }
    dirty.clear();
    Ok(())
}

/// Stamps each cell that reaches dirty ones with the greatest of their numbers, and none is dirty then. If memory runs
/// out, they are dirty still.
pub(crate) fn flush_all(
    alloc: Global,
    graph: &Graph,
    edited_at: &Numbers,
    valid_since: &mut LateStamps,
    dirty: &mut Numbers,
) -> Result<(), AllocError>
    requires staged { graph.now.staged ≡ None }
    requires dirty { (s : Sheet) → AreEdgesOf graph.now.now s
        → AreDirty s (generation_in edited_at.now.entries)
        (keys_of dirty.old.entries) (stamped_in edited_at.now.entries valid_since.old.numbers) }
    ensures dirty { (s : Sheet) → AreEdgesOf graph.now.now s
        → AreDirty s (generation_in edited_at.now.entries)
        (keys_of dirty.new.entries) (stamped_in edited_at.now.entries valid_since.new.numbers) }
    ensures head { valid_since.new.head ≡ None }
    ensures clean { OnOk result (keys_of dirty.new.entries ≡ []) }
{
    valid_since.forget_head();
    let mut order = by_number(alloc, edited_at, dirty)?;
    let mut visited = CellMap::new(alloc);
    let mut last = 0;
    'cells: while let Some(entry) = order.pop() {
        let number = number_at(edited_at, entry.1);
        forget(&mut visited, last, number);
        last = number;
        flush_one(graph, valid_since, &mut visited, entry.1, number)?;
    }
    dirty.clear();
    Ok(())
}

/// The visited cells are forgotten where a later edit comes behind an earlier one.
fn forget(visited: &mut CellMap<()>, last: u64, number: u64)
    ensures { (c : ℕ) → has_visited visited.new c
        ≡ (if nat_lt last number then false else has_visited visited.old c) }
{
    if last < number {
        visited.clear();
    }
}

/// The dirty cells, those of later edits behind those of earlier ones.
fn by_number(
    alloc: Global,
    edited_at: &Numbers,
    dirty: &Numbers,
) -> Result<Vec<(u64, Address)>, AllocError>
    ensures { IfOk result (λ list.
        (x : ℕ) → is_one_of (keys_of dirty.now.entries) x ≡ is_one_of (second_cells list.items) x) }
{
    let mut order = Vec::new(alloc);
    let mut rest = dirty.iter();
    for _ in 0..dirty.len() {
        let Some(entry) = rest.next() else {
            return Ok(order);
        };
        order.push((number_at(edited_at, entry.0), entry.0))?;
    }
    order.sort_unstable_by_key(|entry| entry.0);
    Ok(order)
}

/// Stamps those cells of a cell's cone that weren't visited with its last edit, and they are visited then. If memory
/// runs out, the stamps are as before.
fn flush_one(
    graph: &Graph,
    valid_since: &mut LateStamps,
    visited: &mut CellMap<()>,
    at: Address,
    number: u64,
) -> Result<(), AllocError>
    requires staged { graph.now.staged ≡ None }
    requires closed { (s : Sheet) → AreEdgesOf graph.now.now s
        → IsClosedUp s (has_visited visited.old) }
    ensures valid_since { OnOk result ((s : Sheet) → AreEdgesOf graph.now.now s
        → (c : ℕ) → generation_in valid_since.new.numbers c
        ≡ (if in_cone s (at ∷ []) c && not (has_visited visited.old c)
        then max (generation_in valid_since.old.numbers c) number
        else generation_in valid_since.old.numbers c)) }
    ensures visited { OnOk result ((s : Sheet) → AreEdgesOf graph.now.now s
        → (c : ℕ) → has_visited visited.new c
        ≡ (has_visited visited.old c || (in_cone s (at ∷ []) c
        && not (has_visited visited.old c)))) }
    ensures err { OnErr result ((c : ℕ) → generation_in valid_since.new.numbers c
        ≡ generation_in valid_since.old.numbers c) }
    ensures head { valid_since.old.head ≡ None → valid_since.new.head ≡ None }
{
    let cone = beyond_visited(graph, visited, at)?;
    visit(visited, &cone)?;
    valid_since.lift(&cone, number)?;
    Ok(())
}

/// The cells of a cell's cone that weren't visited.
fn beyond_visited(graph: &Graph, visited: &CellMap<()>, at: Address) -> Result<Cells, AllocError>
    requires staged { graph.now.staged ≡ None }
    requires closed { (s : Sheet) → AreEdgesOf graph.now.now s
        → IsClosedUp s (has_visited visited.now) }
    ensures { IfOk result (λ cone. (s : Sheet) → AreEdgesOf graph.now.now s
        → (c : ℕ) → is_one_of cone.items c
        ≡ (in_cone s (at ∷ []) c && not (has_visited visited.now c))) }
{
    graph.cone_beyond(&[at], &Visited { cells: visited })
}

/// These cells are visited.
fn visit(visited: &mut CellMap<()>, cells: &[Address]) -> Result<(), AllocError>
    ensures { OnOk result ((c : ℕ) → has_visited visited.new c
        ≡ (has_visited visited.old c || is_one_of cells.now c)) }
{
    for cell in cells {
        visited.put_new(*cell, ())?;
    }
    Ok(())
}
