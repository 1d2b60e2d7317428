//! The cells that read one of a list, at any remove, but for those that are watched.

ghost use Rattle.std.specs.Prelude.{◌≡◌, ◌∷◌, ℕ, [], true, false, IfOk, OnOk};
ghost use Rattle.wi_values.specs.Address.{is_one_of};
ghost use Rattle.wi_graph.specs.Inner.Search.{IsConeBeyond, IsListBeyond, AreEnqueued, beyond};

use crate::cells::Cells;
use crate::cone::{are_alone, enqueue, enqueue_one};
use crate::watch::Watch;
use std::alloc::{AllocError, Global};
use wi_ranges::{RangeIndex, RisingSet};
use wi_values::Address;

/// The cells that read one of these, at any remove, with themselves, but for those that are watched and what is found
/// by them alone: each once, in row-major order. Of the cells given those that are watched cost a look, and where the
/// others stand in that order and nothing reads them, they cost no more than the search for their readers.
pub(crate) fn listed_beyond<W: Watch>(
    alloc: Global,
    readers: &RangeIndex,
    cells: &[Address],
    watch: &W,
) -> Result<Cells, AllocError>
    ensures { IfOk result (λ list.
        IsListBeyond readers.now (W.watched watch.now) cells.now list.items) }
{
    let own = unwatched(alloc, cells, watch)?;
    if are_alone(readers, &own) {
        return Ok(own);
    }
    let found = cone_beyond(alloc, readers, &own, watch)?;
    let list = found.into_list()?;
    Ok(Cells::from_vec(list))
}

/// The cells that read one of these, at any remove, with themselves, but for those that are watched. None of these is
/// watched.
pub(crate) fn cone_beyond<W: Watch>(
    alloc: Global,
    readers: &RangeIndex,
    cells: &[Address],
    watch: &W,
) -> Result<RisingSet, AllocError>
    requires { (c : ℕ) → is_one_of cells.now c ≡ true → W.watched watch.now c ≡ false }
    ensures { IfOk result (λ found.
        IsConeBeyond readers.now (W.watched watch.now) cells.now found) }
{
    let mut found = RisingSet::new(alloc);
    let mut search = readers.search();
    let mut work = Vec::new(alloc);
    enqueue(cells, &mut found, &mut work)?;
    'cells: while let Some(cell) = work.pop() {
        let next = search.readers_of(cell)?;
        enqueue_beyond(&next, watch, &mut found, &mut work)?;
    }
    Ok(found)
}

/// Puts those of some cells that aren't watched into a set, and those that are new there at the end of a list.
fn enqueue_beyond<W: Watch>(
    cells: &[Address],
    watch: &W,
    found: &mut RisingSet,
    work: &mut Vec<Address>,
) -> Result<(), AllocError>
    ensures { OnOk result (AreEnqueued (beyond (W.watched watch.now) cells.now)
        found.old found.new work.old.items work.new.items) }
{
    for cell in cells {
        enqueue_unwatched(*cell, watch, found, work)?;
    }
    Ok(())
}

/// Puts a cell into a set, and at the end of a list if it is new in the set; one that is watched goes nowhere.
fn enqueue_unwatched<W: Watch>(
    cell: Address,
    watch: &W,
    found: &mut RisingSet,
    work: &mut Vec<Address>,
) -> Result<(), AllocError>
    ensures { OnOk result (AreEnqueued (beyond (W.watched watch.now) (cell ∷ []))
        found.old found.new work.old.items work.new.items) }
{
    if watch.has(cell) {
        return Ok(());
    }
    enqueue_one(cell, found, work)
}

/// Those of the cells that aren't watched.
fn unwatched<W: Watch>(alloc: Global, cells: &[Address], watch: &W) -> Result<Cells, AllocError>
    ensures { IfOk result (λ list. list.items ≡ beyond (W.watched watch.now) cells.now) }
{
    let mut list = Cells::new(alloc);
    for cell in cells {
        if !watch.has(*cell) {
            list.push(*cell)?;
        }
    }
    Ok(list)
}
