//! Which cells of a set are left where each that reads none of it is taken away, again and again.

ghost use Rattle.std.specs.Prelude.{◌≡◌, ◌==◌, ◌++◌, ◌∷◌, ℕ, [], true, false, None, IfOk, IfSome, IfNone, OnOk, if◌then◌else◌};
ghost use Rattle.std.specs.Ordering.{nat_cmp};
ghost use Rattle.std.specs.BTreeSet.{contains};
ghost use Rattle.wi_values.specs.Address.{is_within_one};
ghost use Rattle.wi_graph.specs.Inner.Stripping.{reads_in, waiting_for, KeepsReads, ReadsNone, EachReadsOne, AreStripped, IsWithin, IsTracking, IsFree};

use crate::cell_set::CellSet;
use crate::sets::without;
use crate::within::{next_within, rows_from};
use std::alloc::{AllocError, Global};
use std::collections::BTreeMap;
use wi_values::{Address, Rect};

/// The rectangles that formulas read, by their cells.
pub(crate) type ReadsByCell = BTreeMap<Address, Vec<Rect>>;

/// Cells that wait, by a cell that they read.
type Waiters = BTreeMap<Address, Vec<Address>>;

/// Takes away from a set, again and again, each cell that reads none of the set; the cells of `pinned` stay, whatever
/// they read. The work grows with the count of the cells, of the rectangles that they read, of the cells of the set in
/// each of these, and, where the rectangle around the set meets it, of its rows where a cell of the set stands beside
/// it, times logarithms. If memory runs out, some that could go stay.
pub(crate) fn strip(
    alloc: Global,
    mut areas: ReadsByCell,
    pinned: &CellSet,
    rest: &mut CellSet,
) -> Result<(), AllocError>
    ensures within { IsWithin rest.new rest.old }
    ensures gone { AreStripped areas pinned.now rest.old rest.new }
    ensures left { OnOk result (EachReadsOne areas pinned.now rest.new) }
{
    let mut work = without(alloc, rest, pinned)?;
    let mut waiting = BTreeMap::new(alloc);
    'cells: while let Some(cell) = next_free(
        alloc,
        &mut areas,
        pinned,
        rest,
        &mut work,
        &mut waiting,
    )? {
        rest.remove(&cell);
        wake(&mut waiting, cell, &mut work)?;
    }
    Ok(())
}

/// The next of the cells to be looked at that reads none of the set. Those before it wait for a cell that they read.
fn next_free(
    alloc: Global,
    areas: &mut ReadsByCell,
    pinned: &CellSet,
    rest: &CellSet,
    work: &mut Vec<Address>,
    waiting: &mut Waiters,
) -> Result<Option<Address>, AllocError>
    requires { IsTracking areas.old pinned.now rest.now work.old.items waiting.old None }
    ensures kept { OnOk result (KeepsReads rest.now areas.old areas.new) }
    ensures tracking { IfOk result
        (IsTracking areas.new pinned.now rest.now work.new.items waiting.new) }
    ensures some { IfOk result (λ o. IfSome o (IsFree areas.old pinned.now rest.now)) }
    ensures none { IfOk result (λ o. IfNone o (work.new.items ≡ [])) }
{
    'cells: while let Some(cell) = work.pop() {
        if !rest.contains(&cell) {
            continue;
        }
        match open_read(areas, cell, rest)? {
            None => return Ok(Some(cell)),
            Some(read) => park(alloc, waiting, read, cell)?,
        }
    }
    Ok(None)
}

/// One of a set that a cell reads, if it reads one. Of what it reads, the part that has none of the set is forgotten.
fn open_read(
    areas: &mut ReadsByCell,
    cell: Address,
    rest: &CellSet,
) -> Result<Option<Address>, AllocError>
    ensures kept { OnOk result (KeepsReads rest.now areas.old areas.new) }
    ensures read { IfOk result (λ o. IfSome o (λ d. reads_in areas.old cell d ≡ true)) }
    ensures there { IfOk result (λ o. IfSome o (λ d. contains nat_cmp rest.now d ≡ true)) }
    ensures none { IfOk result (λ o. IfNone o (ReadsNone areas.old rest.now cell)) }
{
    match areas.get_mut(&cell) {
        Some(areas) => first_read(areas, rest),
        None => Ok(None),
    }
}

/// One of a set that the rectangles have, if they have one. Rectangles that have none are dropped from the end of the
/// list, and the last that is left begins at the row of the one found.
fn first_read(areas: &mut Vec<Rect>, rest: &CellSet) -> Result<Option<Address>, AllocError>
    ensures kept { OnOk result ((d : ℕ) → contains nat_cmp rest.now d ≡ true
        → is_within_one areas.new.items d ≡ is_within_one areas.old.items d) }
    ensures read { IfOk result (λ o. IfSome o (λ d. is_within_one areas.old.items d ≡ true)) }
    ensures there { IfOk result (λ o. IfSome o (λ d. contains nat_cmp rest.now d ≡ true)) }
    ensures none { IfOk result (λ o. IfNone o ((d : ℕ) → is_within_one areas.old.items d ≡ true
        → contains nat_cmp rest.now d ≡ false)) }
{
    'areas: while let Some(area) = areas.pop() {
        if let Some(read) = next_within(rest, area, area.first()) {
            areas.push(rows_from(area, read))?;
            return Ok(Some(read));
        }
    }
    Ok(None)
}

/// Lets a cell wait for one that it reads.
fn park(
    alloc: Global,
    waiting: &mut Waiters,
    read: Address,
    cell: Address,
) -> Result<(), AllocError>
    ensures { OnOk result ((d : ℕ) → waiting_for waiting.new d
        ≡ (if read == d then waiting_for waiting.old d ++ cell ∷ []
        else waiting_for waiting.old d)) }
{
    if let Some(cells) = waiting.get_mut(&read) {
        cells.push(cell)?;
        return Ok(());
    }
    let cells = vec![in alloc; cell]?;
    waiting.insert(read, cells)?;
    Ok(())
}

/// Has the cells looked at again that wait for a cell.
fn wake(waiting: &mut Waiters, cell: Address, work: &mut Vec<Address>) -> Result<(), AllocError>
    ensures woken { OnOk result (work.new.items ≡ work.old.items ++ waiting_for waiting.old cell) }
    ensures others { (d : ℕ) → waiting_for waiting.new d
        ≡ (if cell == d then [] else waiting_for waiting.old d) }
{
    match waiting.remove(&cell) {
        Some(cells) => work.extend_from_slice(&cells),
        None => Ok(()),
    }
}
