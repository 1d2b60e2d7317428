//! Which cells an edit makes circular, and which it makes circular no longer.

ghost use Rattle.std.specs.Prelude.{◌≡◌, ◌||◌, ◌∷◌, ℕ, [], true, false, IfSome, IfOk, OnOk, OnErr};
ghost use Rattle.std.specs.List.Sorted.{IsStrictlyIncreasing};
ghost use Rattle.std.specs.Ordering.{nat_cmp};
ghost use Rattle.std.specs.BTreeSet.{contains};
ghost use Rattle.std.specs.Map.{keys_of};
ghost use Rattle.wi_ranges.specs.Bag.{IsRead};
ghost use Rattle.wi_values.specs.Address.{is_one_of};
ghost use Rattle.wi_graph.specs.Inner.Changes.{Brings, IsEditCone, ceased_from};
ghost use Rattle.wi_graph.specs.Inner.Rooms.{room_at, AreCyclic, AreInOrder, IsGraph};
ghost use Rattle.wi_graph.specs.Inner.Stripping.{IsWithin};
ghost use Rattle.wi_graph.specs.Inner.Turning.{AreTurns, FindsCyclic};

use crate::cell_set::CellSet;
use crate::closing::{closes_cycle, meets_cyclic, stands_apart};
use crate::edit::GraphEdit;
use crate::pinned::pinned_set;
use crate::reads::reads_of;
use crate::sets::{insert_all, listed, set_of, take_away, without};
use crate::sides::cone_unless_apart;
use crate::stripping::strip;
use std::alloc::{AllocError, Global};
use wi_parser::NewContent;
use wi_ranges::RangeIndex;
use wi_values::Address;

/// The cells that are circular after an edit alone, and those that are circular before it alone.
#[derive(Drop)]
pub(crate) struct Turns {
    pub(crate) became: Vec<Address>,
    pub(crate) ceased: Vec<Address>,
}

/// The cells that turn, circular or no longer so, by an edit. Where nothing is next there are none. Of one cell that no
/// formula reads, only what it is to read is looked at. Else the cone is searched for only if it is needed: not where
/// one cell gets something else that reads neither it nor a formula, and isn't circular. Where it reads formulas, none
/// of them circular, the work grows with the shorter of two searches, among what depends on the cell and among what it
/// is to read at any remove.
pub(crate) fn turns_of(alloc: Global, edit: &GraphEdit<'_>) -> Result<Turns, AllocError>
    requires graph { IsGraph edit.now.rooms.now edit.now.readers.now edit.now.cyclic.now }
    requires order { AreInOrder edit.now.next.now }
    requires brings { Brings edit.now.rooms.now edit.now.next.now edit.now.changes.now }
    ensures { IfOk result (AreTurns edit.now.rooms.now edit.now.next.now edit.now.cyclic.now) }
{
    if edit.next.is_empty() {
        return Ok(no_turns(alloc));
    }
    match lone_unread(edit.readers, edit.changes) {
        Some(cell) => turns_in_cone(alloc, edit, &[cell]),
        None => turns_of_read(alloc, edit),
    }
}

/// The cell of an edit of one cell that no formula reads. It is its own cone.
fn lone_unread(readers: &RangeIndex, changes: &[NewContent]) -> Option<Address>
    ensures alone { IfSome result (λ cell. keys_of changes.now ≡ cell ∷ []) }
    ensures unread { IfSome result (λ cell. IsRead readers.now cell → ⊥) }
{
    if changes.len() != 1 {
        return None;
    }
    let change = &changes[0];
    if readers.has_readers(change.0) {
        return None;
    }
    Some(change.0)
}

/// The turns by an edit of several cells, or of one that a formula reads: the cone is searched for.
fn turns_of_read(alloc: Global, edit: &GraphEdit<'_>) -> Result<Turns, AllocError>
    requires graph { IsGraph edit.now.rooms.now edit.now.readers.now edit.now.cyclic.now }
    requires order { AreInOrder edit.now.next.now }
    requires brings { Brings edit.now.rooms.now edit.now.next.now edit.now.changes.now }
    ensures { IfOk result (AreTurns edit.now.rooms.now edit.now.next.now edit.now.cyclic.now) }
{
    if stands_apart(edit.rooms, edit.cyclic, edit.next) {
        return Ok(no_turns(alloc));
    }
    match cone_unless_apart(alloc, edit)? {
        Some(cone) => turns_in_cone(alloc, edit, &cone),
        None => Ok(no_turns(alloc)),
    }
}

/// The turns in the edit's cone, which is given in row-major order. To find that no cycle is closed or opened takes no
/// memory; the work grows with the count of the cone, and with the rows of each rectangle that is to be read where the
/// rectangle around the cone or that around the circular cells meets it, times the logarithms of their counts. Else it
/// grows also with the cone and what its cells read, times logarithms.
#[inline(always)]
fn turns_in_cone(alloc: Global, edit: &GraphEdit<'_>, cone: &[Address]) -> Result<Turns, AllocError>
    requires cyclic { AreCyclic (room_at edit.now.rooms.now)
        (contains nat_cmp edit.now.cyclic.now) }
    requires order { IsStrictlyIncreasing cone.now }
    requires cone { IsEditCone edit.now.rooms.now edit.now.next.now (is_one_of cone.now) }
    ensures { IfOk result (AreTurns edit.now.rooms.now edit.now.next.now edit.now.cyclic.now) }
{
    if !meets_cyclic(edit.next, edit.cyclic) && !closes_cycle(edit.next, cone) {
        return Ok(no_turns(alloc));
    }
    let cone = set_of(alloc, cone)?;
    turns_by_stripping(alloc, edit, &cone)
}

/// The turns in the edit's cone, by stripping it to the cells that are circular afterwards. It stands apart, since most
/// edits don't come to it.
#[inline(never)]
fn turns_by_stripping(
    alloc: Global,
    edit: &GraphEdit<'_>,
    cone: &CellSet,
) -> Result<Turns, AllocError>
    requires cyclic { AreCyclic (room_at edit.now.rooms.now)
        (contains nat_cmp edit.now.cyclic.now) }
    requires cone { IsEditCone edit.now.rooms.now edit.now.next.now (contains nat_cmp cone.now) }
    ensures { IfOk result (AreTurns edit.now.rooms.now edit.now.next.now edit.now.cyclic.now) }
{
    let rest = circular_in_cone(alloc, edit, cone)?;
    let became = without(alloc, &rest, edit.cyclic)?;
    let ceased = ceased_of(alloc, edit.cyclic, cone, &rest)?;
    Ok(Turns { became, ceased })
}

/// No cells that turn.
fn no_turns(alloc: Global) -> Turns
    ensures became { result.became.items ≡ [] }
    ensures ceased { result.ceased.items ≡ [] }
{
    Turns {
        became: Vec::new(alloc),
        ceased: Vec::new(alloc),
    }
}

/// The cells of a cone that were circular and are not among the rest.
fn ceased_of(
    alloc: Global,
    cyclic: &CellSet,
    cells: &CellSet,
    rest: &CellSet,
) -> Result<Vec<Address>, AllocError>
    ensures { IfOk result (λ v. v.items ≡ ceased_from cyclic.now cells.now rest.now) }
{
    cells
        .set()
        .iter()
        .filter(|cell| cyclic.contains(*cell) && !rest.contains(*cell))
        .copied()
        .collect(alloc)
}

/// The cells of the edit's cone that are circular after it.
fn circular_in_cone(
    alloc: Global,
    edit: &GraphEdit<'_>,
    cone: &CellSet,
) -> Result<CellSet, AllocError>
    requires { AreInOrder edit.now.next.now }
    ensures within { IfOk result (λ rest. IsWithin rest cone.now) }
    ensures found_cyclic { IfOk result
        (FindsCyclic edit.now.rooms.now edit.now.next.now edit.now.cyclic.now cone.now) }
{
    let list = listed(alloc, cone.set())?;
    let reads = reads_of(alloc, edit.rooms, edit.next, &list)?;
    let pinned = pinned_set(alloc, &reads, edit.cyclic, cone)?;
    let mut rest = set_of(alloc, &list)?;
    strip(alloc, reads, &pinned, &mut rest)?;
    Ok(rest)
}

/// Puts cells that turn circular into the circular cells. If memory runs out, these are as before.
pub(crate) fn bring_cyclic(cyclic: &mut CellSet, became: &[Address]) -> Result<(), AllocError>
    requires { (c : ℕ) → is_one_of became.now c ≡ true → contains nat_cmp cyclic.old c ≡ false }
    ensures ok { OnOk result ((c : ℕ) → contains nat_cmp cyclic.new c
        ≡ (contains nat_cmp cyclic.old c || is_one_of became.now c)) }
    ensures err { OnErr result ((c : ℕ) → contains nat_cmp cyclic.new c
        ≡ contains nat_cmp cyclic.old c) }
{
    match insert_all(cyclic, became) {
        Ok(()) => Ok(()),
        Err(error) => {
            take_away(cyclic, became);
            Err(error)
        }
    }
}
