//! The cone of a cell: its dependents at any remove, which reach it.

ghost use Rattle.std.specs.Prelude.{◌≡◌, ◌==◌, ◌&&◌, ◌||◌, ℕ, filter, All, IsSome, IfOk, OnOk};
ghost use Rattle.std.specs.BTreeMap.{get};
ghost use Rattle.std.specs.BTreeSet.{contains};
ghost use Rattle.std.specs.List.{list_any};
ghost use Rattle.std.specs.Map.{keys_of};
ghost use Rattle.std.specs.Ordering.{nat_cmp};
ghost use Rattle.wi_values.specs.Address.{is_one_of, is_within};
ghost use Rattle.wi_parser.specs.Sheet.{content_of};
ghost use Rattle.wi_parser.specs.Reads.{content_reads};
ghost use Rattle.wi_graph.specs.Reach.{reaches};
ghost use Rattle.wi_sheet.specs.Inner.ReadCells.{rectangles_in, occupied_within};
ghost use Rattle.wi_sheet.specs.Inner.ReadOrder.{IsReadOrder};
ghost use Rattle.wi_engine.specs.Inner.Remembered.{AreCones};

use crate::content_ref::formula_at;
use crate::occupied::{is_in_one, next_within};
use std::alloc::{AllocError, Global};
use std::collections::{BTreeMap, BTreeSet};
use wi_store::Store;
use wi_values::{Address, Rect};
use wi_worlds::World;

/// Dependents of a cell at any remove, itself among them, by that cell.
pub type Cones = BTreeMap<Address, BTreeSet<Address>>;

/// Adds the cones of the replaced addresses that have none yet. The work for each is that of `cone`. If memory runs out,
/// those added so far stay.
pub(crate) fn add_cones(
    alloc: Global,
    store: &Store,
    order: &[Address],
    world: &World,
    cones: &mut Cones,
) -> Result<(), AllocError>
    requires order { IsReadOrder store.now.sheet order.now }
    requires cones { AreCones store.now.sheet order.now cones.old }
    ensures cones { AreCones store.now.sheet order.now cones.new }
    ensures all { OnOk result (All (λ r. IsSome (get nat_cmp cones.new r.at)) world.now) }
{
    for replacement in world.replacements() {
        add_cone(alloc, store, order, replacement.at, cones)?;
    }
    Ok(())
}

/// Adds the cone of an address that has none yet.
fn add_cone(
    alloc: Global,
    store: &Store,
    order: &[Address],
    at: Address,
    cones: &mut Cones,
) -> Result<(), AllocError>
    requires order { IsReadOrder store.now.sheet order.now }
    requires cones { AreCones store.now.sheet order.now cones.old }
    ensures cones { AreCones store.now.sheet order.now cones.new }
    ensures there { OnOk result (IsSome (get nat_cmp cones.new at)) }
    ensures stay { (a : ℕ) → IsSome (get nat_cmp cones.old a) → IsSome (get nat_cmp cones.new a) }
{
    if cones.contains_key(&at) {
        return Ok(());
    }
    let cone = cone(alloc, store, order, at)?;
    cones.insert(at, cone)?;
    Ok(())
}

/// The cells of an order of reading that reach a cell. The work is one pass over the occupied cells that they read, each as
/// often as it is read.
fn cone(
    alloc: Global,
    store: &Store,
    order: &[Address],
    at: Address,
) -> Result<BTreeSet<Address>, AllocError>
    requires { IsReadOrder store.now.sheet order.now }
    ensures { IfOk result (λ cone. (c : ℕ)
        → contains nat_cmp cone c ≡ (is_one_of order.now c && reaches store.now.sheet c at)) }
{
    let mut cone = BTreeSet::new(alloc);
    for cell in order {
        if steps_into(store, *cell, at, &cone) {
            cone.insert(*cell)?;
        }
    }
    Ok(cone)
}

/// Whether a cell is another, reads it, or reads one that is among those that reach it.
fn steps_into(store: &Store, cell: Address, at: Address, cone: &BTreeSet<Address>) -> bool
    ensures { result ≡ (cell == at || content_reads (content_of store.now.sheet cell) at
        || list_any (contains nat_cmp cone.now)
        (occupied_within store.now.sheet (rectangles_in (content_of store.now.sheet cell)))) }
{
    if cell == at {
        return true;
    }
    let Some(formula) = formula_at(store, cell) else {
        return false;
    };
    let rectangles = formula.rectangles();
    if is_in_one(at, rectangles) {
        return true;
    }
    has_one(store, rectangles, cone)
}

/// Whether a set has one of the occupied cells of these rectangles.
fn has_one(store: &Store, rectangles: &[Rect], set: &BTreeSet<Address>) -> bool
    ensures { result ≡ list_any (λ r.
        list_any (contains nat_cmp set.now)
        (filter (is_within r) (keys_of store.now.sheet))) rectangles.now }
{
    rectangles
        .iter()
        .any(|rectangle| has_one_within(store, *rectangle, set))
}

/// Whether a set has one of the occupied cells of a rectangle.
fn has_one_within(store: &Store, area: Rect, set: &BTreeSet<Address>) -> bool
    ensures { result
        ≡ list_any (contains nat_cmp set.now) (filter (is_within area) (keys_of store.now.sheet)) }
{
    let mut ahead = next_within(store, area, None);
    while let Some(cell) = ahead {
        if set.contains(&cell) {
            return true;
        }
        ahead = next_within(store, area, Some(cell));
    }
    false
}
