//! Which of some replaced cells each cell reaches.

ghost use Rattle.std.specs.Prelude.{◌≡◌, ◌↔◌, ◌==◌, ◌&&◌, ◌||◌, ℕ, [], true, nat_lt, IsTrue, OnOk, OnErr, length};
ghost use Rattle.std.specs.List.{list_all};
ghost use Rattle.std.specs.List.Sorted.{IsStrictlyIncreasing};
ghost use Rattle.wi_values.specs.Address.{is_one_of};
ghost use Rattle.wi_worlds.specs.Reached.{is_known, reached_by, reached_cells, has_recorded, recorded_cells, AddsOf};
ghost use Rattle.wi_worlds.specs.Inner.Shared.{recorded_in};

use crate::rising::{RisingCells, has_next};
use crate::world::World;
use std::alloc::{AllocError, Global};
use std::collections::HashMap;
use std::marker::Model;
use wi_values::{Address, Replacement};

/// Cells by a cell that reaches them.
type Reached = HashMap<Address, RisingCells>;

/// Which of some others each cell reaches. Of those others that are known, all cells that reach them are recorded.
#[derive(Drop)]
pub struct Reaches {
    known: RisingCells,
    // Nothing where nothing was recorded. Behind a box, since each question takes it out and puts it back.
    reached: Option<Box<Reached>>,
    alloc: Global,
}

impl Model for Reaches {
    ghost use Rattle.wi_worlds.specs.Reached.{ReachTable};
    ghost use Rattle.wi_worlds.specs.Inner.Shared.{recorded_in};

    ghost Value = { ReachTable };

    ghost view = { λ r. record { known = r.known; reached = recorded_in r.reached } };
}

impl Reaches {
    /// Nothing is known. Takes no memory.
    pub fn new(alloc: Global) -> Reaches
        ensures { result ≡ record { known = []; reached = [] } }
    {
        Reaches {
            known: RisingCells::new(alloc),
            reached: None,
            alloc,
        }
    }

    /// Of how many cells it is known which cells reach them.
    pub fn len(&self) -> usize
        ensures { result ≡ length self.now.known }
    {
        self.known.as_slice().len()
    }

    /// Whether nothing is known or recorded.
    pub fn is_empty(&self) -> bool
        ensures { IsTrue result ↔ (self.now ≡ record { known = []; reached = [] }) }
    {
        self.known.as_slice().is_empty() && is_nothing(&self.reached)
    }

    /// Whether it is known of a cell which cells reach it. The work grows with the logarithm of the count of those that
    /// are known.
    pub fn knows(&self, at: Address) -> bool
        ensures { result ≡ is_known self.now at }
    {
        has_next(self.known.as_slice(), &mut 0, at)
    }

    /// Whether it is known of all replaced cells. The work for each is a comparison where those that are known stand in
    /// the same order with none between, and else a search.
    #[inline(always)]
    pub fn knows_all(&self, world: &World) -> bool
        ensures { result ≡ list_all (λ r. is_known self.now r.at) world.now }
    {
        have_all(self.known.as_slice(), world.replacements())
    }

    /// Whether a cell is recorded to reach another. One look-up.
    pub fn has_recorded(&self, at: Address) -> bool
        ensures { result ≡ nat_lt 0 (length (reached_cells self.now at)) }
    {
        !self.reached(at).is_empty()
    }

    /// Makes a cell known, with the cells that reach it. If memory runs out, the same are known as before, and of those
    /// that reach this one some may be recorded. The work for each is a look-up.
    pub fn add(&mut self, at: Address, cone: &[Address]) -> Result<(), AllocError>
        ensures known { OnOk result ((a : ℕ) → is_known self.new a
            ≡ (at == a || is_known self.old a)) }
        ensures adds { AddsOf at cone.now self.old.reached self.new.reached }
        ensures all { OnOk result ((c : ℕ) → is_one_of cone.now c ≡ true
            → reached_by self.new c at ≡ true) }
        ensures err { OnErr result (self.new.known ≡ self.old.known) }
    {
        tell(self.alloc, &mut self.reached, at, cone)?;
        self.known.insert(at)
    }

    /// The cells that a cell is recorded to reach, in row-major order. One look-up.
    pub(crate) fn reached(&self, at: Address) -> &[Address]
        ensures value { result.now ≡ reached_cells self.now at }
        ensures order { IsStrictlyIncreasing (reached_cells self.now at) }
    {
        match &self.reached {
            Some(reached) => cells_of(reached, at),
            None => &[],
        }
    }
}

/// Whether nothing was recorded.
fn is_nothing(reached: &Option<Box<Reached>>) -> bool
    ensures { IsTrue result ↔ (recorded_in reached.now ≡ []) }
{
    match reached {
        Some(reached) => reached.is_empty(),
        None => true,
    }
}

/// The cells that a cell is recorded to reach, in row-major order.
fn cells_of(reached: &Reached, at: Address) -> &[Address]
    ensures value { result.now ≡ recorded_cells reached.now.entries at }
    ensures order { IsStrictlyIncreasing (recorded_cells reached.now.entries at) }
{
    match reached.get(&at) {
        Some(cells) => cells.as_slice(),
        None => &[],
    }
}

/// Records of each of these cells that it reaches a cell. If memory runs out, it is recorded of some of them.
fn tell(
    alloc: Global,
    reached: &mut Option<Box<Reached>>,
    at: Address,
    cone: &[Address],
) -> Result<(), AllocError>
    ensures adds { AddsOf at cone.now (recorded_in reached.old) (recorded_in reached.new) }
    ensures all { OnOk result ((c : ℕ) → is_one_of cone.now c ≡ true
        → has_recorded (recorded_in reached.new) c at ≡ true) }
{
    match reached {
        Some(reached) => put_all(alloc, reached, at, cone),
        None => {
            let mut first = HashMap::new(alloc);
            put_all(alloc, &mut first, at, cone)?;
            *reached = Some(Box::new(alloc, first)?);
            Ok(())
        }
    }
}

/// Records of each of these cells that it reaches a cell. If memory runs out, it is recorded of some of them.
fn put_all(
    alloc: Global,
    reached: &mut Reached,
    at: Address,
    cone: &[Address],
) -> Result<(), AllocError>
    ensures adds { AddsOf at cone.now reached.old.entries reached.new.entries }
    ensures all { OnOk result ((c : ℕ) → is_one_of cone.now c ≡ true
        → has_recorded reached.new.entries c at ≡ true) }
{
    reached.reserve(cone.len().saturating_sub(reached.len()))?;
    for cell in cone {
        put(alloc, reached, *cell, at)?;
    }
    Ok(())
}

/// Records of a cell that it reaches another. If memory runs out, the same is recorded as before.
fn put(alloc: Global, reached: &mut Reached, cell: Address, at: Address) -> Result<(), AllocError>
    ensures ok { OnOk result ((c b : ℕ) → has_recorded reached.new.entries c b
        ≡ ((cell == c && at == b) || has_recorded reached.old.entries c b)) }
    ensures err { OnErr result ((c b : ℕ) → has_recorded reached.new.entries c b
        ≡ has_recorded reached.old.entries c b) }
{
    if let Some(cells) = reached.get_mut(&cell) {
        return cells.insert(at);
    }
    let cells = RisingCells::one(alloc, at)?;
    reached.insert(cell, cells)?;
    Ok(())
}

/// Whether cells in row-major order have each replaced address.
#[inline(always)]
fn have_all(cells: &[Address], replacements: &[Replacement]) -> bool
    requires { IsStrictlyIncreasing cells.now }
    ensures { result ≡ list_all (λ r. is_one_of cells.now r.at) replacements.now }
{
    let mut likely = 0;
    for replacement in replacements {
        if !has_next(cells, &mut likely, replacement.at) {
            return false;
        }
    }
    true
}
