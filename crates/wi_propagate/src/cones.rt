//! Cones of replaced cells, by the graph.

ghost use Rattle.std.specs.Prelude.{◌≡◌, ◌==◌, ◌||◌, ℕ, [], None, true, IfSome, OnOk, OnErr};
ghost use Rattle.std.specs.List.{list_all};
ghost use Rattle.wi_values.specs.Address.{is_one_of};
ghost use Rattle.wi_worlds.specs.Reached.{is_known, reached_by, AddsOf};
ghost use Rattle.wi_parser.specs.Sheet.{Sheet};
ghost use Rattle.wi_graph.specs.Edges.{AreEdgesOf};
ghost use Rattle.wi_propagate.specs.Inner.Cones.{AreAllCones, is_in_one};

use std::alloc::{AllocError, Global};
use std::marker::Model;
use wi_graph::{Graph, Watch};
use wi_values::Address;
use wi_worlds::{Reaches, World};

/// So many cones, beside as many as the question with the most replaced cells had, a question takes over from the one
/// before, however many cells they have.
const FEW_CONES: usize = 64;

/// The greatest number of cones, beside those, that a question takes over from the one before.
const MOST_CONES: usize = 16_384;

/// The greatest number of cells that more than a few cones have together, a cell counted in each that has it. They take
/// 8 to 16 bytes each, 16 MB in all at most, and some 70 bytes more for each cell that one of them has.
const MOST_CELLS: usize = 1_048_576;

/// Cones of replaced cells: which cells reach each of them.
#[derive(Drop)]
pub struct Cones {
    reaches: Reaches,
    // How many cells they have together, a cell counted in each that has it.
    cells: usize,
    alloc: Global,
}

impl Model for Cones {
    ghost use Rattle.wi_worlds.specs.Reached.{ReachTable};

    ghost Value = { ReachTable };

    ghost view = { λ c. c.reaches };
}

/// Each cell that is in a cone is watched.
impl Watch for Cones {
    ghost watched = { is_in_one };

    fn has(&self, at: Address) -> bool {
        self.reaches.has_recorded(at)
    }
}

impl Cones {
    /// None yet. Takes no memory.
    pub(crate) fn new(alloc: Global) -> Cones
        ensures { result ≡ record { known = []; reached = [] } }
    {
        Cones {
            reaches: Reaches::new(alloc),
            cells: 0,
            alloc,
        }
    }

    /// Which of the replaced cells each cell reaches.
    #[inline(always)]
    pub(crate) fn reaches(&self) -> &Reaches
        ensures { result.now ≡ self.now }
    {
        &self.reaches
    }

    /// Adds the cone of a cell. If memory runs out, all go.
    fn add(&mut self, at: Address, cone: &[Address]) -> Result<(), AllocError>
        ensures known { OnOk result ((a : ℕ) → is_known self.new a
            ≡ (at == a || is_known self.old a)) }
        ensures adds { OnOk result (AddsOf at cone.now self.old.reached self.new.reached) }
        ensures all { OnOk result ((c : ℕ) → is_one_of cone.now c ≡ true
            → reached_by self.new c at ≡ true) }
        ensures err { OnErr result (self.new ≡ record { known = []; reached = [] }) }
    {
        if let Err(refused) = self.reaches.add(at, cone) {
            *self = Cones::new(self.alloc);
            return Err(refused);
        }
        self.cells = self.cells.saturating_add(cone.len());
        Ok(())
    }

    /// Whether they are more than a question takes over, if questions have had at most so many replaced cells.
    fn are_too_many(&self, widest: usize) -> bool {
        let beside = self.reaches.len().saturating_sub(widest);
        if beside <= FEW_CONES {
            return false;
        }
        beside > MOST_CONES || self.cells > MOST_CELLS
    }
}

/// Lets the cones go where they are more than a question takes over, if questions have had at most so many replaced
/// cells. Takes no memory.
#[tactic(auto, using(crate::proofs::KeptCones::none_recorded))]
pub(crate) fn keep_if_few(alloc: Global, widest: usize, cones: &mut Cones)
    ensures { (s : Sheet) → AreAllCones s cones.old → AreAllCones s cones.new }
{
    if cones.are_too_many(widest) {
        *cones = Cones::new(alloc);
    }
}

/// Lets the cones go over the edit that is staged if after it a cell that is in one of them may be read by other cells
/// than before. Takes no memory. The work is that of `Graph::readers_stay`, with a look-up for each cell, and of what
/// goes.
pub(crate) fn keep_over_edit(alloc: Global, graph: &Graph, cones: &mut Cones)
    ensures { (s t : Sheet) → AreEdgesOf graph.now.now s
        → IfSome graph.now.staged (λ es. AreEdgesOf es t)
        → AreAllCones s cones.old → AreAllCones t cones.new }
{
    if cones.reaches().is_empty() {
        return;
    }
    if !graph.readers_stay(cones) {
        *cones = Cones::new(alloc);
    }
}

/// Adds the cones of the replaced cells that have none yet. The work for each is that of its cone; where all have one
/// it is that of `knows_all`. If memory runs out, all go.
#[inline(always)]
pub(crate) fn add_cones(graph: &Graph, world: &World, cones: &mut Cones) -> Result<(), AllocError>
    requires { graph.now.staged ≡ None }
    ensures cones { (s : Sheet) → AreEdgesOf graph.now.now s → AreAllCones s cones.old
        → AreAllCones s cones.new }
    ensures all { OnOk result (list_all (λ r. is_known cones.new r.at) world.now ≡ true) }
{
    if cones.reaches().knows_all(world) {
        return Ok(());
    }
    for replacement in world.replacements() {
        add_cone(graph, replacement.at, cones)?;
    }
    Ok(())
}

/// Adds the cone of a cell that has none yet.
fn add_cone(graph: &Graph, at: Address, cones: &mut Cones) -> Result<(), AllocError>
    requires { graph.now.staged ≡ None }
    ensures cones { (s : Sheet) → AreEdgesOf graph.now.now s → AreAllCones s cones.old
        → AreAllCones s cones.new }
    ensures there { OnOk result (is_known cones.new at ≡ true) }
    ensures stay { OnOk result ((a : ℕ) → is_known cones.old a ≡ true
        → is_known cones.new a ≡ true) }
{
    if cones.reaches().knows(at) {
        return Ok(());
    }
    let cone = graph.cone(&[at])?;
    cones.add(at, &cone)
}
