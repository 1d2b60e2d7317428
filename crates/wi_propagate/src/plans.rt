//! Plans for cells that are asked for again and again where the same cells are replaced.

ghost use Rattle.std.specs.Prelude.{◌≡◌, map, true, IsTrue, IfSome};
ghost use Rattle.wi_parser.specs.Sheet.{Sheet};
ghost use Rattle.wi_engine.specs.Inner.Frames.{MayBeRead};
ghost use Rattle.wi_engine.specs.Inner.MemoState.{IsMemoOf};
ghost use Rattle.wi_engine.specs.Inner.Plans.{IsPlanOf};
ghost use Rattle.wi_propagate.specs.Inner.Planned.{ArePlans};

use std::alloc::Global;
use std::hash::{FoldHasher, Hash, Hasher};
use wi_engine::{Memo, Plan, Planned, Question, make_plan};
use wi_store::Store;
use wi_values::{Address, Replacement};
use wi_worlds::World;

/// How many plans are kept, and how many cells are noted for which none is made yet.
const MOST: usize = 4;

/// How often a cell is asked for before a plan is made for it.
const TIMES: u32 = 3;

/// How many cells a plan evaluates at least: for fewer it takes more than it spares.
const LEAST: u64 = 8;

/// A cell that was asked for where some cells are replaced.
#[derive(Clone, Copy)]
struct Sighting {
    root: Address,
    /// A hash of the addresses of the replaced cells.
    inputs: u64,
    times: u32,
    /// How many formulas were evaluated for it when it was asked for last.
    evaluations: u64,
}

/// Plans for what was asked for of late, and notes of what may get one.
#[derive(Drop)]
pub struct Plans {
    pub plans: Vec<Plan>,
    sightings: Vec<Sighting>,
}

impl Plans {
    /// None yet. Takes no memory.
    pub(crate) fn new(alloc: Global) -> Plans
        ensures { (s : Sheet) → ArePlans s result }
    {
        Plans {
            plans: Vec::new(alloc),
            sightings: Vec::new(alloc),
        }
    }

    /// All go. Their memory is given back.
    pub(crate) fn forget(&mut self, alloc: Global)
        ensures { (s : Sheet) → ArePlans s self.new }
    {
        if self.has_nothing() {
            return;
        }
        *self = Plans::new(alloc);
    }

    /// Whether there is no plan, and no cell is noted.
    #[inline(always)]
    fn has_nothing(&self) -> bool
        ensures { IsTrue result → (s : Sheet) → ArePlans s self.now }
    {
        if self.plans.is_empty() {
            return self.sightings.is_empty();
        }
        false
    }

    /// The plan for a cell where a world's cells are replaced, if there is one. The work grows with their count.
    pub(crate) fn find(&self, root: Address, world: &World) -> Option<&Plan>
        ensures root { IfSome result (λ p. p.now.root ≡ root) }
        ensures inputs { IfSome result (λ p. map (λ r. r.at) world.now ≡ p.now.inputs.items) }
        ensures plan { (s : Sheet) → ArePlans s self.now → IfSome result (λ p.
            IsPlanOf s p.now) }
    {
        for plan in &self.plans {
            if is_for(plan, root, world) {
                return Some(plan);
            }
        }
        None
    }

    /// Whether a cell may have a plan: one is there, or it wasn't asked for so often yet that one would be.
    pub(crate) fn may_serve(&self, root: Address) -> bool {
        for plan in &self.plans {
            if plan.root == root {
                return true;
            }
        }
        for sighting in &self.sightings {
            if sighting.root == root && sighting.times >= TIMES {
                return false;
            }
        }
        true
    }

    /// Notes that a cell is asked for where a world's cells are replaced, and makes a plan for it the third time. Where
    /// memory runs out, or a plan would take more than it spares, none is made.
    pub(crate) fn sighting<M: Memo + Drop>(
        &mut self,
        question: &mut Question<M>,
        store: &Store,
        world: &World,
        root: Address,
    )
        requires memo { IsMemoOf store.now.sheet (M.state question.old.memo) }
        requires read { MayBeRead store.now.sheet (M.state question.old.memo) root }
        ensures plans { ArePlans store.now.sheet self.old → ArePlans store.now.sheet self.new }
        ensures same { M.state question.new.memo ≡ M.state question.old.memo }
        ensures counts { question.new.meter ≡ question.old.meter }
    {
        let Some(evaluations) = self.evaluations_at_last(root, inputs_of(world)) else {
            return;
        };
        let alloc = question.pool.allocator();
        let most = most_formulas(evaluations);
        if let Ok(Some(plan)) = make_plan(alloc, store, world, root, most, &mut question.memo) {
            if pays(&plan) {
                self.add(plan);
            }
        }
    }

    /// Adds a plan. Where there are many, the others go.
    fn add(&mut self, plan: Plan)
        ensures { (s : Sheet) → ArePlans s self.old
            → IsPlanOf s plan → ArePlans s self.new }
    {
        self.make_space();
        if self.plans.reserve(1).is_ok() {
            self.plans.push_reserved(plan);
        }
    }

    /// Lets all plans go where there are many.
    fn make_space(&mut self)
        ensures { (s : Sheet) → ArePlans s self.old → ArePlans s self.new }
    {
        if self.plans.len() >= MOST {
            self.plans.clear();
        }
    }

    /// Notes that a cell is asked for. If it is for so many times that a plan may pay: how many formulas were evaluated
    /// for it last.
    fn evaluations_at_last(&mut self, root: Address, inputs: u64) -> Option<u64>
        ensures { self.new.plans ≡ self.old.plans }
    {
        for sighting in self.sightings.iter_mut() {
            if sighting.root == root && sighting.inputs == inputs {
                sighting.times = sighting.times.saturating_add(1);
                return (sighting.times == TIMES).then_some(sighting.evaluations);
            }
        }
        if self.sightings.len() >= MOST {
            self.sightings.clear();
        }
        let _ = self.sightings.push(Sighting {
            root,
            inputs,
            times: 1,
            evaluations: 0,
        });
        None
    }

    /// Notes how many formulas were evaluated for a cell.
    pub(crate) fn evaluated(&mut self, root: Address, count: u64)
        ensures { self.new.plans ≡ self.old.plans }
    {
        for sighting in self.sightings.iter_mut() {
            if sighting.root == root {
                sighting.evaluations = count;
            }
        }
    }
}

/// A hash of the addresses of a world's cells.
fn inputs_of(world: &World) -> u64 {
    let mut hasher = FoldHasher::default();
    for replacement in world.replacements() {
        replacement.at.hash(&mut hasher);
    }
    hasher.finish()
}

/// How many formulas a plan evaluates at most, where so many were evaluated without it: hardly more. None where they
/// are too few for a plan.
fn most_formulas(evaluations: u64) -> u64 {
    let most = evaluations.saturating_add(evaluations / 8);
    if most < LEAST { 0 } else { most }
}

/// Whether a plan spares more than it takes: it evaluates enough.
fn pays(plan: &Plan) -> bool {
    evaluated_cells(&plan.cells) >= LEAST
}

/// How many of these cells a plan evaluates.
fn evaluated_cells(cells: &[Planned]) -> u64 {
    let mut count: u64 = 0;
    for cell in cells {
        if !cell.is_given {
            count = count.saturating_add(1);
        }
    }
    count
}

/// Whether a plan is for a cell where a world's cells are replaced.
fn is_for(plan: &Plan, root: Address, world: &World) -> bool
    ensures root { result ≡ true → plan.now.root ≡ root }
    ensures inputs { result ≡ true → map (λ r. r.at) world.now ≡ plan.now.inputs.items }
{
    plan.root == root && are_replaced(&plan.inputs, world.replacements())
}

/// Whether these cells are just those that are replaced, in the same order.
fn are_replaced(inputs: &[Address], replacements: &[Replacement]) -> bool
    ensures { result ≡ true → map (λ r. r.at) replacements.now ≡ inputs.now }
{
    match inputs {
        [] => replacements.is_empty(),
        [input, inputs_rest @ ..] => match replacements {
            [] => false,
            [replacement, replacements_rest @ ..] => {
                *input == replacement.at && are_replaced(inputs_rest, replacements_rest)
            }
        },
    }
}
