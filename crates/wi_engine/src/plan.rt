//! The value of a cell where some are replaced, by the formulas between them one after another.

ghost use Rattle.std.specs.Prelude.{◌≡◌, ◌<◌, ◌≤◌, ◌++◌, ◌∷◌, [], true, false, map, vec_len, vec_capacity, None, Ok, IfOk, IfSome, OnOk, OnErr, is_none, is_ok};
ghost use Rattle.std.specs.Bool.{OnTrue};
ghost use Rattle.wi_parser.specs.Sheet.{Sheet, content_of, has_formula, put_all};
ghost use Rattle.wi_functions.specs.Meaning as formulas;
ghost use Rattle.wi_functions.specs.Placed.{placed_value};
ghost use Rattle.wi_graph.specs.Circular.{circular};
ghost use Rattle.wi_sheet.specs.CellValue as values;
ghost use Rattle.wi_sheet.specs.Demand.{reaching};
ghost use Rattle.wi_sheet.specs.Inner.Spending.{HasCase};
ghost use Rattle.wi_engine.specs.Inner.Frames.{MayBeRead};
ghost use Rattle.wi_engine.specs.Inner.MemoState.{IsMemoOf};
ghost use Rattle.wi_engine.specs.Inner.Placing.{IsPlacedPlan};
ghost use Rattle.wi_engine.specs.Inner.Plans.{AreGiven, CountsCell, CountsOne, Follows, IsReady, IsUnkept, MayBeFollowed, MayBeValued};
ghost use Rattle.wi_engine.specs.Inner.Saving.{NeedsNoEvaluation};
ghost use Rattle.wi_engine.specs.Inner.Spends.{SpendsAtMost};

use crate::asked::value_now;
use crate::content_ref::{formula_in, replaced};
use crate::findings::Findings;
use crate::frame::Step;
use crate::known::Known;
use crate::memo::Memo;
use crate::placing::{PlacedCell, PlacedPlan};
use crate::question::Question;
use std::alloc::{AllocError, Global};
use wi_functions::{Meter, Outcome, Placed, evaluate, evaluate_placed, push_evaluated};
use wi_store::Store;
use wi_values::{Address, Value};
use wi_worlds::World;

/// A cell of a plan.
#[derive(Clone, Copy)]
pub struct Planned {
    pub at: Address,
    /// Whether its value isn't evaluated by the plan, but is to be there already.
    pub is_given: bool,
}

/// Cells on which the value of another one rests where some are replaced, in an order in which each comes after those
/// that its formula reads.
#[derive(Drop)]
pub struct Plan {
    pub root: Address,
    pub inputs: Vec<Address>,
    pub cells: Vec<Planned>,
    /// Its formulas over places, where they can be placed.
    pub placed: Option<PlacedPlan>,
}

impl<M: Memo + Drop> Question<M> {
    /// The value of a plan's root where its inputs are replaced, in a question that ends with it and where no place is
    /// free for a value: that of the root is kept, and no other. None where the root's value is remembered, or one that
    /// is to be given isn't. Each other cell of the plan takes a look at what stands there, one evaluation, and what it
    /// takes to add its value to those found.
    pub fn planned_value(
        &mut self,
        store: &Store,
        world: &World,
        plan: &Plan,
    ) -> Result<Option<Value>, AllocError>
        requires plan { MayBeFollowed store.now.sheet (M.state self.old.memo) world.now plan.now }
        requires full { (M.state self.old.memo).space ≡ 0 }
        ensures value { IfOk result (λ o. IfSome o (λ v.
            v ≡ values.cell_value (put_all store.now.sheet world.now) plan.now.root)) }
        ensures none { result ≡ Ok None → (M.state self.new.memo ≡ M.state self.old.memo)
            × (self.new.meter ≡ self.old.meter) }
        ensures unkept { IfOk result (λ o. IfSome o (λ _. IsUnkept store.now.sheet
            (M.state self.old.memo) world.now plan.now.root)) }
        ensures spends { SpendsAtMost store.now.sheet
            (HasCase store.now.sheet world.now plan.now.root)
            (M.state self.old.memo) (M.state self.new.memo)
            self.old.meter self.new.meter (is_ok result) }
        ensures kept { IfOk result (λ o. IfSome o (λ _. 1 ≤ (M.state self.old.memo).capacity
            → (M.state self.new.memo).kept plan.now.root
            (reaching store.now.sheet plan.now.root world.now) ≡ true)) }
    {
        let alloc = self.pool.allocator();
        let Step::First(cell) = value_now(alloc, store, world, plan.root, &mut self.memo)? else {
            return Ok(None);
        };
        let Some(value) = self.follow(store, world, plan)? else {
            return Ok(None);
        };
        let shown = value.copy(alloc)?;
        self.memo.keep(cell.key, value)?;
        Ok(Some(shown))
    }

    /// The value of a plan's root, after those of its cells. None where one that is to be given isn't there.
    pub(crate) fn follow(
        &mut self,
        store: &Store,
        world: &World,
        plan: &Plan,
    ) -> Result<Option<Value>, AllocError>
        requires plan { MayBeFollowed store.now.sheet (M.state self.old.memo) world.now plan.now }
        requires formula { has_formula (content_of
            (put_all store.now.sheet world.now) plan.now.root)
            ≡ true }
        ensures follows { Follows store.now.sheet world.now plan.now.root
            self.old.meter self.new.meter result }
        ensures same { M.state self.new.memo ≡ M.state self.old.memo }
    {
        if !self.are_given(store, world, plan)? {
            return Ok(None);
        }
        match &plan.placed {
            Some(placed) => self.follow_placed(store, world, plan, placed),
            None => self.follow_trees(store, world, plan),
        }
    }

    /// As `follow`, by formulas over places, where the values are there that it is to be given: each takes an
    /// evaluation that looks no cell up.
    #[inline(never)]
    fn follow_placed(
        &mut self,
        store: &Store,
        world: &World,
        plan: &Plan,
        placed: &PlacedPlan,
    ) -> Result<Option<Value>, AllocError>
        requires plan { MayBeFollowed store.now.sheet (M.state self.old.memo) world.now plan.now }
        requires placed { IsPlacedPlan store.now.sheet plan.now.inputs.items plan.now.root
            plan.now.cells.items placed.now }
        requires formula { has_formula (content_of
            (put_all store.now.sheet world.now) plan.now.root)
            ≡ true }
        requires given { AreGiven store.now.sheet
            (M.state self.old.memo) world.now plan.now.cells.items }
        ensures follows { Follows store.now.sheet world.now plan.now.root
            self.old.meter self.new.meter result }
        ensures same { M.state self.new.memo ≡ M.state self.old.memo }
    {
        let alloc = self.pool.allocator();
        let mut found = self.pool.take_values();
        if !push_inputs(alloc, world, plan, &mut found)? {
            return Ok(None);
        }
        found.reserve(placed.cells.len())?;
        for cell in &placed.cells {
            self.push_cell(store, world, cell, &mut found)?;
        }
        let value = placed_value(alloc, &placed.root, &found, &mut self.meter)?;
        self.pool.put_values(found);
        Ok(Some(value))
    }

    /// Appends the value of a plan's cell to those before it: one that is to be given is there.
    #[inline(always)]
    fn push_cell(
        &mut self,
        store: &Store,
        world: &World,
        cell: &PlacedCell,
        found: &mut Vec<Value>,
    ) -> Result<(), AllocError>
        requires cell { MayBeValued store.now.sheet (M.state self.old.memo) world.now
            cell.now.planned.at }
        requires given { cell.now.formula ≡ None
            → NeedsNoEvaluation store.now.sheet (M.state self.old.memo) world.now
            cell.now.planned.at }
        requires ready { IfSome cell.now.formula (λ p. formulas.zero_for_empty
            (placed_value p found.old.items)
            ≡ values.cell_value (put_all store.now.sheet world.now) cell.now.planned.at) }
        requires room { vec_len found.old < vec_capacity found.old }
        ensures value { OnOk result (found.new.items ≡ found.old.items
            ++ values.cell_value (put_all store.now.sheet world.now) cell.now.planned.at ∷ []) }
        ensures room { vec_capacity found.new ≡ vec_capacity found.old }
        ensures same { M.state self.new.memo ≡ M.state self.old.memo }
        ensures counts { OnOk result
            (CountsCell (is_none cell.now.formula) self.old.meter self.new.meter) }
        ensures err { OnErr result (self.new.meter ≡ self.old.meter) }
    {
        let alloc = self.pool.allocator();
        match &cell.formula {
            Some(formula) => push_placed(alloc, formula, found, &mut self.meter),
            None => self.push_given(store, world, cell.planned.at, found),
        }
    }

    /// Appends the value of a cell that is to be given, which is there.
    #[inline(never)]
    fn push_given(
        &mut self,
        store: &Store,
        world: &World,
        at: Address,
        found: &mut Vec<Value>,
    ) -> Result<(), AllocError>
        requires cell { MayBeValued store.now.sheet (M.state self.old.memo) world.now at }
        requires given { NeedsNoEvaluation store.now.sheet (M.state self.old.memo) world.now at }
        requires room { vec_len found.old < vec_capacity found.old }
        ensures value { OnOk result (found.new.items ≡ found.old.items
            ++ values.cell_value (put_all store.now.sheet world.now) at ∷ []) }
        ensures room { vec_capacity found.new ≡ vec_capacity found.old }
        ensures same { M.state self.new.memo ≡ M.state self.old.memo }
        ensures counts { self.new.meter ≡ self.old.meter }
    {
        let alloc = self.pool.allocator();
        match value_now(alloc, store, world, at, &mut self.memo)? {
            Step::Ready(value) => {
                found.push_reserved(value);
                Ok(())
            }
            Step::First(_) => unreachable!(),
        }
    }

    /// As `follow`, by the formulas as they stand in the sheet, where the values are there that it is to be given.
    fn follow_trees(
        &mut self,
        store: &Store,
        world: &World,
        plan: &Plan,
    ) -> Result<Option<Value>, AllocError>
        requires plan { MayBeFollowed store.now.sheet (M.state self.old.memo) world.now plan.now }
        requires formula { has_formula (content_of
            (put_all store.now.sheet world.now) plan.now.root)
            ≡ true }
        requires given { AreGiven store.now.sheet
            (M.state self.old.memo) world.now plan.now.cells.items }
        ensures follows { Follows store.now.sheet world.now plan.now.root
            self.old.meter self.new.meter result }
        ensures same { M.state self.new.memo ≡ M.state self.old.memo }
    {
        let mut found = Findings::new();
        for planned in &plan.cells {
            let value = self.planned_cell(store, world, *planned, &found)?;
            found.add_cell(planned.at, value, &mut self.pool)?;
        }
        let alloc = self.pool.allocator();
        let value = ready_value(alloc, store, world, plan.root, &found, &mut self.meter)?;
        found.recycle(&mut self.pool);
        Ok(Some(value))
    }

    /// Whether the values are there that a plan is to be given.
    fn are_given(&mut self, store: &Store, world: &World, plan: &Plan) -> Result<bool, AllocError>
        requires plan { MayBeFollowed store.now.sheet (M.state self.old.memo) world.now plan.now }
        requires formula { has_formula (content_of
            (put_all store.now.sheet world.now) plan.now.root)
            ≡ true }
        ensures given { IfOk result (λ b. OnTrue b (AreGiven store.now.sheet
            (M.state self.old.memo) world.now plan.now.cells.items)) }
        ensures same { M.state self.new.memo ≡ M.state self.old.memo }
        ensures counts { self.new.meter ≡ self.old.meter }
    {
        for planned in &plan.cells {
            if !self.is_there(store, world, *planned)? {
                return Ok(false);
            }
        }
        Ok(true)
    }

    /// Whether the value of a plan's cell is there, if it is to be given.
    #[inline(always)]
    fn is_there(
        &mut self,
        store: &Store,
        world: &World,
        planned: Planned,
    ) -> Result<bool, AllocError>
        requires memo { IsMemoOf store.now.sheet (M.state self.old.memo) }
        requires read { MayBeRead store.now.sheet (M.state self.old.memo) planned.at }
        ensures given { IfOk result (λ b. OnTrue b (planned.is_given ≡ true
            → NeedsNoEvaluation store.now.sheet (M.state self.old.memo) world.now planned.at)) }
        ensures same { M.state self.new.memo ≡ M.state self.old.memo }
        ensures counts { self.new.meter ≡ self.old.meter }
    {
        if !planned.is_given {
            return Ok(true);
        }
        self.needs_none(store, world, planned.at)
    }

    /// Whether the value of a cell is there.
    #[inline(never)]
    fn needs_none(&mut self, store: &Store, world: &World, at: Address) -> Result<bool, AllocError>
        requires memo { IsMemoOf store.now.sheet (M.state self.old.memo) }
        requires read { MayBeRead store.now.sheet (M.state self.old.memo) at }
        ensures given { IfOk result (λ b. OnTrue b
            (NeedsNoEvaluation store.now.sheet (M.state self.old.memo) world.now at)) }
        ensures same { M.state self.new.memo ≡ M.state self.old.memo }
        ensures counts { self.new.meter ≡ self.old.meter }
    {
        let alloc = self.pool.allocator();
        match value_now(alloc, store, world, at, &mut self.memo)? {
            Step::Ready(_) => Ok(true),
            Step::First(_) => Ok(false),
        }
    }

    /// The value of a plan's cell: one that is to be given is there, and the formula of any other rests on what was
    /// found.
    fn planned_cell(
        &mut self,
        store: &Store,
        world: &World,
        planned: Planned,
        found: &Findings,
    ) -> Result<Value, AllocError>
        requires cell { MayBeValued store.now.sheet (M.state self.old.memo) world.now planned.at }
        requires given { planned.is_given ≡ true
            → NeedsNoEvaluation store.now.sheet (M.state self.old.memo) world.now planned.at }
        requires ready { planned.is_given ≡ false
            → IsReady store.now.sheet world.now planned.at found.now }
        ensures value { IfOk result (λ v.
            v ≡ values.cell_value (put_all store.now.sheet world.now) planned.at) }
        ensures same { M.state self.new.memo ≡ M.state self.old.memo }
        ensures counts { IfOk result (λ _.
            CountsCell planned.is_given self.old.meter self.new.meter) }
        ensures err { OnErr result (self.new.meter ≡ self.old.meter) }
    {
        let alloc = self.pool.allocator();
        if !planned.is_given {
            return ready_value(alloc, store, world, planned.at, found, &mut self.meter);
        }
        match value_now(alloc, store, world, planned.at, &mut self.memo)? {
            Step::Ready(value) => Ok(value),
            Step::First(_) => unreachable!(),
        }
    }
}

/// Appends the values that are put into a plan's inputs to an empty list. Room is taken for those of its cells too.
/// False where one isn't replaced.
fn push_inputs(
    alloc: Global,
    world: &World,
    plan: &Plan,
    found: &mut Vec<Value>,
) -> Result<bool, AllocError>
    requires { found.old.items ≡ [] }
    ensures { IfOk result (λ there. OnTrue there ((s : Sheet)
        → map (values.cell_value (put_all s world.now)) plan.now.inputs.items
        ≡ found.new.items)) }
{
    found.reserve(plan.inputs.len().saturating_add(plan.cells.len()))?;
    for input in &plan.inputs {
        let Some(value) = replaced(world, *input) else {
            return Ok(false);
        };
        found.push(value.copy(alloc)?)?;
    }
    Ok(true)
}

/// The value of a placed formula over values. It is counted; where memory runs out nothing is.
fn placed_value(
    alloc: Global,
    formula: &Placed,
    found: &[Value],
    meter: &mut Meter,
) -> Result<Value, AllocError>
    ensures value { IfOk result
        (λ v. v ≡ formulas.zero_for_empty (placed_value formula.now found.now)) }
    ensures counts { IfOk result (λ _. CountsOne meter.old meter.new) }
    ensures err { OnErr result (meter.new ≡ meter.old) }
{
    // Each count is at most the greatest number, so one more is no less.
    let _ = meter.evaluations();
    let _ = meter.restarts();
    evaluate_placed(alloc, formula, found, meter)
}

/// Appends the value of a placed formula over values to them. It is counted; where memory runs out nothing is.
#[inline(always)]
fn push_placed(
    alloc: Global,
    formula: &Placed,
    found: &mut Vec<Value>,
    meter: &mut Meter,
) -> Result<(), AllocError>
    requires { vec_len found.old < vec_capacity found.old }
    ensures value { OnOk result (found.new.items ≡ found.old.items
        ++ formulas.zero_for_empty (placed_value formula.now found.old.items) ∷ []) }
    ensures room { vec_capacity found.new ≡ vec_capacity found.old }
    ensures counts { OnOk result (CountsOne meter.old meter.new) }
    ensures err { OnErr result (meter.new ≡ meter.old) }
{
    // Each count is at most the greatest number, so one more is no less.
    let _ = meter.evaluations();
    let _ = meter.restarts();
    push_evaluated(alloc, formula, found, meter)
}

/// The value of a formula that rests on what was found. It is counted; where memory runs out nothing is.
fn ready_value(
    alloc: Global,
    store: &Store,
    world: &World,
    at: Address,
    found: &Findings,
    meter: &mut Meter,
) -> Result<Value, AllocError>
    requires open { circular store.now.sheet at ≡ false }
    requires formula { has_formula (content_of (put_all store.now.sheet world.now) at) ≡ true }
    requires ready { IsReady store.now.sheet world.now at found.now }
    ensures value { IfOk result (λ v. v
        ≡ values.cell_value (put_all store.now.sheet world.now) at) }
    ensures counts { IfOk result (λ _. CountsOne meter.old meter.new) }
    ensures err { OnErr result (meter.new ≡ meter.old) }
{
    let Some(formula) = formula_in(store, world, at) else {
        unreachable!()
    };
    let known = Known::new(store, world, found);
    // Each count is at most the greatest number, so one more is no less.
    let _ = meter.evaluations();
    let _ = meter.restarts();
    match evaluate(alloc, formula, &known, meter)? {
        Outcome::Done(value) => Ok(value),
        Outcome::Needs(_) => unreachable!(),
    }
}
