//! The value of a cell whose formula is a what-if, by a plan for that.

ghost use Rattle.std.specs.Prelude.{◌≡◌, map, Some, None, All, IfOk, IfSome, OnErr};
ghost use Rattle.wi_values.specs.Replacements.{IsInOrder};
ghost use Rattle.wi_parser.specs.Tree.{what_if as what_if_tree};
ghost use Rattle.wi_parser.specs.View.{pair_of};
ghost use Rattle.wi_parser.specs.Sheet.{content_of, has_formula, put_all};
ghost use Rattle.wi_arguments.specs.Assignment.{addresses};
ghost use Rattle.wi_functions.specs.Meaning as formulas;
ghost use Rattle.wi_sheet.specs.Demand.{with_what_if};
ghost use Rattle.wi_engine.specs.Inner.Frames.{MayBeRead};
ghost use Rattle.wi_engine.specs.Inner.MemoState.{IsMemoOf};
ghost use Rattle.wi_engine.specs.Inner.Plans.{CountsOne, FindsRoot, IsWhatIfOf, MayBeFollowed, TriesCell};

use crate::asked::value_now;
use crate::engine::world_of_what_if;
use crate::frame::Step;
use crate::memo::Memo;
use crate::plan::Plan;
use crate::question::Question;
use std::alloc::{AllocError, Global};
use wi_functions::{Meter, Placed, evaluate_placed};
use wi_parser::{Expr, Formula, WhatIf};
use wi_store::Store;
use wi_values::{Address, Value};
use wi_worlds::World;

/// The what-if that a formula is, where it is nothing else.
pub fn what_if_alone(formula: &Formula) -> Option<&WhatIf>
    ensures { IfSome result (λ x. formula.now
        ≡ what_if_tree x.now.formula_cell (map pair_of x.now.pairs.items)) }
{
    match formula.tree() {
        Expr::WhatIf(what_if) => Some(what_if),
        _ => None,
    }
}

impl<M: Memo + Drop> Question<M> {
    /// Replacements with those of a what-if put in, where no formula has to be evaluated for its replacement cells.
    pub fn world_at_hand(
        &mut self,
        store: &Store,
        world: &World,
        what_if: &WhatIf,
    ) -> Result<Option<World>, AllocError>
        requires memo { IsMemoOf store.now.sheet (M.state self.old.memo) }
        requires read { All (λ p. MayBeRead store.now.sheet
            (M.state self.old.memo) p.replacement.at) what_if.now.pairs.items }
        ensures world { IfOk result (λ o. IfSome o (λ v. v ≡ with_what_if store.now.sheet world.now
            (map addresses (map pair_of what_if.now.pairs.items)))) }
        ensures order { IsInOrder world.now }
        ensures same { M.state self.new.memo ≡ M.state self.old.memo }
        ensures counts { self.new.meter ≡ self.old.meter }
    {
        let alloc = self.pool.allocator();
        match world_of_what_if(alloc, store, world, &what_if.pairs, &mut self.memo)? {
            Step::Ready(inside) => Ok(Some(inside)),
            Step::First(_) => Ok(None),
        }
    }

    /// The value of a cell whose formula is a what-if of a plan's root, in a question that ends with it and where no
    /// place is free for a value: that of the cell is kept, and no other. None where it is remembered, or a value isn't
    /// that is to be given to the plan.
    pub fn what_if_value(
        &mut self,
        store: &Store,
        world: &World,
        at: Address,
        inside: &World,
        plan: &Plan,
    ) -> Result<Option<Value>, AllocError>
        requires what_if { IsWhatIfOf store.now.sheet world.now at inside.now plan.now.root }
        requires plan { MayBeFollowed store.now.sheet (M.state self.old.memo) inside.now plan.now }
        requires read { MayBeRead store.now.sheet (M.state self.old.memo) at }
        requires full { (M.state self.old.memo).space ≡ 0 }
        ensures { TriesCell store.now.sheet (M.state self.old.memo) (M.state self.new.memo)
            world.now at self.old.meter self.new.meter result }
    {
        let alloc = self.pool.allocator();
        let Step::First(cell) = value_now(alloc, store, world, at, &mut self.memo)? else {
            return Ok(None);
        };
        let Some(found) = self.root_value(store, inside, plan)? else {
            return Ok(None);
        };
        let value = value_of_what_if(alloc, found, &mut self.meter)?;
        let shown = value.copy(alloc)?;
        self.memo.keep(cell.key, value)?;
        Ok(Some(shown))
    }

    /// The value of a plan's root, where it is remembered or by the plan. None where a value isn't there that is to be
    /// given.
    fn root_value(
        &mut self,
        store: &Store,
        inside: &World,
        plan: &Plan,
    ) -> Result<Option<Value>, AllocError>
        requires plan { MayBeFollowed store.now.sheet (M.state self.old.memo) inside.now plan.now }
        ensures finds { FindsRoot store.now.sheet inside.now plan.now.root
            self.old.meter self.new.meter result }
        ensures same { M.state self.new.memo ≡ M.state self.old.memo }
    {
        let alloc = self.pool.allocator();
        match value_now(alloc, store, inside, plan.root, &mut self.memo)? {
            Step::Ready(value) => Ok(Some(value)),
            Step::First(_) => self.follow(store, inside, plan),
        }
    }
}

/// The value of a formula that is a what-if with this value. It is counted; where memory runs out nothing is.
fn value_of_what_if(alloc: Global, found: Value, meter: &mut Meter) -> Result<Value, AllocError>
    ensures value { IfOk result (λ v. v ≡ formulas.zero_for_empty found) }
    ensures counts { IfOk result (λ _. CountsOne meter.old meter.new) }
    ensures err { OnErr result (meter.new ≡ meter.old) }
{
    // Each count is at most the greatest number, so one more is no less.
    let _ = meter.evaluations();
    let _ = meter.restarts();
    let none = Vec::new(alloc);
    evaluate_placed(alloc, &Placed::Constant(found), &none, meter)
}
