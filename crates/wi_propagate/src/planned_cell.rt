//! The value of a cell, by a plan where its formula is a what-if that has one.

ghost use Rattle.std.specs.Prelude.{◌≡◌, map, Some};
ghost use Rattle.wi_parser.specs.Sheet.{content_of, put_all};
ghost use Rattle.wi_parser.specs.Tree.{what_if as what_if_tree};
ghost use Rattle.wi_parser.specs.View.{pair_of};
ghost use Rattle.wi_engine.specs.Inner.Frames.{MayBeRead};
ghost use Rattle.wi_engine.specs.Inner.MemoState.{IsMemoOf};
ghost use Rattle.wi_engine.specs.Inner.Plans.{TriesCell};
ghost use Rattle.wi_engine.specs.Inner.Spends.{ValuesAtMost};
ghost use Rattle.wi_propagate.specs.Inner.Planned.{ArePlans};

use crate::plans::Plans;
use std::alloc::AllocError;
use wi_engine::{Memo, Question, what_if_alone};
use wi_parser::{Content, Formula, WhatIf};
use wi_store::Store;
use wi_values::{Address, Value};
use wi_worlds::World;

/// As `Question::formula_value`, in a question that ends with it: where no place is free for a value, the formula is a
/// what-if, and there is a plan for that, its value is found by the plan.
pub(crate) fn planned_cell<M: Memo + Drop>(
    question: &mut Question<M>,
    store: &Store,
    world: &World,
    at: Address,
    formula: &Formula,
    plans: &mut Plans,
) -> Result<Value, AllocError>
    requires memo { IsMemoOf store.now.sheet (M.state question.old.memo) }
    requires read { MayBeRead store.now.sheet (M.state question.old.memo) at }
    requires formula { content_of (put_all store.now.sheet world.now) at
        ≡ Some (Content.Formula formula.now) }
    requires plans { ArePlans store.now.sheet plans.old }
    ensures values { ValuesAtMost store.now.sheet
        (M.state question.old.memo) (M.state question.new.memo)
        world.now at question.old.meter question.new.meter result }
    ensures plans { ArePlans store.now.sheet plans.new }
{
    let Some(what_if) = what_if_alone(formula) else {
        return question.formula_value(store, world, at, formula);
    };
    match cell_by_plan(question, store, world, at, what_if, plans)? {
        Some(value) => Ok(value),
        None => {
            let before = question.meter.evaluations();
            let result = question.formula_value(store, world, at, formula);
            let count = question.meter.evaluations().saturating_sub(before);
            plans.evaluated(what_if.formula_cell.at, count);
            result
        }
    }
}

/// The value of a cell whose formula is this what-if, by a plan for its formula cell. None where a place is free, there
/// is no plan, the cell's value is kept, or a value isn't there that is to be given to the plan.
fn cell_by_plan<M: Memo + Drop>(
    question: &mut Question<M>,
    store: &Store,
    world: &World,
    at: Address,
    what_if: &WhatIf,
    plans: &mut Plans,
) -> Result<Option<Value>, AllocError>
    requires memo { IsMemoOf store.now.sheet (M.state question.old.memo) }
    requires read { MayBeRead store.now.sheet (M.state question.old.memo) at }
    requires what_if { content_of (put_all store.now.sheet world.now) at ≡ Some (Content.Formula
        (what_if_tree what_if.now.formula_cell (map pair_of what_if.now.pairs.items))) }
    requires plans { ArePlans store.now.sheet plans.old }
    ensures tries { TriesCell store.now.sheet
        (M.state question.old.memo) (M.state question.new.memo)
        world.now at question.old.meter question.new.meter result }
    ensures plans { ArePlans store.now.sheet plans.new }
{
    let root = what_if.formula_cell.at;
    if !question.memo.is_full() {
        return Ok(None);
    }
    if !plans.may_serve(root) {
        return Ok(None);
    }
    let Some(inside) = question.world_at_hand(store, world, what_if)? else {
        return Ok(None);
    };
    match plans.find(root, &inside) {
        Some(plan) => question.what_if_value(store, world, at, &inside, plan),
        None => {
            plans.sighting(question, store, &inside, root);
            Ok(None)
        }
    }
}
