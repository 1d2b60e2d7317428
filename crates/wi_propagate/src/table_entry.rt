//! What an entry of a data table shows.

ghost use Rattle.std.specs.Prelude.{◌≡◌, ◌∷◌, map, None, Ok, All, IfOk, IfSome, OnOk, is_ok};
ghost use Rattle.wi_values.specs.Replacements.{IsInOrder};
ghost use Rattle.wi_parser.specs.Sheet.{put_all};
ghost use Rattle.wi_functions.specs.Meaning as formulas;
ghost use Rattle.wi_sheet.specs.CellValue as values;
ghost use Rattle.wi_sheet.specs.TableEntry as table;
ghost use Rattle.wi_sheet.specs.TableEntry.{entry_demanded};
ghost use Rattle.wi_sheet.specs.Demand.{with_what_if};
ghost use Rattle.wi_sheet.specs.Settled.{IsSettled, IsWhatIfSettled};
ghost use Rattle.wi_sheet.specs.Inner.Spending.{HasReplacing, HasEntry, NeverFall, plus, price};
ghost use Rattle.wi_engine.specs.Inner.MemoState.{IsMemoOf};
ghost use Rattle.wi_engine.specs.Inner.Frames.{MayBeRead};
ghost use Rattle.wi_engine.specs.Inner.Saving.{WhereSpace};
ghost use Rattle.wi_engine.specs.Inner.Plans.{IsUnkept};
ghost use Rattle.wi_engine.specs.Inner.Spends.{Spends, SpendsAtMost};
ghost use Rattle.wi_propagate.specs.Inner.Entries.{MayBeAsked};
ghost use Rattle.wi_propagate.specs.Inner.Planned.{ArePlans};

use crate::plans::Plans;
use std::alloc::{AllocError, Global};
use wi_engine::{Memo, Pool, Question, Remembered, reached_from};
use wi_functions::{Meter, zero_for_empty};
use wi_store::Store;
use wi_values::{Address, ErrorKind, Replacement, Value};
use wi_worlds::World;

/// What an entry of a data table shows under replacements, which stand in the order of their addresses, one for each: the
/// value of the formula cell if each input, the first of a pair, had the value of its replacement cell, the second. All
/// these values are taken before any is replacements, and of two pairs for one input the later counts. A formula is evaluated once for
/// each list of replacements of cells that its cell reaches under which its value is asked for, for whichever of these cells.
/// What is found is forgotten at the end.
pub(crate) fn table_entry(
    alloc: Global,
    store: &Store,
    replacements: &[Replacement],
    formula_cell: Address,
    pairs: &[(Address, Address)],
    meter: &mut Meter,
) -> Result<Value, AllocError>
    requires { IsInOrder replacements.now }
    ensures value { IfOk result
        (λ v. v ≡ table.table_entry store.now.sheet replacements.now formula_cell pairs.now) }

    // No more than what the entry demands is evaluated, also where memory runs out.
    ensures spends { let cases = entry_demanded store.now.sheet replacements.now formula_cell
        pairs.now in
        NeverFall meter.old meter.new
        × NeverFall meter.new (plus meter.old (price store.now.sheet cases)) }
{
    let cells = valued_cells(alloc, formula_cell, pairs)?;
    let Some(order) = reached_from(alloc, store, &cells)? else {
        return Ok(Value::Fault(ErrorKind::Circular));
    };
    let world = World::new(alloc).with(replacements)?;
    let memo = Remembered::new(alloc, store, order);
    let mut question = Question {
        memo,
        meter: *meter,
        pool: Pool::new(alloc),
    };
    let result = open_entry(&mut question, store, &world, formula_cell, pairs);
    *meter = question.meter;
    result
}

/// The cells whose values are asked for by an entry of a data table: the formula cell, and the replacement cells.
fn valued_cells(
    alloc: Global,
    formula_cell: Address,
    pairs: &[(Address, Address)],
) -> Result<Vec<Address>, AllocError>
    ensures { IfOk result (λ v. v.items ≡ formula_cell ∷ map (λ x. x.1) pairs.now) }
{
    let mut cells = vec![in alloc; formula_cell]?;
    for pair in pairs {
        cells.push(pair.1)?;
    }
    Ok(cells)
}

/// What an entry of a data table shows where none of the cells is circular whose values are asked for.
pub(crate) fn open_entry<M: Memo + Drop>(
    question: &mut Question<M>,
    store: &Store,
    world: &World,
    formula_cell: Address,
    pairs: &[(Address, Address)],
) -> Result<Value, AllocError>
    requires entry { MayBeAsked store.now.sheet (M.state question.old.memo) formula_cell pairs.now }
    ensures value { let inside = with_what_if store.now.sheet world.now pairs.now in
        IfOk result (λ v. v ≡ formulas.zero_for_empty
        (values.cell_value (put_all store.now.sheet inside) formula_cell)) }

    // What is remembered then is right, and no more is counted than the cases cost whose values were not, also
    // where memory runs out.
    ensures spends { let sheet = store.now.sheet in
        Spends sheet (HasEntry sheet world.now formula_cell pairs.now)
        (M.state question.old.memo) (M.state question.new.memo)
        question.old.meter question.new.meter (is_ok result) }
    ensures settled { let sheet = store.now.sheet in
        OnOk result (WhereSpace sheet (HasEntry sheet world.now formula_cell pairs.now)
        (M.state question.old.memo)
        (λ _. IsWhatIfSettled sheet (M.state question.new.memo).kept
        world.now (formula_cell, pairs.now))) }
{
    let replaced = with_inputs(question, store, world, pairs)?;
    let value = question.value(store, &replaced, formula_cell)?;
    Ok(zero_for_empty(value))
}

/// As `open_entry`, in a question that ends with it: where no place is free for a value, and there is a plan for the formula cell, its
/// value is found by that.
pub(crate) fn planned_entry<M: Memo + Drop>(
    question: &mut Question<M>,
    store: &Store,
    world: &World,
    formula_cell: Address,
    pairs: &[(Address, Address)],
    plans: &mut Plans,
) -> Result<Value, AllocError>
    requires entry { MayBeAsked store.now.sheet (M.state question.old.memo) formula_cell pairs.now }
    requires plans { ArePlans store.now.sheet plans.old }
    ensures value { let inside = with_what_if store.now.sheet world.now pairs.now in
        IfOk result (λ v. v ≡ formulas.zero_for_empty
        (values.cell_value (put_all store.now.sheet inside) formula_cell)) }
    ensures spends { let sheet = store.now.sheet in
        SpendsAtMost sheet (HasEntry sheet world.now formula_cell pairs.now)
        (M.state question.old.memo) (M.state question.new.memo)
        question.old.meter question.new.meter (is_ok result) }
    ensures settled { let sheet = store.now.sheet in
        OnOk result (WhereSpace sheet (HasEntry sheet world.now formula_cell pairs.now)
        (M.state question.old.memo)
        (λ _. IsWhatIfSettled sheet (M.state question.new.memo).kept
        world.now (formula_cell, pairs.now))) }
    ensures plans { ArePlans store.now.sheet plans.new }
{
    match entry_by_plan(question, store, world, formula_cell, pairs, plans)? {
        Some(value) => Ok(zero_for_empty(value)),
        None => {
            let before = question.meter.evaluations();
            let result = open_entry(question, store, world, formula_cell, pairs);
            let count = question.meter.evaluations().saturating_sub(before);
            plans.evaluated(formula_cell, count);
            result
        }
    }
}

/// The value of the formula cell with the inputs put in, by a plan. None where a place is free, there is no plan, or a value isn't there
/// that it is to be given.
fn entry_by_plan<M: Memo + Drop>(
    question: &mut Question<M>,
    store: &Store,
    world: &World,
    formula_cell: Address,
    pairs: &[(Address, Address)],
    plans: &mut Plans,
) -> Result<Option<Value>, AllocError>
    requires entry { MayBeAsked store.now.sheet (M.state question.old.memo) formula_cell pairs.now }
    requires plans { ArePlans store.now.sheet plans.old }
    ensures value { let inside = with_what_if store.now.sheet world.now pairs.now in
        IfOk result (λ o. IfSome o (λ v.
        v ≡ values.cell_value (put_all store.now.sheet inside) formula_cell)) }
    ensures none { result ≡ Ok None
        → (M.state question.new.memo ≡ M.state question.old.memo)
        × (question.new.meter ≡ question.old.meter) }
    ensures unkept { let inside = with_what_if store.now.sheet world.now pairs.now in
        IfOk result (λ o. IfSome o (λ _. ((M.state question.old.memo).space ≡ 0)
        × IsUnkept store.now.sheet (M.state question.old.memo) inside formula_cell)) }
    ensures spends { let sheet = store.now.sheet in
        SpendsAtMost sheet (HasEntry sheet world.now formula_cell pairs.now)
        (M.state question.old.memo) (M.state question.new.memo)
        question.old.meter question.new.meter (is_ok result) }
    ensures plans { ArePlans store.now.sheet plans.new }
{
    if !question.memo.is_full() {
        return Ok(None);
    }
    if !plans.may_serve(formula_cell) {
        return Ok(None);
    }
    let Some(inside) = inputs_at_hand(question, store, world, pairs)? else {
        return Ok(None);
    };
    match plans.find(formula_cell, &inside) {
        Some(plan) => question.planned_value(store, &inside, plan),
        None => {
            plans.sighting(question, store, &inside, formula_cell);
            Ok(None)
        }
    }
}

/// Replacements with the inputs of an entry put in, where the values of the replacement cells are there.
fn inputs_at_hand<M: Memo + Drop>(
    question: &mut Question<M>,
    store: &Store,
    world: &World,
    pairs: &[(Address, Address)],
) -> Result<Option<World>, AllocError>
    requires memo { IsMemoOf store.now.sheet (M.state question.old.memo) }
    requires replacing { All (λ x.
        MayBeRead store.now.sheet (M.state question.old.memo) x.1) pairs.now }
    ensures world { IfOk result (λ o. IfSome o (λ w.
        w ≡ with_what_if store.now.sheet world.now pairs.now)) }
    ensures same { M.state question.new.memo ≡ M.state question.old.memo }
    ensures counts { question.new.meter ≡ question.old.meter }
{
    let mut replaced = Vec::new(question.pool.allocator());
    for pair in pairs {
        let Some(value) = question.value_at_hand(store, world, pair.1)? else {
            return Ok(None);
        };
        replaced.push(Replacement { at: pair.0, value })?;
    }
    Ok(Some(world.with(&replaced)?))
}

/// Replacements with the inputs of an entry put in, each with the value of its replacement cell. All these values are taken
/// before any is put.
fn with_inputs<M: Memo + Drop>(
    question: &mut Question<M>,
    store: &Store,
    world: &World,
    pairs: &[(Address, Address)],
) -> Result<World, AllocError>
    requires memo { IsMemoOf store.now.sheet (M.state question.old.memo) }
    requires replacing { All (λ x.
        MayBeRead store.now.sheet (M.state question.old.memo) x.1) pairs.now }
    ensures world { IfOk result (λ w. w ≡ with_what_if store.now.sheet world.now pairs.now) }
    ensures spends { let sheet = store.now.sheet in
        Spends sheet (HasReplacing sheet world.now pairs.now)
        (M.state question.old.memo) (M.state question.new.memo)
        question.old.meter question.new.meter (is_ok result) }
    ensures settled { let sheet = store.now.sheet in
        OnOk result (WhereSpace sheet (HasReplacing sheet world.now pairs.now)
        (M.state question.old.memo)
        (λ _. All (λ x.
        IsSettled sheet (M.state question.new.memo).kept world.now x.1) pairs.now)) }
{
    let mut inputs = Vec::new(question.pool.allocator());
    for pair in pairs {
        let value = question.value(store, world, pair.1)?;
        inputs.push(Replacement { at: pair.0, value })?;
    }
    world.with(&inputs)
}
