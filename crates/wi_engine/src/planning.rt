//! Plans: which cells rest on replaced inputs below another one, and in which order.

ghost use Rattle.std.specs.Prelude.{◌≡◌, ◌==◌, ◌&&◌, ◌++◌, ◌∷◌, not, ℕ, true, [], filter, map, Some, All, IfOk, IfSome, OnOk};
ghost use Rattle.std.specs.BTreeSet.{contains};
ghost use Rattle.std.specs.Bool.{OnTrue};
ghost use Rattle.std.specs.List.{list_any};
ghost use Rattle.std.specs.Map.{keys_of};
ghost use Rattle.std.specs.Ordering.{nat_cmp};
ghost use Rattle.wi_values.specs.Address.{is_one_of, is_within};
ghost use Rattle.wi_parser.specs.Leaves.{leaves, all_leaves};
ghost use Rattle.wi_parser.specs.Reads.{content_reads};
ghost use Rattle.wi_parser.specs.Sheet.{content_of, has_formula};
ghost use Rattle.wi_parser.specs.View.{tree_of, all_of};
ghost use Rattle.wi_sheet.specs.Demand.{what_ifs_of};
ghost use Rattle.wi_engine.specs.Inner.Frames.{MayBeRead, content_reads_here};
ghost use Rattle.wi_engine.specs.Inner.MemoState.{IsMemoOf};
ghost use Rattle.wi_engine.specs.Inner.Plans.{IsPlanOf, IsWholePlan, MayBeNext, RestsOnSettled, begun_reading, comes_later, is_unsettled, is_what_if, planned_cells};

use crate::content_ref::{formula_at, formula_in};
use crate::memo::Memo;
use crate::occupied::{is_in_one, next_within};
use crate::placing::placed_plan;
use crate::plan::{Plan, Planned};
use std::alloc::{AllocError, Global};
use std::collections::{BTreeMap, BTreeSet};
use wi_parser::{Content, Expr, Formula};
use wi_store::Store;
use wi_values::{Address, Rect};
use wi_worlds::World;

/// How many cells a plan has at most.
const MAX_CELLS: usize = 10_000;

/// How many steps the walk to them takes at most, one for each cell that a formula reads and one at its end.
const MAX_STEPS: usize = 1_000_000;

/// How far a formula has been gone through.
#[derive(Clone, Copy)]
struct Reading {
    cell: Address,
    // The rectangle of the formula that the walk has come to.
    rectangle: usize,
    // The cell of that rectangle that was looked at last, if one was.
    after: Option<Address>,
}

/// A plan that is made by a walk, depth first, and not checked yet.
#[derive(Drop)]
struct Draft {
    // Each cell of it is read by the one before.
    path: Vec<Reading>,
    // A cell that reads it, by each cell that was met.
    readers: BTreeMap<Address, Address>,
    cells: Vec<Planned>,
    // How many formulas were met that it evaluates, those of the path among them.
    formulas: u64,
}

/// A plan for a cell's value where the inputs of a world are replaced, if there is one. There is none for a cell that
/// reaches no input, none that evaluates more than `most` formulas beside that of the cell, none of more than
/// `MAX_CELLS` cells, and none where a formula that reaches an input has a what-if. The formulas that reach an input
/// are gone through twice: for each occupied cell that they read the work is twice that of `Store::next_occupied`, and
/// where it has a formula a few look-ups, and once that of a key. The walk to them ends at the first one above `most`,
/// and finds no plan in more than `MAX_STEPS` steps. The memory grows with the count of the cells with a formula that
/// are read.
pub fn make_plan<M: Memo>(
    alloc: Global,
    store: &Store,
    world: &World,
    root: Address,
    most: u64,
    memo: &mut M,
) -> Result<Option<Plan>, AllocError>
    requires memo { IsMemoOf store.now.sheet (M.state memo.old) }
    requires read { MayBeRead store.now.sheet (M.state memo.old) root }
    ensures plan { IfOk result (λ o. IfSome o (λ p. IsPlanOf store.now.sheet p)) }
    ensures root { IfOk result (λ o. IfSome o (λ p. p.root ≡ root)) }
    ensures inputs { IfOk result (λ o. IfSome o (λ p.
        p.inputs.items ≡ map (λ r. r.at) world.now)) }
    ensures same { M.state memo.new ≡ M.state memo.old }
{
    let Some(draft) = drafted(alloc, store, world, root, most, memo)? else {
        return Ok(None);
    };
    checked(alloc, store, world, root, draft)
}

/// The plan that a draft is, if it is one.
fn checked(
    alloc: Global,
    store: &Store,
    world: &World,
    root: Address,
    draft: Draft,
) -> Result<Option<Plan>, AllocError>
    ensures plan { IfOk result (λ o. IfSome o (λ p. IsPlanOf store.now.sheet p)) }
    ensures root { IfOk result (λ o. IfSome o (λ p. p.root ≡ root)) }
    ensures inputs { IfOk result (λ o. IfSome o (λ p.
        p.inputs.items ≡ map (λ r. r.at) world.now)) }
{
    let inputs = inputs_of(alloc, world)?;
    if !is_plan(alloc, store, &inputs, root, &draft.cells, &draft.readers)? {
        return Ok(None);
    }
    let placed = placed_plan(alloc, store, &inputs, root, &draft.cells)?;
    Ok(Some(Plan {
        root,
        inputs,
        cells: draft.cells,
        placed,
    }))
}

/// The addresses that a world replaces.
fn inputs_of(alloc: Global, world: &World) -> Result<Vec<Address>, AllocError>
    ensures { IfOk result (λ inputs. inputs.items ≡ map (λ r. r.at) world.now) }
{
    world
        .replacements()
        .iter()
        .map(|replacement| replacement.at)
        .collect(alloc)
}

// ---- the check

/// Whether these cells are a plan. `true` is right whichever readers are noted.
fn is_plan(
    alloc: Global,
    store: &Store,
    inputs: &[Address],
    root: Address,
    cells: &[Planned],
    readers: &BTreeMap<Address, Address>,
) -> Result<bool, AllocError>
    ensures { IfOk result (λ b. OnTrue b (IsWholePlan store.now.sheet inputs.now root cells.now)) }
{
    let all = set_of_planned(alloc, cells)?;
    let mut settled = set_of(alloc, inputs)?;
    for cell in cells {
        let Some(reader) = readers.get(&cell.at) else {
            return Ok(false);
        };
        if !may_be_next(store, root, &all, &settled, *reader, *cell) {
            return Ok(false);
        }
        settled.insert(cell.at)?;
    }
    Ok(rests_on(store, root, &settled))
}

/// These cells as a set.
fn set_of(alloc: Global, cells: &[Address]) -> Result<BTreeSet<Address>, AllocError>
    ensures { IfOk result (λ set. (c : ℕ) → contains nat_cmp set c ≡ is_one_of cells.now c) }
{
    let mut set = BTreeSet::new(alloc);
    for cell in cells {
        set.insert(*cell)?;
    }
    Ok(set)
}

/// The cells of a plan as a set.
fn set_of_planned(alloc: Global, cells: &[Planned]) -> Result<BTreeSet<Address>, AllocError>
    ensures { IfOk result (λ set. (c : ℕ)
        → contains nat_cmp set c ≡ is_one_of (planned_cells cells.now) c) }
{
    let mut set = BTreeSet::new(alloc);
    for cell in cells {
        set.insert(cell.at)?;
    }
    Ok(set)
}

/// Whether a cell may be the next of a plan, where this one reads it. `all` are the cells of the plan, and `settled`
/// the inputs and those of these cells that stand before.
fn may_be_next(
    store: &Store,
    root: Address,
    all: &BTreeSet<Address>,
    settled: &BTreeSet<Address>,
    reader: Address,
    cell: Planned,
) -> bool
    ensures { OnTrue result (MayBeNext store.now.sheet root
        (contains nat_cmp all.now) (contains nat_cmp settled.now) cell) }
{
    is_fresh(store, root, settled, cell.at)
        && is_later(root, all, settled, cell.at, reader)
        && is_read(store, reader, cell.at)
        && (cell.is_given || rests_on(store, cell.at, settled))
}

/// Whether a cell has a formula, is none of these and not the root.
fn is_fresh(store: &Store, root: Address, settled: &BTreeSet<Address>, cell: Address) -> bool
    ensures { result ≡ (has_formula (content_of store.now.sheet cell)
        && not (contains nat_cmp settled.now cell) && not (cell == root)) }
{
    formula_at(store, cell).is_some() && !settled.contains(&cell) && cell != root
}

/// Whether a cell that reads another one is the root, or stands behind it.
fn is_later(
    root: Address,
    all: &BTreeSet<Address>,
    settled: &BTreeSet<Address>,
    cell: Address,
    reader: Address,
) -> bool
    ensures { result ≡ comes_later root (contains nat_cmp all.now) (contains nat_cmp settled.now)
        cell reader }
{
    reader == root || (all.contains(&reader) && !settled.contains(&reader) && cell != reader)
}

/// Whether the formula of a cell has no what-if and reads another one.
fn is_read(store: &Store, reader: Address, cell: Address) -> bool
    ensures { OnTrue result (content_reads_here (content_of store.now.sheet reader) cell ≡ true) }
{
    match plain_formula(store, reader) {
        Some(formula) => is_in_one(cell, formula.rectangles()),
        None => false,
    }
}

/// Whether the formula of a cell has no what-if, and each cell with a formula that it reads is one of these. The work
/// is one pass over the occupied cells that it reads.
fn rests_on(store: &Store, cell: Address, settled: &BTreeSet<Address>) -> bool
    ensures { OnTrue result (RestsOnSettled store.now.sheet (contains nat_cmp settled.now) cell) }
{
    match plain_formula(store, cell) {
        Some(formula) => !have_unsettled(store, formula.rectangles(), settled),
        None => false,
    }
}

/// The formula of a cell, if it has one and this has no what-ifs.
fn plain_formula(store: &Store, at: Address) -> Option<&Formula>
    ensures stands { IfSome result (λ f.
        content_of store.now.sheet at ≡ Some (Content.Formula f.now)) }
    ensures plain { IfSome result (λ f. what_ifs_of f.now ≡ []) }
{
    let formula = formula_at(store, at)?;
    if has_what_if(formula.tree()) {
        return None;
    }
    Some(formula)
}

/// Whether a cell of these rectangles has a formula and is none of these.
fn have_unsettled(store: &Store, rectangles: &[Rect], settled: &BTreeSet<Address>) -> bool
    ensures { result ≡ list_any (λ r.
        list_any (is_unsettled store.now.sheet (contains nat_cmp settled.now))
        (filter (is_within r) (keys_of store.now.sheet))) rectangles.now }
{
    rectangles
        .iter()
        .any(|rectangle| has_unsettled(store, *rectangle, settled))
}

/// Whether a cell of a rectangle has a formula and is none of these.
fn has_unsettled(store: &Store, area: Rect, settled: &BTreeSet<Address>) -> bool
    ensures { result ≡ list_any (is_unsettled store.now.sheet (contains nat_cmp settled.now))
        (filter (is_within area) (keys_of store.now.sheet)) }
{
    let mut ahead = next_within(store, area, None);
    while let Some(cell) = ahead {
        if is_unsettled(store, cell, settled) {
            return true;
        }
        ahead = next_within(store, area, Some(cell));
    }
    false
}

/// Whether a cell has a formula and is none of these.
fn is_unsettled(store: &Store, cell: Address, settled: &BTreeSet<Address>) -> bool
    ensures { result ≡ is_unsettled store.now.sheet (contains nat_cmp settled.now) cell }
{
    formula_at(store, cell).is_some() && !settled.contains(&cell)
}

/// Whether a tree has a what-if. The work is at most linear in the size of the tree.
#[cycle(what_ifs)]
fn has_what_if(expr: &Expr) -> bool
    ensures { result ≡ list_any is_what_if (leaves (tree_of expr.now)) }
{
    match expr {
        Expr::Number(_) => false,
        Expr::Text(_) => false,
        Expr::Cell(_) => false,
        Expr::Rectangle(_) => false,
        Expr::Parenthesized(inner) => has_what_if(inner),
        Expr::Signed(_, operand) => has_what_if(operand),
        Expr::Percent(operand) => has_what_if(operand),
        Expr::Binary(_, operands) => {
            if has_what_if(&operands.0) {
                return true;
            }
            has_what_if(&operands.1)
        }
        Expr::WhatIf(_) => true,
        Expr::Call(call) => have_what_if(&call.1),
    }
}

/// Whether one of these trees has a what-if.
#[cycle(what_ifs)]
fn have_what_if(trees: &[Expr]) -> bool
    ensures { result ≡ list_any is_what_if (all_leaves (all_of trees.now)) }
{
    for tree in trees {
        if has_what_if(tree) {
            return true;
        }
    }
    false
}

// ---- the draft

/// The cells below a root that reach replaced ones, at most so many, with those beside them that they read, in an
/// order in which each comes after those that it reads. None where they or the steps of the walk are too many, and
/// where one of them has a what-if.
fn drafted<M: Memo>(
    alloc: Global,
    store: &Store,
    world: &World,
    root: Address,
    most: u64,
    memo: &mut M,
) -> Result<Option<Draft>, AllocError>
    requires memo { IsMemoOf store.now.sheet (M.state memo.old) }
    requires read { MayBeRead store.now.sheet (M.state memo.old) root }
    ensures same { M.state memo.new ≡ M.state memo.old }
{
    let Some(formula) = formula_in(store, world, root) else {
        return Ok(None);
    };
    if !formula.inputs().is_empty() {
        return Ok(None);
    }
    if !reaches_replaced(world, root, memo)? {
        return Ok(None);
    }
    let mut draft = Draft {
        path: Vec::new(alloc),
        readers: BTreeMap::new(alloc),
        cells: Vec::new(alloc),
        formulas: 0,
    };
    draft.go_into(root)?;
    for _ in 0..MAX_STEPS {
        let Some(reading) = draft.path.pop() else {
            return Ok(Some(draft));
        };
        if !draft.go_on(store, world, reading, memo)? || draft.is_above(most) {
            return Ok(None);
        }
    }
    Ok(None)
}

impl Draft {
    /// Whether it evaluates more than so many formulas, or has too many cells.
    fn is_above(&self, most: u64) -> bool {
        self.formulas > most || self.cells.len() > MAX_CELLS
    }

    /// Goes on from the last formula of the path, which was taken off: to the next cell that it reads, or back.
    /// Answers whether the cells may still become a plan.
    fn go_on<M: Memo>(
        &mut self,
        store: &Store,
        world: &World,
        reading: Reading,
        memo: &mut M,
    ) -> Result<bool, AllocError>
        requires memo { IsMemoOf store.now.sheet (M.state memo.old) }
        requires path { All (λ r. MayBeRead store.now.sheet (M.state memo.old) r.cell)
            self.old.path.items }
        requires read { MayBeRead store.now.sheet (M.state memo.old) reading.cell }
        ensures path { OnOk result (All
            (λ r. MayBeRead store.now.sheet (M.state memo.old) r.cell) self.new.path.items) }
        ensures same { M.state memo.new ≡ M.state memo.old }
    {
        let reader = reading.cell;
        match reading.next(store) {
            Some((cell, ahead)) => {
                self.path.push(ahead)?;
                self.meet(store, world, reader, cell, memo)
            }
            None => {
                self.leave(reader)?;
                Ok(true)
            }
        }
    }

    /// Comes upon a cell that another one reads. Where it was not met before, has a formula and isn't replaced, it
    /// comes onto the path if it reaches a replaced cell, and else into the plan as one that is given. Answers
    /// whether the cells may still become a plan.
    fn meet<M: Memo>(
        &mut self,
        store: &Store,
        world: &World,
        reader: Address,
        cell: Address,
        memo: &mut M,
    ) -> Result<bool, AllocError>
        requires path { All (λ r. MayBeRead store.now.sheet (M.state memo.old) r.cell)
            self.old.path.items }
        requires read { MayBeRead store.now.sheet (M.state memo.old) cell }
        ensures path { OnOk result (All
            (λ r. MayBeRead store.now.sheet (M.state memo.old) r.cell) self.new.path.items) }
        ensures same { M.state memo.new ≡ M.state memo.old }
    {
        if self.readers.contains_key(&cell) {
            return Ok(true);
        }
        let Some(formula) = formula_in(store, world, cell) else {
            return Ok(true);
        };
        self.readers.insert(cell, reader)?;
        if reaches_replaced(world, cell, memo)? {
            self.formulas = self.formulas.saturating_add(1);
            self.go_into(cell)?;
            return Ok(formula.inputs().is_empty());
        }
        self.cells.push(Planned {
            at: cell,
            is_given: true,
        })?;
        Ok(true)
    }

    /// Begins with a cell's formula.
    fn go_into(&mut self, cell: Address) -> Result<(), AllocError>
        ensures { OnOk result (self.new.path.items
            ≡ self.old.path.items ++ begun_reading cell ∷ []) }
    {
        self.path.push(Reading {
            cell,
            rectangle: 0,
            after: None,
        })?;
        Ok(())
    }

    /// Puts a cell into the plan, unless it is the root, below which nothing stands on the path.
    fn leave(&mut self, cell: Address) -> Result<(), AllocError>
        ensures { self.new.path.items ≡ self.old.path.items }
    {
        if self.path.is_empty() {
            return Ok(());
        }
        self.cells.push(Planned {
            at: cell,
            is_given: false,
        })?;
        Ok(())
    }
}

impl Reading {
    /// The next occupied cell that the formula reads, and how far it is gone through once that was looked at.
    fn next(self, store: &Store) -> Option<(Address, Reading)>
        ensures read { IfSome result (λ r.
            content_reads (content_of store.now.sheet self.cell) r.0 ≡ true) }
        ensures same { IfSome result (λ r. r.1.cell ≡ self.cell) }
    {
        let formula = formula_at(store, self.cell)?;
        let rectangles = formula.rectangles();
        let mut rectangle = self.rectangle;
        let mut after = self.after;
        while let Some(area) = rectangles.get(rectangle) {
            if let Some(cell) = next_within(store, *area, after) {
                let ahead = Reading {
                    cell: self.cell,
                    rectangle,
                    after: Some(cell),
                };
                return Some((cell, ahead));
            }
            rectangle += 1;
            after = None;
        }
        None
    }
}

/// Whether a cell reaches a replaced one.
fn reaches_replaced<M: Memo>(world: &World, cell: Address, memo: &mut M) -> Result<bool, AllocError>
    requires { (M.state memo.old).covers cell ≡ true }
    ensures same { M.state memo.new ≡ M.state memo.old }
{
    let key = memo.key(cell, world)?;
    Ok(!key.world.replacements().is_empty())
}
