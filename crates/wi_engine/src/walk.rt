//! Which cells a cell reaches, its precedents at any remove, and whether one is circular, by a walk along references.

ghost use Rattle.std.specs.Prelude.{◌≡◌, ◌<◌, ◌≤◌, ◌+◌, ◌++◌, ◌∷◌, [], ℕ, Some, None, true, false, IfOk, IfSome, IfNone, OnOk};
ghost use Rattle.std.specs.BTreeMap.{Updates};
ghost use Rattle.std.specs.Ordering.{nat_cmp};
ghost use Rattle.std.specs.Bool.{OnFalse, OnTrue};
ghost use Rattle.std.specs.Option.{is_none};
ghost use Rattle.std.specs.List.{list_any};
ghost use Rattle.wi_parser.specs.Sheet.{content_of, has_formula};
ghost use Rattle.wi_graph.specs.Circular as cycles;
ghost use Rattle.wi_values.specs.Address.{is_one_of};
ghost use Rattle.wi_graph.specs.Reach.{Reaches};
ghost use Rattle.wi_sheet.specs.Inner.ReadOrder.{IsReadOrder};
ghost use Rattle.wi_engine.specs.Inner.Walk.{IsBelow, Enter, GoesOn, HasCycle, begun, tasks_in, tasks_left, unread};
ghost use Rattle.wi_engine.specs.declared.walk.Progress.TheVariants.{Open, Done};

use crate::content_ref::formula_at;
use crate::occupied::next_within;
use std::alloc::{AllocError, Global};
use std::collections::BTreeMap;
use wi_store::Store;
use wi_values::Address;

/// A cell that the walk is below, and how far it has come in what the cell's formula reads.
#[derive(Clone, Copy)]
struct Visit {
    cell: Address,
    // The rectangle of the formula that it has come to.
    rectangle: usize,
    // The cell of that rectangle that was looked at last, if one was.
    after: Option<Address>,
}

/// How far a cell has come.
#[derive(Clone, Copy)]
enum Progress {
    /// It is on the path.
    Open,
    /// It stands in the order.
    Done,
}

/// A walk along references, depth first.
#[derive(Drop)]
struct Walk {
    // Each cell of it is read by the one before.
    path: Vec<Visit>,
    progress: BTreeMap<Address, Progress>,
    order: Vec<Address>,
}

/// The cells with a formula that a cell reaches, itself among them, each once and after those that it reads. None where
/// the cell is circular. The work and the memory are those of `reached_from`.
pub fn reached(
    alloc: Global,
    store: &Store,
    at: Address,
) -> Result<Option<Vec<Address>>, AllocError>
    ensures circular { IfOk result (λ o. is_none o ≡ cycles.circular store.now.sheet at) }
    ensures order { IfOk result (λ o. IfSome o (λ r. IsReadOrder store.now.sheet r.items)) }
    ensures only { IfOk result (λ o. IfSome o (λ r. (d : ℕ) → is_one_of r.items d ≡ true
        → Reaches store.now.sheet at d)) }
    ensures root { IfOk result (λ o.
        IfSome o (λ r. has_formula (content_of store.now.sheet at) ≡ true
        → is_one_of r.items at ≡ true)) }
{
    reached_from(alloc, store, &[at])
}

/// The cells with a formula that these cells reach, they among them, each once and after those that it reads. None
/// where one of these cells is circular. The work grows with the count of the occupied cells in the rectangles that the
/// reached cells read, each as often as it is read (so with the square of a column of running totals), for each of
/// these as that of `Store::next_occupied`. The memory grows with the count of the cells reached.
pub fn reached_from(
    alloc: Global,
    store: &Store,
    cells: &[Address],
) -> Result<Option<Vec<Address>>, AllocError>
    ensures circular { IfOk result (λ o.
        is_none o ≡ list_any (cycles.circular store.now.sheet) cells.now) }
    ensures order { IfOk result (λ o. IfSome o (λ r. IsReadOrder store.now.sheet r.items)) }
    ensures only { IfOk result (λ o. IfSome o (λ r. (d : ℕ) → is_one_of r.items d ≡ true
        → IsBelow store.now.sheet cells.now d)) }
    ensures roots { IfOk result (λ o. IfSome o (λ r. (c : ℕ) → is_one_of cells.now c ≡ true
        → has_formula (content_of store.now.sheet c) ≡ true → is_one_of r.items c ≡ true)) }
{
    let mut walk = Walk {
        path: Vec::new(alloc),
        progress: BTreeMap::new(alloc),
        order: Vec::new(alloc),
    };
    for cell in cells {
        if walk.meets_cycle(store, *cell)? {
            return Ok(None);
        }
    }
    Ok(Some(walk.order))
}

impl Walk {
    /// Walks from a cell on to all that it reaches. Answers whether it came upon a cycle.
    fn meets_cycle(&mut self, store: &Store, root: Address) -> Result<bool, AllocError>
        requires { self.old.path.items ≡ [] }
        ensures cycle { IfOk result (λ b. OnTrue b (HasCycle store.now.sheet
            (Enter root ∷ []) self.old.progress self.old.order.items)) }
        ensures walk { IfOk result (λ b. OnFalse b (GoesOn store.now.sheet
            (Enter root ∷ []) self.old.progress self.old.order.items
            [] self.new.progress self.new.order.items)) }
        ensures path { IfOk result (λ b. OnFalse b (self.new.path.items ≡ [])) }
    {
        if self.enter(store, root)? {
            return Ok(true);
        }
        while let Some(visit) = self.path.pop() {
            if self.go_on(store, visit)? {
                return Ok(true);
            }
        }
        Ok(false)
    }

    /// Goes on from the last cell of the path, which was taken off: to the next cell that it reads, or back. Answers
    /// whether that closes a cycle.
    fn go_on(&mut self, store: &Store, visit: Visit) -> Result<bool, AllocError>
        ensures cycle { IfOk result (λ b. OnTrue b (HasCycle store.now.sheet
            (tasks_in store.now.sheet (self.old.path.items ++ visit ∷ []))
            self.old.progress self.old.order.items)) }
        ensures walk { IfOk result (λ b. OnFalse b (GoesOn store.now.sheet
            (tasks_in store.now.sheet (self.old.path.items ++ visit ∷ []))
            self.old.progress self.old.order.items
            (tasks_in store.now.sheet self.new.path.items)
            self.new.progress self.new.order.items)) }
        ensures less { OnOk result (
            tasks_left store.now.sheet self.new.progress
            (tasks_in store.now.sheet self.new.path.items)
            < tasks_left store.now.sheet self.old.progress
            (tasks_in store.now.sheet (self.old.path.items ++ visit ∷ []))) }
    {
        let current = visit.cell;
        match visit.next(store) {
            Some((cell, ahead)) => {
                self.path.push(ahead)?;
                self.enter(store, cell)
            }
            None => {
                self.leave(current)?;
                Ok(false)
            }
        }
    }

    /// Goes into a cell that the last one of the path reads. Answers whether it is on the path: then it is on a cycle.
    fn enter(&mut self, store: &Store, cell: Address) -> Result<bool, AllocError>
        ensures cycle { IfOk result (λ b. OnTrue b (HasCycle store.now.sheet
            (tasks_in store.now.sheet self.old.path.items ++ Enter cell ∷ [])
            self.old.progress self.old.order.items)) }
        ensures walk { IfOk result (λ b. OnFalse b (GoesOn store.now.sheet
            (tasks_in store.now.sheet self.old.path.items ++ Enter cell ∷ [])
            self.old.progress self.old.order.items
            (tasks_in store.now.sheet self.new.path.items)
            self.new.progress self.new.order.items)) }
        ensures less { OnOk result (
            tasks_left store.now.sheet self.new.progress
            (tasks_in store.now.sheet self.new.path.items)
            ≤ tasks_left store.now.sheet self.old.progress
            (tasks_in store.now.sheet self.old.path.items)) }
    {
        match self.progress.get(&cell) {
            Some(Progress::Open) => Ok(true),
            Some(Progress::Done) => Ok(false),
            None => {
                self.visit(store, cell)?;
                Ok(false)
            }
        }
    }

    /// Puts a cell into the order.
    fn leave(&mut self, cell: Address) -> Result<(), AllocError>
        ensures path { self.new.path.items ≡ self.old.path.items }
        ensures order { OnOk result (self.new.order.items ≡ self.old.order.items ++ cell ∷ []) }
        ensures progress { OnOk result
            (Updates nat_cmp self.old.progress self.new.progress cell (Some Done)) }
    {
        self.progress.insert(cell, Progress::Done)?;
        self.order.push(cell)?;
        Ok(())
    }

    /// Looks at a cell. Where it has a formula, it comes onto the path.
    fn visit(&mut self, store: &Store, cell: Address) -> Result<(), AllocError>
        ensures order { self.new.order.items ≡ self.old.order.items }
        ensures plain { has_formula (content_of store.now.sheet cell) ≡ false
            → (self.new.path.items ≡ self.old.path.items)
            × (self.new.progress ≡ self.old.progress) }
        ensures path { OnOk result (has_formula (content_of store.now.sheet cell) ≡ true
            → self.new.path.items ≡ self.old.path.items ++ begun cell ∷ []) }
        ensures progress { OnOk result (has_formula (content_of store.now.sheet cell) ≡ true
            → Updates nat_cmp self.old.progress self.new.progress cell (Some Open)) }
    {
        if formula_at(store, cell).is_none() {
            return Ok(());
        }
        self.progress.insert(cell, Progress::Open)?;
        self.path.push(Visit {
            cell,
            rectangle: 0,
            after: None,
        })?;
        Ok(())
    }
}

impl Visit {
    /// The next occupied cell that the formula reads, and the visit once that was looked at.
    fn next(self, store: &Store) -> Option<(Address, Visit)>
        ensures some { IfSome result (λ r.
            unread store.now.sheet self ≡ r.0 ∷ unread store.now.sheet r.1) }
        ensures same { IfSome result (λ r. r.1.cell ≡ self.cell) }
        ensures none { IfNone result (unread store.now.sheet self ≡ []) }
    {
        let formula = formula_at(store, self.cell)?;
        let rectangles = formula.rectangles();
        let mut rectangle = self.rectangle;
        let mut after = self.after;
        while let Some(area) = rectangles.get(rectangle) {
            if let Some(cell) = next_within(store, *area, after) {
                let ahead = Visit {
                    cell: self.cell,
                    rectangle,
                    after: Some(cell),
                };
                return Some((cell, ahead));
            }
            rectangle += 1;
            after = None;
        }
        None
    }
}
