//! Sets of cells that mostly come in row-major order.

ghost use Rattle.std.specs.Prelude.{◌≡◌, ◌==◌, ◌||◌, ◌++◌, ◌↔◌, ℕ, [], not, IsTrue, IfOk, OnOk, OnErr};
ghost use Rattle.std.specs.List.{Contains};
ghost use Rattle.std.specs.List.Sorted.{IsStrictlyIncreasing};
ghost use Rattle.std.specs.Ordering.{nat_cmp};
ghost use Rattle.std.specs.BTreeSet.{contains};
ghost use Rattle.wi_values.specs.Address.{is_one_of};
ghost use Rattle.wi_ranges.specs.Inner.Rising.{ends_before};

use std::alloc::{AllocError, Global};
use std::collections::BTreeSet;
use std::marker::Model;
use wi_values::Address;

/// A set of cells that are put in one by one, mostly in row-major order, and then listed. Those that come in this order
/// stand in a list, and only the others in a tree.
#[derive(Drop)]
pub struct RisingSet {
    // In row-major order.
    rising: Vec<Address>,
    // Each came after a later cell.
    others: BTreeSet<Address>,
}

impl Model for RisingSet {
    ghost use Rattle.std.specs.Prelude.{ℕ, ◌++◌};
    ghost use Rattle.std.specs.BTreeSet.{BTreeSet};
    ghost use Rattle.wi_ranges.specs.Inner.Rising.{StandApart};

    ghost Value = { BTreeSet ℕ };

    ghost view = { λ s. record { keys = s.rising.items ++ s.others.keys } };

    ghost invariant = { λ s. StandApart s.rising.items s.others };
}

impl RisingSet {
    /// No cells. Takes no memory.
    pub fn new(alloc: Global) -> RisingSet
        ensures { result.keys ≡ [] }
    {
        RisingSet {
            rising: Vec::new(alloc),
            others: BTreeSet::new(alloc),
        }
    }

    /// Puts a cell in, and answers whether it is new. If memory runs out, all is as before. A cell after the last in
    /// row-major order costs the same however many there are; with any other the work grows with the logarithm of their
    /// count.
    pub fn insert(&mut self, cell: Address) -> Result<bool, AllocError>
        ensures added { IfOk result (λ added. added ≡ not (contains nat_cmp self.old cell)) }
        ensures has { OnOk result
            ((c : ℕ) → contains nat_cmp self.new c ≡ (contains nat_cmp self.old c || c == cell)) }
        ensures err { OnErr result (self.new ≡ self.old) }
    {
        if ends_before(&self.rising, cell) {
            self.rising.push(cell)?;
            return Ok(true);
        }
        if is_among(&self.rising, cell) {
            return Ok(false);
        }
        Ok(self.others.insert(cell)?)
    }

    /// The cells in row-major order, each once. Where each came in this order, they are a list already; else the work
    /// grows with their count.
    pub fn into_list(self) -> Result<Vec<Address>, AllocError>
        ensures order { IfOk result (λ list. IsStrictlyIncreasing list.items) }
        ensures cells { IfOk result
            (λ list. (c : ℕ) → Contains list.items c ↔ IsTrue (contains nat_cmp self c)) }
    {
        let RisingSet { rising, others } = self;
        if others.is_empty() {
            return Ok(rising);
        }
        merged(rising, &others)
    }
}

/// Whether a cell comes after the last of a list, if there is one.
fn ends_before(cells: &[Address], cell: Address) -> bool
    ensures { result ≡ ends_before cells.now cell }
{
    match cells.last() {
        Some(last) => *last < cell,
        None => true,
    }
}

/// Whether a cell is one of these, which stand in row-major order.
fn is_among(cells: &[Address], cell: Address) -> bool
    requires { IsStrictlyIncreasing cells.now }
    ensures { result ≡ is_one_of cells.now cell }
{
    cells.binary_search(&cell).is_ok()
}

/// The cells of a list and of a set in row-major order, each once. Both stand in this order, so that the sort has two
/// runs to merge.
fn merged(mut cells: Vec<Address>, others: &BTreeSet<Address>) -> Result<Vec<Address>, AllocError>
    ensures order { IfOk result (λ list. IsStrictlyIncreasing list.items) }
    ensures cells { IfOk result
        (λ list. (c : ℕ) → Contains list.items c ↔ Contains (cells.items ++ others.now.keys) c) }
{
    cells.extend(others.iter().copied())?;
    cells.sort()?;
    cells.dedup();
    Ok(cells)
}
