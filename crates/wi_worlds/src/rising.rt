//! Cells in row-major order.

ghost use Rattle.std.specs.Prelude.{◌≡◌, ◌==◌, ◌||◌, ◌∷◌, ℕ, [], IfOk, OnOk, OnErr};
ghost use Rattle.std.specs.List.Sorted.{IsStrictlyIncreasing};
ghost use Rattle.wi_values.specs.Address.{is_one_of};

use std::alloc::{AllocError, Global};
use std::marker::Model;
use wi_values::Address;

/// Cells in row-major order, each once.
#[derive(Drop)]
pub struct RisingCells {
    cells: Vec<Address>,
}

impl Model for RisingCells {
    ghost use Rattle.std.specs.Prelude.{List, ℕ};
    ghost use Rattle.std.specs.List.Sorted.{IsStrictlyIncreasing};

    ghost Value = { List ℕ };

    ghost view = { λ r. r.cells.items };

    ghost invariant = { λ r. IsStrictlyIncreasing r.cells.items };
}

impl RisingCells {
    /// No cells. Takes no memory.
    pub(crate) fn new(alloc: Global) -> RisingCells
        ensures { result ≡ [] }
    {
        RisingCells {
            cells: Vec::new(alloc),
        }
    }

    /// One cell, with room for no other.
    pub(crate) fn one(alloc: Global, cell: Address) -> Result<RisingCells, AllocError>
        ensures { IfOk result (λ r. r ≡ cell ∷ []) }
    {
        let mut cells = Vec::with_capacity(alloc, 1)?;
        cells.push(cell)?;
        Ok(RisingCells { cells })
    }

    /// The cells.
    pub(crate) fn as_slice(&self) -> &[Address]
        ensures value { result.now ≡ self.now }
        ensures order { IsStrictlyIncreasing self.now }
    {
        &self.cells
    }

    /// Puts a cell in where it isn't there. If memory runs out, all is as before. The work grows with the count of the
    /// cells behind it.
    pub(crate) fn insert(&mut self, cell: Address) -> Result<(), AllocError>
        ensures has { OnOk result ((c : ℕ)
            → is_one_of self.new c ≡ (cell == c || is_one_of self.old c)) }
        ensures err { OnErr result (self.new ≡ self.old) }
    {
        match self.cells.binary_search(&cell) {
            Ok(_) => Ok(()),
            Err(place) => {
                self.cells.insert(place, cell)?;
                Ok(())
            }
        }
    }
}

/// Whether a cell is one of these, which stand in row-major order. Where it stands at the likely place it isn't
/// searched for. The likely place becomes that of the next cell in order.
#[inline(always)]
pub(crate) fn has_next(cells: &[Address], likely: &mut usize, cell: Address) -> bool
    requires { IsStrictlyIncreasing cells.now }
    ensures { result ≡ is_one_of cells.now cell }
{
    if cells.get(*likely) == Some(&cell) {
        *likely = likely.saturating_add(1);
        return true;
    }
    match cells.binary_search(&cell) {
        Ok(place) => {
            *likely = place.saturating_add(1);
            true
        }
        Err(place) => {
            *likely = place;
            false
        }
    }
}
