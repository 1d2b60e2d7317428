//! A calculator that keeps nothing it has calculated: each question is a recalculation from the contents.

ghost use Rattle.std.specs.Prelude.{◌≡◌, []};

use crate::calculator::Calculator;
use crate::table_entry::table_entry;
use crate::value::shown;
use std::alloc::{AllocError, Global};
use wi_functions::Meter;
use wi_parser::{Content, NewContent};
use wi_store::{Limits, Store, StoreFault};
use wi_values::{Address, Rect, Replacement, Value};

/// A calculator that keeps nothing it has calculated: each value is found from the contents alone.
#[derive(Drop)]
pub struct PlainCalculator {
    store: Store,
    meter: Meter,
    alloc: Global,
}

impl PlainCalculator {
    ghost use Rattle.wi_propagate.specs.Inner.Plain.{stored_of, counts_of};

    /// An empty sheet within limits, with no edits yet. Takes no memory.
    pub fn new(alloc: Global, limits: Limits) -> PlainCalculator
        ensures stored { stored_of result ≡ record { sheet = []; edits = 0; limits = limits } }
        ensures counts { counts_of result ≡ record { evaluations = 0; restarts = 0 } }
    {
        PlainCalculator {
            store: Store::new(alloc, limits),
            meter: Meter::new(),
            alloc,
        }
    }
}

impl Calculator for PlainCalculator {
    ghost use Rattle.std.specs.Prelude.{true};
    ghost use Rattle.wi_propagate.specs.Inner.Plain.{stored_of, counts_of, has_formula_or_is_one_of};
    ghost use Rattle.wi_sheet.proofs.Marks.{formulas_mark};

    ghost stored = { stored_of };

    ghost evaluated = { λ c. (counts_of c).evaluations };

    ghost restarted = { λ c. (counts_of c).restarts };

    ghost is_light = { λ c. true };

    ghost marked = { has_formula_or_is_one_of };

    fn content(&self, at: Address) -> Option<&Content> {
        self.store.get(at)
    }

    fn next_occupied(&self, area: Rect, from: Address) -> Option<Address> {
        self.store.cells_stand_in_order();
        self.store.next_occupied(area, from)
    }

    fn cells_lie_in_the_sheet(&self) {
        self.store.cells_lie_in_the_sheet();
    }

    fn apply(&mut self, changes: Vec<NewContent>) -> Result<(), StoreFault> {
        self.store.apply(changes)
    }

    fn apply_slice(&mut self, changes: &mut [NewContent]) -> Result<(), StoreFault> {
        self.store.apply_slice(changes)
    }

    /// What a cell shows under replacements. A formula is evaluated once for each list of replacements of cells that it
    /// reaches under which its value is asked for, and begun again where it lacks a value. No sheet is copied: the
    /// replacements are carried along. What was found is forgotten at the end.
    fn value(&mut self, replacements: &[Replacement], at: Address) -> Result<Value, AllocError> {
        shown(self.alloc, &self.store, replacements, at, &mut self.meter)
    }

    /// What an entry of a data table shows under replacements. A formula is evaluated once for each list of
    /// replacements of cells that it reaches under which its value is asked for, for whichever cell of the entry. What
    /// was found is forgotten at the end.
    fn what_if_value(
        &mut self,
        replacements: &[Replacement],
        formula_cell: Address,
        pairs: &[(Address, Address)],
    ) -> Result<Value, AllocError> {
        table_entry(
            self.alloc,
            &self.store,
            replacements,
            formula_cell,
            pairs,
            &mut self.meter,
        )
    }

    /// All cells with a formula, in row-major order, and then these.
    fn mark(&self, cells: &[Address]) -> Result<Vec<Address>, AllocError> {
        let mut marked = self.store.formulas()?;
        marked.extend_from_slice(cells)?;
        Ok(marked)
    }

    fn lighten(&mut self) {}

    fn evaluations(&self) -> u64 {
        self.meter.evaluations()
    }

    fn restarts(&self) -> u64 {
        self.meter.restarts()
    }

    ghost marks = { formulas_mark };
}
