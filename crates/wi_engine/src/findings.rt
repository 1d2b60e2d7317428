//! The values that were found for one formula.

ghost use Rattle.std.specs.Prelude.{◌≡◌, ℕ, [], map, true, None, OnOk};
ghost use Rattle.std.specs.Option.{option_copied};
ghost use Rattle.wi_parser.specs.View.{pair_of};
ghost use Rattle.wi_arguments.specs.Assignment.{addresses};
ghost use Rattle.wi_engine.specs.Inner.Findings.{found_value, found_what_ifs, what_if_found, IsWithCell, IsWithWhatIf};

use crate::lists::{FoundWhatIf, Lists};
use crate::pool::Pool;
use std::alloc::AllocError;
use wi_parser::Pair;
use wi_values::{Address, Value};

/// The values that were found for one formula: of cells, and of what-ifs. Until the first is found there are no lists
/// of them, so that of the formulas that wait for one another only those have lists for which something was found.
#[derive(Drop)]
pub struct Findings {
    pub lists: Option<Box<Lists>>,
}

impl Findings {
    /// No values yet. Takes no memory.
    pub(crate) fn new() -> Findings
        ensures cells { (c : ℕ) → found_value result c ≡ None }
        ensures what_ifs { found_what_ifs result ≡ [] }
    {
        Findings { lists: None }
    }

    /// Whether no value was found.
    pub(crate) fn is_empty(&self) -> bool
        ensures { result ≡ true → (c : ℕ) → found_value self.now c ≡ None }
    {
        match self.lists {
            Some(_) => false,
            None => true,
        }
    }

    /// Whether values of 4 cells were found, or of 8, of 16, and so on.
    pub(crate) fn has_doubled(&self) -> bool {
        match &self.lists {
            Some(lists) => lists.has_doubled(),
            None => false,
        }
    }

    /// The value found of a cell. The work grows with the logarithm of the count of cells found.
    #[inline(always)]
    pub(crate) fn cell(&self, at: Address) -> Option<&Value>
        ensures { option_copied result ≡ found_value self.now at }
    {
        match &self.lists {
            Some(lists) => lists.cell(at),
            None => None,
        }
    }

    /// The value found of a what-if. The work grows with the count of what-ifs found.
    pub(crate) fn what_if(&self, at: Address, pairs: &[Pair]) -> Option<&Value>
        ensures { option_copied result
            ≡ what_if_found self.now at (map addresses (map pair_of pairs.now)) }
    {
        match &self.lists {
            Some(lists) => lists.what_if(at, pairs),
            None => None,
        }
    }

    /// Adds the value of a cell of which none was found. For the first value lists are taken from a pool. The work
    /// grows with the logarithm of the count of cells found.
    #[inline(always)]
    pub(crate) fn add_cell(
        &mut self,
        at: Address,
        value: Value,
        pool: &mut Pool,
    ) -> Result<(), AllocError>
        requires { found_value self.old at ≡ None }
        ensures { OnOk result (IsWithCell self.old self.new at value) }
    {
        match &mut self.lists {
            Some(lists) => lists.add_cell(at, value),
            None => {
                let mut lists = pool.take()?;
                lists.add_cell(at, value)?;
                self.lists = Some(lists);
                Ok(())
            }
        }
    }

    /// Adds a what-if's value, behind the others. For the first value lists are taken from a pool.
    pub(crate) fn add_what_if(
        &mut self,
        found: FoundWhatIf,
        pool: &mut Pool,
    ) -> Result<(), AllocError>
        ensures { OnOk result (IsWithWhatIf self.old self.new found) }
    {
        match &mut self.lists {
            Some(lists) => lists.add_what_if(found),
            None => {
                let mut lists = pool.take()?;
                lists.add_what_if(found)?;
                self.lists = Some(lists);
                Ok(())
            }
        }
    }

    /// Puts the lists into a pool, if there are any. The work grows with the count of their values.
    #[inline(always)]
    pub(crate) fn recycle(self, pool: &mut Pool) {
        match self.lists {
            Some(lists) => pool.put(lists),
            None => {}
        }
    }
}
