//! Values of cells in row-major order.

ghost use Rattle.std.specs.Prelude.{◌≡◌, ◌<◌, ◌++◌, ◌∷◌, [], true, Some, All, IfSome, OnOk, OnErr};
ghost use Rattle.std.specs.List.Sorted.{IsStrictlySortedBy};
ghost use Rattle.std.specs.Map.{keys_of, lookup};
ghost use Rattle.std.specs.BTreeMap.{is_at};
ghost use Rattle.std.specs.Option.{option_copied};
ghost use Rattle.std.specs.Ordering.{nat_cmp};

use std::alloc::{AllocError, Global};
use std::marker::Model;
use wi_values::{Address, Value};

/// Values of cells, one for each, in row-major order.
#[derive(Drop)]
pub struct Rising {
    cells: Vec<(Address, Value)>,
}

impl Model for Rising {
    ghost use Rattle.std.specs.Prelude.{List, ℕ};
    ghost use Rattle.std.specs.Coded.{coded_list, coded×, coded_ℕ};
    ghost use Rattle.std.specs.List.Sorted.{IsStrictlySortedBy};
    ghost use Rattle.std.specs.Map.{keys_of};
    ghost use Rattle.std.specs.Ordering.{nat_cmp};
    ghost use Rattle.wi_values.specs.declared.value.Value.{Value as Shown};
    ghost use Rattle.wi_values.specs.contracts.value.Value as value;

    ghost Value = { List (ℕ × Shown) };

    ghost coded = { coded_list (coded× coded_ℕ value.the_row.coded) };

    ghost view = { λ r. r.cells.items };

    ghost invariant = { λ r. IsStrictlySortedBy nat_cmp (keys_of r.cells.items) };
}

impl Rising {
    /// No values. Takes no memory.
    pub(crate) fn new(alloc: Global) -> Rising
        ensures { result ≡ [] }
    {
        Rising {
            cells: Vec::new(alloc),
        }
    }

    /// The cells, each with its value.
    fn cells(&self) -> &[(Address, Value)]
        ensures value { result.now ≡ self.now }
        ensures order { IsStrictlySortedBy nat_cmp (keys_of self.now) }
    {
        self.cells.as_slice()
    }

    /// The value of a cell. The work grows with the logarithm of the count of values; of the last cell it is constant.
    pub(crate) fn value(&self, at: Address) -> Option<&Value>
        ensures { option_copied result ≡ lookup (is_at (nat_cmp at)) self.now }
    {
        match self.last_value(at) {
            Some(value) => Some(value),
            None => self.searched_value(at),
        }
    }

    /// The value of a cell, if that is the last.
    #[inline(always)]
    fn last_value(&self, at: Address) -> Option<&Value>
        ensures { IfSome result (λ v. Some v.now ≡ lookup (is_at (nat_cmp at)) self.now) }
    {
        let all = self.cells();
        let last = all.last()?;
        if last.0 != at {
            return None;
        }
        Some(&last.1)
    }

    /// The value of a cell, by a binary search.
    fn searched_value(&self, at: Address) -> Option<&Value>
        ensures { option_copied result ≡ lookup (is_at (nat_cmp at)) self.now }
    {
        let all = self.cells();
        match all.binary_search_by_key(&at, |cell| cell.0) {
            Ok(place) => Some(&all[place].1),
            Err(_) => None,
        }
    }

    /// Whether a cell comes after all of these.
    pub(crate) fn ends_before(&self, at: Address) -> bool
        ensures { result ≡ true → All (λ e. e.0 < at) self.now }
    {
        match self.cells.last() {
            Some(last) => last.0 < at,
            None => true,
        }
    }

    /// Whether there are no values.
    pub(crate) fn is_empty(&self) -> bool
        ensures { result ≡ true → self.now ≡ [] }
    {
        self.cells.is_empty()
    }

    /// How many values there are.
    pub(crate) fn count(&self) -> usize {
        self.cells.len()
    }

    /// Adds the value of a cell that comes after all of these.
    pub(crate) fn push(&mut self, at: Address, value: Value) -> Result<(), AllocError>
        requires { All (λ e. e.0 < at) self.old }
        ensures ok { OnOk result (self.new ≡ self.old ++ (at, value) ∷ []) }
        ensures err { OnErr result (self.new ≡ self.old) }
    {
        self.cells.push((at, value))?;
        Ok(())
    }

    /// Takes the values away, and keeps the memory. The work grows with the count of values.
    pub(crate) fn clear(&mut self)
        ensures { self.new ≡ [] }
    {
        self.cells.clear();
    }
}
