//! Lists of the values that were found for one formula.

ghost use Rattle.std.specs.Prelude.{◌≡◌, ℕ, [], map, true, None, OnOk, OnErr};
ghost use Rattle.std.specs.Option.{option_copied};
ghost use Rattle.wi_parser.specs.View.{pair_of};
ghost use Rattle.wi_arguments.specs.Assignment.{addresses};
ghost use Rattle.wi_engine.specs.Inner.Lists.{same_pairs, listed_value, listed_what_if, IsWithListed, IsWithListedWhatIf, IsSame};

use crate::rising::Rising;
use std::alloc::{AllocError, Global};
use std::collections::BTreeMap;
use wi_parser::Pair;
use wi_values::{Address, Value};

/// How many values of cells stand in a list that is gone through.
const MAX_LISTED: usize = 8;

/// The first count of values of cells from which on they are looked at whenever there are twice as many.
const SEVERAL: usize = 4;

/// A what-if's value.
#[derive(Drop)]
pub struct FoundWhatIf {
    pub at: Address,
    pub pairs: Vec<Pair>,
    pub value: Value,
}

/// The values that were found for one formula: of cells, and of what-ifs, which are few. Most formulas rest on few
/// cells too, so that the list of the first suffices; a fold over many finds them in row-major order. Arrays are used
/// again for other formulas.
#[derive(Drop)]
pub struct Lists {
    /// Those of the first cells, as they were found.
    pub first: Vec<(Address, Value)>,
    /// Those of later cells, of which each came after all that stood here.
    pub rising: Rising,
    /// Those of the cells that are left, such as the second of two columns.
    pub others: BTreeMap<Address, Value>,
    pub what_ifs: Vec<FoundWhatIf>,
}

impl Lists {
    /// No values yet. Takes no memory.
    pub(crate) fn new(alloc: Global) -> Lists
        ensures first { result.first.items ≡ [] }
        ensures rising { result.rising ≡ [] }
        ensures others { result.others.entries ≡ [] }
        ensures what_ifs { result.what_ifs.items ≡ [] }
    {
        Lists {
            first: Vec::new(alloc),
            rising: Rising::new(alloc),
            others: BTreeMap::new(alloc),
            what_ifs: Vec::new(alloc),
        }
    }

    /// Takes the values away. Arrays keep their memory. The work grows with the count of values.
    #[inline(always)]
    pub(crate) fn clear(&mut self)
        ensures cells { (c : ℕ) → listed_value self.new c ≡ None }
        ensures what_ifs { self.new.what_ifs.items ≡ [] }
    {
        self.first.clear();
        self.rising.clear();
        self.others.clear();
        self.what_ifs.clear();
    }

    /// Whether there are no values.
    #[inline(always)]
    pub(crate) fn are_empty(&self) -> bool
        ensures cells { result ≡ true → (c : ℕ) → listed_value self.now c ≡ None }
        ensures what_ifs { result ≡ true → self.now.what_ifs.items ≡ [] }
    {
        self.first.is_empty()
            && self.rising.is_empty()
            && self.others.is_empty()
            && self.what_ifs.is_empty()
    }

    /// Whether no array that grows with the cells found has more than so many values.
    pub(crate) fn is_within(&self, most: usize) -> bool {
        self.rising.count() <= most && self.what_ifs.len() <= most
    }

    /// Whether there are values of 4 cells, or of 8, of 16, and so on.
    pub(crate) fn has_doubled(&self) -> bool {
        let later = self.rising.count().saturating_add(self.others.len());
        let count = self.first.len().saturating_add(later);
        count >= SEVERAL && count.is_power_of_two()
    }

    /// The value found of a cell. The work grows with the logarithm of the count of cells found.
    #[inline(always)]
    pub(crate) fn cell(&self, at: Address) -> Option<&Value>
        ensures { option_copied result ≡ listed_value self.now at }
    {
        for cell in &self.first {
            if cell.0 == at {
                return Some(&cell.1);
            }
        }
        match self.rising.value(at) {
            Some(value) => Some(value),
            None => self.others.get(&at),
        }
    }

    /// The value found of a what-if. The work grows with the count of what-ifs found.
    pub(crate) fn what_if(&self, at: Address, pairs: &[Pair]) -> Option<&Value>
        ensures { option_copied result
            ≡ listed_what_if self.now at (map addresses (map pair_of pairs.now)) }
    {
        for found in &self.what_ifs {
            if found.at == at && are_same(&found.pairs, pairs) {
                return Some(&found.value);
            }
        }
        None
    }

    /// Adds the value of a cell of which none was found. The work grows with the logarithm of the count of cells found.
    #[inline(always)]
    pub(crate) fn add_cell(&mut self, at: Address, value: Value) -> Result<(), AllocError>
        requires { listed_value self.old at ≡ None }
        ensures ok { OnOk result (IsWithListed self.old self.new at value) }
        ensures err { OnErr result (IsSame self.old self.new) }
    {
        if self.first.len() < MAX_LISTED {
            self.first.push((at, value))?;
            return Ok(());
        }
        self.add_later(at, value)
    }

    /// Adds the value of a cell behind those of the first: to the rising ones where it comes after all of them, else to
    /// the others. It stands apart, so that an addition to the first takes little.
    #[inline(never)]
    fn add_later(&mut self, at: Address, value: Value) -> Result<(), AllocError>
        requires { listed_value self.old at ≡ None }
        ensures ok { OnOk result (IsWithListed self.old self.new at value) }
        ensures err { OnErr result (IsSame self.old self.new) }
    {
        if self.rising.ends_before(at) {
            self.rising.push(at, value)?;
            return Ok(());
        }
        self.others.insert(at, value)?;
        Ok(())
    }

    /// Adds a what-if's value, behind the others.
    pub(crate) fn add_what_if(&mut self, found: FoundWhatIf) -> Result<(), AllocError>
        ensures ok { OnOk result (IsWithListedWhatIf self.old self.new found) }
        ensures err { OnErr result (IsSame self.old self.new) }
    {
        self.what_ifs.push(found)?;
        Ok(())
    }
}

/// Whether two lists name the same inputs and replacement cells.
fn are_same(a: &[Pair], b: &[Pair]) -> bool
    ensures { result ≡ same_pairs (map addresses (map pair_of a.now))
        (map addresses (map pair_of b.now)) }
{
    match a {
        [] => b.is_empty(),
        [x, a_rest @ ..] => match b {
            [] => false,
            [y, b_rest @ ..] => {
                x.input.at == y.input.at
                    && x.replacement.at == y.replacement.at
                    && are_same(a_rest, b_rest)
            }
        },
    }
}
