//! The readers of one cell, of which there is mostly one.

ghost use Rattle.std.specs.Prelude.{◌≡◌, ◌<◌, ◌==◌, ◌||◌, ◌∷◌, ◌++◌, ◌↔◌, ℕ, [], true, false, IsTrue, IfSome, IfOk, OnOk, OnErr, length};
ghost use Rattle.std.specs.List.{position};
ghost use Rattle.std.specs.List.Sorted.{IsPermutation};
ghost use Rattle.std.specs.Ordering.{nat_cmp};
ghost use Rattle.std.specs.BTreeSet.{contains};
ghost use Rattle.wi_values.specs.Address.{is_one_of};

use crate::rising_set::RisingSet;
use std::alloc::{AllocError, Global};
use std::marker::Model;
use wi_values::Address;

/// How many others there may be. One is taken away by a walk through them.
const MOST_OTHERS: usize = 64;

/// A cell or more, each any number of times.
#[derive(Drop)]
pub struct Few {
    repr: Repr,
}

/// Cells as they are kept.
#[derive(Drop)]
enum Repr {
    /// One takes no memory of its own.
    One(Address),
    More(Box<Many>),
}

impl Model for Few {
    ghost use Rattle.std.specs.Prelude.{List, ℕ};

    ghost Value = { List ℕ };

    ghost use Rattle.wi_ranges.specs.Inner.Repr.{cells_in};

    ghost view = { λ f. cells_in f.repr };
}

impl Few {
    /// One cell. Takes no memory.
    pub(crate) fn one(cell: Address) -> Few
        ensures { result ≡ cell ∷ [] }
    {
        Few {
            repr: Repr::One(cell),
        }
    }

    /// One of them is there. This is a law: the call changes nothing.
    pub(crate) fn has_one(&self)
        ensures { (c : ℕ) × (is_one_of self.now c ≡ true) }
    {
        match &self.repr {
            Repr::One(_) => {}
            Repr::More(many) => many.has_one(),
        }
    }

    /// Puts one more in if there is room for it, and answers whether there is. If memory runs out, all is as before.
    pub(crate) fn add(&mut self, alloc: Global, cell: Address) -> Result<bool, AllocError>
        ensures more { IfOk result (λ added. IsTrue added → self.new ≡ self.old ++ cell ∷ []) }
        ensures same { IfOk result (λ added. added ≡ false → self.new ≡ self.old) }
        ensures err { OnErr result (self.new ≡ self.old) }
    {
        match &mut self.repr {
            Repr::One(first) => {
                let many = Many::two(alloc, *first, cell)?;
                let more = Box::new(alloc, many)?;
                self.repr = Repr::More(more);
                Ok(true)
            }
            Repr::More(many) => many.add(cell),
        }
    }

    /// Whether there is this one alone.
    pub(crate) fn is_only(&self, cell: Address) -> bool
        ensures { IsTrue result ↔ (self.now ≡ cell ∷ []) }
    {
        match &self.repr {
            Repr::One(first) => *first == cell,
            Repr::More(many) => many.is_only(cell),
        }
    }

    /// Takes one such cell away if there is one, and answers whether there was. One is left.
    pub(crate) fn remove(&mut self, cell: Address) -> bool
        requires { self.old ≡ cell ∷ [] → ⊥ }
        ensures less { IsTrue result → IsPermutation self.old (cell ∷ self.new) }
        ensures none { result ≡ false → is_one_of self.old cell ≡ false }
        ensures same { result ≡ false → self.new ≡ self.old }
    {
        match &mut self.repr {
            Repr::One(_) => false,
            Repr::More(many) => many.remove(cell),
        }
    }

    /// Puts them into a set. If memory runs out, some of them may be in it.
    pub(crate) fn add_to(&self, set: &mut RisingSet) -> Result<(), AllocError>
        ensures { OnOk result ((r : ℕ) → contains nat_cmp set.new r
            ≡ (contains nat_cmp set.old r || is_one_of self.now r)) }
    {
        match &self.repr {
            Repr::One(first) => {
                set.insert(*first)?;
                Ok(())
            }
            Repr::More(many) => many.add_to(set),
        }
    }
}

/// A cell and others.
#[derive(Drop)]
struct Many {
    first: Address,
    // In any order.
    others: Vec<Address>,
}

impl Model for Many {
    ghost use Rattle.std.specs.Prelude.{List, ℕ, ◌∷◌};

    ghost Value = { List ℕ };

    ghost view = { λ f. f.first ∷ f.others.items };
}

impl Many {
    /// Two cells.
    fn two(alloc: Global, first: Address, second: Address) -> Result<Many, AllocError>
        ensures { IfOk result (λ m. m ≡ first ∷ second ∷ []) }
    {
        let mut others = Vec::new(alloc);
        others.push(second)?;
        Ok(Many { first, others })
    }

    /// One of them is there. This is a law: the call does nothing.
    fn has_one(&self)
        ensures { (c : ℕ) × (is_one_of self.now c ≡ true) }
    {
        let _ = &self.first;
    }

    /// Puts one more in if there is room for it, and answers whether there is. If memory runs out, all is as before.
    fn add(&mut self, cell: Address) -> Result<bool, AllocError>
        ensures more { IfOk result (λ added. IsTrue added → self.new ≡ self.old ++ cell ∷ []) }
        ensures same { IfOk result (λ added. added ≡ false → self.new ≡ self.old) }
        ensures err { OnErr result (self.new ≡ self.old) }
    {
        if self.others.len() >= MOST_OTHERS {
            return Ok(false);
        }
        self.others.push(cell)?;
        Ok(true)
    }

    /// Whether there is this one alone.
    fn is_only(&self, cell: Address) -> bool
        ensures { IsTrue result ↔ (self.now ≡ cell ∷ []) }
    {
        self.others.is_empty() && self.first == cell
    }

    /// Takes one such cell away if there is one, and answers whether there was. One is left.
    fn remove(&mut self, cell: Address) -> bool
        requires { self.old ≡ cell ∷ [] → ⊥ }
        ensures less { IsTrue result → IsPermutation self.old (cell ∷ self.new) }
        ensures none { result ≡ false → is_one_of self.old cell ≡ false }
        ensures same { result ≡ false → self.new ≡ self.old }
    {
        if self.first == cell {
            match self.others.pop() {
                Some(last) => self.first = last,
                None => unreachable!(),
            }
            return true;
        }
        match place_of(&self.others, cell) {
            Some(place) => {
                let _ = self.others.swap_remove(place);
                true
            }
            None => false,
        }
    }

    /// Puts them into a set. If memory runs out, some of them may be in it.
    fn add_to(&self, set: &mut RisingSet) -> Result<(), AllocError>
        ensures { OnOk result ((r : ℕ) → contains nat_cmp set.new r
            ≡ (contains nat_cmp set.old r || is_one_of self.now r)) }
    {
        set.insert(self.first)?;
        insert_all(set, &self.others)
    }
}

/// The first place at which a cell stands, if it does.
fn place_of(cells: &[Address], cell: Address) -> Option<usize>
    ensures value { result ≡ position (λ c. c == cell) cells.now }
    ensures within { IfSome result (λ place. place < length cells.now) }
{
    cells.iter().position(|each| *each == cell)
}

/// Puts cells into a set. If memory runs out, some of them may be in it.
fn insert_all(set: &mut RisingSet, cells: &[Address]) -> Result<(), AllocError>
    ensures { OnOk result ((r : ℕ) → contains nat_cmp set.new r
        ≡ (contains nat_cmp set.old r || is_one_of cells.now r)) }
{
    for cell in cells {
        set.insert(*cell)?;
    }
    Ok(())
}
