//! The numbers that cells are stamped with when a question asks.

ghost use Rattle.std.specs.Prelude.{◌≡◌, ℕ, [], Some, None, true, false, max, if◌then◌else◌, IfSome, IsTrue, OnOk, OnErr};
ghost use Rattle.wi_values.specs.Address.{is_one_of};
ghost use Rattle.wi_propagate.specs.KeptSheet.{generation_in};
ghost use Rattle.wi_propagate.specs.Inner.Keeping.{HasGeneration};
ghost use Rattle.wi_propagate.specs.Inner.Stamps.{renewed};

use crate::generations::{Numbers, greater, number_at, raise, reserve};
use std::alloc::{AllocError, Global};
use std::marker::Model;
use wi_values::Address;

/// Numbers of edits, by the cells that are stamped with them. Any other cell has 0. Where all cells with the greatest
/// number are the cone of one cell, the head, they get a later number at once.
#[derive(Drop)]
pub(crate) struct LateStamps {
    numbers: Numbers,
    head: Option<Address>,
    // The cells of the head's cone.
    cone: Vec<Address>,
    // The greatest number, and what it counts as.
    greatest: u64,
    counts_as: u64,
    alloc: Global,
}

impl Model for LateStamps {
    ghost use Rattle.std.specs.Coded.{codes};
    ghost use Rattle.wi_propagate.specs.Inner.Stamps.{HeadedNumbers, IsHeaded, renewed_all};

    ghost Value = { HeadedNumbers };

    ghost coded = { Prim.hlevel codes };

    ghost view = { λ l. record {
      numbers = renewed_all l.greatest l.counts_as l.numbers.entries;
      head = l.head;
      cone = l.cone.items;
    } };

    ghost invariant = { λ l. IsHeaded l.numbers.entries l.head l.cone.items l.greatest l.counts_as };
}

impl LateStamps {
    /// No cell is stamped. Takes no memory.
    pub(crate) fn new(alloc: Global) -> LateStamps
        ensures { result ≡ record { numbers = []; head = None; cone = [] } }
    {
        let numbers = Numbers::new(alloc);
        let cone = Vec::new(alloc);
        LateStamps {
            numbers,
            head: None,
            cone,
            greatest: 0,
            counts_as: 0,
            alloc,
        }
    }

    /// The number of a cell.
    #[inline(always)]
    pub(crate) fn number_of(&self, at: Address) -> u64
        ensures { result ≡ generation_in self.now.numbers at }
    {
        renew(self.greatest, self.counts_as, number_at(&self.numbers, at))
    }

    /// Gives a number to the cone of the head at once, if this cell is the head and the number no earlier than theirs.
    /// Answers whether it is so.
    pub(crate) fn raise_cone(&mut self, cell: Address, number: u64) -> bool
        ensures same { result ≡ false → self.new ≡ self.old }
        ensures head { IsTrue result → self.old.head ≡ Some cell }
        ensures kept { (self.new.head ≡ self.old.head) × (self.new.cone ≡ self.old.cone) }
        ensures numbers { IsTrue result → (c : ℕ) → generation_in self.new.numbers c
            ≡ (if is_one_of self.old.cone c then max (generation_in self.old.numbers c) number
            else generation_in self.old.numbers c) }
    {
        if self.head != Some(cell) || number < self.counts_as {
            return false;
        }
        self.counts_as = number;
        true
    }

    /// Lifts the numbers of these cells to another, where they are less, and there is no head then. If memory runs out,
    /// the numbers are as before.
    pub(crate) fn lift(&mut self, cells: &[Address], number: u64) -> Result<(), AllocError>
        ensures numbers { OnOk result ((c : ℕ) → generation_in self.new.numbers c
            ≡ (if is_one_of cells.now c then max (generation_in self.old.numbers c) number
            else generation_in self.old.numbers c)) }
        ensures err { OnErr result ((c : ℕ) → generation_in self.new.numbers c
            ≡ generation_in self.old.numbers c) }
        ensures head { self.new.head ≡ None }
    {
        self.forget_head();
        reserve(&mut self.numbers, cells)?;
        lift_all(&mut self.numbers, cells, number);
        self.greatest = greater(self.greatest, number);
        self.counts_as = self.greatest;
        Ok(())
    }

    /// Lifts the numbers of a cell's cone to another, where they are less. The cell is the head then, if no number was
    /// as late; else none is. If memory runs out, the numbers are as before.
    pub(crate) fn lift_cone(
        &mut self,
        cell: Address,
        cone: Vec<Address>,
        number: u64,
    ) -> Result<(), AllocError>
        ensures numbers { OnOk result ((c : ℕ) → generation_in self.new.numbers c
            ≡ (if is_one_of cone.items c then max (generation_in self.old.numbers c) number
            else generation_in self.old.numbers c)) }
        ensures err { OnErr result ((c : ℕ) → generation_in self.new.numbers c
            ≡ generation_in self.old.numbers c) }
        ensures head { IfSome self.new.head (λ head. (head ≡ cell) × (self.new.cone ≡ cone.items)) }
    {
        let is_latest = self.counts_as < number;
        self.lift(&cone, number)?;
        if is_latest {
            self.head = Some(cell);
            self.cone = cone;
            self.greatest = number;
            self.counts_as = number;
        }
        Ok(())
    }

    /// There is no head any more. The numbers stay. The work is that of the cone where its number was raised, and else
    /// constant.
    pub(crate) fn forget_head(&mut self)
        ensures numbers { (c : ℕ) → generation_in self.new.numbers c
            ≡ generation_in self.old.numbers c }
        ensures head { self.new.head ≡ None }
    {
        if self.head.is_none() {
            return;
        }
        if self.greatest < self.counts_as {
            raise(&mut self.numbers, &self.cone, self.counts_as);
            self.greatest = self.counts_as;
        }
        self.head = None;
        self.cone = Vec::new(self.alloc);
    }
}

/// What a number counts as, where one counts as another.
#[inline(always)]
fn renew(greatest: u64, counts_as: u64, number: u64) -> u64
    ensures { result ≡ renewed greatest counts_as number }
{
    if number == greatest {
        counts_as
    } else {
        number
    }
}

/// Lifts the numbers of these cells to another, where they are less. Takes no memory.
fn lift_all(numbers: &mut Numbers, cells: &[Address], number: u64)
    requires { (c : ℕ) → is_one_of cells.now c ≡ true → HasGeneration numbers.old.entries c }
    ensures { (c : ℕ) → generation_in numbers.new.entries c
        ≡ (if is_one_of cells.now c then max (generation_in numbers.old.entries c) number
        else generation_in numbers.old.entries c) }
{
    for cell in cells {
        let lifted = greater(number_at(numbers, *cell), number);
        numbers.replace(*cell, lifted);
    }
}
