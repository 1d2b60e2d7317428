//! What is known of cells and what-ifs.

ghost use Rattle.std.specs.Prelude.{◌≡◌, ◌<◌, ◌≤◌, ℕ, true, List, map, Option, Some, None, IfOk, IfErr, IfSome, option_map};
ghost use Rattle.wi_values.specs.declared.value.Value.{Value as Values};
ghost use Rattle.wi_values.specs.Address.{is_within};
ghost use Rattle.wi_parser.specs.View.{pair_of};
ghost use Rattle.wi_arguments.specs.Assignment.{addresses, value_if_known};
ghost use Rattle.wi_arguments.specs.Filled.{IsNextFilled, is_known_empty};
ghost use Rattle.wi_arguments.specs.First.{IsFirstEqual};
ghost use Rattle.wi_arguments.specs.Walk.{HasTaken};

use crate::cells::successor;
use crate::taker::TakesCells;
use wi_parser::Pair;
use wi_values::{Address, Rect, Value};

/// What is known of a cell or of a what-if.
#[derive(Clone, Copy)]
pub enum LookedUp<'a> {
    Known(&'a Value),
    Missing,
}

impl<'a> LookedUp<'a> {
    /// Whether it is known to be Empty.
    pub fn is_known_empty(self) -> bool
        ensures { result ≡ is_known_empty (value_if_known self.entry) }
    {
        match self {
            LookedUp::Known(Value::Empty) => true,
            LookedUp::Known(_) => false,
            LookedUp::Missing => false,
        }
    }
}

/// Whatever knows some of the values of cells and what-ifs. Whether a reference is absolute makes no difference.
pub trait Lookup {
    /// The value of each cell that is known.
    ghost known_cell: { Self → ℕ → Option Values };

    /// The value of each what-if that is known.
    ghost known_what_if: { Self → ℕ → List (ℕ × ℕ) → Option Values };

    /// The value of a cell.
    fn cell(&self, at: Address) -> LookedUp<'_>
        ensures { value_if_known result ≡ known_cell self.now at };

    /// The value of a formula cell, if each input had the value of its replacement cell.
    fn what_if(&self, formula_cell: Address, pairs: &[Pair]) -> LookedUp<'_>
        ensures { value_if_known result
            ≡ known_what_if self.now formula_cell (map addresses (map pair_of pairs.now)) };

    /// The first cell of a rectangle in row-major order, at a cell or after it, that isn't known to be Empty, with what
    /// is known of it. A replaced cell is what its replacement says. The work grows with the counts of replaced cells
    /// and of filled ones that are passed over, and never with the size of the rectangle.
    fn next_value(&self, area: Rect, from: Address) -> Option<(Address, LookedUp<'_>)>
        ensures next { IsNextFilled (known_cell self.now) area from (option_map (λ x. x.0) result) }
        ensures value { IfSome result (λ x. value_if_known x.1 ≡ known_cell self.now x.0) };

    /// The first cell of a rectangle in row-major order whose value is equal to the one sought, where that is told
    /// without a search: the work grows with the count of replaced cells, and never with the size of the rectangle.
    fn first_equal(&self, area: Rect, sought: &Value) -> Option<Option<Address>>
        ensures { IfSome result (IsFirstEqual (known_cell self.now) area sought.now) }
    {
        None
    }

    /// That cell alone, at the cost of `next_value`: it grows with the replaced cells and the filled ones that are
    /// passed over.
    fn next_filled(&self, area: Rect, from: Address) -> Option<Address>
        ensures { IsNextFilled (known_cell self.now) area from result }
    {
        match self.next_value(area, from) {
            Some((at, _)) => Some(at),
            None => None,
        }
    }

    /// Hands the next cells of a rectangle over, in row-major order, from one on until one is missing, and tells where
    /// to go on, if it does. Those that are known to be Empty may be passed over. At most one `next_value` for each of
    /// the others.
    fn hand_over<T: TakesCells>(
        &self,
        area: Rect,
        from: Address,
        taker: &mut T,
    ) -> Result<Option<Address>, Address>
        ensures taken { IfOk result (λ next. HasTaken T.after (known_cell self.now) area
            taker.old (Some from) taker.new next) }
        ensures further { IfOk result (λ next. IfSome next (λ n. (from < n) × (n ≤ area.last))) }
        ensures missing { IfErr result (λ c. known_cell self.now c ≡ None) }
        ensures inside { IfErr result (λ c. is_within area c ≡ true) }
    {
        match self.next_value(area, from) {
            Some((at, looked_up)) => match looked_up {
                LookedUp::Known(value) => {
                    if taker.take(at, value).is_break() {
                        return Ok(None);
                    }
                    Ok(successor(at, area.last()))
                }
                LookedUp::Missing => Err(at),
            },
            None => Ok(None),
        }
    }
}
