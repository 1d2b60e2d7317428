//! What is known while one formula is evaluated.

ghost use Rattle.std.specs.Prelude.{◌≡◌, ◌<◌, ◌≤◌, ℕ, true, false, Some, None, OnOk, IfErr, IfSome};
ghost use Rattle.std.specs.Option.{option_copied};
ghost use Rattle.std.proofs.Props.{props};
ghost use Rattle.wi_values.specs.Address.{is_within};
ghost use Rattle.wi_values.specs.declared.value.Value.TheVariants.{Empty};
ghost use Rattle.wi_parser.specs.Sheet.{Sheet, content_of, put_all};
ghost use Rattle.wi_store.specs.Store.{is_ahead};
ghost use Rattle.wi_arguments.specs.Assignment.{value_if_known};
ghost use Rattle.wi_arguments.specs.Filled.{ComesBefore};
ghost use Rattle.wi_arguments.specs.Walk.{HasTaken};
ghost use Rattle.wi_sheet.specs.CellValue as values;
ghost use Rattle.wi_engine.specs.Inner.Attempt.{cell_known, known_in};
ghost use Rattle.wi_engine.specs.Inner.Findings.{AreAllRight, found_value};
ghost use Rattle.wi_engine.specs.Inner.ContentRef.{as_content};

use crate::content_ref::{ContentRef, constant, content_ref, replaced, stored};
use crate::filled::{next_replaced, next_touched};
use crate::findings::Findings;
use wi_arguments::{LookedUp, Lookup, TakesCells, successor};
use wi_parser::Pair;
use wi_store::Store;
use wi_values::{Address, Rect, Value};
use wi_worlds::World;

/// A cell without a formula under the replacements shows what stands there; the values of others, and of what-ifs, are
/// known where they were found.
#[derive(Drop)]
pub struct Known<'a> {
    store: &'a Store,
    world: &'a World,
    found: &'a Findings,
    // What a cell shows where nothing stands, to be lent.
    empty: Value,
    ghost is_empty: { empty ≡ Empty },
    // So what was found can be told before what stands in a cell.
    ghost right: { AreAllRight (values.cell_value (put_all store.now.sheet world.now))
        (values.what_if_value (put_all store.now.sheet world.now))
        found.now } by { Prim.hlevel props },
}

impl<'a> Known<'a> {
    /// What is known with these values found.
    pub(crate) fn new(store: &'a Store, world: &'a World, found: &'a Findings) -> Known<'a>
        requires right { AreAllRight (values.cell_value (put_all store.now.sheet world.now))
            (values.what_if_value (put_all store.now.sheet world.now)) found.now }
        ensures store { result.store.now ≡ store.now }
        ensures world { result.world.now ≡ world.now }
        ensures found { result.found.now ≡ found.now }
    {
        Known {
            store,
            world,
            found,
            empty: Value::Empty,
        }
    }

    /// What is known of a cell in which this stands.
    #[inline(always)]
    fn known(&self, at: Address, seen: ContentRef<'a>) -> LookedUp<'_>
        ensures { value_if_known result
            ≡ known_in (as_content seen.entry) (found_value self.now.found.now at) }
    {
        match seen {
            ContentRef::Nothing => LookedUp::Known(&self.empty),
            ContentRef::Constant(value) => LookedUp::Known(value),
            ContentRef::Formula(_) => looked_up(self.found.cell(at)),
        }
    }

    /// What is known of a cell in which this stands, and of which no value was found.
    fn standing(&self, seen: ContentRef<'a>) -> LookedUp<'_>
        ensures { value_if_known result ≡ known_in (as_content seen.entry) None }
    {
        match seen {
            ContentRef::Nothing => LookedUp::Known(&self.empty),
            ContentRef::Constant(value) => LookedUp::Known(value),
            ContentRef::Formula(_) => LookedUp::Missing,
        }
    }

    /// What is known of a cell that isn't replaced.
    #[inline(always)]
    fn unreplaced(&self, at: Address) -> LookedUp<'_>
        requires { (s : Sheet) → content_of (put_all s self.now.world.now) at ≡ content_of s at }
        ensures { value_if_known result
            ≡ cell_known self.now.store.now.sheet self.now.world.now self.now.found.now at }
    {
        match self.found.cell(at) {
            Some(value) => LookedUp::Known(value),
            None => self.standing(stored(self.store, at)),
        }
    }

    /// Hands the occupied cells of a rectangle over, in row-major order, from one on up to the first that is replaced,
    /// until one is missing. It takes a step for each cell, and for a formula a look at what was found; beside that a
    /// search for each 16 rows, and where more than one of their tiles lie in the rectangle, a step for each tile of
    /// each row.
    #[inline(always)]
    fn hand_stored<T: TakesCells>(
        &self,
        area: Rect,
        from: Address,
        replaced: &Option<Address>,
        taker: &mut T,
    ) -> Result<(), Address>
        requires ahead { IfSome replaced.now (λ r. from ≤ r) }
        requires stands { (a : ℕ) → is_ahead area (Some from) a ≡ true → ComesBefore a replaced.now
            → content_of (put_all self.now.store.now.sheet self.now.world.now) a
            ≡ content_of self.now.store.now.sheet a }
        ensures taken { OnOk result (HasTaken T.after
            (cell_known self.now.store.now.sheet self.now.world.now self.now.found.now)
            area taker.old (Some from) taker.new replaced.now) }
        ensures missing { IfErr result (λ c.
            cell_known self.now.store.now.sheet self.now.world.now self.now.found.now c ≡ None) }
        ensures inside { IfErr result (λ c. is_within area c ≡ true) }
    {
        self.store.cells_stand_in_order();
        for (at, content) in self.store.contents_from(area, from) {
            if is_reached(replaced, at) {
                return Ok(());
            }
            match self.known(at, content_ref(content)) {
                LookedUp::Known(value) => {
                    if taker.take(at, value).is_break() {
                        return Ok(());
                    }
                }
                LookedUp::Missing => return Err(at),
            }
        }
        Ok(())
    }
}

impl<'a> Lookup for Known<'a> {
    ghost use Rattle.wi_engine.specs.Inner.Findings.{what_if_found};
    ghost use Rattle.wi_engine.specs.Inner.Attempt.{cell_known};

    ghost known_cell = { λ k. cell_known k.store.now.sheet k.world.now k.found.now };

    ghost known_what_if = { λ k. what_if_found k.found.now };

    fn cell(&self, at: Address) -> LookedUp<'_> {
        match replaced(self.world, at) {
            Some(value) => self.standing(constant(value)),
            None => self.unreplaced(at),
        }
    }

    fn what_if(&self, formula_cell: Address, pairs: &[Pair]) -> LookedUp<'_> {
        looked_up(self.found.what_if(formula_cell, pairs))
    }

    /// By the index of `Store::first_with`, where no cell of the rectangle is replaced.
    fn first_equal(&self, area: Rect, sought: &Value) -> Option<Option<Address>> {
        let Value::Number(number) = sought else {
            return None;
        };
        let first = self.store.first_with(area, *number)?;
        self.store.cells_stand_in_order();
        match next_replaced(self.world.replacements(), area, area.first()) {
            Some(_) => None,
            None => Some(first),
        }
    }

    fn next_value(&self, area: Rect, from: Address) -> Option<(Address, LookedUp<'_>)> {
        let mut ahead = Some(from);
        while let Some(start) = ahead {
            match next_touched(self.store, self.world, area, start) {
                Some((at, seen)) => {
                    let known = self.known(at, seen);
                    if !known.is_known_empty() {
                        return Some((at, known));
                    }
                    ahead = successor(at, area.last());
                }
                None => return None,
            }
        }
        None
    }

    /// The cells up to the next replaced one are those of `Store::contents_from`, without a search for each.
    fn hand_over<T: TakesCells>(
        &self,
        area: Rect,
        from: Address,
        taker: &mut T,
    ) -> Result<Option<Address>, Address> {
        match next_replaced(self.world.replacements(), area, from) {
            Some(replacement) => {
                self.hand_stored(area, from, &Some(replacement.at), taker)?;
                if taker.take(replacement.at, &replacement.value).is_break() {
                    return Ok(None);
                }
                Ok(successor(replacement.at, area.last()))
            }
            None => {
                self.hand_stored(area, from, &None, taker)?;
                Ok(None)
            }
        }
    }
}

/// Whether the first replaced cell is reached, if there is one.
fn is_reached(replaced: &Option<Address>, at: Address) -> bool
    ensures reached { result ≡ true → (a : ℕ) → ComesBefore a replaced.now → a < at }
    ensures before { result ≡ false → ComesBefore at replaced.now }
{
    match replaced {
        Some(cell) => *cell <= at,
        None => false,
    }
}

/// A value that was found is known.
fn looked_up(found: Option<&Value>) -> LookedUp<'_>
    ensures { value_if_known result ≡ option_copied found.entry }
{
    match found {
        Some(value) => LookedUp::Known(value),
        None => LookedUp::Missing,
    }
}
