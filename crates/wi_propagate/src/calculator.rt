//! What a calculator promises: values, and how much recalculation they take.

ghost use Rattle.std.specs.Prelude.{◌≡◌, ◌⊎◌, ◌+◌, ◌*◌, ◌<◌, ◌≤◌, ℕ, Bool, true, false, nat_le, List, [], ◌∷◌, All, filter, length, sum_by, IfOk};
ghost use Rattle.std.specs.Option.{option_copied};
ghost use Rattle.std.specs.List.{find};
ghost use Rattle.std.specs.List.Sorted.{IsStrictlyIncreasing};
ghost use Rattle.std.specs.Map.{keys_of};
ghost use Rattle.wi_values.specs.Address.{is_within, rows, columns, is_one_of};
ghost use Rattle.wi_values.specs.Replacements.{IsInOrder};
ghost use Rattle.wi_parser.specs.Sheet.{Sheet, content_of};
ghost use Rattle.wi_store.specs.Store.{Stored, applied, Applies};
ghost use Rattle.wi_sheet.specs.Shown as show;
ghost use Rattle.wi_sheet.specs.Demand.{demanded, wants};
ghost use Rattle.wi_sheet.specs.TableEntry.{table_entry, entry_demanded};
ghost use Rattle.wi_sheet.specs.Unmoved.{IsUnmoved, IsMarking};

use std::alloc::AllocError;
use wi_graph::{Cells, Watch};
use wi_parser::{Content, NewContent};
use wi_store::StoreFault;
use wi_values::{Address, Rect, Replacement, Value};

/// A sheet that tells what its cells show. Its meaning is the plain sheet, its limits and its count of edits.
pub trait Calculator {
    /// The sheet, with the count of accepted edits and the limits of both.
    ghost stored: { Self → Stored };

    /// The count of evaluations that it tells. What counts as one is said of `evaluate`.
    ghost evaluated: { Self → ℕ };

    /// The count of evaluations begun again that it tells.
    ghost restarted: { Self → ℕ };

    /// Whether what it keeps from one question to the next is within the bounds that it has for that.
    ghost is_light: { Self → Bool };

    /// Which cells it marks where these cells of a sheet change.
    ghost marked: { Sheet → List ℕ → ℕ → Bool };

    /// What stands in a cell.
    fn content(&self, at: Address) -> Option<&Content>
        ensures { option_copied result ≡ content_of (stored self.now).sheet at };

    /// The first occupied cell of a rectangle, in row-major order, at a cell or after it.
    fn next_occupied(&self, area: Rect, from: Address) -> Option<Address>
        ensures first { let occupied = keys_of (stored self.now).sheet in
            result ≡ find (λ a. nat_le from a) (filter (is_within area) occupied) }
        ensures order { IsStrictlyIncreasing (keys_of (stored self.now).sheet) };

    /// The occupied cells lie in the sheet. This is a law: the call does nothing.
    fn cells_lie_in_the_sheet(&self)
        ensures { All (λ a. a < rows * columns) (keys_of (stored self.now).sheet) };

    /// One edit: puts contents in or takes them away, one after another, or refuses and leaves all as it was.
    fn apply(&mut self, changes: Vec<NewContent>) -> Result<(), StoreFault>
        ensures applied { Applies (applied (stored self.old) changes.items) result
            (stored self.old) (stored self.new) }
        ensures same_evaluations { evaluated self.new ≡ evaluated self.old }
        ensures same_restarts { restarted self.new ≡ restarted self.old };

    /// One edit of changes that are lent: puts contents in or takes them away, one after another, or refuses and leaves
    /// the sheet as it was. It takes the contents out of the changes, so they are not to be used again.
    fn apply_slice(&mut self, changes: &mut [NewContent]) -> Result<(), StoreFault>
        ensures applied { Applies (applied (stored self.old) changes.old) result
            (stored self.old) (stored self.new) }
        ensures same_evaluations { evaluated self.new ≡ evaluated self.old }
        ensures same_restarts { restarted self.new ≡ restarted self.old };

    /// What a cell shows under replacements, which stand in the order of their addresses, one for each. No sheet is
    /// copied.
    fn value(&mut self, replacements: &[Replacement], at: Address) -> Result<Value, AllocError>
        requires { IsInOrder replacements.now }
        ensures value { IfOk result (λ v. v
            ≡ show.shown (stored self.old).sheet replacements.now at) }
        ensures same { stored self.new ≡ stored self.old }

        // No more is evaluated than what the value demands, also where memory runs out.
        ensures evaluations { let cases = demanded (stored self.old).sheet replacements.now at in
            evaluated self.new ≤ evaluated self.old + length cases }
        ensures restarts { let sheet = (stored self.old).sheet in
            let cases = demanded sheet replacements.now at in
            restarted self.new ≤ restarted self.old + sum_by (wants sheet) cases }
        ensures evaluations_never_fall { evaluated self.old ≤ evaluated self.new }
        ensures restarts_never_fall { restarted self.old ≤ restarted self.new };

    /// What an entry of a data table shows under replacements, which stand in the order of their addresses, one for
    /// each: the value of the formula cell if each input, the first of a pair, had the value of its replacement cell,
    /// the second. An entry stands in no cell, so the sheet stays as it is, and no cell reads it.
    fn what_if_value(
        &mut self,
        replacements: &[Replacement],
        formula_cell: Address,
        pairs: &[(Address, Address)],
    ) -> Result<Value, AllocError>
        requires { IsInOrder replacements.now }
        ensures value { let sheet = (stored self.old).sheet in
            IfOk result (λ v. v ≡ table_entry sheet replacements.now formula_cell pairs.now) }
        ensures same { stored self.new ≡ stored self.old }

        // No more is evaluated than what the entry demands, also where memory runs out.
        ensures evaluations { let cases =
            entry_demanded (stored self.old).sheet replacements.now formula_cell pairs.now in
            evaluated self.new ≤ evaluated self.old + length cases }
        ensures restarts { let sheet = (stored self.old).sheet in
            let cases = entry_demanded sheet replacements.now formula_cell pairs.now in
            restarted self.new ≤ restarted self.old + sum_by (wants sheet) cases }
        ensures evaluations_never_fall { evaluated self.old ≤ evaluated self.new }
        ensures restarts_never_fall { restarted self.old ≤ restarted self.new };

    /// Cells among which is each that can show another value, under whatever replacements, where the contents of these
    /// cells change or the replacements of them. Some may be told twice.
    fn mark(&self, cells: &[Address]) -> Result<Vec<Address>, AllocError>
        ensures marked { let sheet = (stored self.now).sheet in
            IfOk result (λ found. (c : ℕ) → is_one_of found.items c ≡ marked sheet cells.now c) }
        ensures unmoved { let sheet = (stored self.now).sheet in
            IfOk result (λ found. (c : ℕ) → is_one_of found.items c ≡ false
            → IsUnmoved sheet cells.now c) };

    /// Every cell that `mark` finds and that isn't watched; watched ones may be left out. The caller owes that what a
    /// watched cell marks is watched.
    fn mark_beyond<W: Watch>(&self, cells: &[Address], watch: &W) -> Result<Cells, AllocError>
        requires { let sheet = (stored self.now).sheet in
            (a c : ℕ) → W.watched watch.now a ≡ true
            → marked sheet (a ∷ []) c ≡ true → W.watched watch.now c ≡ true }
        ensures marked { let sheet = (stored self.now).sheet in
            IfOk result (λ found. (c : ℕ) → is_one_of found.items c ≡ true
            → marked sheet cells.now c ≡ true) }
        ensures others { let sheet = (stored self.now).sheet in
            IfOk result (λ found. (c : ℕ) → marked sheet cells.now c ≡ true
            → (is_one_of found.items c ≡ true) ⊎ (W.watched watch.now c ≡ true)) }
    {
        let _ = watch;
        let found = self.mark(cells)?;
        Ok(Cells::from_vec(found))
    }

    /// Gives back the memory of all that it can find again. Takes none.
    fn forget(&mut self)
        ensures same { stored self.new ≡ stored self.old }
        ensures same_evaluations { evaluated self.new ≡ evaluated self.old }
        ensures same_restarts { restarted self.new ≡ restarted self.old }
    {}

    /// As `forget`, but only where it isn't light.
    fn lighten(&mut self)
        ensures light { is_light self.new ≡ true }
        ensures same { stored self.new ≡ stored self.old }
        ensures same_evaluations { evaluated self.new ≡ evaluated self.old }
        ensures same_restarts { restarted self.new ≡ restarted self.old };

    fn evaluations(&self) -> u64
        ensures { result ≡ evaluated self.now };

    fn restarts(&self) -> u64
        ensures { result ≡ restarted self.now };

    /// A cell that isn't marked keeps what it shows, and what a marked cell marks is marked too.
    ghost marks: { IsMarking marked };
}
