//! Cells whose replacement is another.

ghost use Rattle.std.specs.Prelude.{◌≡◌, ◌++◌, IfOk, OnOk};
ghost use Rattle.wi_values.specs.Replacements.{IsInOrder, replaced};
ghost use Rattle.wi_scenarios.specs.Inner.Switch.{same_option, differing, AreDiffering};

use std::alloc::{AllocError, Global};
use wi_values::{Address, Replacement};
use wi_worlds::value_at;

/// The cells that two lists replace by different values, or that one of them replaces alone; some are told twice. The
/// work for each replacement grows with the logarithm of the count of all.
#[tactic(auto, using(crate::proofs::DifferingLemmas::both_found))]
pub(crate) fn differing_cells(
    alloc: Global,
    before: &[Replacement],
    after: &[Replacement],
) -> Result<Vec<Address>, AllocError>
    requires before { IsInOrder before.now }
    requires after { IsInOrder after.now }
    ensures { IfOk result (λ cells. AreDiffering before.now after.now cells.items) }
{
    let mut cells = Vec::new(alloc);
    push_differing(&mut cells, before, before, after)?;
    push_differing(&mut cells, after, before, after)?;
    Ok(cells)
}

/// Appends those cells that some replacements are for.
fn push_differing(
    cells: &mut Vec<Address>,
    among: &[Replacement],
    before: &[Replacement],
    after: &[Replacement],
) -> Result<(), AllocError>
    requires before { IsInOrder before.now }
    requires after { IsInOrder after.now }
    ensures { OnOk result (cells.new.items
        ≡ cells.old.items ++ differing before.now after.now among.now) }
{
    for replacement in among {
        if !has_same(before, after, replacement.at) {
            cells.push(replacement.at)?;
        }
    }
    Ok(())
}

/// Whether both lists replace a cell by one value, or neither does.
fn has_same(before: &[Replacement], after: &[Replacement], at: Address) -> bool
    requires before { IsInOrder before.now }
    requires after { IsInOrder after.now }
    ensures { result ≡ same_option (replaced before.now at) (replaced after.now at) }
{
    match (value_at(before, at), value_at(after, at)) {
        (Some(first), Some(second)) => *first == *second,
        (None, None) => true,
        _ => false,
    }
}
