//! Cells in row-major order.

ghost use Rattle.std.specs.Prelude.{◌≡◌, ◌↔◌, IsTrue};
ghost use Rattle.std.specs.List.Sorted.{IsStrictlyIncreasing};
ghost use Rattle.wi_values.specs.Inner.Cells.{sooner};

use crate::address::Address;

/// Whether cells stand in row-major order, each once. The work grows with their count, and ends at the first that does
/// not follow the one before it. It takes no memory.
pub fn rise(cells: &[Address]) -> bool
    ensures { IsTrue result ↔ IsStrictlyIncreasing cells.now }
{
    for i in 1..cells.len() {
        if cells[i] <= cells[i - 1] {
            return false;
        }
    }
    true
}

/// The sooner of two cells that may be there.
pub fn sooner(one: Option<Address>, other: Option<Address>) -> Option<Address>
    ensures { result ≡ sooner one other }
{
    match (one, other) {
        (None, found) => found,
        (found, None) => found,
        (Some(a), Some(b)) => Some(a.min(b)),
    }
}
