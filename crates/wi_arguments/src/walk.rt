//! A walk through the filled cells of a rectangle.

ghost use Rattle.std.specs.Prelude.{◌≡◌, ℕ, true, None, OnOk, IfErr};
ghost use Rattle.wi_values.specs.declared.value.Value.{Value as Values};
ghost use Rattle.wi_values.specs.Address.{is_within, cells_of};
ghost use Rattle.wi_arguments.specs.Arguments.{KnownAgrees};
ghost use Rattle.wi_arguments.specs.Walk.{after_cells};

use crate::lookup::Lookup;
use crate::taker::TakesCells;
use wi_values::{Address, Rect};

/// Hands the cells of a rectangle over, in row-major order, until one is missing. Those that are known to be Empty may
/// be passed over. It calls `hand_over` until none is left, which costs at most one `next_value` for each of the
/// others.
pub fn take_cells<L: Lookup, T: TakesCells>(
    area: Rect,
    lookup: &L,
    taker: &mut T,
) -> Result<(), Address>
    ensures taken { OnOk result ((cells : ℕ → Values) → KnownAgrees (L.known_cell lookup.now) cells
        → taker.new ≡ after_cells T.after cells taker.old (cells_of area)) }
    ensures missing { IfErr result (λ c. L.known_cell lookup.now c ≡ None) }
    ensures inside { IfErr result (λ c. is_within area c ≡ true) }
{
    let mut ahead = Some(area.first());
    while let Some(from) = ahead {
        ahead = lookup.hand_over(area, from, taker)?;
    }
    Ok(())
}
