//! Look-up among replacements in order.

ghost use Rattle.std.specs.Prelude.{◌≡◌};
ghost use Rattle.std.specs.Option.{option_copied};
ghost use Rattle.wi_values.specs.Replacements.{IsInOrder, replaced};
ghost use Rattle.wi_worlds.specs.Inner.Picked.{replacement_at};

use wi_values::{Address, Replacement, Value};

/// The value that stands in the place of a cell's content, if one of the replacements, which stand in row-major order,
/// is of the cell. The work grows with the logarithm of their count.
pub fn value_at(replacements: &[Replacement], at: Address) -> Option<&Value>
    requires { IsInOrder replacements.now }
    ensures { option_copied result ≡ replaced replacements.now at }
{
    Some(&found_at(replacements, at)?.value)
}

/// The replacement of a cell, if one of the replacements is of it. The work grows with the logarithm of their count.
pub(crate) fn found_at(replacements: &[Replacement], cell: Address) -> Option<&Replacement>
    requires { IsInOrder replacements.now }
    ensures { option_copied result ≡ replacement_at replacements.now cell }
{
    match replacements.binary_search_by_key(&cell, |replacement| replacement.at) {
        Ok(place) => Some(&replacements[place]),
        Err(_) => None,
    }
}
