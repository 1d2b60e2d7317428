//! Which of several values is found.

ghost use Rattle.std.specs.Prelude.{◌≡◌};
ghost use Rattle.wi_lookup_functions.specs.Inner.Search.{passes, rule_in_order, rule_of_match_type};

use std::cmp::Ordering;
use wi_fraction::Fraction;

/// Which value is found: the first that is equal to the one sought, or the last that is at most or at least that.
#[derive(Clone, Copy)]
pub(crate) enum Rule {
    FirstEqual,
    LastAtMost,
    LastAtLeast,
}

impl Rule {
    /// The rule for a match type, which is 0, above 0 or below 0.
    pub(crate) fn of_match_type(match_type: Fraction) -> Rule
        ensures { result ≡ rule_of_match_type match_type }
    {
        if match_type.numerator() == 0 {
            Rule::FirstEqual
        } else if match_type.numerator() < 0 {
            Rule::LastAtLeast
        } else {
            Rule::LastAtMost
        }
    }

    /// The rule for values that are told to be in order, or not to be.
    pub(crate) fn in_order(in_order: bool) -> Rule
        ensures { result ≡ rule_in_order in_order }
    {
        if in_order {
            Rule::LastAtMost
        } else {
            Rule::FirstEqual
        }
    }

    /// Whether a value with this order to the one sought is asked for.
    pub(crate) fn passes(self, order: Ordering) -> bool
        ensures { result ≡ passes self order }
    {
        match self {
            Rule::FirstEqual => order.is_eq(),
            Rule::LastAtMost => order.is_le(),
            Rule::LastAtLeast => order.is_ge(),
        }
    }
}
