// Equality and order.

ghost use Rattle.std.specs.Prelude.{◌≡◌, ◌*◌, ◌<◌, ◌++◌, refl};
ghost use Rattle.std.specs.Hash as fed;
ghost use Rattle.std.specs.Ordering.{nat_cmp, as_partial_cmp};
ghost use Rattle.std.specs.Cmp.{partial_order_from_agreeing_total};
ghost use Rattle.std.proofs.Common.{ap};
ghost use Rattle.wi_fraction.specs.Number.{Number};
ghost use Rattle.wi_fraction.specs.Order.{cross_cmp, same_parts};
ghost use Rattle.wi_fraction.specs.Order.Laws.{cross_total, cross_same_parts, same_parts_partial, same_parts_equiv, same_from_parts};

use crate::Fraction;
use crate::division::{divide, remainder};
use crate::words::Parts;
use std::cmp::Ordering;
use std::hash::{Hash, Hasher};

impl PartialEq for Fraction {
    ghost eq = { same_parts };

    ghost laws = { same_parts_partial };

    #[tactic(auto, unfolding(crate::specs::Order::same_parts))]
    fn eq(&self, other: &Fraction) -> bool {
        let Parts {
            numerator: a,
            denominator: b,
        } = self.parts();
        let Parts {
            numerator: c,
            denominator: d,
        } = other.parts();
        a == c && b == d
    }
}

impl Eq for Fraction {
    ghost laws = { same_parts_equiv };
}

impl Hash for Fraction {
    ghost hash_input = { λ x. fed.i128 x.num ++ fed.u128 x.den };

    ghost respects_eq = { λ x y e. ap (λ (z : Number). fed.i128 z.num ++ fed.u128 z.den) (same_from_parts x y e) };

    fn hash<H: Hasher>(&self, state: &mut H) {
        let Parts {
            numerator,
            denominator,
        } = self.parts();
        numerator.hash(state);
        denominator.hash(state);
    }
}

impl Ord for Fraction {
    ghost cmp = { cross_cmp };

    ghost total = { cross_total };

    ghost matches_partial_cmp = { λ _ _. refl };

    ghost matches_eq = { cross_same_parts };

    #[inline(always)]
    fn cmp(&self, other: &Fraction) -> Ordering {
        let Parts {
            numerator: m,
            denominator: b,
        } = self.parts();
        let Parts {
            numerator: n,
            denominator: d,
        } = other.parts();
        if b == d {
            return m.cmp(&n);
        }
        let a = m.unsigned_abs();
        let c = n.unsigned_abs();
        match (m < 0, n < 0) {
            (true, false) => Ordering::Less,
            (false, true) => Ordering::Greater,
            (false, false) => compare_sizes(a, b, c, d),
            (true, true) => compare_sizes(c, d, a, b),
        }
    }
}

impl PartialOrd for Fraction {
    ghost partial_cmp = { as_partial_cmp cross_cmp };

    ghost laws = { partial_order_from_agreeing_total cross_cmp cross_total (λ _ _. refl) cross_same_parts };

    fn partial_cmp(&self, other: &Fraction) -> Option<Ordering> {
        Some(self.cmp(other))
    }
}

/// The order of a/b and c/d. What is left over the whole parts is compared upside down.
#[inline(never)]
fn compare_sizes(a: u128, b: u128, c: u128, d: u128) -> Ordering
    requires first_above_zero { 0 < b }
    requires second_above_zero { 0 < d }
    ensures { result ≡ nat_cmp (a * d) (c * b) }
{
    match divide(a, b).cmp(&divide(c, d)) {
        Ordering::Equal => {
            let first = remainder(a, b);
            let second = remainder(c, d);
            if first == 0 || second == 0 {
                first.cmp(&second)
            } else {
                compare_sizes(d, second, b, first)
            }
        }
        unequal => unequal,
    }
}
