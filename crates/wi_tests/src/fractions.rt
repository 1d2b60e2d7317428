//! Numbers: their order, hash and laws.

use std::alloc::Global;
use std::collections::HashSet;
use std::process::Abort;
use wi_fraction::{Fraction, Total, laws};

fn fraction(rt: &impl Abort, numerator: i128, denominator: i128) -> Fraction {
    Fraction::new(numerator, denominator).expect(rt, "a fraction")
}

/// These stand in order, and so they are sorted.
fn expect_sorted(
    rt: &impl Abort,
    alloc: Global,
    least: Fraction,
    below: Fraction,
    above: Fraction,
) {
    let mut numbers = [above, least, below].to_vec(alloc).expect(rt, "a list");
    numbers.sort().expect(rt, "memory to sort");
    assert!(rt; numbers.as_slice() == [least, below, above].as_slice());
}

#[test]
fn orders(rt: HostRuntime) {
    let least = fraction(&rt, -i128::MAX, 1);
    let below = fraction(&rt, i128::MAX - 1, i128::MAX);
    let above = fraction(&rt, i128::MAX, i128::MAX - 1);
    expect_sorted(&rt, rt.alloc(), least, below, above);
    assert!(rt; below < above && least <= below.neg());
}

#[test]
fn hashes(rt: HostRuntime) {
    let mut seen = HashSet::new(rt.alloc());
    seen.insert(fraction(&rt, 1, 2)).expect(&rt, "a place");
    assert!(rt; seen.contains(&fraction(&rt, -4, -8)));
    assert!(rt; !seen.contains(&fraction(&rt, -1, 2)));
    drop(seen);
}

/// The total of these, added one after another from 0.
fn total_of(numbers: &[Fraction]) -> Option<Fraction> {
    let mut total = Total::of(Fraction::small(0));
    for number in numbers {
        if total.add(number).is_err() {
            return None;
        }
    }
    Some(total.number())
}

#[test]
fn totals_are_in_lowest_terms(rt: HostRuntime) {
    let half = fraction(&rt, 1, 2);
    let third = fraction(&rt, 1, 3);
    let sixth = fraction(&rt, 1, 6);
    let tenth = fraction(&rt, 1, 10);
    assert!(rt; total_of(&[half, third, sixth]) == Some(fraction(&rt, 1, 1)));
    assert!(rt; total_of(&[tenth, tenth, half, tenth]) == Some(fraction(&rt, 4, 5)));
    assert!(rt; total_of(&[third, sixth.neg(), sixth.neg()]) == Some(fraction(&rt, 0, 1)));
}

#[test]
fn totals_overflow_as_sums_do(rt: HostRuntime) {
    let most = fraction(&rt, i128::MAX, 1);
    let one = fraction(&rt, 1, 1);
    let least_part = fraction(&rt, 1, i128::MAX);
    assert!(rt; total_of(&[most, one]) == None);
    assert!(rt; total_of(&[most.neg(), one.neg()]) == None);
    assert!(rt; total_of(&[most, one.neg(), one]) == Some(most));
    assert!(rt; total_of(&[least_part, fraction(&rt, 1, 2)]) == None);
    assert!(rt; total_of(&[least_part, least_part]) == Some(fraction(&rt, 2, i128::MAX)));
}

#[test]
fn a_total_stays_where_a_number_overflows(rt: HostRuntime) {
    let most = fraction(&rt, i128::MAX, 1);
    let mut total = Total::of(most);
    assert!(rt; total.add(&fraction(&rt, 1, 3)).is_err());
    assert!(rt; total.number() == most);
    total
        .add(&fraction(&rt, -7, 1))
        .expect(&rt, "a smaller total");
    assert!(rt; total.number() == fraction(&rt, i128::MAX - 7, 1));
}

#[test]
fn has_its_laws() {
    laws::divisors_are_greatest();
    laws::lowest_terms_are_exact();
    laws::texts_read_back();
    laws::decimals_read_back();
    laws::texts_are_read_as_spelled();
    laws::tokens_are_read_as_written();
    laws::texts_have_fewest_places();
    laws::floors_are_greatest();
    laws::rounded_are_near();
}
