// Division of whole numbers, in 64 bits where both fit.

ghost use Rattle.std.specs.Prelude.{◌≡◌, ◌/◌, ◌%◌, ◌<◌, IfSome};
ghost use Rattle.wi_fraction.specs.Gcd.{gcd};

/// The greatest common divisor, by Euclid's algorithm.
pub(crate) fn gcd(a: u128, b: u128) -> u128
    ensures value { result ≡ gcd a b }
    ensures above_zero { 0 < b → 0 < result }
{
    let mut x = a;
    let mut y = b;
    while y != 0 {
        let rest = remainder(x, y);
        x = y;
        y = rest;
    }
    x
}

/// The whole part of a/b.
pub(crate) fn divide(a: u128, b: u128) -> u128
    requires { 0 < b }
    ensures { result ≡ a / b }
{
    match (u64::try_from(a), u64::try_from(b)) {
        (Ok(a), Ok(b)) => u128::from(a / b),
        _ => a / b,
    }
}

/// What is left of a over the whole part of a/b.
pub(crate) fn remainder(a: u128, b: u128) -> u128
    requires { 0 < b }
    ensures { result ≡ a % b }
{
    match (u64::try_from(a), u64::try_from(b)) {
        (Ok(a), Ok(b)) => u128::from(a % b),
        _ => a % b,
    }
}

/// a/b, where both fit 64 bits and b divides a.
#[inline(always)]
pub(crate) fn small_quotient(a: u128, b: u128) -> Option<u64>
    requires { 0 < b }
    ensures { IfSome result (λ q. (q ≡ a / b) × (a % b ≡ 0)) }
{
    match (u64::try_from(a), u64::try_from(b)) {
        (Ok(a), Ok(b)) if a % b == 0 => Some(a / b),
        _ => None,
    }
}
