//! The parts of a number, and how they are kept: each as two words of 64 bits, so that a number stands at a multiple of
//! 8 bytes.

ghost use Rattle.std.specs.Prelude.{◌≡◌, ◌*◌, ◌+◌, ◌/◌, ◌%◌, ◌^◌};
ghost use Rattle.wi_fraction.specs.Number.{IsNumber};

use std::marker::Model;

/// A numerator and a denominator that make a number, as they are reckoned with.
#[derive(Clone, Copy)]
pub(crate) struct Parts {
    pub(crate) numerator: i128,
    pub(crate) denominator: u128,
    ghost is_number: { IsNumber numerator denominator },
}

/// A whole number of either sign.
#[derive(Clone, Copy, Debug)]
pub(crate) struct Signed {
    high: u64,
    low: u64,
}

impl Model for Signed {
    ghost use Rattle.std.specs.Prelude.{ℤ, ◌*◌, ◌+◌, ◌/◌, ◌%◌, ◌^◌, ◌<◌};
    ghost use Rattle.std.specs.Int.{w128, cast_signed, cast_unsigned};
    ghost use Rattle.std.specs.Coded.{coded_ℤ};
    ghost use Rattle.wi_fraction.specs.Inner.Halves.{high_written_back, low_written_back};

    ghost Value = { ℤ };

    ghost coded = { coded_ℤ };

    ghost view = { λ s. cast_signed w128 (s.high * 2 ^ 64 + s.low) };

    ghost invariant = { λ s. (s.high < 2 ^ 64) × (s.low < 2 ^ 64) };

    ghost inverse = { λ z. record { high = cast_unsigned w128 z / 2 ^ 64; low = cast_unsigned w128 z % 2 ^ 64 } };

    ghost inverse_ok = { λ s h i. record { high = high_written_back s.high s.low h.0 h.1 i; low = low_written_back s.high s.low h.0 h.1 i } };
}

impl Signed {
    pub(crate) fn new(n: i128) -> Signed
        ensures { result ≡ n }
    {
        let bits = n.cast_unsigned();
        Signed {
            high: high_half(bits),
            low: low_half(bits),
        }
    }

    pub(crate) fn get(self) -> i128
        ensures { result ≡ self }
    {
        joined(self.high, self.low).cast_signed()
    }
}

/// A whole number that isn't below zero.
#[derive(Clone, Copy, Debug)]
pub(crate) struct Unsigned {
    high: u64,
    low: u64,
}

impl Model for Unsigned {
    ghost use Rattle.std.specs.Prelude.{ℕ, ◌*◌, ◌+◌, ◌/◌, ◌%◌, ◌^◌, ◌<◌};
    ghost use Rattle.std.specs.Coded.{coded_ℕ};
    ghost use Rattle.wi_fraction.specs.Inner.Halves.{high_half, low_half};

    ghost Value = { ℕ };

    ghost coded = { coded_ℕ };

    ghost view = { λ u. u.high * 2 ^ 64 + u.low };

    ghost invariant = { λ u. (u.high < 2 ^ 64) × (u.low < 2 ^ 64) };

    ghost inverse = { λ n. record { high = n / 2 ^ 64; low = n % 2 ^ 64 } };

    ghost inverse_ok = { λ u h i. record { high = high_half u.high u.low h.1 i; low = low_half u.high u.low h.1 i } };
}

impl Unsigned {
    pub(crate) fn new(n: u128) -> Unsigned
        ensures { result ≡ n }
    {
        Unsigned {
            high: high_half(n),
            low: low_half(n),
        }
    }

    pub(crate) fn get(self) -> u128
        ensures { result ≡ self }
    {
        joined(self.high, self.low)
    }
}

/// One more than the greatest word.
const WORD: u128 = 1 << 64;

/// The high word of a number.
fn high_half(n: u128) -> u64
    ensures { result ≡ n / 2 ^ 64 }
{
    (n / WORD) as u64
}

/// The low word of a number.
fn low_half(n: u128) -> u64
    ensures { result ≡ n % 2 ^ 64 }
{
    (n % WORD) as u64
}

/// The number of two words.
fn joined(high: u64, low: u64) -> u128
    ensures { result ≡ high * 2 ^ 64 + low }
{
    u128::from(high) * WORD + u128::from(low)
}
