//! Words with a bit for each session. The functions that are one operator are there for their clauses, which say what
//! it does to each session's bit.

ghost use Rattle.std.specs.Prelude.{◌≡◌, ◌<◌, ◌≤◌, ◌==◌, ◌||◌, ◌&&◌, ℕ, false, true, not, nat_lt};
ghost use Rattle.wi_sessions.specs.Inner.Cells.{has_bit};

/// Whether the bit of the session with this index stands in a word.
pub(crate) fn has(word: u64, i: usize) -> bool
    requires { i < 64 }
    ensures { result ≡ has_bit i word }
{
    (word >> (i as u32)) & 1 == 1
}

/// The word that has the bit of the session with this index alone.
pub(crate) fn bit_of(i: usize) -> u64
    requires { i < 64 }
    ensures { (j : ℕ) → has_bit j result ≡ (j == i) }
{
    1 << (i as u32)
}

/// The word that has the bits of the first `count` sessions.
pub(crate) fn bits_of(count: usize) -> u64
    requires { count ≤ 64 }
    ensures { (j : ℕ) → has_bit j result ≡ nat_lt j count }
{
    if count == 0 {
        return 0;
    }
    u64::MAX >> (64 - count as u32)
}

pub(crate) fn joined(a: u64, b: u64) -> u64
    ensures { (j : ℕ) → has_bit j result ≡ (has_bit j a || has_bit j b) }
{
    a | b
}

pub(crate) fn common(a: u64, b: u64) -> u64
    ensures { (j : ℕ) → has_bit j result ≡ (has_bit j a && has_bit j b) }
{
    a & b
}

/// The bits of `a` but for those of `b`.
pub(crate) fn without(a: u64, b: u64) -> u64
    ensures { (j : ℕ) → has_bit j result ≡ (has_bit j a && not (has_bit j b)) }
{
    a & !b
}

pub(crate) fn is_bare(word: u64) -> bool
    ensures { result ≡ true → (j : ℕ) → has_bit j word ≡ false }
{
    word == 0
}

pub(crate) fn are_alike(a: u64, b: u64) -> bool
    ensures alike { result ≡ true → (j : ℕ) → has_bit j a ≡ has_bit j b }
    ensures unlike { ((j : ℕ) → has_bit j a ≡ has_bit j b) → result ≡ true }
{
    a == b
}
