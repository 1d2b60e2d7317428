//! Laws of the definitions. Each is the contract of a function that does nothing.

ghost use Rattle.std.specs.Prelude.{ℕ};
ghost use Rattle.std.specs.Int.{IsGcd};
ghost use Rattle.wi_fraction.specs.Gcd.{gcd};
ghost use Rattle.wi_fraction.specs.Laws.{IsExact, ReadsBack, DecimalsReadBack, ShowsFewestPlaces, ReadsWhatIsSpelled, ReadsWhatIsWritten, HasFloor, IsRounded};
ghost use Rattle.wi_fraction.specs.Number.{Number};

/// The greatest common divisor is one.
pub fn divisors_are_greatest()
    ensures { (a b : ℕ) → IsGcd a b (gcd a b) }
{}

/// A fraction in lowest terms is the number that has its value, where there is one.
#[tactic(auto, using(crate::proofs::Values::exact))]
pub fn lowest_terms_are_exact()
    ensures { IsExact }
{}

/// Each shown text reads back to its number.
#[tactic(auto, using(crate::proofs::ReadsBack::reads_back))]
pub fn texts_read_back()
    ensures { ReadsBack }
{}

/// Each exact decimal of a number that is not negative reads back to the number, as a number token.
#[tactic(auto, using(crate::proofs::DecimalsReadBack::decimals_read_back))]
pub fn decimals_read_back()
    ensures { DecimalsReadBack }
{}

/// A text is read as the fraction that it spells, in lowest terms, where that fits; any other is refused.
#[tactic(auto, using(crate::proofs::Spelled::reads_what_is_spelled))]
pub fn texts_are_read_as_spelled()
    ensures { ReadsWhatIsSpelled }
{}

/// A number token is read as the value of the digits and the exponent that it writes, where that fits; any other is
/// refused.
#[tactic(auto, using(crate::proofs::Written::reads_what_is_written))]
pub fn tokens_are_read_as_written()
    ensures { ReadsWhatIsWritten }
{}

/// A decimal is shown and written at the fewest places that are exact, and n/d only where twelve, or 126, are not
/// exact.
#[tactic(auto, using(crate::proofs::Places::shows_fewest_places))]
pub fn texts_have_fewest_places()
    ensures { (d : ℕ) → ShowsFewestPlaces d }
{}

/// The floor is the greatest whole number that is not above.
#[tactic(auto, using(crate::proofs::Neighbours::has_floor))]
pub fn floors_are_greatest()
    ensures { (x : Number) → HasFloor x }
{}

/// Rounding gives the nearest whole number, a half going away from zero, or the next one away from zero or toward it.
pub fn rounded_are_near()
    ensures { (x : Number) → IsRounded x }
{}
