//! Laws of the definitions. Each is the contract of a function that does nothing.

ghost use Rattle.wi_csv.specs.Laws.{ReadAgain};

/// Records of one field or more that were written one after another are read again.
#[tactic(auto, using(crate::proofs::ReadAgain::read_again))]
pub fn records_are_read_again()
    ensures { ReadAgain }
{}
