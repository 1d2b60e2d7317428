//! Laws of the definitions. The contract of each function is the law.

ghost use Rattle.wi_standard_functions.specs.Criterion.Laws.{OperandsAreImported};

/// What stands in a criterion after its operator is taken for what it is imported as.
#[tactic(auto, using(crate::proofs::Criteria::operands_are_imported))]
pub fn operands_are_imported()
    ensures { OperandsAreImported }
{}
