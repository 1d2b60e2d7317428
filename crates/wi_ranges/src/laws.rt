//! Laws of the definitions. The contract of each function is the law.

ghost use Rattle.wi_ranges.specs.Laws.{BlocksAreFew, BlocksAreLargest, RowsAreHeldOnce};

/// Each row of a rectangle is in exactly one of its blocks, and no other row is in any.
#[tactic(auto, using(crate::proofs::CutLemmas::rows_are_held_once))]
pub fn rows_are_held_once()
    ensures { RowsAreHeldOnce }
{}

/// No pair has more than 38 blocks.
#[tactic(auto, using(crate::proofs::CutLemmas::blocks_are_few))]
pub fn blocks_are_few()
    ensures { BlocksAreFew }
{}

/// The blocks of a rectangle begin at multiples of their size, lie within its rows, and are the largest that do.
pub fn blocks_are_largest()
    ensures { BlocksAreLargest }
{}
