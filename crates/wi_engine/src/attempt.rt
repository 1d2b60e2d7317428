//! One evaluation over what is known.

ghost use Rattle.std.specs.Prelude.{◌≡◌, false, IfOk, OnErr};
ghost use Rattle.wi_parser.specs.Sheet.{put_all};
ghost use Rattle.wi_functions.specs.Counts.{counted};
ghost use Rattle.wi_graph.specs.Circular.{circular};
ghost use Rattle.wi_sheet.specs.CellValue as values;
ghost use Rattle.wi_sheet.specs.Inner.Spending.{NeverFall};
ghost use Rattle.wi_engine.specs.Inner.Findings.{AreAllRight};
ghost use Rattle.wi_engine.specs.Inner.Attempts.{IsAttemptOf};
ghost use Rattle.wi_engine.specs.Inner.Frames.{StandsAt};

use crate::frame::Frame;
use crate::known::Known;
use std::alloc::{AllocError, Global};
use wi_functions::{Meter, Outcome, evaluate};
use wi_store::Store;

/// The value of a frame's formula, where what is known suffices, or what is lacking. Either is counted; where memory
/// runs out nothing is. The work is one walk over the formula's tree, in which each cell costs the logarithms of the
/// counts of replacements, of occupied cells and of cells found, and each what-if a look through those found.
pub(crate) fn attempt(
    alloc: Global,
    store: &Store,
    frame: &Frame,
    meter: &mut Meter,
) -> Result<Outcome, AllocError>
    requires open { circular store.now.sheet frame.now.key.cell ≡ false }
    requires formula { StandsAt store.now.sheet frame.now.key frame.now.formula.now }
    requires right { AreAllRight (values.cell_value (put_all store.now.sheet frame.now.key.world))
        (values.what_if_value (put_all store.now.sheet frame.now.key.world)) frame.now.found }
    ensures outcome { IfOk result (IsAttemptOf store.now.sheet frame.now.key frame.now.found) }
    ensures counted { IfOk result (λ o. meter.new ≡ counted o meter.old) }
    ensures counts { NeverFall meter.old meter.new }
    ensures err { OnErr result (meter.new ≡ meter.old) }
{
    let known = Known::new(store, &frame.key.world, &frame.found);
    // Each count is at most the greatest number, so one more is no less.
    let _ = meter.evaluations();
    let _ = meter.restarts();
    evaluate(alloc, frame.formula, &known, meter)
}
