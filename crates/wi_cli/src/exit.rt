//! A run on a new workbook, and the status that it ends with.

ghost use Rattle.std.specs.Prelude.{◌≡◌, ◌≤◌, [], IfOk, false};
ghost use Rattle.wi_scenarios.specs.State.{State, new_state, state_over};
ghost use Rattle.wi_cli.specs.Outcome.{IsRun};
ghost use Rattle.wi_cli.specs.Status.{exit_status};

use crate::fault::{RunFault, fault_status};
use crate::runs::run;
use std::alloc::{AllocError, Global};
use std::mem::forget;
use wi_devices::{Sink, Source};
use wi_propagate::KeptCalculator;
use wi_scenarios::Workbook;
use wi_store::Limits;

/// How a program ends.
#[derive(Clone, Copy)]
pub struct Exit {
    /// Whether the script was run to its end.
    pub outcome: Result<(), RunFault>,
    /// The exit status.
    pub status: u8,
}

impl Exit {
    pub(crate) fn new(outcome: Result<(), RunFault>) -> Exit
        ensures outcome { result.outcome ≡ outcome }
        ensures status { result.status ≡ exit_status outcome }
    {
        let status = match &outcome {
            Ok(()) => 0,
            Err(fault) => fault_status(fault),
        };
        Exit { outcome, status }
    }
}

/// A calculator of an empty sheet, within the standard limits, that may keep so many values and keeps none yet.
fn new_calculator(alloc: Global, keep: usize) -> Result<KeptCalculator, AllocError>
    requires { 1 ≤ keep }
    ensures stored { IfOk result (λ calculator. state_over calculator.stored ≡ new_state) }
    ensures values { IfOk result (λ calculator.
        calculator.values ≡ record { entries = []; capacity = keep }) }
{
    KeptCalculator::new(alloc, Limits::standard(), keep)
}

/// A new workbook, within the standard limits, that keeps so many values from one question to the next.
#[tactic(auto, using(crate::proofs::ExitLemmas::is_new))]
pub(crate) fn new_workbook(
    alloc: Global,
    keep: usize,
) -> Result<Workbook<KeptCalculator>, AllocError>
    requires { 1 ≤ keep }
    ensures { IfOk result (λ book. book.state ≡ new_state) }
{
    let calculator = new_calculator(alloc, keep)?;
    Workbook::new(alloc, calculator)
}

/// Runs a script on a new workbook, within the standard limits, that keeps so many values. The outcome and the costs
/// are those of `run`. The workbook's memory is freed at the end of the process, not before.
pub fn run_new<R: Source, W: Sink>(
    alloc: Global,
    keep: usize,
    reader: &mut R,
    writer: &mut W,
) -> Exit
    requires keep { 1 ≤ keep }
    requires reads { R.has_failed reader.old ≡ false }
    requires writes { W.has_failed writer.old ≡ false }

    // The bytes written are the replies to the commands of the bytes read, from an empty sheet on.
    ensures runs { (last : State)
        × IsRun R.remaining R.has_failed W.contents W.has_failed W.flushed result.outcome
        reader.old reader.new writer.old writer.new new_state last }
    ensures status { result.status ≡ exit_status result.outcome }
{
    let Ok(mut book) = new_workbook(alloc, keep) else {
        return Exit::new(Err(RunFault::Memory));
    };
    let outcome = run(alloc, reader, writer, &mut book);
    forget(book);
    Exit::new(outcome)
}
