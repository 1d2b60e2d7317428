//! Two scripts that are run in turn on one workbook: one that is loaded, and then another.

ghost use Rattle.std.specs.Prelude.{◌≡◌, ◌≤◌, false};
ghost use Rattle.wi_scenarios.specs.State.{State, new_state};
ghost use Rattle.wi_cli.specs.InTurn.{RunInTurn};
ghost use Rattle.wi_cli.specs.Status.{exit_status};

use crate::exit::{Exit, new_workbook};
use crate::fault::RunFault;
use crate::runs::run;
use std::alloc::Global;
use std::mem::forget;
use wi_devices::{Sink, Source};
use wi_propagate::Calculator;
use wi_scenarios::Workbook;

/// Runs the script that is loaded, and then the other one, on one workbook. After a fault in the first nothing is read
/// of the second. The limit of lines counts for each of them apart. The costs are those of two calls of `run`.
pub fn run_in_turn<L: Source, R: Source, W: Sink, C: Calculator>(
    alloc: Global,
    load: &mut L,
    reader: &mut R,
    writer: &mut W,
    book: &mut Workbook<C>,
) -> Result<(), RunFault>
    requires loads { L.has_failed load.old ≡ false }
    requires reads { R.has_failed reader.old ≡ false }
    requires writes { W.has_failed writer.old ≡ false }

    // The bytes written are the replies to the commands of the one, and then to those of the other.
    ensures runs { RunInTurn L.remaining L.has_failed R.remaining R.has_failed
        W.contents W.has_failed W.flushed result load.old load.new
        reader.old reader.new writer.old writer.new book.old.state book.new.state }
{
    run(alloc, load, writer, book)?;
    run(alloc, reader, writer, book)
}

/// Runs two scripts in turn on a new workbook, within the standard limits, that keeps so many values. The outcome and
/// the costs are those of `run_in_turn`. The workbook's memory is freed at the end of the process, not before.
pub fn run_new_in_turn<L: Source, R: Source, W: Sink>(
    alloc: Global,
    keep: usize,
    load: &mut L,
    reader: &mut R,
    writer: &mut W,
) -> Exit
    requires keep { 1 ≤ keep }
    requires loads { L.has_failed load.old ≡ false }
    requires reads { R.has_failed reader.old ≡ false }
    requires writes { W.has_failed writer.old ≡ false }

    // The bytes written are the replies to the commands of the one, from an empty sheet on, and then to those of the
    // other.
    ensures runs { (last : State)
        × RunInTurn L.remaining L.has_failed R.remaining R.has_failed
        W.contents W.has_failed W.flushed result.outcome load.old load.new
        reader.old reader.new writer.old writer.new new_state last }
    ensures status { result.status ≡ exit_status result.outcome }
{
    let Ok(mut book) = new_workbook(alloc, keep) else {
        return Exit::new(Err(RunFault::Memory));
    };
    let outcome = run_in_turn(alloc, load, reader, writer, &mut book);
    forget(book);
    Exit::new(outcome)
}
