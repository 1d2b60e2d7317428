//! What is told of runs of a script on devices of which one call fails, each call in turn.

use crate::device_runs::{Failing, Plan, Told, run_planned};
use crate::exchange::Exchange;
use std::alloc::Global;
use std::io;
use std::io::Write;
use wi_cli::RunFault;

/// The exit status where a device failed.
const STATUS: u8 = 3;

/// As many calls as are made to fail at most.
const MOST: u64 = 10_000;

/// The reply to the script that is run behind one that is loaded.
const NEXT_REPLY: &[u8] = b"refused E02\n";

/// Calls of one kind.
#[derive(Clone, Copy)]
struct Kind {
    name: &'static str,
    failing: Failing,
    /// How many bytes a call moves at most, a run for each.
    pieces: [usize; 3],
}

const KINDS: [Kind; 5] = [
    Kind {
        name: "reads",
        failing: Failing::Read,
        pieces: [1, 2, 7],
    },
    Kind {
        name: "reads of a script that is loaded",
        failing: Failing::LoadedRead,
        pieces: [1, 2, 7],
    },
    Kind {
        name: "writes",
        failing: Failing::Write,
        pieces: [1, 3, 4],
    },
    Kind {
        name: "writes that take no byte",
        failing: Failing::EmptyWrite,
        pieces: [1, 3, 4],
    },
    Kind {
        name: "flushes",
        failing: Failing::Flush,
        pieces: [1, 3, 4],
    },
];

/// What is amiss of a run that should have ended by a fault.
fn amiss_by(told: &Told, fault: RunFault, is_written: bool) -> Option<&'static str> {
    if told.exit.outcome != Err(fault) {
        Some("another outcome")
    } else if told.exit.status != STATUS {
        Some("another exit status")
    } else if !is_written {
        Some("other replies")
    } else {
        None
    }
}

/// What is amiss of a run of which the call was reached that fails. Of the replies those to the commands are written
/// that were complete where a read failed, and a front where a write did; after it nothing more is read.
fn amiss_at_fault(
    exchange: &Exchange,
    plan: &Plan,
    told: &Told,
    written: &[u8],
) -> Option<&'static str> {
    match plan.failing {
        Failing::Read | Failing::LoadedRead => {
            amiss_by(told, RunFault::Read, exchange.are_due(written, told.read))
        }
        Failing::Write | Failing::EmptyWrite => {
            amiss_by(told, RunFault::Write, exchange.are_cut(written, told.read))
        }
        Failing::Flush => amiss_by(told, RunFault::Write, exchange.are_all(written, b"")),
    }
}

/// What is written behind all replies where no call fails.
fn behind(failing: Failing) -> &'static [u8] {
    match failing {
        Failing::LoadedRead => NEXT_REPLY,
        _ => b"",
    }
}

/// What is amiss of a run that should have ended well.
fn amiss_at_end(
    exchange: &Exchange,
    plan: &Plan,
    told: &Told,
    written: &[u8],
) -> Option<&'static str> {
    if told.exit.outcome != Ok(()) {
        Some("a fault where no call fails")
    } else if told.exit.status != 0 {
        Some("another exit status where no call fails")
    } else if !told.flushed {
        Some("not flushed")
    } else if !exchange.are_all(written, behind(plan.failing)) {
        Some("other replies where no call fails")
    } else {
        None
    }
}

/// What is amiss of a run.
fn amiss(exchange: &Exchange, plan: &Plan, told: &Told, written: &[u8]) -> Option<&'static str> {
    if told.made < plan.at {
        amiss_at_end(exchange, plan, told, written)
    } else if told.made > plan.at {
        Some("a call after the one that failed")
    } else {
        amiss_at_fault(exchange, plan, told, written)
    }
}

/// Runs a script as planned, appends what is amiss, and tells whether the call was reached that fails.
fn is_reached(
    alloc: Global,
    exchange: &Exchange,
    plan: &Plan,
    text: &mut Vec<u8>,
) -> io::Result<bool> {
    let mut written = Vec::new(alloc);
    let told = run_planned(alloc, &exchange.script, plan, &mut written);
    if let Some(what) = amiss(exchange, plan, &told, &written) {
        writeln!(
            text,
            "-- at call {} of {} bytes: {what}",
            plan.at, plan.piece
        )?;
    }
    Ok(told.made >= plan.at)
}

/// How many calls there are until a run in which none fails; appends what is amiss.
fn count_calls(
    alloc: Global,
    exchange: &Exchange,
    plan: Plan,
    text: &mut Vec<u8>,
) -> io::Result<u64> {
    for at in 1..=MOST {
        let plan = Plan { at, ..plan };
        if !is_reached(alloc, exchange, &plan, text)? {
            return Ok(at.saturating_sub(1));
        }
    }
    writeln!(text, "-- each call is followed by one more")?;
    Ok(MOST)
}

/// How many calls of a kind there are that move so many bytes, until a run in which none fails; appends what is amiss.
fn count_of_kind(
    alloc: Global,
    exchange: &Exchange,
    kind: &Kind,
    piece: usize,
    text: &mut Vec<u8>,
) -> io::Result<u64> {
    let plan = Plan {
        failing: kind.failing,
        piece,
        at: 1,
    };
    count_calls(alloc, exchange, plan, text)
}

/// Appends, for each number of bytes that a call moves, how many calls failed, one a run, and before these what is
/// amiss.
fn push_kind(
    alloc: Global,
    exchange: &Exchange,
    kind: &Kind,
    text: &mut Vec<u8>,
) -> io::Result<()> {
    let [few, more, most] = kind.pieces;
    let first = count_of_kind(alloc, exchange, kind, few, text)?;
    let second = count_of_kind(alloc, exchange, kind, more, text)?;
    let third = count_of_kind(alloc, exchange, kind, most, text)?;
    writeln!(text, "{}: {first} {second} {third}", kind.name)
}

/// Appends the title, and for each kind of calls how many failed, one a run, and what is amiss.
pub fn push_told(alloc: Global, exchange: &Exchange, text: &mut Vec<u8>) -> io::Result<()> {
    writeln!(text, "== {}", exchange.title)?;
    for kind in &KINDS {
        push_kind(alloc, exchange, kind, text)?;
    }
    Ok(())
}
