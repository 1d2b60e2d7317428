//! Runs of a script on devices of which one call fails.

ghost use Rattle.std.specs.Prelude.{◌≡◌, false};

use crate::failing_devices::{Calls, FailingReader, FailingWriter};
use crate::runs::KEEP;
use std::alloc::Global;
use wi_cli::{Exit, ReadFrom, Sink, Source, WriteTo, run_new, run_new_in_turn};

/// The script that is run behind one that is loaded.
const NEXT: &[u8] = b"frob\n";

/// What fails.
#[derive(Clone, Copy, PartialEq)]
pub enum Failing {
    Read,
    /// A read of a script that is loaded, before another one.
    LoadedRead,
    Write,
    /// A write that takes no byte.
    EmptyWrite,
    Flush,
}

/// How a script is run.
#[derive(Clone, Copy)]
pub struct Plan {
    pub failing: Failing,
    /// How many bytes a read moves at most, or where no read fails a write.
    pub piece: usize,
    /// Which of these calls fails, counted from 1.
    pub at: u64,
}

/// What is told of a run beside what it writes.
#[derive(Clone, Copy)]
pub struct Told {
    pub exit: Exit,
    /// How many bytes of the script were read.
    pub read: usize,
    /// How many calls were made of those of which one fails.
    pub made: u64,
    /// Whether all that was written was flushed.
    pub flushed: bool,
}

impl Plan {
    /// The reads: byte by byte, unless it is they that fail.
    fn reads(&self) -> Calls {
        match self.failing {
            Failing::Read | Failing::LoadedRead => Calls::new(self.piece, self.at),
            _ => Calls::new(1, 0),
        }
    }

    fn writes(&self) -> Calls {
        match self.failing {
            Failing::Read | Failing::LoadedRead => Calls::new(usize::MAX, 0),
            Failing::Write | Failing::EmptyWrite => Calls::new(self.piece, self.at),
            Failing::Flush => Calls::new(self.piece, 0),
        }
    }

    fn flushes(&self) -> Calls {
        match self.failing {
            Failing::Flush => Calls::new(usize::MAX, self.at),
            _ => Calls::new(usize::MAX, 0),
        }
    }

    /// Of the numbers of calls that were made, that of those of which one fails.
    fn made(&self, reads: u64, writes: u64, flushes: u64) -> u64 {
        match self.failing {
            Failing::Read | Failing::LoadedRead => reads,
            Failing::Write | Failing::EmptyWrite => writes,
            Failing::Flush => flushes,
        }
    }
}

/// Runs what a source gives on an empty sheet, and where it is loaded another script behind it.
fn end<R: Source, W: Sink>(alloc: Global, failing: Failing, source: &mut R, sink: &mut W) -> Exit
    requires reads { R.has_failed source.old ≡ false }
    requires writes { W.has_failed sink.old ≡ false }
{
    if failing == Failing::LoadedRead {
        let mut next = ReadFrom::new(NEXT);
        run_new_in_turn(alloc, KEEP, source, &mut next, sink)
    } else {
        run_new(alloc, KEEP, source, sink)
    }
}

/// Runs a script as planned; appends what it writes.
pub fn run_planned(alloc: Global, script: &[u8], plan: &Plan, written: &mut Vec<u8>) -> Told {
    let mut reader = FailingReader {
        bytes: script,
        reads: plan.reads(),
    };
    let mut writer = FailingWriter {
        bytes: written,
        writes: plan.writes(),
        takes_none: plan.failing == Failing::EmptyWrite,
        flushes: plan.flushes(),
        flushed: false,
    };
    let mut source = ReadFrom::new(&mut reader);
    let exit = end(
        alloc,
        plan.failing,
        &mut source,
        &mut WriteTo::new(&mut writer),
    );
    Told {
        exit,
        read: script.len().saturating_sub(reader.bytes.len()),
        made: plan.made(reader.reads.made, writer.writes.made, writer.flushes.made),
        flushed: writer.flushed,
    }
}
