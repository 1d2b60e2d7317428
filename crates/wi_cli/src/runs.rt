//! Runs a script.

ghost use Rattle.std.specs.Prelude.{◌≡◌, ◌≤◌, OnOk, OnErr, IfErr, Err, false, true, vec_capacity};
ghost use Rattle.std.specs.Io.KnownBytes.{Keeps};
ghost use Rattle.wi_cli.specs.Inner.Reading.{CanRead, ReadsOn, stage_of};
ghost use Rattle.wi_cli.specs.Inner.Turn.{IsReplied, IsTurn};
ghost use Rattle.wi_cli.specs.Lines.{max_lines};
ghost use Rattle.wi_cli.specs.Outcome.{IsRun};

use crate::chunk::Chunk;
use crate::data_lines::{DataLines, read_data};
use crate::fault::RunFault;
use crate::line::{Line, read_line};
use crate::lines::{LineReader, MAX_LINE, next_line};
use crate::reply::{Reply, write_reply};
use crate::serve::serve;
use crate::serve_csv::serve_csv;
use std::alloc::Global;
use wi_devices::{Sink, Source};
use wi_propagate::Calculator;
use wi_scenarios::Workbook;

/// What a run uses anew for each line.
#[derive(Drop)]
pub struct Buffers {
    /// What reads the lines.
    pub script: LineReader,
    /// The data lines of a line.
    pub data_lines: DataLines,
    /// The records of a command.
    pub records: Vec<u8>,
}

/// Writes the reply to a line, and hands on whether the last LF came.
fn answer<W: Sink>(
    writer: &mut W,
    reply: Reply,
    records: &[u8],
    whole: bool,
) -> Result<bool, RunFault>
    requires { W.has_failed writer.old ≡ false }
    ensures done { IsReplied whole reply records.now result
        (W.contents writer.old) (W.contents writer.new) }
    ensures writes { OnOk result (W.has_failed writer.new ≡ false) }
    ensures write_fault { result ≡ Err RunFault.Write → W.has_failed writer.new ≡ true }
    ensures no_memory { result ≡ Err RunFault.Memory → ⊥ }
{
    match write_reply(writer, reply, records) {
        Ok(()) => Ok(whole),
        Err(_) => Err(RunFault::Write),
    }
}

/// Reads a line with its data lines, serves it and writes its reply. Tells whether the last LF came.
fn turn<R: Source, W: Sink, C: Calculator>(
    buffers: &mut Buffers,
    reader: &mut R,
    writer: &mut W,
    book: &mut Workbook<C>,
) -> Result<bool, RunFault>
    requires reads { CanRead (R.has_failed reader.old) (vec_capacity buffers.old.script.line) }
    requires writes { W.has_failed writer.old ≡ false }
    requires few { buffers.old.script.lines ≤ max_lines }
    ensures done { let stage = stage_of R.remaining W.contents in
        IsTurn result (stage buffers.old.script reader.old writer.old book.old.state)
        (stage buffers.new.script reader.new writer.new book.new.state) }
    ensures reads { ReadsOn result (R.has_failed reader.new)
        (vec_capacity buffers.new.script.line) }
    ensures writes { OnOk result (W.has_failed writer.new ≡ false) }
    ensures write_fault { result ≡ Err RunFault.Write → W.has_failed writer.new ≡ true }
    ensures no_memory { result ≡ Err RunFault.Memory → ⊥ }
{
    let whole = next_line(&mut buffers.script, reader)?;
    match read_line(&buffers.script.line) {
        Line::Passed => Ok(whole),
        Line::Command(command) => {
            let spare = &mut buffers.data_lines.bytes;
            let reply = serve(&command, book, &mut buffers.records, spare);
            answer(writer, reply, &buffers.records, whole)
        }
        Line::Csv(csv) => {
            let script = &mut buffers.script;
            let data_lines = &mut buffers.data_lines;
            let spare = &mut buffers.records;
            let end = match read_data(script, reader, data_lines, &csv, whole, book, spare) {
                Ok(end) => end,
                // What a fault cuts is not answered.
                Err(fault) => return Err(fault),
            };
            let reply = serve_csv(book, &csv, &buffers.data_lines, &mut buffers.records);
            answer(writer, reply, b"", end)
        }
    }
}

/// Sends on what the writer holds back.
fn send<W: Sink>(writer: &mut W) -> Result<(), RunFault>
    requires { W.has_failed writer.old ≡ false }
    ensures bytes { Keeps (W.contents writer.old) (W.contents writer.new) }
    ensures sent { OnOk result (W.flushed writer.new ≡ true) }
    ensures works { OnOk result (W.has_failed writer.new ≡ false) }
    ensures fault { IfErr result (λ e. e ≡ RunFault.Write) }
    ensures failed { OnErr result (W.has_failed writer.new ≡ true) }
{
    match writer.flush() {
        Ok(()) => Ok(()),
        Err(_) => Err(RunFault::Write),
    }
}

/// Runs a script on a workbook. It takes each line as it comes, with its data lines, serves it and writes its reply,
/// then goes on to the next; the contract tells what is written, not when. On a fault the replies to the commands
/// before it stand; where a write failed, the last of them may be cut short, and nothing is served after it. Beside
/// what its command does, a line costs time that grows with its length. Memory is taken for a line of the greatest
/// length, once, and as much as the data lines of one `csv` and the records of one command want.
pub fn run<R: Source, W: Sink, C: Calculator>(
    alloc: Global,
    reader: &mut R,
    writer: &mut W,
    book: &mut Workbook<C>,
) -> Result<(), RunFault>
    requires reads { R.has_failed reader.old ≡ false }
    requires writes { W.has_failed writer.old ≡ false }

    // The bytes written are the replies to the commands of the bytes read.
    ensures runs { IsRun R.remaining R.has_failed W.contents W.has_failed W.flushed result
        reader.old reader.new writer.old writer.new book.old.state book.new.state }
{
    let Ok(line) = Vec::with_capacity(alloc, MAX_LINE + 1) else {
        return Err(RunFault::Memory);
    };
    let chunk = Chunk::new();
    let script = LineReader {
        chunk,
        line,
        lines: 0,
    };
    let mut buffers = Buffers {
        script,
        data_lines: DataLines::new(alloc),
        records: Vec::new(alloc),
    };
    'turns: while turn(&mut buffers, reader, writer, book)? {}
    send(writer)
}
