//! What a line with its data lines is answered.

ghost use Rattle.std.specs.Prelude.{◌≡◌, ◌+◌, [], List, ℕ, Option, Some, length};
ghost use Rattle.wi_scenarios.specs.Answer.{ServesData};
ghost use Rattle.wi_scenarios.specs.Commands.Operands.{Cell};
ghost use Rattle.wi_scenarios.specs.Commands.Step.{IsImportStep};
ghost use Rattle.wi_cli.specs.Inner.Operands.{read_any};
ghost use Rattle.wi_cli.specs.Inner.Data.{wants, HoldsLines, command_of_csv, target_of, IsTarget};
ghost use Rattle.wi_cli.specs.Inner.Told.{Told};

use crate::again::{forget, lacks_memory};
use crate::csv_line::CsvLine;
use crate::data_lines::{DataLines, Held};
use crate::reply::Reply;
use wi_propagate::Calculator;
use wi_scenarios::{Refusal, Workbook};
use wi_values::{Address, AddressFault};

/// Where the data lines go, if none of them is too long, or why they are refused.
fn target_of(at: Result<Address, AddressFault>, missing: u32) -> Result<Address, Refusal>
    ensures { result ≡ target_of at missing }
{
    match at {
        Err(AddressFault::Shape) => Err(Refusal::BadCommand),
        _ if missing > 0 => Err(Refusal::CutShort),
        Err(AddressFault::Outside) => Err(Refusal::OutOfSheet),
        Ok(at) => Ok(at),
    }
}

/// Where the data lines of a line go, or why they are refused.
fn target(csv: &CsvLine, data_lines: &DataLines) -> Result<Address, Refusal>
    ensures { (o : Option Cell) (lines : List (List ℕ)) → csv.now.at ≡ read_any o
        → data_lines.now.wanted ≡ wants csv.now → HoldsLines data_lines.now lines
        → length lines + data_lines.now.missing ≡ csv.now.lines
        → IsTarget (command_of_csv csv.now o lines)
        csv.now.force data_lines.now.bytes.items result }
{
    if !csv.is_text {
        return Err(Refusal::BadLine);
    }
    match data_lines.held {
        Held::TooLong => Err(Refusal::BadLine),
        Held::Lacking => Err(Refusal::Memory),
        Held::All => target_of(csv.at, data_lines.missing),
    }
}

/// Imports data lines, and once more where memory runs out, after memory was freed.
fn import_twice<C: Calculator>(
    book: &mut Workbook<C>,
    at: Address,
    text: &[u8],
    force: bool,
    spare: &mut Vec<u8>,
) -> Result<(), Refusal>
    ensures { ServesData (IsImportStep book.old.state force at text.now)
        result book.old.state book.new.state }
{
    let done = book.import(at, text, force);
    if lacks_memory(&done) {
        forget(book, spare);
        return book.import(at, text, force);
    }
    done
}

/// Serves a line that asks for data lines. Where memory runs out, all that can be found again is freed, with the memory
/// of bytes that aren't used any more, and the lines are imported once more.
pub(crate) fn serve_csv<C: Calculator>(
    book: &mut Workbook<C>,
    csv: &CsvLine,
    data_lines: &DataLines,
    spare: &mut Vec<u8>,
) -> Reply
    ensures { (o : Option Cell) (lines : List (List ℕ)) → csv.now.at ≡ read_any o
        → data_lines.now.wanted ≡ wants csv.now → HoldsLines data_lines.now lines
        → length lines + data_lines.now.missing ≡ csv.now.lines
        → Told (Some (command_of_csv csv.now o lines))
        result book.old.state book.new.state [] }
{
    match target(csv, data_lines) {
        Ok(at) => match import_twice(book, at, &data_lines.bytes, csv.force, spare) {
            Ok(()) => Reply::Done,
            Err(refusal) => Reply::Refused(refusal),
        },
        Err(refusal) => Reply::Refused(refusal),
    }
}
