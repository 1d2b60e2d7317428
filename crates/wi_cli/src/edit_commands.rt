//! The commands that edit the sheet, as they are read. They may be forced.

ghost use Rattle.std.specs.Prelude.{true, Some};
ghost use Rattle.wi_scenarios.specs.Commands.Command.{Unknown};
ghost use Rattle.wi_cli.specs.Lines.{first_word, after_word};
ghost use Rattle.wi_cli.specs.Inner.Script.{csv_operands, csv_named};
ghost use Rattle.wi_cli.specs.Inner.Operands.{fill_of, IsRead, IsReading};
ghost use Rattle.wi_cli.specs.Inner.Forms.{SET, CLEAR, FILL, edits, spelled, named_in};
ghost use Rattle.wi_cli.specs.Inner.Data.{IsAsked};

use crate::command::Command;
use crate::csv_line::read_csv;
use crate::line::Line;
use crate::operands::worse;
use crate::words::{only_word, split_word};
use wi_scenarios::Refusal;
use wi_values::{Address, AddressFault, Rect};

/// `force`, before an edit.
pub(crate) fn read_forced(text: &str) -> Line<'_>
    ensures { IsAsked (csv_named true (first_word text.now) (after_word text.now)) true
        (Some (named_in (edits true) (first_word text.now) (after_word text.now))) result }
{
    let (name, operands) = split_word(text);
    read_edit(true, name, operands)
}

/// The edit of this name.
pub(crate) fn read_edit<'a>(force: bool, name: &str, operands: &'a str) -> Line<'a>
    ensures { IsAsked (csv_named force name.now operands.now) true
        (Some (named_in (edits force) name.now operands.now)) result }
{
    match name {
        "set" => Line::Command(read_set(force, operands)),
        "clear" => Line::Command(read_clear(force, operands)),
        "fill" => Line::Command(read_fill(force, operands)),
        "csv" => read_import(force, operands),
        _ => Line::Command(Err(Refusal::BadCommand)),
    }
}

/// `csv ADDR LINES`.
fn read_import(force: bool, operands: &str) -> Line<'_>
    ensures { IsAsked (csv_operands force operands.now) true (Some Unknown) result }
{
    match read_csv(force, operands.as_bytes()) {
        Some(csv) => Line::Csv(csv),
        None => Line::Command(Err(Refusal::BadCommand)),
    }
}

/// `set ADDR CONTENT`, where CONTENT is all after the one space that follows ADDR.
#[tactic(auto, using(crate::proofs::Ties::Readings::read_so))]
#[inline(always)]
pub(crate) fn read_set(force: bool, operands: &str) -> Result<Command<'_>, Refusal>
    ensures { IsRead (spelled (SET force) operands.now) result }
{
    let (address, content) = split_word(operands);
    if content.is_empty() {
        return Err(Refusal::BadCommand);
    }
    let at = Address::read(address.as_bytes())?;
    Ok(Command::Set { force, at, content })
}

/// `clear RECT`.
#[tactic(auto, using(crate::proofs::Ties::Readings::read_so))]
fn read_clear(force: bool, operands: &str) -> Result<Command<'_>, Refusal>
    ensures { IsRead (spelled (CLEAR force) operands.now) result }
{
    let area = Rect::read(only_word(operands)?.as_bytes())?;
    Ok(Command::Clear { force, area })
}

/// `fill ADDR RECT`.
#[tactic(auto, using(crate::proofs::Ties::Readings::read_so))]
fn read_fill(force: bool, operands: &str) -> Result<Command<'_>, Refusal>
    ensures { IsRead (spelled (FILL force) operands.now) result }
{
    let (from, others) = split_word(operands);
    let area = only_word(others)?;
    filled(
        force,
        Address::read(from.as_bytes()),
        Rect::read(area.as_bytes()),
    )
}

/// `fill` of these operands.
fn filled<'a>(
    force: bool,
    from: Result<Address, AddressFault>,
    area: Result<Rect, AddressFault>,
) -> Result<Command<'a>, Refusal>
    ensures { IsReading (fill_of force from area) result }
{
    if let Some(fault) = worse(from.err(), area.err()) {
        return Err(Refusal::from(fault));
    }
    Ok(Command::Fill {
        force,
        from: from?,
        area: area?,
    })
}
