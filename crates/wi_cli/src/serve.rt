//! What a command is answered.

ghost use Rattle.std.specs.Prelude.{◌≡◌, ◌++◌, List, ℕ, Some};
ghost use Rattle.wi_scenarios.specs.Commands.Command as table;
ghost use Rattle.wi_cli.specs.Inner.Operands.{command_of, IsRead};
ghost use Rattle.wi_cli.specs.Inner.Told.{IsServed, Told};

use crate::again::{forget, free_bytes, lacks_memory};
use crate::command::Command;
use crate::reply::Reply;
use wi_propagate::Calculator;
use wi_scenarios::{Refusal, Workbook};

/// Does a command, and appends its records.
#[inline(always)]
fn execute<C: Calculator>(
    command: &Command<'_>,
    book: &mut Workbook<C>,
    out: &mut Vec<u8>,
) -> Result<(), Refusal>
    ensures { (records : List ℕ) × (out.new.items ≡ out.old.items ++ records)
        × IsServed (command_of command.now) result book.old.state book.new.state records }
{
    match *command {
        Command::Set { force, at, content } => book.set(at, content, force),
        Command::Clear { force, area } => book.clear(area, force),
        Command::Fill { force, from, area } => book.fill(from, area, force),
        Command::Scenario { name, at, content } => book.scenario_set(name, at, content),
        Command::Drop { name } => book.scenario_drop(name),
        Command::Base { name, other } => book.scenario_base(name, other),
        Command::Use { name } => book.use_scenario(name),
        Command::As { name } => book.session(name),
        Command::Show { area } => book.show(area, out),
        Command::Export { area } => book.export(area, out),
        Command::Changes => book.changes(out),
        Command::Compare {
            first,
            second,
            area,
        } => book.compare(first, second, area, out),
        Command::Table {
            formula_cell,
            input,
            column,
        } => book.table(formula_cell, input, column, None, out),
        Command::TableOfTwo {
            formula_cell,
            input,
            column,
            second,
            row,
        } => book.table(formula_cell, input, column, Some((second, row)), out),
        Command::Formula { at } => book.formula_text(at, out),
    }
}

/// Does a command for which memory ran out once more, after memory was freed, and leaves its records in `out`.
#[cold]
#[inline(never)]
fn execute_again<C: Calculator>(
    command: &Command<'_>,
    book: &mut Workbook<C>,
    out: &mut Vec<u8>,
    spare: &mut Vec<u8>,
) -> Result<(), Refusal>
    ensures { IsServed (command_of command.now) result
        book.old.state book.new.state out.new.items }
{
    free_bytes(out);
    forget(book, spare);
    execute(command, book, out)
}

/// Does a command, and leaves its records in `out`. Where memory runs out it is done once more, after memory was freed.
#[inline(always)]
fn execute_twice<C: Calculator>(
    command: &Command<'_>,
    book: &mut Workbook<C>,
    out: &mut Vec<u8>,
    spare: &mut Vec<u8>,
) -> Result<(), Refusal>
    ensures { IsServed (command_of command.now) result
        book.old.state book.new.state out.new.items }
{
    out.clear();
    let done = execute(command, book, out);
    if lacks_memory(&done) {
        return execute_again(command, book, out, spare);
    }
    done
}

/// Serves a command that was read, or refused so, and leaves its records in `out`. Where memory runs out, all that can
/// be found again is given back, with the memory of bytes that aren't used any more, and the command is done once more.
pub(crate) fn serve<C: Calculator>(
    command: &Result<Command<'_>, Refusal>,
    book: &mut Workbook<C>,
    out: &mut Vec<u8>,
    spare: &mut Vec<u8>,
) -> Reply
    ensures { (named : table.Command) → IsRead named command.now
        → Told (Some named) result book.old.state book.new.state out.new.items }
{
    match command {
        Ok(command) => match execute_twice(command, book, out, spare) {
            Ok(()) => Reply::Done,
            Err(refusal) => Reply::Refused(refusal),
        },
        Err(refusal) => Reply::Refused(*refusal),
    }
}
