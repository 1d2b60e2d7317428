//! The commands that show what a workbook holds, as they are read.

ghost use Rattle.std.specs.Prelude.{Ok};
ghost use Rattle.wi_values.specs.AddressReading.{read_rect};
ghost use Rattle.wi_scenarios.specs.Commands.Command.{Compare};
ghost use Rattle.wi_scenarios.specs.Commands.Operands.{corners};
ghost use Rattle.wi_cli.specs.Inner.Operands.{of_name, of_operand, read_side, IsRead, IsReading};
ghost use Rattle.wi_cli.specs.Inner.Forms.{SHOW, EXPORT, CHANGES, COMPARE, FORMULA, spelled};

use crate::command::Command;
use crate::names::read_side;
use crate::words::{is_all_spaces, only_word, split_word};
use wi_scenarios::Refusal;
use wi_values::{Address, Rect};

/// `show RECT`.
#[tactic(auto, using(crate::proofs::Ties::Readings::read_so))]
pub(crate) fn read_show(operands: &str) -> Result<Command<'_>, Refusal>
    ensures { IsRead (spelled SHOW operands.now) result }
{
    let area = Rect::read(only_word(operands)?.as_bytes())?;
    Ok(Command::Show { area })
}

/// `export RECT`.
#[tactic(auto, using(crate::proofs::Ties::Readings::read_so))]
pub(crate) fn read_export(operands: &str) -> Result<Command<'_>, Refusal>
    ensures { IsRead (spelled EXPORT operands.now) result }
{
    let area = Rect::read(only_word(operands)?.as_bytes())?;
    Ok(Command::Export { area })
}

/// `changes`.
#[tactic(auto, using(crate::proofs::Ties::Readings::read_so))]
pub(crate) fn read_changes(operands: &str) -> Result<Command<'_>, Refusal>
    ensures { IsRead (spelled CHANGES operands.now) result }
{
    if !is_all_spaces(operands.as_bytes()) {
        return Err(Refusal::BadCommand);
    }
    Ok(Command::Changes)
}

/// `compare S T RECT`, where S and T are names of scenarios, or `-`.
#[tactic(auto, using(crate::proofs::Ties::Readings::read_so))]
pub(crate) fn read_compare(operands: &str) -> Result<Command<'_>, Refusal>
    ensures { IsRead (spelled COMPARE operands.now) result }
{
    let (first, others) = split_word(operands);
    let (second, others) = split_word(others);
    let area = only_word(others)?;
    compare_of(first, second, area)
}

/// `compare` of these words.
fn compare_of<'a>(first: &'a str, second: &'a str, area: &str) -> Result<Command<'a>, Refusal>
    ensures { IsReading (of_name (read_side first.now) (λ s. of_name (read_side second.now) (λ t.
        of_operand (read_rect area.now) (λ cells. Ok (Compare s t (corners cells)))))) result }
{
    let first = read_side(first)?;
    let second = read_side(second)?;
    let area = Rect::read(area.as_bytes())?;
    Ok(Command::Compare {
        first,
        second,
        area,
    })
}

/// `formula ADDR`.
#[tactic(auto, using(crate::proofs::Ties::Readings::read_so))]
pub(crate) fn read_formula(operands: &str) -> Result<Command<'_>, Refusal>
    ensures { IsRead (spelled FORMULA operands.now) result }
{
    let at = Address::read(only_word(operands)?.as_bytes())?;
    Ok(Command::Formula { at })
}
