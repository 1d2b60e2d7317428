//! The commands of scenarios and sessions, as they are read.

ghost use Rattle.wi_cli.specs.Inner.Forms.{SCENARIO, DROP, BASE, USE, AS, spelled};
ghost use Rattle.wi_cli.specs.Inner.Operands.{IsRead};

use crate::command::Command;
use crate::names::{name_or_none, only_name, read_name};
use crate::words::split_word;
use wi_scenarios::Refusal;
use wi_values::Address;

/// `scenario NAME ADDR CONTENT`, where CONTENT is all after the one space that follows ADDR, and may be empty.
#[tactic(auto, using(crate::proofs::Ties::Readings::read_so))]
pub(crate) fn read_scenario(operands: &str) -> Result<Command<'_>, Refusal>
    ensures { IsRead (spelled SCENARIO operands.now) result }
{
    let (word, others) = split_word(operands);
    let (address, content) = split_word(others);
    let name = read_name(word)?;
    let at = Address::read(address.as_bytes())?;
    Ok(Command::Scenario { name, at, content })
}

/// `drop NAME`.
#[tactic(auto, using(crate::proofs::Ties::Readings::read_so))]
pub(crate) fn read_drop(operands: &str) -> Result<Command<'_>, Refusal>
    ensures { IsRead (spelled DROP operands.now) result }
{
    let name = only_name(operands)?;
    Ok(Command::Drop { name })
}

/// `base NAME OTHER`, and `base NAME`.
#[tactic(auto, using(crate::proofs::Ties::Readings::read_so))]
pub(crate) fn read_base(operands: &str) -> Result<Command<'_>, Refusal>
    ensures { IsRead (spelled BASE operands.now) result }
{
    let (word, others) = split_word(operands);
    let name = read_name(word)?;
    let other = name_or_none(others)?;
    Ok(Command::Base { name, other })
}

/// `use NAME`, and `use`.
#[tactic(auto, using(crate::proofs::Ties::Readings::read_so))]
pub(crate) fn read_use(operands: &str) -> Result<Command<'_>, Refusal>
    ensures { IsRead (spelled USE operands.now) result }
{
    let name = name_or_none(operands)?;
    Ok(Command::Use { name })
}

/// `as SESSION`.
#[tactic(auto, using(crate::proofs::Ties::Readings::read_so))]
pub(crate) fn read_as(operands: &str) -> Result<Command<'_>, Refusal>
    ensures { IsRead (spelled AS operands.now) result }
{
    let name = only_name(operands)?;
    Ok(Command::As { name })
}
