//! Names among the operands of commands.

ghost use Rattle.std.specs.Prelude.{option_map};
ghost use Rattle.wi_values.specs.Name.{bytes_of, read_name};
ghost use Rattle.wi_cli.specs.Inner.Operands.{only_name, name_or_none, read_side, IsNamed};

use crate::words::{is_all_spaces, only_word};
use wi_scenarios::Refusal;
use wi_values::Name;

/// The name that a word spells.
pub(crate) fn read_name(word: &str) -> Result<Name<'_>, Refusal>
    ensures { IsNamed bytes_of (read_name word.now) result }
{
    match Name::read(word) {
        Some(name) => Ok(name),
        None => Err(Refusal::BadCommand),
    }
}

/// The name that is the only word.
pub(crate) fn only_name(words: &str) -> Result<Name<'_>, Refusal>
    ensures { IsNamed bytes_of (only_name words.now) result }
{
    read_name(only_word(words)?)
}

/// The name that is the only word, or none where there is no word.
pub(crate) fn name_or_none(words: &str) -> Result<Option<Name<'_>>, Refusal>
    ensures { IsNamed (option_map bytes_of) (name_or_none words.now) result }
{
    if is_all_spaces(words.as_bytes()) {
        return Ok(None);
    }
    let name = only_name(words)?;
    Ok(Some(name))
}

/// The scenario that a word names, or none for `-`, the sheet as it stands.
pub(crate) fn read_side(word: &str) -> Result<Option<Name<'_>>, Refusal>
    ensures { IsNamed (option_map bytes_of) (read_side word.now) result }
{
    if word == "-" {
        return Ok(None);
    }
    let name = read_name(word)?;
    Ok(Some(name))
}
