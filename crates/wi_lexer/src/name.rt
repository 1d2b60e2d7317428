//! Where a name ends.

ghost use Rattle.std.specs.Prelude.{◌≡◌};
ghost use Rattle.wi_lexer.specs.Name as spec;
ghost use Rattle.wi_lexer.specs.Inner.Name as reader;

use crate::runs::byte;

fn is_name_start(b: u8) -> bool
    ensures { result ≡ spec.is_name_start b }
{
    b.is_ascii_alphabetic() || b == b'_'
}

fn is_name_part(b: u8) -> bool
    ensures { result ≡ spec.is_name_part b }
{
    b.is_ascii_alphabetic() || b.is_ascii_digit() || b == b'_' || b == b'.'
}

fn name_parts_len(text: &[u8]) -> usize
    ensures { result ≡ reader.name_parts_len text.now }
{
    text.iter().take_while(|b| is_name_part(**b)).count()
}

#[tactic(auto, unfolding(crate::specs::Inner::Name::name_len))]
pub(crate) fn name_len(text: &[u8]) -> usize
    ensures { result ≡ reader.name_len text.now }
{
    if !is_name_start(byte(text, 0)) {
        return 0;
    }
    name_parts_len(text)
}
