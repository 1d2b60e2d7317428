//! The name of a scenario or of a session.

ghost use Rattle.std.specs.Prelude.{◌≡◌, option_map};
ghost use Rattle.std.specs.List.{list_all};
ghost use Rattle.wi_values.specs.Name as spec;
ghost use Rattle.wi_values.specs.Inner.Names as bytes;

/// The greatest length of a name in bytes.
const MAX_NAME: usize = 32;

/// The name of a scenario or of a session: 1 to 32 ASCII letters, digits and `_`. Names are compared by their
/// bytes.
#[derive(Clone, Copy, PartialEq, Eq, PartialOrd, Ord)]
pub struct Name<'a> {
    text: &'a str,
}

impl<'a> Name<'a> {
    /// The name that a text spells.
    pub fn read(text: &'a str) -> Option<Name<'a>>
        ensures { option_map spec.bytes_of result ≡ spec.read_name text.now }
    {
        if is_name(text.as_bytes()) {
            Some(Name { text })
        } else {
            None
        }
    }

    /// The name as it is written.
    pub fn as_str(self) -> &'a str
        ensures { result.now ≡ spec.bytes_of self.entry }
    {
        self.text
    }
}

fn is_name_byte(b: u8) -> bool
    ensures { result ≡ bytes.is_name_byte b }
{
    b.is_ascii_alphabetic() || b.is_ascii_digit() || b == b'_'
}

fn are_name_bytes(text: &[u8]) -> bool
    ensures { result ≡ list_all bytes.is_name_byte text.now }
{
    text.iter().all(|b| is_name_byte(*b))
}

fn is_name(text: &[u8]) -> bool
    ensures { result ≡ spec.is_name text.now }
{
    !text.is_empty() && text.len() <= MAX_NAME && are_name_bytes(text)
}
