//! How many bytes of text values have.

ghost use Rattle.std.specs.Prelude.{◌≡◌};
ghost use Rattle.wi_cache.specs.Entries.{text_len};
ghost use Rattle.wi_cache.specs.Inner.Texts.{len_of_earlier, len_of_gone};

use crate::key::Key;
use wi_values::Value;

/// How many bytes of text a value has.
#[inline(always)]
pub(crate) fn text_len(value: &Value) -> usize
    ensures { result ≡ text_len value.now }
{
    match value {
        Value::Text(text) => text.as_str().len(),
        _ => 0,
    }
}

/// And an earlier one, which goes, if there was one.
#[inline(always)]
pub(crate) fn earlier_len(earlier: Option<Value>) -> usize
    ensures { result ≡ len_of_earlier earlier }
{
    match earlier {
        Some(value) => text_len(&value),
        None => 0,
    }
}

/// And one that went, if one did.
#[inline(always)]
pub(crate) fn gone_len(gone: &Option<(Key, Value)>) -> usize
    ensures { result ≡ len_of_gone gone.now }
{
    match gone {
        Some((_, value)) => text_len(value),
        None => 0,
    }
}
