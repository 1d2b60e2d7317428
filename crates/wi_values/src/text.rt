//! The text of a value.

ghost use Rattle.std.specs.Prelude.{◌≡◌, [], IfOk, string_bytes};
ghost use Rattle.std.specs.Hash as fed;
ghost use Rattle.std.specs.Str.{bytes_eq};
ghost use Rattle.wi_values.specs.Inner.Same.{same_text_equiv, same_text_hash, same_text_partial};

use std::alloc::{AllocError, Global};
use std::hash::{Hash, Hasher};
use std::marker::Model;
use std::rc::RcStr;

/// The greatest length of a text in bytes.
pub const MAX_TEXT: usize = 32_767;

/// The text of a value, seen as its bytes. Copies share them.
#[derive(Drop)]
pub struct Text {
    /// Nothing where the text is empty.
    shared: Option<RcStr>,
}

impl Model for Text {
    ghost use Rattle.std.specs.Prelude.{List, ℕ};
    ghost use Rattle.wi_values.specs.Inner.Shared.{shared_bytes};

    ghost Value = { List ℕ };

    ghost view = { λ t. shared_bytes t.shared };
}

impl Text {
    /// The text without bytes. Takes no memory.
    pub fn empty() -> Text
        ensures { result ≡ [] }
    {
        Text { shared: None }
    }

    /// The text of these bytes.
    pub fn new(content: String) -> Result<Text, AllocError>
        ensures { IfOk result (λ t. t ≡ string_bytes content) }
    {
        let shared = RcStr::from_string(content)?;
        Ok(Text {
            shared: Some(shared),
        })
    }

    /// A copy of a text.
    pub fn from_str(alloc: Global, content: &str) -> Result<Text, AllocError>
        ensures { IfOk result (λ t. t ≡ content.now) }
    {
        Text::new(String::from_str(alloc, content)?)
    }

    pub fn as_str(&self) -> &str
        ensures { result.now ≡ self.now }
    {
        match &self.shared {
            Some(shared) => shared.as_str(),
            None => "",
        }
    }

    /// A copy that shares the bytes: whatever their count, it takes the same work, and no memory.
    pub fn copy(&self) -> Result<Text, AllocError>
        ensures { IfOk result (λ t. t ≡ self.now) }
    {
        let shared = self.shared.clone()?;
        Ok(Text { shared })
    }
}

impl PartialEq for Text {
    ghost eq = { bytes_eq };

    ghost laws = { same_text_partial };

    fn eq(&self, other: &Text) -> bool {
        self.as_str() == other.as_str()
    }
}

impl Eq for Text {
    ghost laws = { same_text_equiv };
}

impl Hash for Text {
    ghost hash_input = { fed.str };

    ghost respects_eq = { same_text_hash };

    fn hash<H: Hasher>(&self, state: &mut H) {
        self.as_str().hash(state);
    }
}
