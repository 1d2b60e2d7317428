//! What a cell shows.

ghost use Rattle.std.specs.Prelude.{◌≡◌, ◌++◌, IfOk, OnOk, OnErr, string_bytes};
ghost use Rattle.wi_values.specs.Value.{error_name, shown_text};

use crate::text::Text;
use std::alloc::{AllocError, Global};
use wi_fraction::Fraction;

/// Why there is no other value. The names are those of OpenFormula (OpenDocument 1.3, part 4, "Constant Errors"),
/// but for `Circular`, which this project adds.
#[derive(Clone, Copy, PartialEq, Eq, Hash)]
pub enum ErrorKind {
    /// `#N/A`
    NotAvailable,
    /// `#DIV/0!`
    DivisionByZero,
    /// `#NAME?`
    UnknownName,
    /// `#NUM!`
    BadNumber,
    /// `#REF!`
    BadReference,
    /// `#VALUE!`
    BadValue,
    /// `#CIRC!`
    Circular,
}

impl ErrorKind {
    /// The name, as it is shown.
    pub(crate) fn name(self) -> &'static str
        ensures { result.now ≡ error_name self }
    {
        match self {
            ErrorKind::NotAvailable => "#N/A",
            ErrorKind::DivisionByZero => "#DIV/0!",
            ErrorKind::UnknownName => "#NAME?",
            ErrorKind::BadNumber => "#NUM!",
            ErrorKind::BadReference => "#REF!",
            ErrorKind::BadValue => "#VALUE!",
            ErrorKind::Circular => "#CIRC!",
        }
    }
}

/// A value.
#[derive(PartialEq, Eq, Hash, Drop)]
pub enum Value {
    Empty,
    Number(Fraction),
    Text(Text),
    Logical(bool),
    Fault(ErrorKind),
}

impl Value {
    /// A copy of the value, which shares a text: it takes the same work whatever the text's length, and no memory.
    pub fn copy(&self, _alloc: Global) -> Result<Value, AllocError>
        ensures { IfOk result (λ v. v ≡ self.now) }
    {
        match self {
            Value::Empty => Ok(Value::Empty),
            Value::Number(x) => Ok(Value::Number(*x)),
            Value::Text(t) => Ok(Value::Text(t.copy()?)),
            Value::Logical(b) => Ok(Value::Logical(*b)),
            Value::Fault(e) => Ok(Value::Fault(*e)),
        }
    }

    /// The shown text. The work, and the memory that it takes, grow with the text.
    pub fn shown(&self, alloc: Global) -> Result<String, AllocError>
        ensures { IfOk result (λ text. string_bytes text ≡ shown_text self.now) }
    {
        let mut text = String::new(alloc);
        self.push_shown(&mut text)?;
        Ok(text)
    }

    /// Appends the shown text. On an error the text is as before.
    #[tactic(auto, unfolding(crate::specs::Value::shown_text))]
    pub fn push_shown(&self, text: &mut String) -> Result<(), AllocError>
        ensures ok { OnOk result
            (string_bytes text.new ≡ string_bytes text.old ++ shown_text self.now) }
        ensures err { OnErr result (string_bytes text.new ≡ string_bytes text.old) }
    {
        match self {
            Value::Empty => Ok(()),
            Value::Number(x) => x.push_text(text),
            Value::Text(t) => text.push_str(t.as_str()),
            Value::Logical(true) => text.push_str("TRUE"),
            Value::Logical(false) => text.push_str("FALSE"),
            Value::Fault(kind) => text.push_str(kind.name()),
        }
    }
}
