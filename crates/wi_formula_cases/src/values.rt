//! How values are spelled in cases, and in their answers.

use crate::text_spelling::spelled;
use std::alloc::{AllocError, Global};
use wi_values::{ErrorKind, Text, Value, field_value};

fn fault_named(name: &str) -> Option<ErrorKind> {
    match name {
        "#N/A" => Some(ErrorKind::NotAvailable),
        "#REF!" => Some(ErrorKind::BadReference),
        "#VALUE!" => Some(ErrorKind::BadValue),
        "#NUM!" => Some(ErrorKind::BadNumber),
        "#DIV/0!" => Some(ErrorKind::DivisionByZero),
        "#NAME?" => Some(ErrorKind::UnknownName),
        "#CIRC!" => Some(ErrorKind::Circular),
        _ => None,
    }
}

/// The value of an operand: an error by its name, what follows a quote as a text, Empty by its name, and else a number,
/// a truth value or a text.
pub fn value(alloc: Global, operand: &str) -> Option<Value> {
    if let Some(fault) = fault_named(operand) {
        return Some(Value::Fault(fault));
    }
    if operand == "Empty" {
        return Some(Value::Empty);
    }
    match operand.strip_prefix("'") {
        Some(content) => Some(Value::Text(Text::from_str(alloc, content).ok()?)),
        None => field_value(alloc, operand).ok(),
    }
}

/// The value that a part of a case spells.
pub fn spelled_value(alloc: Global, part: &str) -> Option<Value> {
    value(alloc, &spelled(alloc, part)?)
}

/// Appends a text in quotes, so that it isn't taken for what it spells.
pub fn push_quoted(text: &str, line: &mut String) -> Result<(), AllocError> {
    line.push('"')?;
    line.push_str(text)?;
    line.push('"')
}

/// Appends a value, a text in quotes.
pub fn push_value(value: &Value, line: &mut String) -> Result<(), AllocError> {
    match value {
        Value::Empty => line.push_str("Empty"),
        Value::Text(text) => push_quoted(text.as_str(), line),
        _ => value.push_shown(line),
    }
}
