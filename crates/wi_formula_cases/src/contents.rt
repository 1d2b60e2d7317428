//! The contents of cells, and how a text becomes one or a value.

use crate::trees::push_tree;
use crate::values::{push_value, value};
use std::alloc::{AllocError, Global};
use wi_parser::Content;
use wi_values::{FieldFault, Value, field_value, imported_value};

fn push_read(read: Result<Value, FieldFault>, line: &mut String) -> Result<(), AllocError> {
    match read {
        Ok(value) => {
            let pushed = push_value(&value, line);
            drop(value);
            pushed
        }
        Err(fault) => write!(line, "{fault}"),
    }
}

fn push_content(content: &Content, line: &mut String) -> Result<(), AllocError> {
    match content {
        Content::Constant(value) => push_value(value, line),
        Content::Formula(formula) => {
            line.push_str("formula ")?;
            push_tree(formula.tree(), line)
        }
    }
}

/// Appends what a copy of a content holds.
fn push_copied(alloc: Global, content: &Content, line: &mut String) -> Result<(), AllocError> {
    let copy = content.copy(alloc)?;
    let pushed = push_content(&copy, line);
    drop(copy);
    pushed
}

/// Appends what a copy of the content that a text spells holds.
fn push_spelled(alloc: Global, text: &str, line: &mut String) -> Result<(), AllocError> {
    match Content::read(alloc, text) {
        Ok(content) => {
            let pushed = push_copied(alloc, &content, line);
            drop(content);
            pushed
        }
        Err(fault) => write!(line, "{fault}"),
    }
}

/// Appends what a copy of the constant that a text spells holds.
fn push_constant(alloc: Global, text: &str, line: &mut String) -> Option<()> {
    let content = Content::Constant(value(alloc, text)?);
    let pushed = push_copied(alloc, &content, line);
    drop(content);
    pushed.ok()
}

fn push_in_quotes(value: &Value, line: &mut String) -> Result<(), AllocError> {
    line.push('"')?;
    value.push_shown(line)?;
    line.push('"')
}

/// Appends how the value that a text spells is shown.
fn push_shown(alloc: Global, text: &str, line: &mut String) -> Option<()> {
    let value = value(alloc, text)?;
    let pushed = push_in_quotes(&value, line);
    drop(value);
    pushed.ok()
}

/// Appends what a text is as a field, as a content, or as a value.
pub fn push(alloc: Global, operation: &str, text: &str, line: &mut String) -> Option<()> {
    match operation {
        "field" => push_read(field_value(alloc, text), line).ok(),
        "imported" => push_read(imported_value(alloc, text), line).ok(),
        "content" => push_spelled(alloc, text, line).ok(),
        "constant" => push_constant(alloc, text, line),
        _ => push_shown(alloc, text, line),
    }
}
