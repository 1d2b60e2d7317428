//! A cell's address, and its content as a text.

ghost use Rattle.std.specs.Prelude.{◌≡◌, ◌++◌, Some, IfOk, OnOk, OnErr, string_bytes};
ghost use Rattle.wi_parser.specs.Sheet.{content_of};
ghost use Rattle.wi_parser.specs.declared.content.Content.TheVariants.{Constant};
ghost use Rattle.wi_reports.specs.Contents.{content_text, content_record};

use crate::texts::address_text;
use std::alloc::{AllocError, Global};
use wi_csv::push_record;
use wi_parser::Content;
use wi_propagate::Calculator;
use wi_values::{Address, Value};

/// Appends the record of a cell: its address and its content, as it would be typed. On an error the bytes are as
/// before. It looks up one cell (`content`), and beside that the work grows with the length of the record.
pub fn push_content<C: Calculator>(
    alloc: Global,
    calculator: &C,
    at: Address,
    out: &mut Vec<u8>,
) -> Result<(), AllocError>
    ensures ok { OnOk result (out.new.items
        ≡ out.old.items ++ content_record (C.stored calculator.now).sheet at) }
    ensures err { OnErr result (out.new.items ≡ out.old.items) }
{
    let address = address_text(alloc, at)?;
    let content = content_text(alloc, calculator, at)?;
    push_record(&[address.as_str(), content.as_str()], out)
}

/// The text of what stands in a cell.
fn content_text<C: Calculator>(
    alloc: Global,
    calculator: &C,
    at: Address,
) -> Result<String, AllocError>
    ensures { IfOk result (λ text.
        string_bytes text ≡ content_text (content_of (C.stored calculator.now).sheet at)) }
{
    let mut text = String::new(alloc);
    if let Some(content) = calculator.content(at) {
        push_content_text(content, &mut text)?;
    }
    Ok(text)
}

/// Appends a content.
fn push_content_text(content: &Content, text: &mut String) -> Result<(), AllocError>
    ensures { OnOk result (string_bytes text.new
        ≡ string_bytes text.old ++ content_text (Some content.now)) }
{
    match content {
        Content::Constant(value) => push_constant(value, text),
        Content::Formula(formula) => formula.print(text),
    }
}

/// Appends a constant.
fn push_constant(value: &Value, text: &mut String) -> Result<(), AllocError>
    ensures { OnOk result (string_bytes text.new
        ≡ string_bytes text.old ++ content_text (Some (Constant value.now))) }
{
    match value {
        Value::Text(bytes) => {
            text.push_str("'")?;
            text.push_str(bytes.as_str())
        }
        _ => value.push_shown(text),
    }
}
