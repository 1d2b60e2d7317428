//! Trees as texts.

use std::alloc::AllocError;
use wi_parser::{Corners, Expr, Operator, Pair, Reference, Sign};
use wi_values::Text;

fn mark_of(operator: Operator) -> &'static str {
    match operator {
        Operator::Add => "+",
        Operator::Subtract => "-",
        Operator::Multiply => "*",
        Operator::Divide => "/",
        Operator::Power => "^",
        Operator::Join => "&",
        Operator::Equal => "=",
        Operator::NotEqual => "<>",
        Operator::Less => "<",
        Operator::LessOrEqual => "<=",
        Operator::Greater => ">",
        Operator::GreaterOrEqual => ">=",
    }
}

/// Appends a cell, with a `$` before it for its column and one after it for its row, where they are absolute.
fn push_cell(reference: Reference, text: &mut String) -> Result<(), AllocError> {
    text.push_str(if reference.column_is_absolute {
        "$"
    } else {
        ""
    })?;
    reference.at.push_text(text)?;
    text.push_str(if reference.row_is_absolute { "$" } else { "" })
}

fn push_rectangle(corners: Corners, text: &mut String) -> Result<(), AllocError> {
    push_cell(corners.one, text)?;
    text.push(':')?;
    push_cell(corners.other, text)
}

/// Appends a tree between two texts.
#[cycle(tree)]
fn push_between(
    before: &str,
    inner: &Expr,
    after: &str,
    text: &mut String,
) -> Result<(), AllocError> {
    text.push_str(before)?;
    push_tree(inner, text)?;
    text.push_str(after)
}

#[cycle(tree)]
fn push_call(name: &Text, parameters: &[Expr], text: &mut String) -> Result<(), AllocError> {
    text.push_str(name.as_str())?;
    for parameter in parameters {
        push_between("<", parameter, ">", text)?;
    }
    Ok(())
}

fn push_content(content: &Text, text: &mut String) -> Result<(), AllocError> {
    text.push('\'')?;
    text.push_str(content.as_str())?;
    text.push('\'')
}

fn push_pair(pair: &Pair, text: &mut String) -> Result<(), AllocError> {
    text.push(' ')?;
    push_cell(pair.input, text)?;
    text.push('=')?;
    push_cell(pair.replacement, text)
}

fn push_what_if(
    formula_cell: Reference,
    pairs: &[Pair],
    text: &mut String,
) -> Result<(), AllocError> {
    push_cell(formula_cell, text)?;
    for pair in pairs {
        push_pair(pair, text)?;
    }
    Ok(())
}

/// Appends a tree, with braces around each operation, brackets for parentheses, a call's parameters each in `<>`, and a
/// what-if's pairs after its cell.
#[cycle(tree)]
pub fn push_tree(tree: &Expr, text: &mut String) -> Result<(), AllocError> {
    match tree {
        Expr::Number(number) => number.push_text(text),
        Expr::Cell(reference) => push_cell(*reference, text),
        Expr::Rectangle(corners) => push_rectangle(*corners, text),
        Expr::Parenthesized(inner) => push_between("[", inner, "]", text),
        Expr::Signed(Sign::Plus, operand) => push_between("{+", operand, "}", text),
        Expr::Signed(Sign::Minus, operand) => push_between("{-", operand, "}", text),
        Expr::Percent(operand) => push_between("{", operand, "%}", text),
        Expr::Binary(operator, operands) => {
            push_between("{", &operands.0, mark_of(*operator), text)?;
            push_between("", &operands.1, "}", text)
        }
        Expr::Call(call) => push_call(&call.0, &call.1, text),
        Expr::Text(content) => push_content(content, text),
        Expr::WhatIf(what_if) => push_what_if(what_if.formula_cell, &what_if.pairs, text),
    }
}
