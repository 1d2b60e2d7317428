//! Formulas: why a text is none, their trees, what they are printed as, the cells that they name, and how they move.

use crate::areas::push_corners;
use crate::text_spelling::spelled;
use crate::trees::push_tree;
use std::alloc::{AllocError, Global};
use wi_parser::{Expr, Formula, MAX_FORMULA, parse};

fn printed(alloc: Global, formula: &Formula) -> Result<String, AllocError> {
    let mut text = String::new(alloc);
    formula.print(&mut text)?;
    Ok(text)
}

/// Appends the rectangles that a formula reads, a bar behind each.
fn push_rectangles(formula: &Formula, line: &mut String) -> Result<(), AllocError> {
    for area in formula.rectangles() {
        push_corners(*area, ':', line)?;
        line.push_str(" | ")?;
    }
    line.push_str("end")
}

/// Appends the inputs of a formula's what-ifs, a bar behind each.
fn push_inputs(formula: &Formula, line: &mut String) -> Result<(), AllocError> {
    for at in formula.inputs() {
        at.push_text(line)?;
        line.push_str(" | ")?;
    }
    line.push_str("end")
}

/// Appends the area of the rectangle that is all of a formula.
fn push_only_area(formula: &Formula, line: &mut String) -> Result<(), AllocError> {
    match formula.tree() {
        Expr::Rectangle(corners) => push_corners(corners.area(), ':', line),
        _ => line.push_str("no rectangle"),
    }
}

/// Appends a part of what a formula tells.
fn push_part(part: &str, formula: &Formula, line: &mut String) -> Result<(), AllocError> {
    match part {
        "fault" => line.push_str("none"),
        "tree" => push_tree(formula.tree(), line),
        "print" => formula.print(line),
        "rectangles" => push_rectangles(formula, line),
        "inputs" => push_inputs(formula, line),
        "area" => push_only_area(formula, line),
        _ => line.push_str("no operation"),
    }
}

/// Appends all that a formula tells.
fn push_all(formula: &Formula, text: &mut String) -> Result<(), AllocError> {
    push_tree(formula.tree(), text)?;
    formula.print(text)?;
    push_rectangles(formula, text)?;
    push_inputs(formula, text)
}

fn all_of(alloc: Global, formula: &Formula) -> Result<String, AllocError> {
    let mut text = String::new(alloc);
    push_all(formula, &mut text)?;
    Ok(text)
}

/// Whether two formulas have one tree and one text, and name the same cells.
fn are_same(alloc: Global, one: &Formula, other: &Formula) -> Result<bool, AllocError> {
    Ok(all_of(alloc, one)? == all_of(alloc, other)?)
}

/// Whether a formula is like its copy.
fn is_like_its_copy(alloc: Global, formula: &Formula) -> Result<bool, AllocError> {
    are_same(alloc, formula, &formula.copy(alloc)?)
}

/// Whether a formula is like the one that is read from a text.
fn is_read_from(alloc: Global, formula: &Formula, text: &str) -> Result<bool, AllocError> {
    match parse(alloc, text) {
        Ok(read) => are_same(alloc, formula, &read),
        Err(_) => Ok(false),
    }
}

/// Whether a formula is like the one that is read from its text, where that isn't too long.
fn is_read_back(alloc: Global, formula: &Formula) -> Result<bool, AllocError> {
    let text = printed(alloc, formula)?;
    Ok(text.len() > MAX_FORMULA || is_read_from(alloc, formula, &text)?)
}

/// Appends a part of what a formula tells. Its copy tells the same, and so does what is read from its text, where that
/// isn't too long.
fn push_told(
    alloc: Global,
    part: &str,
    formula: &Formula,
    line: &mut String,
) -> Result<(), AllocError> {
    push_part(part, formula, line)?;
    if !is_like_its_copy(alloc, formula)? {
        line.push_str(", unlike its copy")?;
    }
    if !is_read_back(alloc, formula)? {
        line.push_str(", unlike what it is printed as")?;
    }
    Ok(())
}

/// Appends a part of what the formula of a text tells, or why the text is none.
pub fn push(alloc: Global, part: &str, text: &str, line: &mut String) -> Result<(), AllocError> {
    match parse(alloc, text) {
        Ok(formula) => push_told(alloc, part, &formula, line),
        Err(fault) => write!(line, "{fault}"),
    }
}

/// Appends a formula moved by rows and columns. The one that is moved stays as it is in its text.
fn push_shifted(
    alloc: Global,
    formula: &Formula,
    text: &str,
    by: (i64, i64),
    line: &mut String,
) -> Result<(), AllocError> {
    match formula.shift(by.0, by.1) {
        Ok(moved) => push_told(alloc, "print", &moved, line)?,
        Err(fault) => write!(line, "{fault}")?,
    }
    if !is_read_from(alloc, formula, text)? {
        line.push_str(", moved itself")?;
    }
    Ok(())
}

/// Appends the formula of a text moved by rows and columns.
fn push_text_shifted(
    alloc: Global,
    text: &str,
    by: (i64, i64),
    line: &mut String,
) -> Result<(), AllocError> {
    match parse(alloc, text) {
        Ok(formula) => push_shifted(alloc, &formula, text, by, line),
        Err(fault) => write!(line, "{fault}"),
    }
}

/// Appends a formula moved by rows and columns, which stand before it.
pub fn push_moved(alloc: Global, operands: &str, line: &mut String) -> Option<()> {
    let (rows, others) = operands.split_once(' ')?;
    let (columns, part) = others.split_once(' ')?;
    let by = (rows.parse::<i64>().ok()?, columns.parse::<i64>().ok()?);
    push_text_shifted(alloc, &spelled(alloc, part)?, by, line).ok()
}
