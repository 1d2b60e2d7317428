//! Addresses, rectangles and names.

use crate::numbers;
use crate::text_spelling::unquoted;
use std::alloc::AllocError;
use std::cmp::Ordering;
use wi_values::{Address, Name, Rect};

fn two(operands: &str) -> Option<(&str, &str)> {
    operands.split_once(' ')
}

fn cell(text: &str) -> Option<Address> {
    Address::read(text.as_bytes()).ok()
}

fn two_cells(operands: &str) -> Option<(Address, Address)> {
    let (one, other) = two(operands)?;
    Some((cell(one)?, cell(other)?))
}

fn between(corners: &str) -> Option<Rect> {
    let (one, other) = two_cells(corners)?;
    Some(Rect::new(one, other))
}

/// The cell of a row and a column.
fn cell_at(operands: &str) -> Option<Address> {
    let (row, column) = two(operands)?;
    Address::new(row.parse::<u32>().ok()?, column.parse::<u32>().ok()?)
}

/// The cell that letters and digits name.
fn cell_of_parts(operands: &str) -> Option<Address> {
    let (letters, digits) = two(operands)?;
    Address::from_parts(letters.as_bytes(), digits.as_bytes())
}

/// Whether the rectangle between the first two of three cells has the last.
fn is_within(operands: &str) -> Option<bool> {
    let (corners, at) = operands.rsplit_once(' ')?;
    Some(between(corners)?.contains(cell(at)?))
}

fn push_place(at: Address, line: &mut String) -> Result<(), AllocError> {
    write!(line, "row {}, column {}", at.row(), at.column())
}

fn push_address(text: &str, line: &mut String) -> Result<(), AllocError> {
    match Address::read(text.as_bytes()) {
        Ok(at) => push_place(at, line),
        Err(fault) => write!(line, "{fault}"),
    }
}

/// Appends the corners of a rectangle.
pub fn push_corners(area: Rect, between: char, line: &mut String) -> Result<(), AllocError> {
    area.first().push_text(line)?;
    line.push(between)?;
    area.last().push_text(line)
}

fn push_area(area: Rect, line: &mut String) -> Result<(), AllocError> {
    push_corners(area, ' ', line)?;
    write!(line, ", size {}", area.size())
}

fn push_rectangle(text: &str, line: &mut String) -> Result<(), AllocError> {
    match Rect::read(text.as_bytes()) {
        Ok(area) => push_area(area, line),
        Err(fault) => write!(line, "{fault}"),
    }
}

/// Appends the order of two cells.
fn push_order(operands: &str, line: &mut String) -> Option<()> {
    let (one, other) = two_cells(operands)?;
    write!(line, "{:?}", one.cmp(&other)).ok()
}

/// The order of two names, and whether they are the same.
fn order_of_names(operands: &str) -> Option<(Ordering, bool)> {
    let (left, right) = two(operands)?;
    let one = Name::read(left)?;
    let other = Name::read(right)?;
    Some((one.cmp(&other), one == other))
}

fn push_order_of_names(operands: &str, line: &mut String) -> Option<()> {
    let (order, is_same) = order_of_names(operands)?;
    write!(line, "{order:?}, same: {is_same}").ok()
}

fn name(text: &str) -> Option<&str> {
    Some(Name::read(unquoted(text)?)?.as_str())
}

/// Appends what an operation on addresses gives.
fn push_of_cells(operation: &str, operands: &str, line: &mut String) -> Option<()> {
    match operation {
        "address" => push_address(unquoted(operands).unwrap_or(operands), line).ok(),
        "place" => push_place(cell_of_parts(operands)?, line).ok(),
        "cell" => cell_at(operands)?.push_text(line).ok(),
        _ => push_order(operands, line),
    }
}

/// Appends what an operation on rectangles gives.
fn push_of_rectangles(operation: &str, operands: &str, line: &mut String) -> Option<()> {
    match operation {
        "rectangle" => push_rectangle(unquoted(operands).unwrap_or(operands), line).ok(),
        "between" => push_area(between(operands)?, line).ok(),
        _ => write!(line, "{}", is_within(operands)?).ok(),
    }
}

/// Appends what an operation on addresses, rectangles or names gives, or else one on numbers.
pub fn push(operation: &str, operands: &str, line: &mut String) -> Option<()> {
    match operation {
        "address" | "place" | "cell" | "cells" => push_of_cells(operation, operands, line),
        "rectangle" | "between" | "within" => push_of_rectangles(operation, operands, line),
        "name" => line.push_str(name(operands)?).ok(),
        "names" => push_order_of_names(operands, line),
        _ => numbers::push(operation, operands, line),
    }
}
