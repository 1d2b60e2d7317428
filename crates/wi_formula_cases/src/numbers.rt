//! Fractions: what they are made of, powers, and their texts. A fraction is written as `n/d`, both parts whole numbers.

use crate::text_spelling::unquoted;
use std::alloc::AllocError;
use wi_fraction::{Fraction, FractionError};

type Calculated = Result<Fraction, FractionError>;

/// The fraction with two parts.
fn of_parts(text: &str) -> Option<Calculated> {
    let (n, d) = text.split_once('/')?;
    Some(Fraction::new(n.parse::<i128>().ok()?, d.parse::<i128>().ok()?))
}

fn number(text: &str) -> Option<Fraction> {
    of_parts(text)?.ok()
}

/// A number raised to a whole one.
fn powered(operands: &str) -> Option<Calculated> {
    let (base, exponent) = operands.split_once(' ')?;
    Some(number(base)?.checked_pow(exponent.parse::<i128>().ok()?))
}

/// The number that an operation gives.
fn calculated(operation: &str, operands: &str) -> Option<Calculated> {
    match operation {
        "number" => of_parts(operands),
        "token" => Some(Ok(Fraction::read_decimal(unquoted(operands)?.as_bytes())?)),
        _ => powered(operands),
    }
}

fn push_parts(number: Fraction, line: &mut String) -> Result<(), AllocError> {
    write!(line, "{}/{}", number.numerator(), number.denominator())
}

fn push_calculated(number: Calculated, line: &mut String) -> Result<(), AllocError> {
    match number {
        Ok(number) => push_parts(number, line),
        Err(fault) => write!(line, "{fault}"),
    }
}

/// Appends what an operation on a number or its text gives.
pub fn push(operation: &str, operands: &str, line: &mut String) -> Option<()> {
    match operation {
        "decimal" => number(operands)?.push_decimal(line).ok(),
        _ => push_calculated(calculated(operation, operands)?, line).ok(),
    }
}
