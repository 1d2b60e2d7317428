//! Tokens with their values.

ghost use Rattle.std.specs.Prelude.{◌≡◌, IfOk};
ghost use Rattle.wi_parser.specs.Inner.SymbolCode.{meant_by};
ghost use Rattle.wi_parser.specs.Inner.FormulaText.{symbol_of, name_symbol, reference_symbol, rectangle_symbol, mark_symbol};
ghost use Rattle.wi_parser.specs.Symbols.{reference_to};
ghost use Rattle.wi_lexer.specs.Token.{IsToken};
ghost use Rattle.wi_lexer.specs.Reference.{IsReference};
ghost use Rattle.wi_lexer.specs.Rectangle.{IsRectangle};
ghost use Rattle.wi_lexer.specs.Inner.Cell.{parts};

use crate::expr::{Corners, Operator, Reference};
use crate::fault::ParseFault;
use std::alloc::{AllocError, Global};
use wi_fraction::Fraction;
use wi_lexer::{CellText, Kind, Mark, Token, cell_in, cells_in, text_content};
use wi_values::{Address, Text};

/// A token with its value.
#[derive(Drop)]
pub enum Symbol {
    Number(Fraction),
    /// The content of a text in double quotes.
    Text(Text),
    Cell(Reference),
    Rectangle(Corners),
    Open,
    Close,
    Separator,
    Infix(Operator),
    Percent,
    /// The name MULTIPLE.OPERATIONS.
    WhatIf,
    /// Another name, in capitals.
    Name(Text),
    /// A token without a value, which no formula has.
    Refused(ParseFault),
}

impl Symbol {
    /// What a token means.
    pub(crate) fn of_token(alloc: Global, token: Token<'_>) -> Result<Symbol, AllocError>
        requires { IsToken token.kind token.text.now }
        ensures { IfOk result (λ s. meant_by s ≡ symbol_of token.entry.kind token.entry.text.now) }
    {
        match token.kind {
            Kind::Number => Ok(number(token.text.as_bytes())),
            Kind::Text => Ok(Symbol::Text(Text::new(text_content(alloc, token.text)?)?)),
            Kind::Reference => Ok(reference(token.text.as_bytes())),
            Kind::Rectangle => Ok(rectangle(token.text.as_bytes())),
            Kind::Mark(mark) => Ok(of_mark(mark)),
            Kind::Name => name(alloc, token.text),
        }
    }
}

fn number(text: &[u8]) -> Symbol
    ensures { meant_by result ≡ symbol_of Kind.Number text.now }
{
    match Fraction::read_decimal(text) {
        Some(x) => Symbol::Number(x),
        None => Symbol::Refused(ParseFault::NumberRange),
    }
}

fn reference(text: &[u8]) -> Symbol
    requires { IsReference text.now }
    ensures { meant_by result ≡ symbol_of Kind.Reference text.now }
{
    cell_named(cell_in(text))
}

fn name(alloc: Global, text: &str) -> Result<Symbol, AllocError>
    ensures { IfOk result (λ s. meant_by s ≡ name_symbol text.now) }
{
    if text.eq_ignore_ascii_case("MULTIPLE.OPERATIONS") {
        return Ok(Symbol::WhatIf);
    }
    Ok(Symbol::Name(Text::new(text.to_ascii_uppercase(alloc)?)?))
}

fn cell_named(cell: CellText<'_>) -> Symbol
    ensures { meant_by result ≡ reference_symbol (Some (parts cell.entry)) }
{
    match reference_to(cell) {
        Some(at) => Symbol::Cell(at),
        None => Symbol::Refused(ParseFault::OutOfSheet),
    }
}

/// The reference to a cell, where the sheet has it.
fn reference_to(cell: CellText<'_>) -> Option<Reference>
    ensures { result ≡ reference_to (parts cell.entry) }
{
    match Address::from_parts(cell.letters, cell.digits) {
        Some(at) => Some(Reference {
            at,
            column_is_absolute: cell.column_is_absolute,
            row_is_absolute: cell.row_is_absolute,
        }),
        None => None,
    }
}

fn rectangle(text: &[u8]) -> Symbol
    requires { IsRectangle text.now }
    ensures { meant_by result ≡ symbol_of Kind.Rectangle text.now }
{
    let (one, other) = cells_in(text);
    between(one, other)
}

fn between(one: CellText<'_>, other: CellText<'_>) -> Symbol
    ensures { meant_by result ≡ rectangle_symbol (Some (parts one.entry, parts other.entry)) }
{
    match (reference_to(one), reference_to(other)) {
        (Some(one), Some(other)) => Symbol::Rectangle(Corners { one, other }),
        (Some(_), None) => Symbol::Refused(ParseFault::OutOfSheet),
        (None, _) => Symbol::Refused(ParseFault::OutOfSheet),
    }
}

fn of_mark(mark: Mark) -> Symbol
    ensures { meant_by result ≡ mark_symbol mark }
{
    match mark {
        Mark::OpenParenthesis => Symbol::Open,
        Mark::CloseParenthesis => Symbol::Close,
        Mark::Semicolon => Symbol::Separator,
        Mark::Plus => Symbol::Infix(Operator::Add),
        Mark::Minus => Symbol::Infix(Operator::Subtract),
        Mark::Asterisk => Symbol::Infix(Operator::Multiply),
        Mark::Slash => Symbol::Infix(Operator::Divide),
        Mark::Caret => Symbol::Infix(Operator::Power),
        Mark::Percent => Symbol::Percent,
        Mark::Ampersand => Symbol::Infix(Operator::Join),
        Mark::Equal => Symbol::Infix(Operator::Equal),
        Mark::NotEqual => Symbol::Infix(Operator::NotEqual),
        Mark::Less => Symbol::Infix(Operator::Less),
        Mark::LessOrEqual => Symbol::Infix(Operator::LessOrEqual),
        Mark::Greater => Symbol::Infix(Operator::Greater),
        Mark::GreaterOrEqual => Symbol::Infix(Operator::GreaterOrEqual),
    }
}
