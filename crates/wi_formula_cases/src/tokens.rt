//! Tokens, and what stands in those of cells and texts.

ghost use Rattle.std.specs.Prelude.{IfSome};
ghost use Rattle.wi_lexer.specs.Token.{IsToken};

use crate::values::push_quoted;
use std::alloc::{AllocError, Global};
use std::str;
use wi_lexer::{CellText, Kind, Lexer, Token, cell_in, cells_in, text_content};

/// Whether a token is a mark that is spelled otherwise than its kind tells.
fn is_misspelled(token: Token<'_>) -> bool {
    match token.kind {
        Kind::Mark(mark) => mark.text() != token.text,
        _ => false,
    }
}

/// Appends a token with its place and its kind.
fn push_token(alloc: Global, token: Token<'_>, line: &mut String) -> Result<(), AllocError> {
    if is_misspelled(token) {
        line.push_str("misspelled ")?;
    }
    write!(line, "{} {:?} ", token.start, token.kind)?;
    line.push_str(&token.text.replace(alloc, "\n", "{a}")?)
}

/// Appends the next token of a text, where there is one.
fn push_next(alloc: Global, lexer: &mut Lexer<'_>, line: &mut String) -> Result<(), AllocError> {
    match lexer.next_token() {
        None => return Ok(()),
        Some(Ok(token)) => push_token(alloc, token, line)?,
        Some(Err(bad)) => write!(line, "{bad}")?,
    }
    line.push_str(" | ")
}

/// Appends the tokens of a text, and goes on asking at its end.
fn push_tokens(alloc: Global, text: &str, line: &mut String) -> Result<(), AllocError> {
    let mut lexer = Lexer::new(text);
    for _ in 0..text.len().saturating_add(2) {
        push_next(alloc, &mut lexer, line)?;
    }
    line.push_str("end")
}

/// The token that a text is, where it is one.
fn token_of(text: &str) -> Option<Token<'_>>
    ensures { IfSome result (λ t. IsToken t.kind t.text.now) }
{
    let mut lexer = Lexer::new(text);
    match lexer.next_token() {
        Some(Ok(token)) if token.text.len() == text.len() => Some(token),
        _ => None,
    }
}

/// Appends the letters or the digits of a cell, after a `$` where they are absolute.
fn push_part(is_absolute: bool, part: &[u8], line: &mut String) -> Option<()> {
    if is_absolute {
        line.push('$').ok()?;
    }
    line.push_str(str::from_utf8(part).ok()?).ok()
}

/// Appends the letters and the digits of a cell.
fn push_cell(cell: CellText<'_>, line: &mut String) -> Option<()> {
    push_part(cell.column_is_absolute, cell.letters, line)?;
    line.push(' ').ok()?;
    push_part(cell.row_is_absolute, cell.digits, line)
}

fn push_reference(token: Token<'_>, line: &mut String) -> Option<()>
    requires { IsToken token.kind token.text.now }
{
    match token.kind {
        Kind::Reference => push_cell(cell_in(token.text.as_bytes()), line),
        _ => None,
    }
}

fn push_both(cells: (CellText<'_>, CellText<'_>), line: &mut String) -> Option<()> {
    push_cell(cells.0, line)?;
    line.push_str(" : ").ok()?;
    push_cell(cells.1, line)
}

fn push_corners(token: Token<'_>, line: &mut String) -> Option<()>
    requires { IsToken token.kind token.text.now }
{
    match token.kind {
        Kind::Rectangle => push_both(cells_in(token.text.as_bytes()), line),
        _ => None,
    }
}

fn push_unquoted(alloc: Global, text: &str, line: &mut String) -> Result<(), AllocError> {
    push_quoted(&text_content(alloc, text)?, line)
}

/// Appends the tokens of a text, or what stands in a token.
pub fn push(alloc: Global, operation: &str, text: &str, line: &mut String) -> Option<()> {
    match operation {
        "tokens" => push_tokens(alloc, text, line).ok(),
        "reference" => push_reference(token_of(text)?, line),
        "corners" => push_corners(token_of(text)?, line),
        _ => push_unquoted(alloc, text, line).ok(),
    }
}
