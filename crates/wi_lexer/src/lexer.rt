//! The tokens of a text, one after another.

ghost use Rattle.std.specs.Prelude.{◌≡◌};
ghost use Rattle.wi_lexer.specs.Lexing.{Lexes, start_of};

use crate::runs::blanks_len;
use crate::token::{Kind, token_at};
use std::marker::Model;
use thiserror::Error;

/// A token, the place in the source where it begins, counted in bytes, and its text.
#[derive(Clone, Copy)]
pub struct Token<'a> {
    pub kind: Kind,
    pub start: usize,
    pub text: &'a str,
}

/// No token begins at this place of the text.
#[derive(Clone, Copy, Debug, Error)]
#[error("no token begins here")]
pub struct BadToken;

/// A reader of the tokens of a text. White space may stand before, between and after them.
///
/// Reading all tokens looks at each byte a fixed number of times at most.
#[derive(Drop)]
pub struct Lexer<'a> {
    source: &'a str,
    rest: &'a str,
}

impl<'a> Model for Lexer<'a> {
    ghost use Rattle.wi_lexer.specs.Scan.{Scan};

    ghost Value = { Scan };

    ghost use Rattle.wi_lexer.specs.Inner.Inside.{scan_of, IsSuffix};

    ghost view = { scan_of };

    ghost invariant = { IsSuffix };
}

impl<'a> Lexer<'a> {
    /// A lexer at the start of the text.
    pub fn new(source: &'a str) -> Lexer<'a>
        ensures { result ≡ start_of source.now }
    {
        Lexer {
            source,
            rest: source,
        }
    }

    /// The next token; an error at the first bad one. None at the end, and after a bad token.
    pub fn next_token(&mut self) -> Option<Result<Token<'a>, BadToken>>
        ensures { Lexes self.old result self.new }
    {
        let blanks = blanks_len(self.rest.as_bytes());
        let (_blank, ahead) = self.rest.split_at(blanks);
        let (_ahead, nothing) = ahead.split_at(ahead.len());
        if ahead.is_empty() {
            self.rest = nothing;
            return None;
        }
        let Some((kind, len)) = token_at(ahead.as_bytes()) else {
            self.rest = nothing;
            return Some(Err(BadToken));
        };
        let (text, rest) = ahead.split_at(len);
        let start = self.source.len() - ahead.len();
        self.rest = rest;
        Some(Ok(Token { kind, start, text }))
    }
}
