//! The symbols that are left to read.

ghost use Rattle.std.specs.Prelude.{◌≡◌, [], ◌∷◌, Some, None, MatchOption, IsTrue, ◌↔◌};
ghost use Rattle.std.specs.Bool.{OnTrue, OnFalse};
ghost use Rattle.wi_parser.specs.Grammar as grammar;
ghost use Rattle.wi_parser.specs.Inner.Reader.{after_open, after_close, after_separator, after_percent, reference_at, sign_at, operator_within};
ghost use Rattle.wi_parser.specs.Inner.SymbolCode.{meant_by, all_meant};

use crate::expr::{Operator, Reference, Sign};
use crate::symbol::Symbol;
use std::marker::Model;

/// The symbols that are left. A contract sees them as the list of what they mean.
#[derive(Drop)]
pub struct Symbols<'a> {
    rest: &'a [Symbol],
}

impl<'a> Model for Symbols<'a> {
    ghost use Rattle.std.specs.Prelude.{List};
    ghost use Rattle.wi_parser.specs.Symbol as spec;
    ghost use Rattle.wi_parser.specs.Inner.SymbolCode.{all_meant};

    ghost Value = { List spec.Symbol };

    ghost view = { λ s. all_meant s.rest.now };
}

impl<'a> Symbols<'a> {
    pub(crate) fn new(rest: &'a [Symbol]) -> Symbols<'a>
        ensures { result ≡ all_meant rest.now }
    {
        Symbols { rest }
    }

    pub(crate) fn is_empty(&self) -> bool
        ensures { IsTrue result ↔ (self.now ≡ []) }
    {
        self.rest.is_empty()
    }

    /// Takes the next symbol.
    pub(crate) fn next(&mut self) -> Option<&'a Symbol>
        ensures { MatchOption result ((self.old ≡ []) × (self.new ≡ []))
            (λ s. self.old ≡ meant_by s.now ∷ self.new) }
    {
        match self.rest {
            [first, rest @ ..] => {
                self.rest = rest;
                Some(first)
            }
            [] => None,
        }
    }

    /// Takes the next symbol, if it is the parenthesis that opens.
    pub(crate) fn take_open(&mut self) -> bool
        ensures yes { OnTrue result (after_open self.old ≡ Some self.new) }
        ensures no { OnFalse result ((after_open self.old ≡ None) × (self.new ≡ self.old)) }
    {
        match self.rest {
            [Symbol::Open, rest @ ..] => {
                self.rest = rest;
                true
            }
            _ => false,
        }
    }

    /// Takes the next symbol, if it is the parenthesis that closes.
    pub(crate) fn take_close(&mut self) -> bool
        ensures yes { OnTrue result (after_close self.old ≡ Some self.new) }
        ensures no { OnFalse result ((after_close self.old ≡ None) × (self.new ≡ self.old)) }
    {
        match self.rest {
            [Symbol::Close, rest @ ..] => {
                self.rest = rest;
                true
            }
            _ => false,
        }
    }

    /// Takes the next symbol, if it separates parameters.
    pub(crate) fn take_separator(&mut self) -> bool
        ensures yes { OnTrue result (after_separator self.old ≡ Some self.new) }
        ensures no { OnFalse result ((after_separator self.old ≡ None) × (self.new ≡ self.old)) }
    {
        match self.rest {
            [Symbol::Separator, rest @ ..] => {
                self.rest = rest;
                true
            }
            _ => false,
        }
    }

    /// Takes the next symbol, if it is a reference.
    pub(crate) fn take_reference(&mut self) -> Option<Reference>
        ensures { MatchOption result ((reference_at self.old ≡ None) × (self.new ≡ self.old))
            (λ r. reference_at self.old ≡ Some (r, self.new)) }
    {
        match self.rest {
            [Symbol::Cell(at), rest @ ..] => {
                self.rest = rest;
                Some(*at)
            }
            _ => None,
        }
    }

    /// Takes the next symbol, if it is a percent mark.
    pub(crate) fn take_percent(&mut self) -> bool
        ensures yes { OnTrue result (after_percent self.old ≡ Some self.new) }
        ensures no { OnFalse result ((after_percent self.old ≡ None) × (self.new ≡ self.old)) }
    {
        match self.rest {
            [Symbol::Percent, rest @ ..] => {
                self.rest = rest;
                true
            }
            _ => false,
        }
    }

    /// Takes the next symbol, if it is a sign.
    pub(crate) fn take_sign(&mut self) -> Option<Sign>
        ensures { MatchOption result ((sign_at self.old ≡ None) × (self.new ≡ self.old))
            (λ s. sign_at self.old ≡ Some (s, self.new)) }
    {
        match self.rest {
            [Symbol::Infix(Operator::Add), rest @ ..] => {
                self.rest = rest;
                Some(Sign::Plus)
            }
            [Symbol::Infix(Operator::Subtract), rest @ ..] => {
                self.rest = rest;
                Some(Sign::Minus)
            }
            _ => None,
        }
    }

    /// Takes the next symbol, if it is an operator of this level of the grammar or a tighter one.
    pub(crate) fn take_operator(&mut self, level: u8) -> Option<Operator>
        ensures { MatchOption result
            ((operator_within level self.old ≡ None) × (self.new ≡ self.old))
            (λ op. operator_within level self.old ≡ Some (op, self.new)) }
    {
        match self.rest {
            [Symbol::Infix(op), rest @ ..] if level_of(*op) <= level => {
                self.rest = rest;
                Some(*op)
            }
            _ => None,
        }
    }
}

/// The level of the grammar that has the operator.
pub(crate) fn level_of(op: Operator) -> u8
    ensures { result ≡ grammar.level_of op }
{
    match op {
        Operator::Power => 3,
        Operator::Multiply | Operator::Divide => 4,
        Operator::Add | Operator::Subtract => 5,
        Operator::Join => 6,
        Operator::Equal
        | Operator::NotEqual
        | Operator::Less
        | Operator::LessOrEqual
        | Operator::Greater
        | Operator::GreaterOrEqual => 7,
    }
}
