//! The levels of the grammar, each over the function that reads what stands in parentheses.

ghost use Rattle.std.specs.Prelude.{◌≡◌, ◌<◌, ◌≤◌, length, None, OnOk, IfOk};
ghost use Rattle.wi_parser.specs.Inner.Reader as reader;
ghost use Rattle.wi_parser.specs.Inner.Outcome.{Finds, FindsMore, put_before};
ghost use Rattle.wi_parser.specs.Inner.Nests.{Nests};
ghost use Rattle.wi_parser.specs.View.{tree_of};
ghost use Rattle.wi_parser.specs.Tree as tree;

use crate::expr::{Corners, Expr, Reference, Sign, binary, call, text};
use crate::fault::ParseFault;
use crate::symbol::Symbol;
use crate::symbols::{Symbols, level_of};
use crate::what_if::what_if;
use std::alloc::{AllocError, Global};
use wi_fraction::Fraction;
use wi_values::Text;

#[derive(Drop)]
struct Grammar<F> {
    alloc: Global,
    /// How deep parentheses may still nest.
    depth: usize,
    expression: F,
}

impl<F: Fn(Global, &mut Symbols<'_>, usize) -> Result<Expr, ParseFault>> Grammar<F> {
    /// What stands in parentheses.
    fn inner(&self, symbols: &mut Symbols<'_>) -> Result<Expr, ParseFault>
        requires { Nests self.now.depth (F.pre self.now.expression) (F.post self.now.expression) }
        ensures finds { Finds (reader.expression self.now.depth symbols.old) result symbols.new }
        ensures shorter { OnOk result (length symbols.new < length symbols.old) }
    {
        (self.expression)(self.alloc, symbols, self.depth)
    }

    /// What follows a parameter: the others behind those found, and the parenthesis that closes.
    fn more_parameters(
        &self,
        symbols: &mut Symbols<'_>,
        found: &mut Vec<Expr>,
    ) -> Result<(), ParseFault>
        requires { Nests self.now.depth (F.pre self.now.expression) (F.post self.now.expression) }
        ensures finds { FindsMore (put_before found.old.items
            (reader.more_parameters (reader.expression self.now.depth)
            (length symbols.old) symbols.old)) result found.new.items symbols.new }
        ensures shorter { OnOk result (length symbols.new < length symbols.old) }
    {
        while !symbols.take_close() {
            if !symbols.take_separator() {
                return Err(ParseFault::Syntax);
            }
            found.push(self.inner(symbols)?)?;
        }
        Ok(())
    }

    /// The parameters of a call, behind those found, and the parenthesis that closes.
    fn parameters(&self, symbols: &mut Symbols<'_>, found: &mut Vec<Expr>) -> Result<(), ParseFault>
        requires { Nests self.now.depth (F.pre self.now.expression) (F.post self.now.expression) }
        ensures finds { FindsMore (put_before found.old.items
            (reader.parameters_at (reader.expression self.now.depth) symbols.old))
            result found.new.items symbols.new }
        ensures shorter { OnOk result (length symbols.new < length symbols.old) }
    {
        if symbols.take_close() {
            return Ok(());
        }
        found.push(self.inner(symbols)?)?;
        self.more_parameters(symbols, found)
    }

    /// An expression after the parenthesis that opens, and the one that closes.
    fn enclosed(&self, symbols: &mut Symbols<'_>) -> Result<Expr, ParseFault>
        requires { Nests self.now.depth (F.pre self.now.expression) (F.post self.now.expression) }
        ensures finds { Finds (reader.read_then (λ t. reader.then_close (tree.parenthesized t))
            (reader.expression self.now.depth symbols.old)) result symbols.new }
        ensures shorter { OnOk result (length symbols.new < length symbols.old) }
    {
        let inner = self.inner(symbols)?;
        if !symbols.take_close() {
            return Err(ParseFault::Syntax);
        }
        Ok(parenthesized(self.alloc, inner)?)
    }

    /// The call of the function with this name, whose parameters follow.
    fn called(&self, name: &Text, symbols: &mut Symbols<'_>) -> Result<Expr, ParseFault>
        requires { Nests self.now.depth (F.pre self.now.expression) (F.post self.now.expression) }
        ensures finds { Finds (reader.called (reader.expression self.now.depth) name.now
            (reader.after_open symbols.old)) result symbols.new }
        ensures shorter { OnOk result (length symbols.new < length symbols.old) }
    {
        if !symbols.take_open() {
            return Err(ParseFault::Syntax);
        }
        let mut parameters = Vec::new(self.alloc);
        self.parameters(symbols, &mut parameters)?;
        Ok(call(self.alloc, name, parameters)?)
    }

    /// A number, a text, a cell, a rectangle, an expression in parentheses, a what-if, or a call.
    fn atom(&self, symbols: &mut Symbols<'_>) -> Result<Expr, ParseFault>
        requires { Nests self.now.depth (F.pre self.now.expression) (F.post self.now.expression) }
        ensures finds { Finds (reader.atom (reader.expression self.now.depth) symbols.old)
            result symbols.new }
        ensures shorter { OnOk result (length symbols.new < length symbols.old) }
    {
        let Some(symbol) = symbols.next() else {
            return Err(ParseFault::Syntax);
        };
        match symbol {
            Symbol::Number(x) => Ok(number(*x)),
            Symbol::Text(content) => Ok(text(content)?),
            Symbol::Cell(at) => Ok(cell(*at)),
            Symbol::Rectangle(corners) => Ok(rectangle(*corners)),
            Symbol::Open => self.enclosed(symbols),
            Symbol::WhatIf => what_if(self.alloc, symbols),
            Symbol::Name(name) => self.called(name, symbols),
            Symbol::Close => Err(ParseFault::Syntax),
            Symbol::Separator => Err(ParseFault::Syntax),
            Symbol::Infix(_) => Err(ParseFault::Syntax),
            Symbol::Percent => Err(ParseFault::Syntax),
            Symbol::Refused(_) => Err(ParseFault::Syntax),
        }
    }

    /// Any number of signs, and an atom.
    fn prefixed(&self, symbols: &mut Symbols<'_>) -> Result<Expr, ParseFault>
        requires { Nests self.now.depth (F.pre self.now.expression) (F.post self.now.expression) }
        ensures finds { Finds (reader.level (reader.expression self.now.depth) 1 symbols.old)
            result symbols.new }
        ensures shorter { OnOk result (length symbols.new < length symbols.old) }
    {
        let Some(sign) = symbols.take_sign() else {
            return self.atom(symbols);
        };
        let operand = self.prefixed(symbols)?;
        Ok(signed(self.alloc, sign, operand)?)
    }

    /// An operand with its signs, and any number of percent marks.
    fn percents(&self, symbols: &mut Symbols<'_>) -> Result<Expr, ParseFault>
        requires { Nests self.now.depth (F.pre self.now.expression) (F.post self.now.expression) }
        ensures finds { Finds (reader.level (reader.expression self.now.depth) 2 symbols.old)
            result symbols.new }
        ensures shorter { OnOk result (length symbols.new < length symbols.old) }
    {
        let mut operand = self.prefixed(symbols)?;
        while symbols.take_percent() {
            operand = percent(self.alloc, operand)?;
        }
        Ok(operand)
    }

    /// A level of the grammar from percents, which are level 2, to comparisons: an operand, and each operator of the
    /// level or a tighter one, with a right operand of the level below the operator's.
    fn level(&self, symbols: &mut Symbols<'_>, level: u8) -> Result<Expr, ParseFault>
        requires nests { Nests self.now.depth (F.pre self.now.expression)
            (F.post self.now.expression) }
        requires from_percents { 2 ≤ level }
        ensures finds { Finds (reader.level (reader.expression self.now.depth) level symbols.old)
            result symbols.new }
        ensures shorter { OnOk result (length symbols.new < length symbols.old) }
        ensures ended { OnOk result (reader.operator_within level symbols.new ≡ None) }
    {
        let mut left = self.percents(symbols)?;
        while let Some(op) = symbols.take_operator(level) {
            let right = self.level(symbols, level_of(op) - 1)?;
            left = binary(self.alloc, op, left, right)?;
        }
        Ok(left)
    }
}

const LOOSEST: u8 = 7;

/// An expression at the front of the symbols, whose parentheses nest less deep than the depth.
pub(crate) fn expression(
    alloc: Global,
    symbols: &mut Symbols<'_>,
    depth: usize,
) -> Result<Expr, ParseFault>
    ensures finds { Finds (reader.expression depth symbols.old) result symbols.new }
    ensures shorter { OnOk result (length symbols.new < length symbols.old) }
{
    if depth == 0 {
        return Err(ParseFault::Syntax);
    }
    Grammar {
        alloc,
        depth: depth - 1,
        expression,
    }
    .level(symbols, LOOSEST)
}

fn number(x: Fraction) -> Expr
    ensures { tree_of result ≡ tree.number x }
{
    Expr::Number(x)
}

fn cell(at: Reference) -> Expr
    ensures { tree_of result ≡ tree.cell at }
{
    Expr::Cell(at)
}

fn rectangle(corners: Corners) -> Expr
    ensures { tree_of result ≡ tree.rectangle corners }
{
    Expr::Rectangle(corners)
}

fn parenthesized(alloc: Global, inner: Expr) -> Result<Expr, AllocError>
    ensures { IfOk result (λ e. tree_of e ≡ tree.parenthesized (tree_of inner)) }
{
    Ok(Expr::Parenthesized(Box::new(alloc, inner)?))
}

fn signed(alloc: Global, sign: Sign, operand: Expr) -> Result<Expr, AllocError>
    ensures { IfOk result (λ e. tree_of e ≡ tree.signed sign (tree_of operand)) }
{
    Ok(Expr::Signed(sign, Box::new(alloc, operand)?))
}

fn percent(alloc: Global, operand: Expr) -> Result<Expr, AllocError>
    ensures { IfOk result (λ e. tree_of e ≡ tree.percent (tree_of operand)) }
{
    Ok(Expr::Percent(Box::new(alloc, operand)?))
}
