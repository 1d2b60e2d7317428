//! What-ifs: MULTIPLE.OPERATIONS and its parameters.

ghost use Rattle.std.specs.Prelude.{◌≡◌, ◌<◌, length, OnOk, OnSome, Some, None, MatchOption, option_and_then};
ghost use Rattle.wi_parser.specs.Inner.Reader.{after_open, reference_at, parameter_at, pair_at, what_if_at};
ghost use Rattle.wi_parser.specs.Inner.Outcome.{Finds};
ghost use Rattle.wi_parser.specs.View.{pair_of};

use crate::expr::{self, Expr, Pair, Reference};
use crate::fault::ParseFault;
use crate::symbols::Symbols;
use std::alloc::Global;

/// What stands after the name of a what-if: in parentheses a formula cell, and one input or two, each with its
/// replacement cell.
pub(crate) fn what_if(alloc: Global, symbols: &mut Symbols<'_>) -> Result<Expr, ParseFault>
    ensures finds { Finds (what_if_at symbols.old) result symbols.new }
    ensures shorter { OnOk result (length symbols.new < length symbols.old) }
{
    let Some(formula_cell) = formula_cell(symbols) else {
        return Err(ParseFault::Syntax);
    };
    let Some(first) = pair(symbols) else {
        return Err(ParseFault::Syntax);
    };
    if symbols.take_close() {
        return Ok(expr::what_if(alloc, formula_cell, &[first])?);
    }
    let Some(second) = pair(symbols) else {
        return Err(ParseFault::Syntax);
    };
    if !symbols.take_close() {
        return Err(ParseFault::Syntax);
    }
    Ok(expr::what_if(alloc, formula_cell, &[first, second])?)
}

/// The reference after the parenthesis that opens.
fn formula_cell(symbols: &mut Symbols<'_>) -> Option<Reference>
    ensures finds { MatchOption result
        (option_and_then reference_at (after_open symbols.old) ≡ None)
        (λ r. option_and_then reference_at (after_open symbols.old) ≡ Some (r, symbols.new)) }
    ensures shorter { OnSome result (length symbols.new < length symbols.old) }
{
    if !symbols.take_open() {
        return None;
    }
    symbols.take_reference()
}

/// An input, and its replacement cell.
#[tactic(auto, unfolding(crate::specs::Inner::Reader::pair_at))]
fn pair(symbols: &mut Symbols<'_>) -> Option<Pair>
    ensures finds { MatchOption result (pair_at symbols.old ≡ None)
        (λ p. pair_at symbols.old ≡ Some (pair_of p, symbols.new)) }
    ensures shorter { OnSome result (length symbols.new < length symbols.old) }
{
    let input = parameter(symbols)?;
    let replacement = parameter(symbols)?;
    Some(Pair { input, replacement })
}

/// A reference after a separator.
fn parameter(symbols: &mut Symbols<'_>) -> Option<Reference>
    ensures finds { MatchOption result (parameter_at symbols.old ≡ None)
        (λ r. parameter_at symbols.old ≡ Some (r, symbols.new)) }
    ensures shorter { OnSome result (length symbols.new < length symbols.old) }
{
    if !symbols.take_separator() {
        return None;
    }
    symbols.take_reference()
}
