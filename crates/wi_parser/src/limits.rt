//! What is refused before it is read.

ghost use Rattle.std.specs.Prelude.{◌≡◌, ◌<◌, ◌↔◌, Some, None, IsTrue, if◌then◌else◌};
ghost use Rattle.std.specs.List.{list_any};
ghost use Rattle.wi_parser.specs.Inner.Refusals.{is_refused, is_out_of_sheet, is_unfit};
ghost use Rattle.wi_parser.specs.Inner.SymbolCode.{meant_by, all_meant};
ghost use Rattle.wi_parser.specs.Nesting as nesting;
ghost use Rattle.wi_parser.specs.Nesting.{max_depth};
ghost use Rattle.wi_parser.specs.Inner.Deepest.{deepest, most_signs};
ghost use Rattle.wi_parser.specs.Inner.Refusals as spec;

use crate::expr::Operator;
use crate::fault::ParseFault;
use crate::symbol::Symbol;

/// How many parentheses may be open at once, and how many signs may stand one after another.
pub const MAX_DEPTH: usize = 64;

/// The first cause for which the symbols are refused before they are read. Most formulas have no bad token, which one
/// look tells.
pub(crate) fn refusal_of(symbols: &[Symbol]) -> Option<ParseFault>
    ensures { result ≡ spec.refusal_of (all_meant symbols.now) }
{
    if has_refused(symbols) {
        return first_refusal(symbols);
    }
    depth_refusal(symbols)
}

/// The first cause, where there may be a bad token.
fn first_refusal(symbols: &[Symbol]) -> Option<ParseFault>
    ensures { result ≡ spec.refusal_of (all_meant symbols.now) }
{
    if has_outside(symbols) {
        return Some(ParseFault::OutOfSheet);
    }
    if has_unfit(symbols) {
        return Some(ParseFault::NumberRange);
    }
    depth_refusal(symbols)
}

/// The refusal of what nests too deep.
fn depth_refusal(symbols: &[Symbol]) -> Option<ParseFault>
    ensures { result ≡ (if nesting.is_too_deep (all_meant symbols.now)
        then Some ParseFault.TooDeep else None) }
{
    if is_too_deep(symbols) {
        return Some(ParseFault::TooDeep);
    }
    None
}

#[tactic(auto, using(crate::proofs::Refusals::any_meant))]
fn has_refused(symbols: &[Symbol]) -> bool
    ensures { result ≡ list_any is_refused (all_meant symbols.now) }
{
    symbols.iter().any(|s| is_refused(s))
}

#[tactic(auto, using(crate::proofs::Refusals::any_meant))]
fn has_outside(symbols: &[Symbol]) -> bool
    ensures { result ≡ list_any is_out_of_sheet (all_meant symbols.now) }
{
    symbols.iter().any(|s| is_outside(s))
}

#[tactic(auto, using(crate::proofs::Refusals::any_meant))]
fn has_unfit(symbols: &[Symbol]) -> bool
    ensures { result ≡ list_any is_unfit (all_meant symbols.now) }
{
    symbols.iter().any(|s| is_unfit(s))
}

fn is_refused(symbol: &Symbol) -> bool
    ensures { result ≡ is_refused (meant_by symbol.now) }
{
    match symbol {
        Symbol::Refused(_) => true,
        _ => false,
    }
}

fn is_outside(symbol: &Symbol) -> bool
    ensures { result ≡ is_out_of_sheet (meant_by symbol.now) }
{
    match symbol {
        Symbol::Refused(ParseFault::OutOfSheet) => true,
        _ => false,
    }
}

fn is_unfit(symbol: &Symbol) -> bool
    ensures { result ≡ is_unfit (meant_by symbol.now) }
{
    match symbol {
        Symbol::Refused(ParseFault::NumberRange) => true,
        _ => false,
    }
}

fn is_sign(symbol: &Symbol) -> bool
    ensures { result ≡ nesting.is_sign (meant_by symbol.now) }
{
    match symbol {
        Symbol::Infix(Operator::Add) => true,
        Symbol::Infix(Operator::Subtract) => true,
        _ => false,
    }
}

/// No more symbols than the limit, as most formulas have, can't nest too deep.
fn is_too_deep(symbols: &[Symbol]) -> bool
    ensures { result ≡ nesting.is_too_deep (all_meant symbols.now) }
{
    if symbols.len() <= MAX_DEPTH {
        return false;
    }
    opens_too_many(symbols) || repeats_signs(symbols)
}

/// Whether more than 64 parentheses are open at once.
fn opens_too_many(symbols: &[Symbol]) -> bool
    ensures { IsTrue result ↔ (max_depth < deepest 0 (all_meant symbols.now)) }
{
    let mut open = 0;
    for symbol in symbols {
        match symbol {
            Symbol::Open => {
                if open == MAX_DEPTH {
                    return true;
                }
                open += 1;
            }
            Symbol::Close => {
                if open > 0 {
                    open -= 1;
                }
            }
            _ => {}
        }
    }
    false
}

/// Whether more than 64 signs stand one after another.
fn repeats_signs(symbols: &[Symbol]) -> bool
    ensures { IsTrue result ↔ (max_depth < most_signs 0 (all_meant symbols.now)) }
{
    let mut signs = 0;
    for symbol in symbols {
        if is_sign(symbol) {
            if signs == MAX_DEPTH {
                return true;
            }
            signs += 1;
        } else {
            signs = 0;
        }
    }
    false
}
