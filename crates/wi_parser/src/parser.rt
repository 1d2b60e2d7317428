//! From a text to a formula.

ghost use Rattle.std.specs.Prelude.{◌+◌, Ok, IfOk};
ghost use Rattle.wi_parser.specs.Inner.SymbolCode.{all_meant};
ghost use Rattle.wi_parser.specs.Nesting.{max_depth};
ghost use Rattle.wi_parser.specs.Inner.Levels.{Spells, loosest};
ghost use Rattle.wi_parser.specs.Inner.Reader as reader;
ghost use Rattle.wi_parser.specs.Inner.Outcome.{FindsWhole};
ghost use Rattle.wi_parser.specs.Inner.FormulaText.{IsFrontOf, formula_symbols};
ghost use Rattle.wi_parser.specs.Inner.Reading.{ReadsAs, IsWithinLimits, parsed};
ghost use Rattle.wi_parser.specs.Tree.{Tree};

use crate::expr::Expr;
use crate::fault::ParseFault;
use crate::formula::Formula;
use crate::front::{Front, front_of};
use crate::grammar::expression;
use crate::limits::{MAX_DEPTH, refusal_of};
use crate::symbol::Symbol;
use crate::symbols::Symbols;
use crate::tokens::symbols_of;
use std::alloc::Global;

/// The greatest length of a formula in bytes, its prefix counted.
pub const MAX_FORMULA: usize = 4_096;

/// The formula of a text that begins with `=` or `of:=`, by the grammar of OpenFormula (OpenDocument 1.3 part 4,
/// "Expression Syntax") in this project's profile. Of several faults the first is answered in the order of
/// `ParseFault`; those of addresses, numbers and nesting are looked for in all tokens before the first bad one.
/// `Memory` may stand in place of any answer but `TooLong`.
pub fn parse(alloc: Global, text: &str) -> Result<Formula, ParseFault>
    // the tree, or the first cause for which there is none
    ensures parsed { ReadsAs (parsed text.now) result }
    // what is answered is spelled by the text
    ensures found { IfOk result (λ t. Spells loosest t (formula_symbols text.now)) }
    // what the text spells within the limits is answered
    ensures only { (t : Tree) → Spells loosest t (formula_symbols text.now)
        → IsWithinLimits text.now → ReadsAs (Ok t) result }
{
    parse_body(alloc, text, &front_of(text))
}

/// As `parse`, of a text whose front was looked at.
pub(crate) fn parse_body(
    alloc: Global,
    text: &str,
    front: &Front<'_>,
) -> Result<Formula, ParseFault>
    requires { IsFrontOf text.now front.now }
    ensures { ReadsAs (parsed text.now) result }
{
    if text.len() > MAX_FORMULA {
        return Err(ParseFault::TooLong);
    }
    let symbols = symbols_of(alloc, front)?;
    if let Some(fault) = refusal_of(&symbols) {
        return Err(fault);
    }
    let expr = whole(alloc, &symbols)?;
    Ok(Formula::new(alloc, expr)?)
}

/// The tree that all of the symbols are read as.
fn whole(alloc: Global, symbols: &[Symbol]) -> Result<Expr, ParseFault>
    ensures { FindsWhole (reader.whole (max_depth + 1) (all_meant symbols.now)) result }
{
    let mut rest = Symbols::new(symbols);
    let found = expression(alloc, &mut rest, MAX_DEPTH + 1)?;
    if !rest.is_empty() {
        return Err(ParseFault::Syntax);
    }
    Ok(found)
}
