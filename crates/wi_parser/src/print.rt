//! The text of a formula.

ghost use Rattle.std.specs.Prelude.{◌≡◌, ◌++◌, map, OnOk, OnErr, string_bytes};
ghost use Rattle.std.specs.Io.{StartsWith};
ghost use Rattle.wi_fraction.specs.Decimal.{decimal_text};
ghost use Rattle.wi_lexer.specs.Quoted.{quoted};
ghost use Rattle.wi_lexer.specs.Cell.{dollar, cell_text};
ghost use Rattle.wi_lexer.specs.Reference.{reference_text};
ghost use Rattle.wi_lexer.specs.Rectangle.{rectangle_text};
ghost use Rattle.wi_parser.specs.Inner.WhatIf.{pair_symbols};
ghost use Rattle.wi_parser.specs.Printing as spec;
ghost use Rattle.wi_parser.specs.Printing.{written_cell, printed};
ghost use Rattle.wi_parser.specs.Inner.SymbolLists.{symbols_text, tree_text};
ghost use Rattle.wi_parser.specs.Symbol.{written_as};
ghost use Rattle.wi_parser.specs.Tree as tree;
ghost use Rattle.wi_parser.specs.View.{tree_of, all_of, pair_of};
ghost use Rattle.wi_parser.specs.Spelling.{spelling_of_all};
ghost use Rattle.wi_parser.specs.Inner.PrintedParts.{AppendsText, pairs_text};

use crate::expr::{Corners, Expr, Operator, Pair, Reference, Sign};
use std::alloc::AllocError;
use wi_fraction::Fraction;
use wi_values::Text;

/// Appends the text of a formula with this tree. On an error a part of it may be there.
pub(crate) fn push_formula(expr: &Expr, out: &mut String) -> Result<(), AllocError>
    ensures ok { OnOk result
        (string_bytes out.new ≡ string_bytes out.old ++ printed (tree_of expr.now)) }
    ensures kept { StartsWith (string_bytes out.new) (string_bytes out.old) }
{
    out.push_str("=")?;
    push_tree(expr, out)
}

/// Appends the text of a tree. On an error a part of it may be there.
#[cycle(print)]
fn push_tree(expr: &Expr, out: &mut String) -> Result<(), AllocError>
    ensures { AppendsText result (string_bytes out.old) (string_bytes out.new)
        (tree_text (tree_of expr.now)) }
{
    match expr {
        Expr::Number(x) => push_number(*x, out),
        Expr::Text(content) => push_quoted(content.as_str(), out),
        Expr::Cell(at) => push_reference(*at, out),
        Expr::Rectangle(corners) => push_rectangle(*corners, out),
        Expr::Parenthesized(inner) => push_parenthesized(inner, out),
        Expr::Signed(sign, operand) => push_signed(*sign, operand, out),
        Expr::Percent(operand) => push_percent(operand, out),
        Expr::Binary(op, operands) => {
            push_tree(&operands.0, out)?;
            push_operation(*op, &operands.1, out)
        }
        Expr::WhatIf(what_if) => push_what_if(what_if.formula_cell, &what_if.pairs, out),
        Expr::Call(call) => push_call(&call.0, &call.1, out),
    }
}

/// Appends a tree in parentheses. On an error a part of it may be there.
#[cycle(print)]
fn push_parenthesized(inner: &Expr, out: &mut String) -> Result<(), AllocError>
    ensures { AppendsText result (string_bytes out.old) (string_bytes out.new)
        (tree_text (tree.parenthesized (tree_of inner.now))) }
{
    out.push_str("(")?;
    push_tree(inner, out)?;
    out.push_str(")")
}

/// Appends a sign and its operand. On an error a part of them may be there.
#[cycle(print)]
fn push_signed(sign: Sign, operand: &Expr, out: &mut String) -> Result<(), AllocError>
    ensures { AppendsText result (string_bytes out.old) (string_bytes out.new)
        (tree_text (tree.signed sign (tree_of operand.now))) }
{
    out.push_str(sign_text(sign))?;
    push_tree(operand, out)
}

/// Appends an operand and its percent mark. On an error a part of them may be there.
#[cycle(print)]
fn push_percent(operand: &Expr, out: &mut String) -> Result<(), AllocError>
    ensures { AppendsText result (string_bytes out.old) (string_bytes out.new)
        (tree_text (tree.percent (tree_of operand.now))) }
{
    push_tree(operand, out)?;
    out.push_str("%")
}

/// Appends an operator and the operand after it. On an error a part of them may be there.
#[cycle(print)]
fn push_operation(op: Operator, operand: &Expr, out: &mut String) -> Result<(), AllocError>
    ensures { AppendsText result (string_bytes out.old) (string_bytes out.new)
        (spec.operator_text op ++ tree_text (tree_of operand.now)) }
{
    out.push_str(operator_text(op))?;
    push_tree(operand, out)
}

/// Appends a call. On an error a part of it may be there.
#[cycle(print)]
fn push_call(name: &Text, parameters: &[Expr], out: &mut String) -> Result<(), AllocError>
    ensures { AppendsText result (string_bytes out.old) (string_bytes out.new)
        (tree_text (tree.call name.now (all_of parameters.now))) }
{
    out.push_str(name.as_str())?;
    out.push_str("(")?;
    push_parameters(parameters, out)
}

/// Appends parameters and the parenthesis that closes. On an error a part of them may be there.
#[cycle(print)]
fn push_parameters(parameters: &[Expr], out: &mut String) -> Result<(), AllocError>
    ensures { AppendsText result (string_bytes out.old) (string_bytes out.new)
        (symbols_text (spelling_of_all (all_of parameters.now))) }
{
    let mut separator = "";
    for parameter in parameters {
        out.push_str(separator)?;
        push_tree(parameter, out)?;
        separator = ";";
    }
    out.push_str(")")
}

/// Appends a text in double quotes, a quote inside doubled. On an error a part of it may be there.
fn push_quoted(content: &str, out: &mut String) -> Result<(), AllocError>
    ensures { AppendsText
        result (string_bytes out.old) (string_bytes out.new) (quoted content.now) }
{
    out.push_str("\"")?;
    let mut rest = content;
    while let Some((piece, after)) = rest.split_once('"') {
        out.push_str(piece)?;
        out.push_str("\"\"")?;
        rest = after;
    }
    out.push_str(rest)?;
    out.push_str("\"")
}

/// Appends a number. On an error the text is as before.
fn push_number(x: Fraction, out: &mut String) -> Result<(), AllocError>
    ensures ok { OnOk result (string_bytes out.new ≡ string_bytes out.old ++ decimal_text x) }
    ensures err { OnErr result (string_bytes out.new ≡ string_bytes out.old) }
{
    x.push_decimal(out)
}

fn dollar(is_absolute: bool) -> &'static str
    ensures { result.now ≡ dollar is_absolute }
{
    if is_absolute { "$" } else { "" }
}

/// Appends a reference. On an error a part of it may be there.
fn push_reference(at: Reference, out: &mut String) -> Result<(), AllocError>
    ensures ok { OnOk result
        (string_bytes out.new ≡ string_bytes out.old ++ reference_text (written_cell at)) }
    ensures kept { StartsWith (string_bytes out.new) (string_bytes out.old) }
{
    out.push_str("[.")?;
    push_cell(at, out)?;
    out.push_str("]")
}

/// Appends a reference to a rectangle. On an error a part of it may be there.
fn push_rectangle(corners: Corners, out: &mut String) -> Result<(), AllocError>
    ensures ok { OnOk result (string_bytes out.new ≡ string_bytes out.old
        ++ rectangle_text (written_cell corners.one) (written_cell corners.other)) }
    ensures kept { StartsWith (string_bytes out.new) (string_bytes out.old) }
{
    out.push_str("[.")?;
    push_cell(corners.one, out)?;
    out.push_str(":.")?;
    push_cell(corners.other, out)?;
    out.push_str("]")
}

/// Appends the cell of a reference. On an error a part of it may be there.
fn push_cell(at: Reference, out: &mut String) -> Result<(), AllocError>
    ensures ok { OnOk result
        (string_bytes out.new ≡ string_bytes out.old ++ cell_text (written_cell at)) }
    ensures kept { StartsWith (string_bytes out.new) (string_bytes out.old) }
{
    out.push_str(dollar(at.column_is_absolute))?;
    at.at.push_column(out)?;
    out.push_str(dollar(at.row_is_absolute))?;
    at.at.push_row(out)
}

/// Appends a what-if. On an error a part of it may be there.
fn push_what_if(formula_cell: Reference, pairs: &[Pair], out: &mut String) -> Result<(), AllocError>
    ensures ok { OnOk result (string_bytes out.new
        ≡ string_bytes out.old ++ tree_text (tree.what_if formula_cell (map pair_of pairs.now))) }
    ensures kept { StartsWith (string_bytes out.new) (string_bytes out.old) }
{
    out.push_str("MULTIPLE.OPERATIONS(")?;
    push_reference(formula_cell, out)?;
    push_pairs(pairs, out)?;
    out.push_str(")")
}

/// Appends inputs with their replacement cells. On an error a part of them may be there.
fn push_pairs(pairs: &[Pair], out: &mut String) -> Result<(), AllocError>
    ensures ok { OnOk result (string_bytes out.new ≡ string_bytes out.old ++ pairs_text pairs.now) }
    ensures kept { StartsWith (string_bytes out.new) (string_bytes out.old) }
{
    for pair in pairs {
        push_pair(*pair, out)?;
    }
    Ok(())
}

/// Appends an input and its replacement cell, each after a separator. On an error a part of them may be there.
#[tactic(auto, using(crate::proofs::PrintLemmas::starts_with_trans, crate::proofs::PrintLemmas::starts_more, crate::proofs::PrintLemmas::starts_itself))]
fn push_pair(pair: Pair, out: &mut String) -> Result<(), AllocError>
    ensures ok { OnOk result (string_bytes out.new
        ≡ string_bytes out.old ++ symbols_text (pair_symbols (pair_of pair))) }
    ensures kept { StartsWith (string_bytes out.new) (string_bytes out.old) }
{
    out.push_str(";")?;
    push_reference(pair.input, out)?;
    out.push_str(";")?;
    push_reference(pair.replacement, out)
}

/// How an operator is written.
fn operator_text(op: Operator) -> &'static str
    ensures { result.now ≡ spec.operator_text op }
{
    match op {
        Operator::Add => "+",
        Operator::Subtract => "-",
        Operator::Multiply => "*",
        Operator::Divide => "/",
        Operator::Power => "^",
        Operator::Join => "&",
        Operator::Equal => "=",
        Operator::NotEqual => "<>",
        Operator::Less => "<",
        Operator::LessOrEqual => "<=",
        Operator::Greater => ">",
        Operator::GreaterOrEqual => ">=",
    }
}

/// How a sign is written.
fn sign_text(sign: Sign) -> &'static str
    ensures { result.now ≡ spec.operator_text (written_as sign) }
{
    match sign {
        Sign::Plus => "+",
        Sign::Minus => "-",
    }
}
