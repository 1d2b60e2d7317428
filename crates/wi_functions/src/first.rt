//! A cell that each evaluation of a formula asks for.

ghost use Rattle.std.specs.Prelude.{IfSome};
ghost use Rattle.wi_parser.specs.View.{tree_of, all_of};
ghost use Rattle.wi_functions.specs.Wants.{TreeAsks, AnyTreeAsks};
ghost use Rattle.wi_functions.specs.declared.evaluation.Want.TheVariants as wanted;

use wi_parser::{Expr, Formula};
use wi_value_functions::{Function, function_for};
use wi_values::{Address, Text};

/// A cell whose value each evaluation of the formula asks for, where one is easily seen: the first
/// of these in the order of evaluation. `None` says nothing. At most linear in the size of the
/// tree, and mostly a step or two.
pub fn first_cell(formula: &Formula) -> Option<Address>
    ensures { IfSome result (λ a. TreeAsks formula.now (wanted.Cell a)) }
{
    first_of(formula.tree())
}

/// A cell that each evaluation of the expression asks for.
#[cycle(looking)]
fn first_of(expr: &Expr) -> Option<Address>
    ensures { IfSome result (λ a. TreeAsks (tree_of expr.now) (wanted.Cell a)) }
{
    match expr {
        Expr::Number(_) => None,
        Expr::Text(_) => None,
        Expr::Cell(reference) => Some(reference.at),
        Expr::Rectangle(_) => None,
        Expr::Parenthesized(inner) => first_of(inner),
        Expr::Signed(_, inner) => first_of(inner),
        Expr::Percent(inner) => first_of(inner),
        Expr::Binary(_, operands) => match first_of(&operands.0) {
            Some(at) => Some(at),
            None => first_of(&operands.1),
        },
        Expr::WhatIf(_) => None,
        Expr::Call(call) => first_of_call(&call.0, &call.1),
    }
}

/// A cell that each evaluation of a call asks for: that of its first parameter, where the function
/// evaluates this in any case.
#[cycle(looking)]
#[inline(never)]
fn first_of_call(name: &Text, parameters: &[Expr]) -> Option<Address>
    ensures { IfSome result (λ a. AnyTreeAsks (all_of parameters.now) (wanted.Cell a)) }
{
    let Some(parameter) = parameters.first() else {
        return None;
    };
    let first = first_of(parameter);
    match function_for(name.as_str(), parameters.len()) {
        Ok(Function::Lazy(_)) => first,
        Ok(Function::Values(_)) => first,
        Ok(Function::References(_)) => None,
        Err(_) => None,
    }
}
