//! The tree of a formula.

ghost use Rattle.std.specs.Prelude.{◌≡◌, map, IfOk};
ghost use Rattle.wi_parser.specs.View.{tree_of, all_of, pair_of};
ghost use Rattle.wi_parser.specs.Tree.{area_of};
ghost use Rattle.wi_parser.specs.Tree as tree;

use std::alloc::{AllocError, Global};
use wi_fraction::Fraction;
use wi_values::{Address, Rect, Text};

/// A reference to one cell. What is absolute stays where a formula is filled into other cells.
#[derive(Clone, Copy)]
pub struct Reference {
    pub at: Address,
    pub column_is_absolute: bool,
    pub row_is_absolute: bool,
}

/// Two opposite corners of a rectangle, in the order in which they are written.
#[derive(Clone, Copy)]
pub struct Corners {
    pub one: Reference,
    pub other: Reference,
}

impl Corners {
    /// The rectangle that they span, both included.
    pub fn area(self) -> Rect
        ensures { result ≡ area_of self }
    {
        Rect::new(self.one.at, self.other.at)
    }
}

/// An operator between two operands.
#[derive(Clone, Copy)]
pub enum Operator {
    Add,
    Subtract,
    Multiply,
    Divide,
    Power,
    /// `&`, which joins texts.
    Join,
    Equal,
    NotEqual,
    Less,
    LessOrEqual,
    Greater,
    GreaterOrEqual,
}

/// A sign before an operand.
#[derive(Clone, Copy)]
pub enum Sign {
    Plus,
    Minus,
}

/// An input cell of a what-if, and its replacement cell, whose value it gets.
#[derive(Clone, Copy)]
pub struct Pair {
    pub input: Reference,
    pub replacement: Reference,
}

/// A what-if: the value of a formula cell, if each input had the value of its replacement cell.
#[derive(Drop)]
pub struct WhatIf {
    pub formula_cell: Reference,
    pub pairs: Vec<Pair>,
}

/// The tree of a formula, which keeps parentheses. What takes more room than a number stands behind a box, since each
/// tree has room for the largest kind.
#[derive(Drop)]
pub enum Expr {
    Number(Fraction),
    Text(Text),
    Cell(Reference),
    Rectangle(Corners),
    Parenthesized(Box<Expr>),
    Signed(Sign, Box<Expr>),
    /// A hundredth of its operand.
    Percent(Box<Expr>),
    /// Both operands stand behind one box.
    Binary(Operator, Box<(Expr, Expr)>),
    WhatIf(Box<WhatIf>),
    /// A function by its name in capitals, with its parameters.
    Call(Box<(Text, Vec<Expr>)>),
}

impl Expr {
    /// A copy of the tree. The work, and the memory that it takes, grow with its size.
    #[cycle(copying)]
    pub(crate) fn copy(&self, alloc: Global) -> Result<Expr, AllocError>
        ensures { IfOk result (λ e. tree_of e ≡ tree_of self.now) }
    {
        match self {
            Expr::Number(x) => Ok(Expr::Number(*x)),
            Expr::Text(s) => text(s),
            Expr::Cell(r) => Ok(Expr::Cell(*r)),
            Expr::Rectangle(corners) => Ok(Expr::Rectangle(*corners)),
            Expr::Parenthesized(t) => Ok(Expr::Parenthesized(copied(alloc, t)?)),
            Expr::Signed(sign, t) => Ok(Expr::Signed(*sign, copied(alloc, t)?)),
            Expr::Percent(t) => Ok(Expr::Percent(copied(alloc, t)?)),
            Expr::Binary(op, operands) => binary_copied(alloc, *op, &operands.0, &operands.1),
            Expr::WhatIf(w) => what_if(alloc, w.formula_cell, &w.pairs),
            Expr::Call(c) => call(alloc, &c.0, all_copied(alloc, &c.1)?),
        }
    }
}

/// An operand of a copied tree. It stands apart so that a tree's copy needs little stack for each level.
#[cycle(copying)]
fn copied(alloc: Global, expr: &Expr) -> Result<Box<Expr>, AllocError>
    ensures { IfOk result (λ e. tree_of e.value ≡ tree_of expr.now) }
{
    Ok(Box::new(alloc, expr.copy(alloc)?)?)
}

/// An operator between copies of its operands. It stands apart for the same reason.
#[cycle(copying)]
#[inline(never)]
fn binary_copied(alloc: Global, op: Operator, left: &Expr, right: &Expr) -> Result<Expr, AllocError>
    ensures { IfOk result
        (λ e. tree_of e ≡ tree.binary op (tree_of left.now) (tree_of right.now)) }
{
    let left = left.copy(alloc)?;
    let right = right.copy(alloc)?;
    binary(alloc, op, left, right)
}

#[cycle(copying)]
fn all_copied(alloc: Global, exprs: &[Expr]) -> Result<Vec<Expr>, AllocError>
    ensures { IfOk result (λ v. all_of v.items ≡ all_of exprs.now) }
{
    let mut copies = Vec::new(alloc);
    for expr in exprs {
        copies.push(expr.copy(alloc)?)?;
    }
    Ok(copies)
}

/// The tree of a text.
pub(crate) fn text(content: &Text) -> Result<Expr, AllocError>
    ensures { IfOk result (λ e. tree_of e ≡ tree.text content.now) }
{
    Ok(Expr::Text(content.copy()?))
}

/// The tree of an operator between two operands.
pub(crate) fn binary(
    alloc: Global,
    op: Operator,
    left: Expr,
    right: Expr,
) -> Result<Expr, AllocError>
    ensures { IfOk result (λ e. tree_of e ≡ tree.binary op (tree_of left) (tree_of right)) }
{
    let operands = Box::new(alloc, (left, right))?;
    Ok(Expr::Binary(op, operands))
}

/// The tree of a what-if.
pub(crate) fn what_if(
    alloc: Global,
    formula_cell: Reference,
    pairs: &[Pair],
) -> Result<Expr, AllocError>
    ensures { IfOk result (λ e. tree_of e ≡ tree.what_if formula_cell (map pair_of pairs.now)) }
{
    let pairs = Vec::from_slice(alloc, pairs)?;
    let what_if = WhatIf {
        formula_cell,
        pairs,
    };
    Ok(Expr::WhatIf(Box::new(alloc, what_if)?))
}

/// The tree of a call of the function with this name.
pub(crate) fn call(alloc: Global, name: &Text, parameters: Vec<Expr>) -> Result<Expr, AllocError>
    ensures { IfOk result (λ e. tree_of e ≡ tree.call name.now (all_of parameters.items)) }
{
    let name = name.copy()?;
    let parts = Box::new(alloc, (name, parameters))?;
    Ok(Expr::Call(parts))
}
