//! A formula.

ghost use Rattle.std.specs.Prelude.{◌≡◌, ◌≤◌, ◌++◌, ◌∷◌, [], map, length, Ok, IfOk, OnOk, OnErr, string_bytes};
ghost use Rattle.std.specs.List.{flat_map};
ghost use Rattle.wi_parser.specs.View.{tree_of, all_of, pair_of};
ghost use Rattle.wi_parser.specs.Leaves.{all_leaves};
ghost use Rattle.wi_parser.specs.Reads.{cell_area, leaf_inputs, inputs_of, leaf_rectangles, rectangles_of};
ghost use Rattle.wi_parser.specs.Writable.{IsFormulaTree};
ghost use Rattle.wi_parser.specs.Shift.{shifted, ShiftsTo};
ghost use Rattle.wi_parser.specs.Printing.{printed};
ghost use Rattle.wi_parser.specs.Inner.Levels.{Spells, loosest};
ghost use Rattle.wi_parser.specs.Inner.FormulaText.{formula_symbols};
ghost use Rattle.wi_parser.specs.Limits.{max_formula};
ghost use Rattle.wi_parser.specs.Inner.Reading.{parsed};

use crate::expr::{Expr, Pair};
use crate::print;
use crate::shift::{self, ShiftFault};
use smallvec::SmallVec;
use std::alloc::{AllocError, Global};
use std::marker::Model;
use wi_values::{Address, Rect};

/// A formula, seen as its tree, which is one that a text can have.
#[derive(Drop)]
pub struct Formula {
    expr: Expr,
    /// Behind a box, so that a content stays small.
    lists: Box<Lists>,
}

/// Rectangles, of which one takes no memory of its own, as most formulas read one.
type Rectangles = SmallVec<Rect, 1>;

#[derive(Drop)]
struct Lists {
    /// The inputs of its what-ifs.
    inputs: Vec<Address>,
    /// The rectangles of its precedents.
    rectangles: Rectangles,
}

impl Lists {
    /// A copy of the inputs and the rectangles. The work, and the memory that it takes, grow with their counts.
    fn copy(&self, alloc: Global) -> Result<Lists, AllocError>
        ensures inputs { IfOk result (λ l. l.inputs.items ≡ self.now.inputs.items) }
        ensures rectangles { IfOk result (λ l. l.rectangles.items ≡ self.now.rectangles.items) }
    {
        let inputs = Vec::from_slice(alloc, &self.inputs)?;
        let rectangles = Rectangles::from_slice(alloc, &self.rectangles)?;
        Ok(Lists { inputs, rectangles })
    }
}

impl Model for Formula {
    ghost use Rattle.wi_parser.specs.Tree.{Tree};
    ghost use Rattle.wi_parser.specs.Inner.TreeCode.{tree_code};

    ghost Value = { Tree };

    ghost coded = { tree_code };

    ghost use Rattle.wi_parser.specs.View.{tree_of};

    ghost view = { λ f. tree_of f.expr };

    ghost use Rattle.wi_parser.specs.Inner.Inside.{IsFormula};

    ghost invariant = { IsFormula };
}

impl Formula {
    /// The formula of a tree that a text can have.
    #[inline(always)]
    pub(crate) fn new(alloc: Global, expr: Expr) -> Result<Formula, AllocError>
        requires { IsFormulaTree (tree_of expr) }
        ensures { IfOk result (λ f. f ≡ tree_of expr) }
    {
        let mut inputs = Vec::new(alloc);
        let mut rectangles = Rectangles::new(alloc);
        push_leaves(&expr, &mut inputs, &mut rectangles)?;
        let lists = Box::new(alloc, Lists { inputs, rectangles })?;
        Ok(Formula { expr, lists })
    }

    /// Its tree.
    pub fn tree(&self) -> &Expr
        ensures { tree_of result.now ≡ self.now }
    {
        &self.expr
    }

    /// The inputs of its what-ifs, from the left: the cells that it names and does not read.
    pub fn inputs(&self) -> &[Address]
        ensures { result.now ≡ inputs_of self.now }
    {
        &self.lists.inputs
    }

    /// The rectangles of its precedents, the cells that it reads, from the left; one cell is a rectangle too. The
    /// inputs of its what-ifs are only named, and are no precedents.
    pub fn rectangles(&self) -> &[Rect]
        ensures { result.now ≡ rectangles_of self.now }
    {
        &self.lists.rectangles
    }

    /// A copy of the formula. The work, and the memory that it takes, grow with its tree.
    pub fn copy(&self, alloc: Global) -> Result<Formula, AllocError>
        ensures { IfOk result (λ f. f ≡ self.now) }
    {
        let expr = self.expr.copy(alloc)?;
        let copied = self.lists.copy(alloc)?;
        let lists = Box::new(alloc, copied)?;
        Ok(Formula { expr, lists })
    }

    /// The formula for a cell so many rows below and columns to the right of the one that has it: the relative parts of
    /// its references move as far, those of its what-ifs too, and the absolute parts stay. It leaves the sheet where a
    /// relative part of any reference does.
    pub fn shift(&self, rows: i64, columns: i64) -> Result<Formula, ShiftFault>
        ensures { ShiftsTo (shifted rows columns self.now) result }
    {
        if !shift::all_stay(&self.expr, rows, columns) {
            return Err(ShiftFault::LeavesSheet);
        }
        let alloc = *self.lists.inputs.allocator();
        let expr = shift::shifted(alloc, &self.expr, rows, columns)?;
        Ok(Formula::new(alloc, expr)?)
    }

    /// Appends the formula's text: `=` and its tokens without white space, names and columns in capitals, parentheses
    /// and `$` as written, numbers as decimals. It can be longer than a formula's text may be. On an error the text is
    /// as before.
    pub fn print(&self, out: &mut String) -> Result<(), AllocError>
        ensures ok { OnOk result (string_bytes out.new ≡ string_bytes out.old ++ printed self.now) }
        ensures err { OnErr result (string_bytes out.new ≡ string_bytes out.old) }
        // what is printed spells the formula
        ensures spells { Spells loosest self.now (formula_symbols (printed self.now)) }
        // and is read as it, where it isn't too long
        ensures again { length (printed self.now) ≤ max_formula
            → parsed (printed self.now) ≡ Ok self.now }
    {
        let before = out.as_str().len();
        let pushed = print::push_formula(&self.expr, out);
        if pushed.is_err() {
            out.truncate(before);
        }
        pushed
    }
}

/// Appends the inputs of a tree's what-ifs, and the rectangles that it reads.
#[cycle(leaves)]
fn push_leaves(
    expr: &Expr,
    inputs: &mut Vec<Address>,
    rectangles: &mut Rectangles,
) -> Result<(), AllocError>
    ensures inputs { IfOk result
        (λ _. inputs.new.items ≡ inputs.old.items ++ inputs_of (tree_of expr.now)) }
    ensures rectangles { IfOk result
        (λ _. rectangles.new.items ≡ rectangles.old.items ++ rectangles_of (tree_of expr.now)) }
{
    match expr {
        Expr::Number(_) => Ok(()),
        Expr::Text(_) => Ok(()),
        Expr::Cell(reference) => {
            push_area(rectangles, cell_area(reference.at))?;
            Ok(())
        }
        Expr::Rectangle(corners) => {
            push_area(rectangles, corners.area())?;
            Ok(())
        }
        Expr::Parenthesized(inner) => push_leaves(inner, inputs, rectangles),
        Expr::Signed(_, operand) => push_leaves(operand, inputs, rectangles),
        Expr::Percent(operand) => push_leaves(operand, inputs, rectangles),
        Expr::Binary(_, operands) => {
            push_leaves(&operands.0, inputs, rectangles)?;
            push_leaves(&operands.1, inputs, rectangles)
        }
        Expr::WhatIf(what_if) => {
            push_area(rectangles, cell_area(what_if.formula_cell.at))?;
            push_pairs(&what_if.pairs, inputs, rectangles)
        }
        Expr::Call(call) => push_all_leaves(&call.1, inputs, rectangles),
    }
}

/// Appends the same of trees.
#[cycle(leaves)]
fn push_all_leaves(
    trees: &[Expr],
    inputs: &mut Vec<Address>,
    rectangles: &mut Rectangles,
) -> Result<(), AllocError>
    ensures inputs { IfOk result (λ _. inputs.new.items
        ≡ inputs.old.items ++ flat_map leaf_inputs (all_leaves (all_of trees.now))) }
    ensures rectangles { IfOk result (λ _. rectangles.new.items
        ≡ rectangles.old.items ++ flat_map leaf_rectangles (all_leaves (all_of trees.now))) }
{
    for tree in trees {
        push_leaves(tree, inputs, rectangles)?;
    }
    Ok(())
}

/// Appends the inputs of pairs, and the rectangles of their replacement cells.
fn push_pairs(
    pairs: &[Pair],
    inputs: &mut Vec<Address>,
    rectangles: &mut Rectangles,
) -> Result<(), AllocError>
    ensures inputs { IfOk result
        (λ _. inputs.new.items ≡ inputs.old.items ++ map (λ p. p.0.at) (map pair_of pairs.now)) }
    ensures rectangles { IfOk result (λ _. rectangles.new.items
        ≡ rectangles.old.items ++ map (λ p. cell_area p.1.at) (map pair_of pairs.now)) }
{
    for pair in pairs {
        inputs.push(pair.input.at)?;
        rectangles.push(cell_area(pair.replacement.at))?;
    }
    Ok(())
}

/// Appends a rectangle.
fn push_area(rectangles: &mut Rectangles, area: Rect) -> Result<(), AllocError>
    ensures { IfOk result (λ _. rectangles.new.items ≡ rectangles.old.items ++ area ∷ []) }
{
    rectangles.push(area)?;
    Ok(())
}

/// The rectangle of one cell.
fn cell_area(at: Address) -> Rect
    ensures { result ≡ cell_area at }
{
    Rect::of(at)
}
