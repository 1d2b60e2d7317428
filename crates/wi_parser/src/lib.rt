//! Formulas and contents of cells.
#![tactic(auto)]

mod content;
mod expr;
mod fault;
mod formula;
mod front;
mod grammar;
pub mod laws;
mod limits;
mod parser;
mod print;
mod shift;
mod symbol;
mod symbols;
mod tokens;
mod what_if;

pub use content::{Content, NewContent};
pub use expr::{Corners, Expr, Operator, Pair, Reference, Sign, WhatIf};
pub use fault::ParseFault;
pub use formula::Formula;
pub use parser::{MAX_FORMULA, parse};
pub use shift::ShiftFault;
