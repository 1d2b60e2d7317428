//! The functions of OpenFormula that fold a sequence of items: the cells of references, and values.
#![tactic(auto)]

mod adding;
mod fold;
mod folding;
mod information;
mod item;
mod logical;
mod mathematical;
mod statistical;
mod value;

pub use value::value_of_fold;
