//! The tokens of a formula.
#![tactic(auto)]

mod brackets;
mod cell;
pub mod laws;
mod lexer;
mod mark;
mod name;
mod number;
mod rectangle;
mod reference;
mod runs;
mod text;
mod token;

pub use cell::CellText;
pub use lexer::{BadToken, Lexer, Token};
pub use rectangle::cells_in;
pub use reference::cell_in;
pub use text::text_content;
pub use token::{Kind, Mark};
