//! Values, texts, addresses and rectangles of a sheet.
#![tactic(auto)]

mod address;
mod cells;
mod import;
pub mod laws;
mod name;
mod rect;
mod replacement;
mod text;
mod value;

pub use address::{Address, AddressFault, COLUMNS, ROWS};
pub use cells::{rise, sooner};
pub use import::{FieldFault, field_value, imported_value};
pub use name::Name;
pub use rect::Rect;
pub use replacement::Replacement;
pub use text::{MAX_TEXT, Text};
pub use value::{ErrorKind, Value};
