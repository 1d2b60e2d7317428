//! The records that commands write which only look: what cells show and hold, data tables, comparisons and changes.
#![tactic(auto)]

mod asking;
mod changes;
mod compare;
mod contents;
mod export;
mod rows;
mod table;
mod texts;

pub use changes::{find_changes, push_changes};
pub use compare::{Sides, push_comparison};
pub use contents::push_content;
pub use export::push_export;
pub use rows::push_rows;
pub use table::{DataTable, SecondInput, push_table};
