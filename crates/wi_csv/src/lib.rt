//! CSV: the records of a text, and a record as a text.
#![tactic(auto)]

mod fault;
pub mod laws;
mod reading;
mod row;

pub use fault::CsvFault;
pub use reading::records;
pub use row::push_record;
