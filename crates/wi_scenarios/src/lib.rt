//! A workbook and its commands.
#![tactic(auto)]

mod areas;
mod base;
mod changes;
mod clear;
mod compare;
mod csv;
mod desk;
mod differing;
mod drop;
mod edit;
mod export;
mod fill;
mod formula;
pub mod laws;
mod refusal;
mod scenario;
mod session;
mod set;
mod show;
mod switch;
mod table;
mod use_scenario;
mod views;
mod workbook;

pub use refusal::Refusal;
pub use workbook::Workbook;
