//! The contents of a sheet, within limits. The log of edits, which is handed on, is that of `wi_edit_log`.
#![tactic(auto)]

mod contents;
mod fault;
mod indexes;
mod limits;
mod room;
mod rooms;
mod store;

pub use contents::Contents;
pub use fault::StoreFault;
pub use limits::Limits;
pub use store::Store;
pub use wi_edit_log::EditLog;
