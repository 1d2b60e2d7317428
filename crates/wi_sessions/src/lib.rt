//! Pictures of a sheet and what has changed since, for several sessions.
#![tactic(auto)]

mod bits;
mod cells;
mod details;
pub mod laws;
mod pending;
mod picture;
mod sessions;
mod unread;

pub use picture::{Change, Picture, same};
pub use sessions::{MAX_SESSIONS, Sessions};
