//! A map by cell address, ordered row by row, and edits of it that can be taken back.
#![tactic(auto)]

mod band;
mod bare;
mod cell_map;
mod found;
mod masks;
mod page;
mod pages;
mod places;
mod rooms;
mod sorted;
mod tile;
mod vacant;
mod window;
mod within;

pub use cell_map::CellMap;
pub use rooms::{exchange_all, exchange_back, make_room, make_rooms, sweep, sweep_one};
pub use vacant::MayBeVacant;
pub use within::Within;
