//! The command-line arguments, here called words: `whatif [--load FILE] [--keep N]`.
#![tactic(auto)]

mod command;
mod fault;
mod help;
mod settings;
mod words;

pub use fault::{OptionsFault, options_status};
pub use settings::Options;
pub use words::options;
