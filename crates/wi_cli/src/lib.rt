//! The lines of a script and the commands that they spell, and the run of a script on a workbook.
#![tactic(auto)]

mod again;
mod chunk;
mod command;
mod csv_line;
mod data_lines;
mod edit_commands;
mod exit;
mod fault;
mod in_turn;
pub mod laws;
mod line;
mod lines;
mod look_commands;
mod names;
mod operands;
mod reply;
mod runs;
mod scenario_commands;
mod serve;
mod serve_csv;
mod table_command;
mod words;
mod write;
mod write_address;

pub use exit::{Exit, run_new};
pub use fault::{RunFault, fault_status};
pub use in_turn::{run_in_turn, run_new_in_turn};
pub use lines::MAX_LINES;
pub use runs::run;
pub use wi_devices::{DeviceFault, READS, ReadFrom, Sink, Source, WriteTo};
pub use wi_options::{Options, OptionsFault, options, options_status};
