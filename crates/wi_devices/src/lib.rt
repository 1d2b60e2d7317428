//! What the bytes of a script are read from and what its replies are written to, and std's readers and writers as
//! these.
#![tactic(auto)]

mod device;
mod read_from;
mod write_to;

pub use device::{DeviceFault, Sink, Source};
pub use read_from::{READS, ReadFrom};
pub use write_to::WriteTo;
