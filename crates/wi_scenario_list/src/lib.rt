//! Scenarios by name, each with replacements of its own and perhaps a base scenario.
#![tactic(auto)]

mod entries;
mod fault;
mod layer;
mod scenarios;

pub use fault::ScenarioFault;
pub use layer::MAX_REPLACEMENTS;
pub use scenarios::{MAX_SCENARIOS, Scenarios};
