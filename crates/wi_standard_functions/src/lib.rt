//! What each function of OpenFormula gives for its arguments, and the words that the operators share: definitions and
//! laws of them.
#![tactic(auto)]

pub mod laws;
