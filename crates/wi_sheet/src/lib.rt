//! What the cells of a sheet show, and what that demands: definitions and what is proved of them, no code.
#![tactic(auto)]
