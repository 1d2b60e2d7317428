//! Tests of what no stored run shows: laws, hashes, equality, and calls of stores, worlds, kept values, the range
//! index, graphs, calculators and devices. What cells and table entries show after edits, and how many evaluations a
//! question takes, are cases of `wi_script_cases`. They stand apart since a crate with tests is proved twice.
#![tactic(auto)]

#[cfg(test)]
mod answers;
#[cfg(test)]
mod calls;
#[cfg(test)]
mod cells;
#[cfg(test)]
mod devices;
#[cfg(test)]
mod faults;
#[cfg(test)]
mod fractions;
#[cfg(test)]
mod graphs;
#[cfg(test)]
mod kept;
#[cfg(test)]
mod kept_values;
#[cfg(test)]
mod keys;
#[cfg(test)]
mod plain;
#[cfg(test)]
mod range_index;
#[cfg(test)]
mod refused_calls;
#[cfg(test)]
mod refused_growths;
#[cfg(test)]
mod stores;
#[cfg(test)]
mod texts;
#[cfg(test)]
mod values;
#[cfg(test)]
mod worlds;
