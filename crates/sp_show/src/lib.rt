//! How a value of a run is told: as a tree, with the units in it written out, and with the names of members, labels
//! and ranges that a compiled program has.
#![tactic(auto)]

mod names;
mod told;
mod walk;

pub use told::{value_tree, value_trees};
