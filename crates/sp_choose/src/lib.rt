//! The choice of the unit that runs: of the parsers of a list, the one that is named, or the only one.
#![tactic(auto)]

mod choice;

pub use choice::{chosen, is_parser};
