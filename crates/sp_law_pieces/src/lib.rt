//! A law on meanings: what the pieces of readings and fields mean, which keep what is asked later among the locals of a unit, is the meaning. There is no code
//! here.
#![tactic(auto)]

mod pieces;

pub use pieces::{fields_are_one, readings_are_one};
