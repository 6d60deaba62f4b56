//! Tables of names, in which the first of each counts; counts and sums as numbers.
#![tactic(auto)]

mod numbers;
mod tables;

pub use numbers::{number, sum};
pub use tables::{NameTable, declare, look_up};
